//! Allocations and releases (C11 7.22.3).
ghost use Rattle.std.specs.Prelude.{◌≡◌, IfOk};
ghost use Rattle.cs_types.specs.Shape.{shape_of};
ghost use Rattle.cs_meaning.specs.Calls as calls;
ghost use Rattle.cs_values.specs.View.{cell_of, object_of};
ghost use Rattle.cs_objects.specs.BlockView.{fill_of};
ghost use Rattle.cs_runner.specs.RunnerView.{program_of, state_in, Performs};

use crate::runner::Runner;
use cs_ast::Place;
use cs_ast::typed::operator::{Allocator, BinOp};
use cs_events::{Label, Operation};
use cs_inputs::Root;
use cs_objects::blocks::{Block, Fill};
use cs_objects::inputs::element_of;
use cs_run_log::Stop;
use cs_run_log::operators::fault;
use cs_types::{CType, size_type};
use cs_values::arithmetic::is_true;
use cs_values::paths::root_path;
use cs_values::{Cell, Object, Operand};
use std::alloc::AllocError;

impl<'a> Runner<'a> {
    /// Calls `malloc` or `calloc`, whose arguments are on the stack.
    pub fn allocate(
        &mut self,
        place: Place,
        allocator: Allocator,
        element: &'a CType,
    ) -> Result<(), Stop>
        ensures { Performs self.old self.new result
            (calls.allocate (program_of self.old) place allocator (shape_of element.now)
            (state_in self.old)) }
    {
        match allocator {
            Allocator::Malloc => {
                let bytes = self.machine.pop_number();
                self.allocate_bytes(place, element, bytes, Fill::Unset)
            }
            Allocator::Calloc => {
                let (count, size) = self.machine.pop_numbers();
                self.allocate_zeros(place, element, &count, &size)
            }
        }
    }

    // An allocation of a number of bytes (C11 7.22.3.4).
    fn allocate_bytes(
        &mut self,
        place: Place,
        element: &'a CType,
        bytes: i128,
        fill: Fill<'a>,
    ) -> Result<(), Stop>
        ensures { Performs self.old self.new result
            (calls.allocate_bytes place (shape_of element.now) bytes (fill_of fill.entry)
            (state_in self.old)) }
    {
        let alloc = *self.machine.callers.allocator();
        let allocation = self.machine.next_allocation()?;
        let extent = bytes_of_number(bytes)?;
        let path = root_path(alloc, Root::Malloc(allocation));
        let given = self.log.try_allocation(self.setting, place, path)?;
        if given {
            let block = Block::new(alloc, element_of(element), extent, fill);
            self.machine.add_block(allocation, block)?;
        } else {
            self.machine.add_none()?;
        }
        Ok(())
    }

    // An allocation of `count` elements of a size: null if the product is too large (C11 7.22.3.2).
    fn allocate_zeros(
        &mut self,
        place: Place,
        element: &'a CType,
        count: &i128,
        size: &i128,
    ) -> Result<(), Stop>
        ensures { Performs self.old self.new result
            (calls.allocate_zeros (program_of self.old) place (shape_of element.now) count.now
            size.now (state_in self.old)) }
    {
        let ty = size_type(self.setting.program.model);
        let holds = self.log.ask(self.setting, place, product(count, size))?;
        if is_true(holds) {
            let bytes = self
                .log
                .operate(self.setting, place, BinOp::Mul, ty, count, size)?;
            self.allocate_bytes(place, element, bytes, Fill::Zero)
        } else {
            self.machine.add_none()?;
            Ok(())
        }
    }

    /// Calls `free`.
    pub fn release(&mut self, place: Place, pointer: Cell) -> Result<(), Stop>
        ensures { Performs self.old self.new result
            (calls.release place (cell_of pointer) (state_in self.old)) }
    {
        match pointer {
            Cell::Null => {
                self.log.show(self.setting, place, Label::Look(false))?;
                self.machine.push(Operand::Nothing)?;
                Ok(())
            }
            Cell::Pointer(object, offset) => {
                self.log.show(self.setting, place, Label::Look(true))?;
                self.release_object(place, &object, offset)
            }
            Cell::Number(_) => {
                self.machine.push(Operand::Nothing)?;
                Ok(())
            }
            Cell::Unset => {
                self.machine.push(Operand::Nothing)?;
                Ok(())
            }
        }
    }

    // Frees an object: only live start and heap blocks can be freed, through a pointer to their beginning (C11 7.22.3.3).
    fn release_object(&mut self, place: Place, object: &Object, offset: i128) -> Result<(), Stop>
        ensures { Performs self.old self.new result
            (calls.release_object place (object_of object.now) offset (state_in self.old)) }
    {
        if let Some(kind) = self.machine.refused_release(object, offset) {
            return Err(fault(kind, place));
        }
        self.machine.free(object)?;
        self.machine.push(Operand::Nothing)?;
        Ok(())
    }
}

// Returns a number as a number of bytes; 0 if it is negative.
fn bytes_of_number(number: i128) -> Result<u64, AllocError>
    ensures { IfOk result (λ bytes. bytes ≡ calls.bytes_of_number number) }
{
    if number < 0 {
        return Ok(0);
    }
    match u64::try_from(number) {
        Ok(bytes) => Ok(bytes),
        Err(_) => Err(AllocError),
    }
}

// The order test of `calloc`.
fn product(count: &i128, size: &i128) -> Operation
    ensures { result ≡ Operation.Product count.now size.now }
{
    Operation::Product(*count, *size)
}
