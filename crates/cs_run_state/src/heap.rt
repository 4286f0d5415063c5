//! Effects of allocations and releases on a state (C11 7.22.3).
ghost use Rattle.std.specs.Prelude.{◌≡◌, ◌+◌, pos, OnOk, IfOk, option_map, option_copied};
ghost use Rattle.cs_events.specs.Acts.{Goes};
ghost use Rattle.cs_events.specs.Objects.{Object as PlainObject, HeapBlock, NullCell, PointerCell};
ghost use Rattle.cs_meaning.specs.Calls as calls;
ghost use Rattle.cs_meaning.specs.Machine as machine;
ghost use Rattle.cs_meaning.specs.Machine.{State};
ghost use Rattle.cs_meaning.specs.Memory as meaning;
ghost use Rattle.cs_values.specs.View.{object_of};
ghost use Rattle.cs_objects.specs.BlockView.{block_of};
ghost use Rattle.cs_run_state.specs.MachineView.{state_of};
ghost use Rattle.cs_run_log.specs.Pieces.{or_fault};

use crate::machine::Machine;
use cs_ast::Place;
use cs_model::{Kind, Standing};
use cs_objects::blocks::{Block, Change};
use cs_values::{Cell, Object};
use std::alloc::AllocError;

impl<'a> Machine<'a> {
    /// Returns the number of the next allocation.
    #[tactic(auto, unfolding(crate::specs::MachineView::state_of))]
    pub fn next_allocation(&self) -> Result<u64, AllocError>
        ensures { IfOk result (λ number. number ≡ (state_of self.now).allocations + 1) }
    {
        (self.memory.heap.len() as u64)
            .checked_add(1)
            .ok_or(AllocError)
    }

    /// Adds the block of the next allocation, and pushes a pointer to its beginning.
    #[tactic(auto, unfolding(crate::specs::MachineView::state_of))]
    pub fn add_block(&mut self, allocation: u64, block: Block<'a>) -> Result<(), AllocError>
        requires { allocation ≡ (state_of self.old).allocations + 1 }
        ensures { OnOk result (state_of self.new
            ≡ machine.push_cell (PointerCell (HeapBlock allocation) (pos 0))
            (record (state_of self.old) {
              allocations = allocation;
              memory =
                  meaning.with_block (HeapBlock allocation) (block_of block.entry)
                  (state_of self.old).memory;
            })) }
    {
        self.memory.allocate(block)?;
        self.push_cell(Cell::Pointer(Object::Heap(allocation), 0))?;
        Ok(())
    }

    /// Counts the next allocation, which returns no block, and pushes a null pointer.
    #[tactic(auto, unfolding(crate::specs::MachineView::state_of))]
    pub fn add_none(&mut self) -> Result<(), AllocError>
        ensures { OnOk result (state_of self.new
            ≡ machine.push_cell NullCell
            (record (state_of self.old) { allocations = (state_of self.old).allocations + 1 })) }
    {
        self.memory.allocate_none()?;
        self.push_cell(Cell::Null)?;
        Ok(())
    }

    /// Frees a block.
    #[tactic(auto, unfolding(crate::specs::MachineView::state_of))]
    pub fn free(&mut self, object: &Object) -> Result<(), AllocError>
        ensures { OnOk result (state_of self.new
            ≡ machine.with_memory (meaning.changed (meaning.stand Standing.Freed)
            (object_of object.now) (state_of self.old).memory) (state_of self.old)) }
    {
        self.memory.change(object, Change::Stand(Standing::Freed))?;
        Ok(())
    }

    /// Returns the fault of a `free` of a pointer, if there is one: only live start and heap blocks can be freed, through a pointer
    /// to their beginning (C11 7.22.3.3).
    pub fn refused_release(&self, object: &Object, offset: i128) -> Option<Kind>
        ensures { (place : Place)
            → calls.release_object place (object_of object.now) offset (state_of self.now)
            ≡ or_fault place result
            (Goes (machine.push machine.Nothing
            (machine.with_memory
            (meaning.changed (meaning.stand Standing.Freed) (object_of object.now)
            (state_of self.now).memory) (state_of self.now)))) }
    {
        match object {
            Object::Start(_) => refused_standing(self.memory.block(object), offset),
            Object::Heap(_) => refused_standing(self.memory.block(object), offset),
            Object::Global(_) => Some(Kind::BadFree),
            Object::Literal(_) => Some(Kind::BadFree),
            Object::Local(_, _) => Some(Kind::BadFree),
        }
    }
}

// The same, from the block.
fn refused_standing(block: Option<&Block>, offset: i128) -> Option<Kind>
    ensures { (place : Place) (object : PlainObject) (m : State)
        → calls.release_known place (option_map block_of (option_copied block.entry)) object
        offset m ≡ or_fault place result
        (Goes (machine.push machine.Nothing
        (machine.with_memory (meaning.changed (meaning.stand Standing.Freed) object m.memory) m))) }
{
    match block {
        Some(block) => match block.standing {
            Standing::Live => {
                if offset == 0 {
                    None
                } else {
                    Some(Kind::BadFree)
                }
            }
            Standing::Freed => Some(Kind::DoubleFree),
            Standing::Ended => Some(Kind::BadFree),
        },
        None => Some(Kind::BadFree),
    }
}
