//! The block to which a pointer that is an input points.
ghost use Rattle.std.specs.Prelude.{◌≡◌, IfOk, OnOk};
ghost use Rattle.cs_types.specs.Shape.{shape_of, pointer};
ghost use Rattle.cs_ast.specs.TypedProgram.{HasLayouts, typed_program};
ghost use Rattle.cs_events.specs.Objects.{StartBlock};
ghost use Rattle.cs_meaning.specs.Memory as meaning;
ghost use Rattle.cs_meaning.specs.Inputs as opening;
ghost use Rattle.cs_values.specs.View.{cell_of};
ghost use Rattle.cs_objects.specs.BlockView.{type_of, block_of};
ghost use Rattle.cs_memory.specs.MemoryView.{memory_of, KeepsCounts};

use crate::memory::Memory;
use cs_ast::typed::program::Program;
use cs_inputs::Path;
use cs_objects::blocks::{Block, BlockType, Fill};
use cs_objects::inputs::element_of;
use cs_types::{CType, start_extent};
use cs_values::Cell;
use std::alloc::{AllocError, Global};

// Returns the size of the start block of an unknown pointer: `count` elements, or the default number.
fn start_bytes(program: &Program, element: BlockType, count: Option<u64>) -> Result<u64, AllocError>
    requires { HasLayouts program.now }
    ensures { IfOk result (λ bytes.
        bytes ≡ meaning.start_extent (typed_program program.now) (type_of element.entry) count) }
{
    let size = element.size(program)?;
    match count {
        Some(count) => count.checked_mul(size).ok_or(AllocError),
        None => {
            if size > 1 << 20 {
                return Err(AllocError);
            }
            Ok(start_extent(program.model, size))
        }
    }
}

// Returns the start block of an unknown pointer with a path.
fn start_block<'a>(
    alloc: Global,
    program: &'a Program,
    path: Path,
    target: &'a CType,
    count: Option<u64>,
) -> Result<Block<'a>, AllocError>
    requires { HasLayouts program.now }
    ensures { IfOk result (λ made.
        block_of made ≡ meaning.start_block (typed_program program.now) path (shape_of target.now)
        count) }
{
    let element = element_of(target);
    let bytes = start_bytes(program, element, count)?;
    Ok(Block::new(alloc, element, bytes, Fill::Input(path)))
}

impl<'a> Memory<'a> {
    /// Adds the start block of a pointer, when the scalar with a path has this cell and it is a pointer. The block has `count` elements if that
    /// is known.
    pub fn open(
        &mut self,
        program: &'a Program,
        path: &Path,
        scalar: BlockType<'a>,
        count: Option<u64>,
        cell: &Cell,
    ) -> Result<(), AllocError>
        requires { HasLayouts program.now }
        ensures memory { OnOk result
            (memory_of self.new ≡ opening.opened (typed_program program.now) path.now
            (type_of scalar.entry) count (cell_of cell.now) (memory_of self.old)) }
        ensures counts { OnOk result (KeepsCounts self.old self.new) }
    {
        match scalar {
            BlockType::Of(ty) => self.open_type(program, path, ty, count, cell),
            BlockType::Integer(_) => Ok(()),
            BlockType::Text(_) => Ok(()),
            BlockType::Void => Ok(()),
        }
    }

    // The same for a scalar of a type of the program.
    fn open_type(
        &mut self,
        program: &'a Program,
        path: &Path,
        ty: &'a CType,
        count: Option<u64>,
        cell: &Cell,
    ) -> Result<(), AllocError>
        requires { HasLayouts program.now }
        ensures memory { OnOk result
            (memory_of self.new ≡ opening.opened (typed_program program.now) path.now
            (shape_of ty.now) count (cell_of cell.now) (memory_of self.old)) }
        ensures counts { OnOk result (KeepsCounts self.old self.new) }
    {
        match ty {
            CType::Pointer(target) => self.open_target(program, path, target, count, cell),
            CType::Void => Ok(()),
            CType::Int(_) => Ok(()),
            CType::Array(_, _) => Ok(()),
            CType::Struct(_) => Ok(()),
        }
    }

    // The same for a pointer to a type.
    fn open_target(
        &mut self,
        program: &'a Program,
        path: &Path,
        target: &'a CType,
        count: Option<u64>,
        cell: &Cell,
    ) -> Result<(), AllocError>
        requires { HasLayouts program.now }
        ensures memory { OnOk result
            (memory_of self.new ≡ opening.opened (typed_program program.now) path.now
            (pointer (shape_of target.now)) count (cell_of cell.now) (memory_of self.old)) }
        ensures counts { OnOk result (KeepsCounts self.old self.new) }
    {
        match cell {
            Cell::Pointer(_, _) => self.open_block(program, path, target, count),
            Cell::Null => Ok(()),
            Cell::Number(_) => Ok(()),
            Cell::Unset => Ok(()),
        }
    }

    // Adds the start block of a pointer to a type.
    fn open_block(
        &mut self,
        program: &'a Program,
        path: &Path,
        target: &'a CType,
        count: Option<u64>,
    ) -> Result<(), AllocError>
        requires { HasLayouts program.now }
        ensures memory { OnOk result
            (memory_of self.new ≡ meaning.with_new_block (StartBlock path.now)
            (meaning.start_block (typed_program program.now) path.now (shape_of target.now) count)
            (memory_of self.old)) }
        ensures counts { OnOk result (KeepsCounts self.old self.new) }
    {
        let alloc = *self.heap.allocator();
        let root = path.copy()?;
        let own = path.copy()?;
        let block = start_block(alloc, program, root, target, count)?;
        self.add_start(own, block)
    }
}
