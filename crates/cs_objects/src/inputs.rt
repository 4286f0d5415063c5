//! Values of inputs: the cell of a scalar by its path's number, and the element type of the block that a pointer points to.
ghost use Rattle.std.specs.Prelude.{◌≡◌, pos, IfOk, if◌then◌else◌};
ghost use Rattle.cs_types.specs.Shape.{shape_of};
ghost use Rattle.cs_events.specs.Objects.{StartBlock, NumberCell, NullCell, PointerCell};
ghost use Rattle.cs_events.specs.Operations as operations;
ghost use Rattle.cs_events.specs.InputCells as inputs;
ghost use Rattle.cs_meaning.specs.Types as types;
ghost use Rattle.cs_values.specs.View.{cell_of};
ghost use Rattle.cs_objects.specs.BlockView.{type_of};

use crate::blocks::BlockType;
use cs_events::{InputKind, lies_in, numbers_of};
use cs_inputs::Path;
use cs_types::{CType, DataModel, IntType};
use cs_values::arithmetic::is_true;
use cs_values::{Cell, Object};
use std::alloc::AllocError;

/// Returns the kind of an input of a scalar type.
pub fn input_kind(scalar: BlockType) -> InputKind
    ensures { result ≡ inputs.input_kind (type_of scalar.entry) }
{
    match scalar {
        BlockType::Of(ty) => typed_kind(ty),
        BlockType::Integer(ty) => InputKind::Integer(ty),
        BlockType::Text(_) => InputKind::Nothing,
        BlockType::Void => InputKind::Nothing,
    }
}

// Returns the kind of an input of a type of the program.
fn typed_kind(ty: &CType) -> InputKind
    ensures { result ≡ inputs.input_kind (shape_of ty.now) }
{
    match ty {
        CType::Int(ty) => InputKind::Integer(*ty),
        CType::Pointer(_) => InputKind::Pointer,
        CType::Void => InputKind::Nothing,
        CType::Array(_, _) => InputKind::Nothing,
        CType::Struct(_) => InputKind::Nothing,
    }
}

/// Returns the cell for the number of an input: the number, or 0 if it isn't in the type; for a pointer null if it is 0, else a pointer to
/// a block of its own.
pub fn input_cell(
    model: DataModel,
    path: &Path,
    kind: InputKind,
    number: &i128,
) -> Result<Cell, AllocError>
    ensures { IfOk result (λ cell.
        cell_of cell ≡ inputs.input_cell model path.now kind number.now) }
{
    match kind {
        InputKind::Integer(ty) => Ok(integer_cell(model, ty, number)),
        InputKind::Pointer => pointer_cell(path, number),
        InputKind::Allocation => Ok(Cell::Unset),
        InputKind::Nothing => Ok(Cell::Unset),
    }
}

// Returns the cell of an integer type.
fn integer_cell(model: DataModel, ty: IntType, number: &i128) -> Cell
    ensures { cell_of result ≡ NumberCell
        (if inputs.lies_in (operations.numbers_of model ty) number.now
        then number.now else pos 0) }
{
    if lies_in(numbers_of(model, ty), *number) {
        Cell::Number(*number)
    } else {
        Cell::Number(0)
    }
}

// Returns the cell of a pointer.
fn pointer_cell(path: &Path, number: &i128) -> Result<Cell, AllocError>
    ensures { IfOk result (λ cell. cell_of cell
        ≡ (if operations.is_true number.now then PointerCell (StartBlock path.now) (pos 0)
        else NullCell)) }
{
    if is_true(*number) {
        let path = path.copy()?;
        Ok(Cell::Pointer(Object::Start(path), 0))
    } else {
        Ok(Cell::Null)
    }
}

/// Returns the element type of the block that a pointer to a type points to; for `void *` the elements are bytes (C11 6.3.2.3).
pub fn element_of(target: &CType) -> BlockType<'_>
    ensures { type_of result ≡ types.element_of (shape_of target.now) }
{
    match target {
        CType::Void => BlockType::Integer(IntType::UChar),
        CType::Int(_) => BlockType::Of(target),
        CType::Pointer(_) => BlockType::Of(target),
        CType::Array(_, _) => BlockType::Of(target),
        CType::Struct(_) => BlockType::Of(target),
    }
}
