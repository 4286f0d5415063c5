//! The sizes of the program's types.
ghost use Rattle.std.specs.Prelude.{◌≡◌, ◌*◌, ◌^◌, ◌≤◌, IsTrue, IfOk};
ghost use Rattle.cs_types.specs.Shape.{shape_of, array};
ghost use Rattle.cs_types.specs.Layout.{IsLaidOut, HasSmallSizes, IsSmall};
ghost use Rattle.cs_ast.specs.TypedProgram.{HasLayouts, typed_program};
ghost use Rattle.cs_meaning.specs.Types as types;

use cs_ast::typed::program::Program;
use cs_types::{CType, DataModel, StructTable, size};
use std::alloc::AllocError;

/// Returns the size of a type; 0 for an incomplete one (C11 6.5.3.4). More than 2^40 bytes count as out of memory.
pub fn size_of(program: &Program, ty: &CType) -> Result<u64, AllocError>
    requires { HasLayouts program.now }
    ensures { IfOk result (λ bytes.
        bytes ≡ types.size_of (typed_program program.now) (shape_of ty.now)) }
{
    if !is_small(program.model, &program.table, ty) {
        return Err(AllocError);
    }
    Ok(size(program.model, &program.table, ty).unwrap_or(0))
}

// Whether no size in a type exceeds 2^40.
pub fn is_small(model: DataModel, table: &StructTable, ty: &CType) -> bool
    requires { IsLaidOut model table.now.list }
    ensures { IsTrue result → HasSmallSizes model table.now.list (shape_of ty.now) }
{
    match ty {
        CType::Void => true,
        CType::Int(_) => true,
        CType::Pointer(_) => true,
        CType::Array(element, count) => {
            is_small(model, table, element) && is_small_row(model, table, element, *count)
        }
        CType::Struct(_) => true,
    }
}

// Whether `count` elements of a type have at most 2^40 bytes.
fn is_small_row(model: DataModel, table: &StructTable, element: &CType, count: u64) -> bool
    requires laid_out { IsLaidOut model table.now.list }
    requires small { HasSmallSizes model table.now.list (shape_of element.now) }
    ensures { IsTrue result → IsSmall model table.now.list (array (shape_of element.now) count) }
{
    match size(model, table, element) {
        Some(bytes) => is_small_product(count, bytes),
        None => true,
    }
}

// Whether a count times a size is at most 2^40 bytes.
fn is_small_product(count: u64, bytes: u64) -> bool
    ensures { IsTrue result → count * bytes ≤ 2 ^ 40 }
{
    match count.checked_mul(bytes) {
        Some(all) => all <= 1 << 40,
        None => false,
    }
}
