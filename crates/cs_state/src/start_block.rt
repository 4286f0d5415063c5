//! The blocks that unknown pointers point to.
ghost use Rattle.std.specs.Prelude.{◌≡◌, IfOk};
ghost use Rattle.cs_types.specs.Layout.{HasSmallSizes};
ghost use Rattle.cs_types.specs.Shape.{shape_of};
ghost use Rattle.cs_ast.specs.TypedProgram.{HasLayouts, typed_program};
ghost use Rattle.cs_meaning.specs.Types as types;
ghost use Rattle.cs_meaning.specs.Memory as meaning;

use cs_ast::typed::program::Program;
use cs_types::{CType, IntType, bytes, size, start_extent};
use std::alloc::AllocError;

// Returns the size in bytes of what a pointer to a type points to; a `void *` points to single bytes (C11 6.3.2.3).
fn element_size(program: &Program, target: &CType) -> u64
    requires laid_out { HasLayouts program.now }
    requires small { HasSmallSizes program.now.model program.now.table.list (shape_of target.now) }
    ensures { result
        ≡ types.size_of (typed_program program.now) (types.element_of (shape_of target.now)) }
{
    let element = match target {
        CType::Void => return bytes(program.model, IntType::UChar),
        CType::Int(_) => size(program.model, &program.table, target),
        CType::Pointer(_) => size(program.model, &program.table, target),
        CType::Array(_, _) => size(program.model, &program.table, target),
        CType::Struct(_) => size(program.model, &program.table, target),
    };
    element.unwrap_or(0)
}

/// Returns the size in bytes of the block that an unknown pointer points to: `count` elements, or the default extent.
pub fn start_bytes(program: &Program, target: &CType, count: Option<u64>) -> Result<u64, AllocError>
    requires laid_out { HasLayouts program.now }
    requires small { HasSmallSizes program.now.model program.now.table.list (shape_of target.now) }
    ensures { IfOk result (λ bytes. bytes
        ≡ meaning.start_extent (typed_program program.now)
        (types.element_of (shape_of target.now))
        count) }
{
    let size = element_size(program, target);
    match count {
        Some(count) => count.checked_mul(size).ok_or(AllocError),
        None => {
            if size > 1 << 20 {
                return Err(AllocError);
            }
            Ok(start_extent(program.model, size))
        }
    }
}
