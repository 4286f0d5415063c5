//! The offsets of the scalars in a type.
ghost use Rattle.std.specs.Prelude.{◌≡◌, ◌++◌, ◌∷◌, [], OnOk, IfOk};
ghost use Rattle.cs_types.specs.Shape.{shape_of, array};
ghost use Rattle.cs_ast.specs.TypedProgram.{HasLayouts, typed_program};
ghost use Rattle.cs_meaning.specs.Types as types;
ghost use Rattle.cs_objects.specs.TypeView.{offsets_from, member_offsets};

use crate::scalars::members_of;
use cs_ast::typed::program::Program;
use cs_types::{CType, Member};
use cs_values::types::size_of;
use std::alloc::AllocError;

/// Returns the offsets of a type's scalars, in order (C11 6.7.2.1).
pub fn type_offsets(program: &Program, ty: &CType) -> Result<Vec<u64>, AllocError>
    requires { HasLayouts program.now }
    ensures { IfOk result (λ offsets.
        offsets.items ≡ types.scalar_offsets (typed_program program.now) (shape_of ty.now)) }
{
    let mut made = Vec::new(*program.functions.allocator());
    push_offsets(program, u32::MAX, ty, 0, &mut made)?;
    Ok(made)
}

// Adds the offsets of the scalars of a type at an offset. Types nested too deep count as out of memory.
#[cycle(offsets)]
fn push_offsets(
    program: &Program,
    levels: u32,
    ty: &CType,
    from: u64,
    made: &mut Vec<u64>,
) -> Result<(), AllocError>
    requires { HasLayouts program.now }
    ensures { OnOk result (made.new.items
        ≡ made.old.items ++ offsets_from (typed_program program.now) from (shape_of ty.now)) }
{
    let levels = levels.checked_sub(1).ok_or(AllocError)?;
    match ty {
        CType::Void => Ok(()),
        CType::Int(_) => push_one(from, made),
        CType::Pointer(_) => push_one(from, made),
        CType::Array(element, count) => push_elements(program, levels, element, *count, from, made),
        CType::Struct(tag) => match members_of(program, *tag) {
            Some(members) => push_members(program, levels, members, from, made),
            None => Ok(()),
        },
    }
}

// Adds an offset.
fn push_one(offset: u64, made: &mut Vec<u64>) -> Result<(), AllocError>
    ensures { OnOk result (made.new.items ≡ made.old.items ++ offset ∷ []) }
{
    made.push(offset)?;
    Ok(())
}

// Adds the offsets of an array with `count` elements of a type.
#[cycle(offsets)]
fn push_elements(
    program: &Program,
    levels: u32,
    element: &CType,
    count: u64,
    from: u64,
    made: &mut Vec<u64>,
) -> Result<(), AllocError>
    requires { HasLayouts program.now }
    ensures { OnOk result (made.new.items
        ≡ made.old.items
        ++ offsets_from (typed_program program.now) from (array (shape_of element.now) count)) }
{
    let size = size_of(program, element)?;
    let mut at = from;
    let mut left = count;
    while left > 0 {
        let before = made.len();
        push_offsets(program, levels, element, at, made)?;
        // An array of elements without scalars may be very long.
        if made.len() == before {
            return Ok(());
        }
        at = at.checked_add(size).ok_or(AllocError)?;
        left -= 1;
    }
    Ok(())
}

// Adds the offsets of the members of a struct.
#[cycle(offsets)]
fn push_members(
    program: &Program,
    levels: u32,
    members: &[Member],
    from: u64,
    made: &mut Vec<u64>,
) -> Result<(), AllocError>
    requires { HasLayouts program.now }
    ensures { OnOk result (made.new.items
        ≡ made.old.items ++ member_offsets (typed_program program.now) from members.now) }
{
    for member in members {
        let at = from.checked_add(member.offset()).ok_or(AllocError)?;
        push_offsets(program, levels, member.ty(), at, made)?;
    }
    Ok(())
}
