//! Sizes, alignments and scalars of types, found by dividing offsets (C11 6.2.8, 6.5.3.4, 6.7.2.1).
ghost use Rattle.std.specs.Prelude.{◌≡◌, option_copied};
ghost use Rattle.std.specs.Option.{option_map};
ghost use Rattle.cs_types.specs.Shape.{shape_of};
ghost use Rattle.cs_types.specs.Layout.{Fits, IsLaidOut, layout_of, leaf_of};
ghost use Rattle.cs_types.specs.LeafSearch.{DividesArrays, EntersMember, last_at};

use crate::ctype::CType;
use crate::data_model::{DataModel, pointer_bytes};
use crate::int_type::bytes;
use crate::members::Member;
use crate::structs::{StructTable, complete_struct};

/// Returns the size of a type in bytes, as `sizeof` does, and `None` for `void` and incomplete types.
pub fn size(model: DataModel, table: &StructTable, ty: &CType) -> Option<u64>
    requires { Fits model table.now.list (shape_of ty.now) }
    ensures { result ≡ option_map (λ layout. layout.size)
        (layout_of model table.now.list (shape_of ty.now)) }
{
    match ty {
        CType::Void => None,
        CType::Int(ty) => Some(bytes(model, *ty)),
        CType::Pointer(_) => Some(pointer_bytes(model)),
        CType::Array(element, count) => Some(*count * size(model, table, element)?),
        CType::Struct(number) => Some(complete_struct(table, *number)?.size),
    }
}

/// Returns the alignment of a type in bytes, and `None` for `void` and incomplete types.
pub fn align(model: DataModel, table: &StructTable, ty: &CType) -> Option<u64>
    requires { Fits model table.now.list (shape_of ty.now) }
    ensures { result ≡ option_map (λ layout. layout.align)
        (layout_of model table.now.list (shape_of ty.now)) }
{
    match ty {
        CType::Void => None,
        CType::Int(ty) => Some(bytes(model, *ty)),
        CType::Pointer(_) => Some(pointer_bytes(model)),
        CType::Array(element, _) => align(model, table, element),
        CType::Struct(number) => Some(complete_struct(table, *number)?.align),
    }
}

/// Returns the scalar type that begins at an offset of a type, or `None` if none begins there, as in `void` and
/// incomplete types. The cost grows with the depth of the type, and not with the length of its arrays.
pub fn leaf_at<'a>(
    model: DataModel,
    table: &'a StructTable,
    ty: &'a CType,
    offset: u64,
) -> Option<&'a CType>
    requires { Fits model table.now.list (shape_of ty.now) }
    ensures { option_map (λ found. shape_of found.now) result
        ≡ leaf_of model table.now.list (shape_of ty.now) offset }
{
    size(model, table, ty)?;
    let mut depth = table.list.as_slice().len();
    let mut held = ty;
    let mut rest = offset;
    // No struct contains itself, so each iteration is one struct further in.
    loop {
        match base_at(model, table, held, rest)? {
            Base::Scalar(found) => return Some(found),
            Base::Inside(number, inside) => (held, rest) = member_at(model, table, number, inside)?,
        }
        depth -= 1;
    }
}

// What is at an offset of a type, after the arrays around it are divided away.
#[derive(Drop)]
enum Base<'a> {
    // A scalar that begins there.
    Scalar(&'a CType),
    // A struct by its number, and the offset in it.
    Inside(u32, u64),
}

fn base_at<'a>(
    model: DataModel,
    table: &StructTable,
    ty: &'a CType,
    offset: u64,
) -> Option<Base<'a>>
    requires { Fits model table.now.list (shape_of ty.now) }
    ensures { DividesArrays model table.now.list (shape_of ty.now) offset result }
{
    match ty {
        CType::Void => None,
        CType::Int(_) | CType::Pointer(_) if offset == 0 => Some(Base::Scalar(ty)),
        CType::Int(_) | CType::Pointer(_) => None,
        CType::Array(element, count) => {
            let size = size(model, table, element)?;
            if size == 0 || offset / size >= *count {
                return None;
            }
            base_at(model, table, element, offset % size)
        }
        CType::Struct(number) => Some(Base::Inside(*number, offset)),
    }
}

// Returns the type of the member that contains an offset of a struct, and the offset in that member.
fn member_at<'a>(
    model: DataModel,
    table: &'a StructTable,
    number: u32,
    offset: u64,
) -> Option<(&'a CType, u64)>
    requires { IsLaidOut model table.now.list }
    ensures { EntersMember model table.now.list number offset result }
{
    let members = complete_struct(table, number)?.members.as_ref()?;
    let member = last_member(members.as_slice(), offset)?;
    Some((member.ty(), offset - member.offset()))
}

// Returns the last of the members that begin at or before an offset: the members after it begin past the offset, and
// those before it end before it begins.
fn last_member(members: &[Member], offset: u64) -> Option<&Member>
    ensures { option_copied result ≡ last_at offset members.now }
{
    let mut last = None;
    for member in members {
        if member.offset() <= offset {
            last = Some(member);
        }
    }
    last
}
