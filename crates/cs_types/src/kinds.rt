//! Kinds of types (C11 6.2.5).
ghost use Rattle.std.specs.Prelude.{◌≡◌};
ghost use Rattle.cs_types.specs.Shape.{shape_of};
ghost use Rattle.cs_types.specs.Kinds.{is_void, is_array, is_scalar, is_complete};

use crate::ctype::CType;
use crate::structs::{StructTable, members_of};

/// Whether the type is `void`.
pub fn is_void(ty: &CType) -> bool
    ensures { result ≡ is_void (shape_of ty.now) }
{
    match ty {
        CType::Void => true,
        _ => false,
    }
}

/// Whether the type is an array.
pub fn is_array(ty: &CType) -> bool
    ensures { result ≡ is_array (shape_of ty.now) }
{
    match ty {
        CType::Array(_, _) => true,
        _ => false,
    }
}

/// Whether the type is an integer or a pointer.
pub fn is_scalar(ty: &CType) -> bool
    ensures { result ≡ is_scalar (shape_of ty.now) }
{
    match ty {
        CType::Int(_) | CType::Pointer(_) => true,
        _ => false,
    }
}

/// Whether the type has a size: it isn't `void`, and contains no struct without members.
pub fn is_complete(table: &StructTable, ty: &CType) -> bool
    ensures { result ≡ is_complete table.now.list (shape_of ty.now) }
{
    match ty {
        CType::Void => false,
        CType::Int(_) | CType::Pointer(_) => true,
        CType::Array(element, _) => is_complete(table, element),
        CType::Struct(number) => members_of(table, *number).is_some(),
    }
}
