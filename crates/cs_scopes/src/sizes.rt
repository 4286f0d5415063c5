//! The sizes of objects, which are limited (C11 6.5.3.4).
ghost use Rattle.std.specs.Prelude.{◌≡◌, ◌*◌};
ghost use Rattle.cs_types.specs.Shape.{shape_of};
ghost use Rattle.cs_scopes.specs.Sizes.{limited, bytes_in};

use cs_types::{CType, DataModel, StructTable, bytes, complete_struct, pointer_bytes};

/// The greatest number of bytes of an object.
const MOST_BYTES: u64 = 1 << 20;

/// Returns the size of a complete type in bytes, if an object may have it.
pub fn bytes_in(model: DataModel, table: &StructTable, ty: &CType) -> Option<u64>
    ensures { result ≡ bytes_in model table.now.list (shape_of ty.now) }
{
    match ty {
        CType::Void => None,
        CType::Int(ty) => Some(bytes(model, *ty)),
        CType::Pointer(_) => Some(pointer_bytes(model)),
        CType::Array(element, count) => repeated(*count, bytes_in(model, table, element)?),
        CType::Struct(number) => limited(complete_struct(table, *number)?.size),
    }
}

// The size of an array of `count` elements, if an object may have it.
fn repeated(count: u64, bytes: u64) -> Option<u64>
    ensures { result ≡ limited (count * bytes) }
{
    match count.checked_mul(bytes) {
        Some(bytes) => limited(bytes),
        None => None,
    }
}

// A number of bytes, if an object may have so many.
fn limited(bytes: u64) -> Option<u64>
    ensures { result ≡ limited bytes }
{
    if bytes <= MOST_BYTES {
        Some(bytes)
    } else {
        None
    }
}
