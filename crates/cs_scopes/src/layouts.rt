//! Where members of structs begin and end, and the size of a struct (C11 6.7.2.1).
ghost use Rattle.std.specs.Prelude.{◌≡◌, ◌≤◌, ◌+◌, ◌^◌, nat_le, Some, None, IfOk, IfSome, if◌then◌else◌};
ghost use Rattle.cs_types.specs.Layout.{round_up};
ghost use Rattle.cs_scopes.specs.Layouts.{struct_of};

use cs_names::Name;
use cs_types::{Members, StructType};
use std::alloc::AllocError;

/// The greatest number of bytes of an object.
const MOST_BYTES: u64 = 1 << 20;

// The least multiple of an alignment that is at least `bytes`, if a machine's word can represent it.
fn rounded_up(bytes: u64, align: u64) -> Option<u64>
    ensures some { IfSome result (λ rounded. rounded ≡ round_up bytes align) }
    ensures none { result ≡ None → 2 ^ 63 ≤ round_up bytes align }
{
    if align == 0 {
        return Some(0);
    }
    let last = bytes.checked_add(align - 1)? / align;
    last.checked_mul(align)
}

/// Returns the offsets at which a member of this size and alignment begins and ends, after others of `before`
/// bytes, if an object may have so many bytes.
pub fn end_of(before: u64, bytes: u64, align: u64) -> Option<(u64, u64)>
    ensures { result ≡ (if nat_le (round_up before align + bytes) (2 ^ 20)
        then Some (round_up before align, round_up before align + bytes) else None) }
{
    let offset = rounded_up(before, align)?;
    if offset > MOST_BYTES || bytes > MOST_BYTES - offset {
        return None;
    }
    Some((offset, offset + bytes))
}

/// Returns the struct with these members, whose end is at `bytes`: its size is a multiple of its alignment (paragraph 17).
pub fn struct_of(
    tag: Name,
    members: Members,
    bytes: u64,
    align: u64,
) -> Result<StructType, AllocError>
    ensures { IfOk result (λ made. made ≡ struct_of tag members bytes align) }
{
    let size = rounded_up(bytes, align).ok_or(AllocError)?;
    Ok(StructType {
        tag,
        members: Some(members),
        size,
        align,
    })
}
