//! How many scalars an object has, if one store may write so many.
ghost use Rattle.std.specs.Prelude.{◌≡◌, ◌+◌};
ghost use Rattle.cs_types.specs.Shape.{shape_of};
ghost use Rattle.cs_scopes.specs.Scalars.{few, scalars_in, scalars_with, struct_scalars, has_few_scalars, innermost, scalars_alone, scalars_times};

use cs_types::{CType, StructTable, members_of};

/// The greatest number of scalars that one store may write.
const MOST: u64 = 4096;

/// Returns how many scalars the type has, if one store may write so many.
pub fn scalars_in(table: &StructTable, ty: &CType) -> Option<u64>
    ensures { result ≡ scalars_in table.now.list (shape_of ty.now) }
{
    scalars(table, table.list.as_slice().len(), ty)
}

/// Whether the type has so few scalars that one store may write them.
#[tactic(auto, unfolding(crate::specs::Scalars::has_few_scalars))]
pub fn has_few_scalars(table: &StructTable, ty: &CType) -> bool
    ensures { result ≡ has_few_scalars table.now.list (shape_of ty.now) }
{
    scalars_in(table, ty).is_some()
}

// How many scalars the type has, if they are few, where structs are nested at most `depth` deep.
#[cycle(scalars)]
fn scalars(table: &StructTable, depth: usize, ty: &CType) -> Option<u64>
    ensures { result ≡ scalars_with (struct_scalars table.now.list depth) (shape_of ty.now) }
{
    let inner = scalars_alone(table, depth, innermost(ty));
    scalars_times(inner, ty)
}

// How many scalars a type has that isn't an array.
#[cycle(scalars)]
fn scalars_alone(table: &StructTable, depth: usize, ty: &CType) -> Option<u64>
    ensures { result ≡ scalars_alone (struct_scalars table.now.list depth) (shape_of ty.now) }
{
    match ty {
        CType::Int(_) | CType::Pointer(_) => Some(1),
        CType::Struct(number) => struct_scalars(table, depth, *number),
        CType::Void | CType::Array(_, _) => Some(0),
    }
}

// How many scalars a struct has, if they are few.
#[cycle(scalars)]
fn struct_scalars(table: &StructTable, depth: usize, number: u32) -> Option<u64>
    ensures { result ≡ struct_scalars table.now.list depth number }
{
    if depth == 0 {
        return Some(0);
    }
    let Some(members) = members_of(table, number) else {
        return Some(0);
    };
    let mut all = 0;
    for member in members.as_slice() {
        let own = scalars(table, depth - 1, member.ty())?;
        all = few_more(all, own)?;
    }
    Some(all)
}

// The element type of an array, without all array types in it.
fn innermost(ty: &CType) -> &CType
    ensures { shape_of result.now ≡ innermost (shape_of ty.now) }
{
    match ty {
        CType::Array(element, _) => innermost(element),
        _ => ty,
    }
}

// The number of scalars of an array, given that of its innermost element.
fn scalars_times(inner: Option<u64>, ty: &CType) -> Option<u64>
    ensures { result ≡ scalars_times inner (shape_of ty.now) }
{
    match ty {
        CType::Array(element, count) => few(scalars_times(inner, element)?.saturating_mul(*count)),
        _ => inner,
    }
}

// The sum of two numbers of scalars, if they are few.
fn few_more(before: u64, more: u64) -> Option<u64>
    ensures { result ≡ few (before + more) }
{
    few(before.saturating_add(more))
}

/// Returns a number of scalars, if one store may write so many.
pub fn few(scalars: u64) -> Option<u64>
    ensures { result ≡ few scalars }
{
    if scalars <= MOST { Some(scalars) } else { None }
}
