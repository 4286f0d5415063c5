//! The parts of arrays and structs that the items of initializers are for (C11 6.7.9).
ghost use Rattle.std.specs.Prelude.{◌≡◌, option_map, slice_get};
ghost use Rattle.cs_types.specs.Shape.{shape_of};
ghost use Rattle.cs_scopes.specs.Parts.{part_types, types_of};

use cs_types::{CType, Member, StructTable, members_of};

/// The parts that the items of a list initialize: the elements of an array, or the members of a struct.
#[derive(Clone, Copy)]
pub enum Parts<'a> {
    Elements(&'a CType, u64),
    Members(&'a [Member]),
}

/// Returns the parts of a type, if it has any.
pub fn parts_of<'a>(table: &'a StructTable, ty: &'a CType) -> Option<Parts<'a>>
    ensures { option_map types_of result ≡ part_types table.now.list (shape_of ty.now) }
{
    match ty {
        CType::Array(element, count) => Some(Parts::Elements(element, *count)),
        CType::Struct(number) => match members_of(table, *number) {
            Some(members) => Some(Parts::Members(members.as_slice())),
            None => Some(Parts::Members(&[])),
        },
        _ => None,
    }
}

impl<'a> Parts<'a> {
    /// Returns the type of the part with this number.
    #[tactic(auto, using(crate::proofs::PartsByNumber::parts_by_number))]
    pub fn ty(self, number: usize) -> Option<&'a CType>
        ensures { option_map (λ ty. shape_of ty.now) result
            ≡ slice_get (types_of self.entry) number }
    {
        match self {
            Parts::Elements(element, count) if (number as u64) < count => Some(element),
            Parts::Elements(_, _) => None,
            Parts::Members(members) => Some(members.get(number)?.ty()),
        }
    }
}
