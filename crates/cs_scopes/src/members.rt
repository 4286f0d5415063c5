//! Members of structs by their names (C11 6.5.2.3).
ghost use Rattle.std.specs.Prelude.{◌≡◌, option_copied};
ghost use Rattle.cs_types.specs.Layout.{members_of};
ghost use Rattle.cs_scopes.specs.Members.{member_named, member_found};
ghost use Rattle.cs_scopes.specs.Verdicts.{Answers};

use crate::refusal::{TypeCode, TypeRefusal};
use cs_ast::Place;
use cs_names::Name;
use cs_types::{Member, StructTable, members_of};

// The first member of this name.
fn member_named<'a>(name: &Name, members: &'a [Member]) -> Option<&'a Member>
    ensures { option_copied result ≡ member_named name.now members.now }
{
    for member in members {
        if *member.name() == *name {
            return Some(member);
        }
    }
    None
}

/// Returns the member with this name of the struct with this number. Faults are reported at `place`, that of the name.
#[tactic(auto, unfolding(crate::specs::Members::member_found))]
pub fn member_of<'a>(
    table: &'a StructTable,
    place: Place,
    name: &Name,
    number: u32,
) -> Result<&'a Member, TypeRefusal>
    ensures { Answers (λ found. found.now)
        (member_found place name.now (members_of table.now.list number)) result }
{
    let Some(members) = members_of(table, number) else {
        return Err(TypeRefusal::Code(TypeCode::UnknownName, place));
    };
    match member_named(name, members.as_slice()) {
        Some(member) => Ok(member),
        None => Err(TypeRefusal::Code(TypeCode::NoMember, place)),
    }
}
