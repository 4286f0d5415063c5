//! The declarations in scope as a list, and a table with the index of each name's last one.
ghost use Rattle.std.specs.Prelude.{◌≡◌, ◌-◌, true, ℕ, List, ◌++◌, [], ◌∷◌, Some, OnOk, OnErr, option_copied, None, is_some, drop, option_to_list, take, vec_len};
ghost use Rattle.std.specs.Option.{option_map};
ghost use Rattle.cs_scopes.specs.Meanings.{meaning_of, declaration_of};
ghost use Rattle.cs_scopes.specs.Scopes.{newest};
ghost use Rattle.cs_scopes.specs.Entries.{declarations_in, place_at, Indexed, HasEntered};

use crate::scope::{Declaration, Meaning};
use cs_names::Name;
use indexmap::IndexMap;
use std::alloc::{AllocError, Global};

/// A declaration, with the index of the declaration that it hides: the last one of its name before it.
#[derive(Drop)]
pub struct Entry {
    pub declaration: Declaration,
    pub before: Option<usize>,
}

/// Returns the meaning of a name's last declaration.
pub fn find<'a>(
    list: &'a [Entry],
    places: &IndexMap<Name, Option<usize>>,
    name: &Name,
) -> Option<&'a Meaning>
    requires { Indexed places.now list.now }
    ensures { option_map meaning_of (option_copied result)
        ≡ newest name.now (declarations_in list.now) }
{
    let place = place_of(places, name)?;
    let entry = list.get(place)?;
    Some(&entry.declaration.meaning)
}

/// Returns the index that the table has for a name.
pub fn place_of(places: &IndexMap<Name, Option<usize>>, name: &Name) -> Option<usize>
    ensures { result ≡ place_at places.now name.now }
{
    *places.get(name)?
}

/// Whether a name is declared after the first `outer` declarations.
pub fn is_after(
    list: &[Entry],
    places: &IndexMap<Name, Option<usize>>,
    name: &Name,
    outer: usize,
) -> bool
    requires { Indexed places.now list.now }
    ensures { result ≡ is_some (newest name.now (drop outer (declarations_in list.now))) }
{
    match place_of(places, name) {
        Some(place) => outer <= place,
        None => false,
    }
}

// Sets a name's index in the table.
fn enter(
    places: &mut IndexMap<Name, Option<usize>>,
    name: Name,
    place: usize,
) -> Result<(), AllocError>
    ensures entered { OnOk result (HasEntered places.old places.new name (Some place)) }
    ensures err { OnErr result ((other : List ℕ)
        → place_at places.new other ≡ place_at places.old other) }
{
    match places.insert(name, Some(place)) {
        Ok(_) => Ok(()),
        Err(_) => Err(AllocError),
    }
}

/// Appends a declaration, and enters its index into the table.
pub fn add(
    list: &mut Vec<Entry>,
    places: &mut IndexMap<Name, Option<usize>>,
    declaration: Declaration,
) -> Result<(), AllocError>
    requires { Indexed places.old list.old.items }
    ensures added { OnOk result (declarations_in list.new.items
        ≡ declarations_in list.old.items ++ declaration_of declaration ∷ []) }
    ensures err { OnErr result (list.new.items ≡ list.old.items) }
    ensures indexed { Indexed places.new list.new.items }
{
    let place = list.len();
    let name = declaration.name.copy()?;
    let before = place_of(places, &name);
    list.push(Entry {
        declaration,
        before,
    })?;
    if let Err(error) = enter(places, name, place) {
        let _ = list.pop();
        return Err(error);
    }
    Ok(())
}

// Sets the index of a name that is in the table, or removes it.
fn put_back(places: &mut IndexMap<Name, Option<usize>>, name: &Name, place: Option<usize>)
    requires { is_some (place_at places.old name.now) ≡ true }
    ensures { HasEntered places.old places.new name.now place }
{
    if let Some(held) = places.get_mut(name) {
        *held = place;
    }
}

/// Removes the last declaration and returns it, if there is one.
pub fn take_last(
    list: &mut Vec<Entry>,
    places: &mut IndexMap<Name, Option<usize>>,
) -> Option<Declaration>
    requires { Indexed places.old list.old.items }
    ensures taken { declarations_in list.old.items
        ≡ declarations_in list.new.items ++ option_to_list (option_map declaration_of result) }
    ensures none { result ≡ None → list.old.items ≡ [] }
    ensures left { list.new.items ≡ take (vec_len list.old - 1) list.old.items }
    ensures indexed { Indexed places.new list.new.items }
{
    match list.pop() {
        Some(entry) => {
            put_back(places, &entry.declaration.name, entry.before);
            Some(entry.declaration)
        }
        None => None,
    }
}

/// Drops the declarations after the first `outer` ones.
#[tactic(auto, using(crate::proofs::DeclaredNames::take_less))]
pub fn drop_after(list: &mut Vec<Entry>, places: &mut IndexMap<Name, Option<usize>>, outer: usize)
    requires { Indexed places.old list.old.items }
    ensures left { list.new.items ≡ take outer list.old.items }
    ensures indexed { Indexed places.new list.new.items }
{
    while list.len() > outer {
        let _ = take_last(list, places);
    }
}
