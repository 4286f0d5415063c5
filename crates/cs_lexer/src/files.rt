//! The files that a text names.
ghost use Rattle.std.specs.Prelude.{◌≡◌, ℕ, List, ◌<◌, ◌^◌, ◌+◌, ◌++◌, ◌∷◌, [], None, Some, slice_get, length, codes, nat_eq, IfOk, OnOk, OnErr};
ghost use Rattle.std.specs.List.{position};
ghost use Rattle.std.specs.Option.{option_copied};
ghost use Rattle.std.specs.Cmp.Lexicographic.{pointwise};
ghost use Rattle.cs_lexer.specs.Files.{Numbered, HasEntered, file_number, number_at, with_file};

use cs_names::Name;
use std::alloc::{AllocError, Global};
use std::collections::BTreeMap;
use std::marker::Model;

/// The names of files, each once, in order of first occurrence. In contracts it is the list of the names.
#[derive(Drop)]
pub struct Files {
    names: Vec<Name>,
    // The index of each name in the list, so that a lookup takes no longer for texts with many names.
    numbers: BTreeMap<Name, u32>,
}

impl Model for Files {
    ghost use Rattle.std.specs.Prelude.{ℕ, List};
    ghost use Rattle.cs_lexer.specs.Files.{Numbered};

    ghost Value = { List (List ℕ) };

    ghost view = { λ f. f.names.items };

    ghost invariant = { λ f. Numbered f.numbers f.names.items };
}

impl Files {
    /// Returns the list that has only the file read from standard input.
    pub fn new(alloc: Global) -> Result<Files, AllocError>
        ensures { IfOk result (λ files. files ≡ codes "<input>" ∷ []) }
    {
        let mut names = Vec::new(alloc);
        let mut numbers = BTreeMap::new(alloc);
        add(
            &mut names,
            &mut numbers,
            Name::from_slice(alloc, b"<input>")?,
        )?;
        Ok(Files { names, numbers })
    }

    /// Returns the number of the file with this name, which is added if it is new.
    pub fn number(&mut self, name: Name) -> Result<u32, AllocError>
        requires { length self.old < 2 ^ 32 }
        ensures value { IfOk result (λ number. number ≡ file_number self.old name) }
        ensures added { OnOk result (self.new ≡ with_file self.old name) }
        ensures err { OnErr result (self.new ≡ self.old) }
    {
        number_in(&mut self.names, &mut self.numbers, name)
    }

    /// Returns a copy of the name with this index.
    pub fn name(&self, number: u32) -> Result<Name, AllocError>
        requires { number < length self.now }
        ensures { IfOk result (λ name. slice_get self.now number ≡ Some name) }
    {
        self.names.as_slice()[number as usize].copy()
    }

    /// Returns the names in order.
    pub fn into_names(self) -> Vec<Name>
        ensures { result.items ≡ self }
    {
        let Files { names, numbers: _ } = self;
        names
    }
}

// Returns the number of a name among the names.
fn find(numbers: &BTreeMap<Name, u32>, name: &Name) -> Option<u32>
    ensures { result ≡ number_at numbers.now name.now }
{
    numbers.get(name).copied()
}

// Enters a name with a number in the map.
fn enter(numbers: &mut BTreeMap<Name, u32>, name: Name, number: u32) -> Result<(), AllocError>
    ensures entered { OnOk result (HasEntered numbers.old numbers.new name number) }
    ensures err { OnErr result ((other : List ℕ)
        → number_at numbers.new other ≡ number_at numbers.old other) }
{
    match numbers.insert(name, number) {
        Ok(_) => Ok(()),
        Err(_) => Err(AllocError),
    }
}

// Adds a new name.
fn add(
    names: &mut Vec<Name>,
    numbers: &mut BTreeMap<Name, u32>,
    name: Name,
) -> Result<(), AllocError>
    requires fits { length names.old.items < 2 ^ 32 }
    requires numbered { Numbered numbers.old names.old.items }
    requires new { position (pointwise nat_eq name) names.old.items ≡ None }
    ensures added { OnOk result (names.new.items ≡ names.old.items ++ name ∷ []) }
    ensures err { OnErr result (names.new.items ≡ names.old.items) }
    ensures numbered { Numbered numbers.new names.new.items }
{
    let number = names.as_slice().len() as u32;
    names.push(name.copy()?)?;
    if let Err(error) = enter(numbers, name, number) {
        let _ = names.pop();
        return Err(error);
    }
    Ok(())
}

// Returns the number of a name, which is added if it is new.
fn number_in(
    names: &mut Vec<Name>,
    numbers: &mut BTreeMap<Name, u32>,
    name: Name,
) -> Result<u32, AllocError>
    requires fits { length names.old.items < 2 ^ 32 }
    requires numbered { Numbered numbers.old names.old.items }
    ensures value { IfOk result (λ number. number ≡ file_number names.old.items name) }
    ensures added { OnOk result (names.new.items ≡ with_file names.old.items name) }
    ensures err { OnErr result (names.new.items ≡ names.old.items) }
    ensures numbered { Numbered numbers.new names.new.items }
{
    if let Some(number) = find(numbers, &name) {
        return Ok(number);
    }
    let number = names.as_slice().len() as u32;
    add(names, numbers, name)?;
    Ok(number)
}
