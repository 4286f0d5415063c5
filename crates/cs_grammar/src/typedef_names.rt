//! The typedef names that a file has declared so far.
ghost use Rattle.std.specs.Prelude.{◌≡◌, [], if◌then◌else◌, ◌++◌, ◌∷◌, OnOk, OnErr};
ghost use Rattle.cs_grammar.specs.TypeWords.{is_among};

use cs_names::Name;
use indexmap::IndexSet;
use std::alloc::{AllocError, Global};
use std::marker::Model;

/// The typedef names, each once, in the order of their declarations. In contracts it is the list of them.
#[derive(Drop)]
pub struct TypedefNames {
    names: IndexSet<Name>,
}

impl Model for TypedefNames {
    ghost use Rattle.cs_grammar.specs.TypeWords.{Names};

    ghost Value = { Names };

    ghost view = { λ all. all.names.keys };
}

impl TypedefNames {
    /// Returns the empty set of names.
    pub fn new(alloc: Global) -> TypedefNames
        ensures { result ≡ [] }
    {
        TypedefNames {
            names: IndexSet::new(alloc),
        }
    }

    /// Whether the name is a typedef name.
    pub fn contains(&self, name: &Name) -> bool
        ensures { result ≡ is_among self.now name.now }
    {
        self.names.contains(name)
    }

    /// Adds a name, after the others if it is new.
    pub fn add(&mut self, name: Name) -> Result<(), AllocError>
        ensures added { OnOk result
            (self.new ≡ (if is_among self.old name then self.old else self.old ++ name ∷ [])) }
        ensures kept { OnErr result (self.new ≡ self.old) }
    {
        self.names.insert(name)?;
        Ok(())
    }
}
