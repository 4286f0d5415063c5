//! The table of symbols.
ghost use Rattle.std.specs.Prelude.{◌≡◌, ℕ, [], Some, slice_get, IfOk, OnOk, OnErr};
ghost use Rattle.std.specs.Option.{option_copied};
ghost use Rattle.indexmap.specs.IndexMap.{keys};
ghost use Rattle.cs_terms.specs.declared.symbol.SymName.{SymName};
ghost use Rattle.cs_terms.specs.Table.{HasEachOnce, IsNumbered};

use crate::symbol::{Sym, SymName};
use indexmap::IndexMap;
use std::alloc::{AllocError, Global};

/// The names of the symbols, each once, in the order in which they were first seen. A symbol's number is the
/// index of its name.
#[derive(Drop)]
pub struct SymTable {
    pub names: IndexMap<SymName, ()>,
}

impl SymTable {
    /// Returns an empty table.
    pub fn new(alloc: Global) -> SymTable
        ensures { keys result.names ≡ [] }
    {
        SymTable {
            names: IndexMap::new(alloc),
        }
    }

    /// Returns the number of the name: the one that it has, or the next one.
    pub fn number_of(&mut self, name: SymName) -> Result<Sym, AllocError>
        ensures name { IfOk result (λ sym. slice_get (keys self.new.names) sym.0 ≡ Some name) }
        ensures place { IfOk result (λ sym.
            IsNumbered (keys self.old.names) name sym.0 (keys self.new.names)) }
        ensures kept { OnOk result ((k : ℕ) (known : SymName)
            → slice_get (keys self.old.names) k ≡ Some known
            → slice_get (keys self.new.names) k ≡ Some known) }
        ensures once { HasEachOnce (keys self.new.names) }
        ensures err { OnErr result (keys self.new.names ≡ keys self.old.names) }
    {
        let (place, _) = self.names.insert_full(name, ())?;
        Ok(Sym(place as u64))
    }

    /// Returns the name of the symbol, or none if no name has its number.
    pub fn name(&self, sym: Sym) -> Option<&SymName>
        ensures { option_copied result ≡ slice_get (keys self.now.names) sym.0 }
    {
        let (name, _) = self.names.get_index(sym.0 as usize)?;
        Some(name)
    }
}
