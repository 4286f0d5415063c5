//! The table that numbers base regions, so that states can name them in a word.
ghost use Rattle.std.specs.Prelude.{◌≡◌, [], slice_get, OnOk, IfOk, OnErr};
ghost use Rattle.std.specs.Option.{option_copied};
ghost use Rattle.indexmap.specs.IndexMap.{keys};
ghost use Rattle.cs_regions.specs.Numbering.{IsNumbered, IsNumberOf, IsSeenAfter};

use crate::base::Base;
use indexmap::IndexMap;
use std::alloc::{AllocError, Global};

/// Base regions in the order in which they were first seen. A base region's number is its index in this
/// order, from 0.
#[derive(Drop)]
pub struct BaseTable {
    pub names: IndexMap<Base, ()>,
}

impl BaseTable {
    /// Returns an empty table.
    pub fn new(alloc: Global) -> BaseTable
        ensures { keys result.names ≡ [] }
    {
        BaseTable {
            names: IndexMap::new(alloc),
        }
    }

    /// Returns the number of a base region; a new one gets the next number.
    pub fn number_of(&mut self, base: Base) -> Result<u64, AllocError>
        ensures number { IfOk result (IsNumberOf (keys self.new.names) base) }
        ensures seen { OnOk result (IsSeenAfter (keys self.old.names) base (keys self.new.names)) }
        ensures once { IsNumbered (keys self.new.names) }
        ensures err { OnErr result (keys self.new.names ≡ keys self.old.names) }
    {
        let (number, _) = self.names.insert_full(base, ())?;
        Ok(number as u64)
    }

    /// Returns the base region with a number, if there is one.
    pub fn base(&self, number: u64) -> Option<&Base>
        ensures { option_copied result ≡ slice_get (keys self.now.names) number }
    {
        let (base, _) = self.names.get_index(number as usize)?;
        Some(base)
    }
}
