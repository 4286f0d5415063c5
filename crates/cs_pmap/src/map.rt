//! The map: a tree, and the allocator of its branches.
ghost use Rattle.std.specs.Prelude.{◌≡◌, IfOk, OnOk, OnErr};
ghost use Rattle.std.specs.FinMap as map;
ghost use Rattle.std.specs.Option.{option_copied};
ghost use Rattle.cs_pmap.specs.Keys.{ClonesAreEqual};
ghost use Rattle.cs_pmap.specs.Many.{insert_all};

use crate::entries::Entries;
use crate::tree::{Key, Tree};
use std::alloc::{AllocError, Global};
use std::marker::Model;

/// A finite map from pairs of numbers to values. It is a search tree whose branches are shared between the map's copies, and in
/// which the heights of the two sides of each branch differ by at most one.
#[derive(Drop)]
pub struct PMap<V> {
    alloc: Global,
    tree: Tree<V>,
}

impl<V> Model for PMap<V> {
    ghost use Rattle.std.specs.Prelude.{IsTrue};
    ghost use Rattle.std.specs.Coded.{coded×, coded_ℕ};
    ghost use Rattle.std.specs.FinMap as map;
    ghost use Rattle.cs_pmap.specs.Keys.{key_cmp};

    ghost Value = { map.FinMap key_cmp V };

    ghost coded = { map.code (coded× coded_ℕ coded_ℕ) V.code };

    ghost view = { λ m. map.from_sorted m.tree.0 };

    ghost invariant = { λ m. IsTrue (map.is_sorted key_cmp m.tree.0) };
}

impl<V> PMap<V> {
    /// Returns the empty map.
    pub fn new(alloc: Global) -> PMap<V>
        ensures { result ≡ map.empty }
    {
        PMap {
            alloc,
            tree: Tree::new(),
        }
    }

    /// Returns the value of a key.
    pub fn get(&self, key: Key) -> Option<&V>
        ensures { option_copied result ≡ map.get self.now key }
    {
        self.tree.get(key)
    }

    /// Returns the number of levels of the tree: a map of `n` keys has at least `log n`.
    pub fn height(&self) -> u64 {
        self.tree.height()
    }

    /// Returns the keys with their values, in the order of the keys. The iterator allocates its memory here
    /// and none later.
    pub fn iter(&self) -> Result<Entries<'_, V>, AllocError>
        ensures { IfOk result (λ entries. entries ≡ map.entries self.now) }
    {
        Entries::new(self.alloc, &self.tree)
    }
}

impl<V: Drop> PMap<V> {
    /// Returns a copy, which shares the branches.
    pub fn copy(&self) -> Result<PMap<V>, AllocError>
        ensures { IfOk result (λ copy. copy ≡ self.now) }
    {
        Ok(PMap {
            alloc: self.alloc,
            tree: self.tree.copy()?,
        })
    }
}

impl<V: Clone + Drop> PMap<V> {
    /// Sets the value of a key.
    pub fn insert(&mut self, key: Key, value: V) -> Result<(), AllocError>
        requires clones { ClonesAreEqual V.is_clone }
        ensures ok { OnOk result (self.new ≡ map.insert self.old key value) }
        ensures err { OnErr result (self.new ≡ self.old) }
    {
        self.tree = self.tree.inserted(self.alloc, key, value)?;
        Ok(())
    }

    /// Sets the values of keys, one after another. For ascending keys this takes much less time than as many
    /// calls of `insert`.
    pub fn insert_all(&mut self, entries: &[(Key, V)]) -> Result<(), AllocError>
        requires clones { ClonesAreEqual V.is_clone }
        ensures ok { OnOk result (self.new ≡ insert_all self.old entries.now) }
        ensures err { OnErr result (self.new ≡ self.old) }
    {
        self.tree = self.tree.with_all(self.alloc, entries)?;
        Ok(())
    }

    /// Removes a key, if it is there.
    pub fn remove(&mut self, key: Key) -> Result<(), AllocError>
        requires clones { ClonesAreEqual V.is_clone }
        ensures ok { OnOk result (self.new ≡ map.remove self.old key) }
        ensures err { OnErr result (self.new ≡ self.old) }
    {
        if self.tree.get(key).is_none() {
            return Ok(());
        }
        self.tree = self.tree.removed(self.alloc, key)?;
        Ok(())
    }
}
