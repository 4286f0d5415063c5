//! Inserts many entries into a tree. A list in ascending order of keys is merged into the tree, in time that
//! grows with the length of the list and with the logarithm of the tree's size divided by it; any other list
//! is inserted entry by entry.
ghost use Rattle.std.specs.Prelude.{◌≡◌, IfOk, IsTrue};
ghost use Rattle.std.specs.FinMap.{is_sorted};
ghost use Rattle.cs_pmap.specs.Keys.{key_cmp, ClonesAreEqual};
ghost use Rattle.cs_pmap.specs.Many.{put_all, IsSplitAround};

use crate::join::join;
use crate::tree::{Key, Tree, compare};
use std::alloc::{AllocError, Global};
use std::cmp::Ordering;

/// Entries around a key: those before it, its value, and those after it.
#[derive(Drop)]
pub struct Around<'a, V> {
    pub before: &'a [(Key, V)],
    pub value: &'a V,
    pub after: &'a [(Key, V)],
}

impl<V: Clone + Drop> Tree<V> {
    /// Returns the tree after these entries are inserted, one after another.
    pub fn with_all(&self, alloc: Global, entries: &[(Key, V)]) -> Result<Tree<V>, AllocError>
        requires clones { ClonesAreEqual V.is_clone }
        ensures { IfOk result (λ tree. tree.0 ≡ put_all entries.now self.now.0) }
    {
        if is_ascending(entries) {
            self.merged(alloc, entries)
        } else {
            self.with_each(alloc, entries)
        }
    }

    // Inserts entries in ascending order.
    fn merged(&self, alloc: Global, entries: &[(Key, V)]) -> Result<Tree<V>, AllocError>
        requires clones { ClonesAreEqual V.is_clone }
        requires ascending { IsTrue (is_sorted key_cmp entries.now) }
        ensures { IfOk result (λ tree. tree.0 ≡ put_all entries.now self.now.0) }
    {
        let Some(root) = self.branch() else {
            return built(alloc, entries);
        };
        if entries.is_empty() {
            return self.copy();
        }
        let around = split_around(entries, root.key, &root.value);
        let left = root.left.merged(alloc, around.before)?;
        let right = root.right.merged(alloc, around.after)?;
        let value = around.value.clone()?;
        join(alloc, left, root.key, value, right)
    }

    // Inserts entries in any order.
    fn with_each(&self, alloc: Global, entries: &[(Key, V)]) -> Result<Tree<V>, AllocError>
        requires clones { ClonesAreEqual V.is_clone }
        ensures { IfOk result (λ tree. tree.0 ≡ put_all entries.now self.now.0) }
    {
        let mut tree = self.copy()?;
        for entry in entries {
            let value = entry.1.clone()?;
            tree = tree.inserted(alloc, entry.0, value)?;
        }
        Ok(tree)
    }
}

// Builds the tree of these entries.
fn built<V: Clone + Drop>(alloc: Global, entries: &[(Key, V)]) -> Result<Tree<V>, AllocError>
    requires clones { ClonesAreEqual V.is_clone }
    requires ascending { IsTrue (is_sorted key_cmp entries.now) }
    ensures { IfOk result (λ tree. tree.0 ≡ entries.now) }
{
    let (before, rest) = entries.split_at(entries.len() / 2);
    let Some((middle, after)) = rest.split_first() else {
        return Ok(Tree::new());
    };
    let left = built(alloc, before)?;
    let right = built(alloc, after)?;
    let value = middle.1.clone()?;
    join(alloc, left, middle.0, value, right)
}

// Whether each key is greater than the one before it.
fn is_ascending<V>(entries: &[(Key, V)]) -> bool
    ensures { result ≡ is_sorted key_cmp entries.now }
{
    let Some((first, mut rest)) = entries.split_first() else {
        return true;
    };
    let mut last = first;
    while let Some((next, after)) = rest.split_first() {
        let Ordering::Less = compare(last.0, next.0) else {
            return false;
        };
        last = next;
        rest = after;
    }
    true
}

// Returns the entries around a key, by binary search. If the key has no entry, its value is `kept`.
fn split_around<'a, V>(entries: &'a [(Key, V)], key: Key, kept: &'a V) -> Around<'a, V>
    requires ascending { IsTrue (is_sorted key_cmp entries.now) }
    ensures { IsSplitAround entries.now key kept.now result }
{
    let mut low = 0;
    let mut high = entries.len();
    while low < high {
        let middle = low + (high - low) / 2;
        let entry = &entries[middle];
        match compare(entry.0, key) {
            Ordering::Less => low = middle + 1,
            Ordering::Equal => {
                return Around {
                    before: &entries[..middle],
                    value: &entry.1,
                    after: &entries[middle + 1..],
                };
            }
            Ordering::Greater => high = middle,
        }
    }
    Around {
        before: &entries[..low],
        value: kept,
        after: &entries[low..],
    }
}
