//! An iterator over a tree in the order of its keys.
ghost use Rattle.std.specs.Prelude.{◌≡◌, ◌+◌, ◌≤◌, ◌++◌, IfOk};
ghost use Rattle.std.specs.Iterator.{YieldsFirstBy, item_count};
ghost use Rattle.cs_pmap.specs.Pending.{pending, FitsCapacity};
ghost use Rattle.smallvec.specs.SmallVec.{small_vec_len};

use crate::tree::{Branch, Key, Tree};
use smallvec::SmallVec;
use std::alloc::{AllocError, Global};
use std::marker::Model;

/// The remaining entries of a map, in the order of their keys.
#[derive(Drop)]
pub struct Entries<'a, V> {
    // The branches whose own entry and right side remain, the next one last. A tree of at most eight levels
    // needs no allocation for them.
    stack: SmallVec<Option<&'a Branch<V>>, 8>,
}

impl<'a, V> Model for Entries<'a, V> {
    ghost use Rattle.cs_pmap.specs.Keys.{EntryList};
    ghost use Rattle.cs_pmap.specs.Pending.{pending, FitsCapacity};

    ghost Value = { EntryList V };

    ghost view = { λ e. pending e.stack.items };

    ghost invariant = { λ e. FitsCapacity e.stack.capacity e.stack.items };
}

impl<'a, V> Entries<'a, V> {
    pub fn new(alloc: Global, tree: &'a Tree<V>) -> Result<Entries<'a, V>, AllocError>
        ensures { IfOk result (λ entries. entries ≡ tree.now.0) }
    {
        let mut stack = SmallVec::with_capacity(alloc, tree.height() as usize)?;
        push_left_sides(&mut stack, tree);
        Ok(Entries { stack })
    }
}

impl<'a, V> Iterator for Entries<'a, V> {
    type Item = (Key, &'a V);

    ghost next_gives = { YieldsFirstBy (λ item. (item.0, item.1.now)) (λ entries. entries) };

    ghost remaining = { item_count (λ entries. entries) };

    fn next(&mut self) -> Option<(Key, &'a V)> {
        let top = self.stack.pop()?;
        let branch = top?;
        push_left_sides(&mut self.stack, &branch.right);
        Some((branch.key, &branch.value))
    }
}

// Pushes the root of the tree, the root of its left side, and so on.
fn push_left_sides<'a, V>(stack: &mut SmallVec<Option<&'a Branch<V>>, 8>, mut tree: &'a Tree<V>)
    requires fits { FitsCapacity stack.old.capacity stack.old.items }
    requires room { tree.now.1 + small_vec_len stack.old ≤ stack.old.capacity }
    ensures entries { pending stack.new.items ≡ tree.now.0 ++ pending stack.old.items }
    ensures fits { FitsCapacity stack.new.capacity stack.new.items }
{
    while let Some(branch) = tree.branch() {
        stack.push_reserved(Some(branch));
        tree = &branch.left;
    }
}
