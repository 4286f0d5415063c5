//! Inserts and removes one entry. The new tree has copies of the branches on the path to the entry, and
//! shares all others.
ghost use Rattle.std.specs.Prelude.{◌≡◌, ◌+◌, ◌≤◌, max, ◌++◌, IfOk, IsTrue};
ghost use Rattle.std.specs.FinMap.{is_sorted, put};
ghost use Rattle.cs_pmap.specs.Keys.{key_cmp, without, ClonesAreEqual};
ghost use Rattle.cs_pmap.specs.Tree.{DifferByAtMost};
ghost use Rattle.cs_pmap.specs.Update.{SplitsFirst, IsInsertedHeight, IsRemovedHeight};

use crate::balance::balanced;
use crate::tree::{Key, Tree, compare};
use std::alloc::{AllocError, Global};
use std::cmp::Ordering;

/// The first entry of a tree, and a tree of the others.
#[derive(Drop)]
pub struct FirstAndRest<V> {
    pub key: Key,
    pub value: V,
    pub rest: Tree<V>,
}

impl<V: Clone + Drop> Tree<V> {
    /// Returns the tree with this value at the key.
    pub fn inserted(&self, alloc: Global, key: Key, value: V) -> Result<Tree<V>, AllocError>
        requires clones { ClonesAreEqual V.is_clone }
        ensures entries { IfOk result (λ tree. tree.0 ≡ put key_cmp key value self.now.0) }
        ensures height { IfOk result (λ tree. IsInsertedHeight self.now.1 tree.1) }
    {
        let Some(branch) = self.branch() else {
            return Tree::fork(alloc, Tree::new(), key, value, Tree::new());
        };
        match compare(key, branch.key) {
            Ordering::Less => {
                let left = branch.left.inserted(alloc, key, value)?;
                balanced(
                    alloc,
                    left,
                    branch.key,
                    branch.value.clone()?,
                    branch.right.copy()?,
                )
            }
            Ordering::Equal => Tree::fork(
                alloc,
                branch.left.copy()?,
                branch.key,
                value,
                branch.right.copy()?,
            ),
            Ordering::Greater => {
                let right = branch.right.inserted(alloc, key, value)?;
                balanced(
                    alloc,
                    branch.left.copy()?,
                    branch.key,
                    branch.value.clone()?,
                    right,
                )
            }
        }
    }

    /// Returns the tree without the key.
    pub fn removed(&self, alloc: Global, key: Key) -> Result<Tree<V>, AllocError>
        requires clones { ClonesAreEqual V.is_clone }
        ensures entries { IfOk result (λ tree. tree.0 ≡ without key self.now.0) }
        ensures height { IfOk result (λ tree. IsRemovedHeight self.now.1 tree.1) }
    {
        let Some(branch) = self.branch() else {
            return Ok(Tree::new());
        };
        match compare(key, branch.key) {
            Ordering::Less => {
                let left = branch.left.removed(alloc, key)?;
                balanced(
                    alloc,
                    left,
                    branch.key,
                    branch.value.clone()?,
                    branch.right.copy()?,
                )
            }
            Ordering::Equal => joined(alloc, &branch.left, &branch.right),
            Ordering::Greater => {
                let right = branch.right.removed(alloc, key)?;
                balanced(
                    alloc,
                    branch.left.copy()?,
                    branch.key,
                    branch.value.clone()?,
                    right,
                )
            }
        }
    }

    /// Returns the first entry and the others, if there is one.
    fn split_first(&self, alloc: Global) -> Result<Option<FirstAndRest<V>>, AllocError>
        requires clones { ClonesAreEqual V.is_clone }
        ensures { IfOk result (SplitsFirst self.now) }
    {
        let Some(branch) = self.branch() else {
            return Ok(None);
        };
        match branch.left.split_first(alloc)? {
            None => Ok(Some(FirstAndRest {
                key: branch.key,
                value: branch.value.clone()?,
                rest: branch.right.copy()?,
            })),
            Some(first) => {
                let rest = balanced(
                    alloc,
                    first.rest,
                    branch.key,
                    branch.value.clone()?,
                    branch.right.copy()?,
                )?;
                Ok(Some(FirstAndRest {
                    key: first.key,
                    value: first.value,
                    rest,
                }))
            }
        }
    }
}

// Builds the tree of the entries of one tree followed by those of another: what remains of a branch whose own
// entry is removed.
fn joined<V: Clone + Drop>(
    alloc: Global,
    left: &Tree<V>,
    right: &Tree<V>,
) -> Result<Tree<V>, AllocError>
    requires clones { ClonesAreEqual V.is_clone }
    requires sorted { IsTrue (is_sorted key_cmp (left.now.0 ++ right.now.0)) }
    requires sides { DifferByAtMost 1 left.now.1 right.now.1 }
    ensures entries { IfOk result (λ tree. tree.0 ≡ left.now.0 ++ right.now.0) }
    ensures height { IfOk result (λ tree.
        IsRemovedHeight (max left.now.1 right.now.1 + 1) tree.1) }
{
    match right.split_first(alloc)? {
        None => left.copy(),
        Some(first) => balanced(alloc, left.copy()?, first.key, first.value, first.rest),
    }
}
