//! A search tree over `Rc`: at each node, the heights of the two sides differ by at most one.
ghost use Rattle.std.specs.Prelude.{◌≡◌, ◌+◌, max, [], ◌∷◌, ◌++◌, IfOk, IsTrue};
ghost use Rattle.std.specs.FinMap.{is_sorted, find};
ghost use Rattle.std.specs.Option.{option_copied};
ghost use Rattle.cs_pmap.specs.Keys.{key_cmp, ClonesAreEqual};
ghost use Rattle.cs_pmap.specs.Tree.{IsBranchOf, DifferByAtMost, branch_entries};

use std::alloc::{AllocError, Global};
use std::cmp::Ordering;
use std::marker::Model;
use std::rc::Rc;

pub type Key = (u64, u64);

/// Compares by the first number, and by the second if these are equal.
#[inline]
pub fn compare(key: Key, other: Key) -> Ordering
    ensures { result ≡ key_cmp key other }
{
    if key.0 != other.0 {
        key.0.cmp(&other.0)
    } else {
        key.1.cmp(&other.1)
    }
}

#[cycle(tree)]
#[derive(Drop)]
pub struct Tree<V> {
    node: Node<V>,
}

#[cycle(tree)]
#[derive(Drop)]
pub enum Node<V> {
    Leaf,
    Fork(Rc<Branch<V>>),
}

#[cycle(tree)]
#[derive(Drop)]
pub struct Branch<V> {
    // The fields that a look-up reads are together.
    pub key: Key,
    pub left: Tree<V>,
    pub right: Tree<V>,
    pub value: V,
    pub height: u64,
}

impl<V> Model for Tree<V> {
    ghost use Rattle.std.specs.Prelude.{ℕ, length};
    ghost use Rattle.cs_pmap.specs.Keys.{EntryList};

    ghost Value = { EntryList V × ℕ };

    ghost use Rattle.cs_pmap.specs.Tree.{entries_and_height, IsBalancedNode};

    ghost view = { λ t. entries_and_height t.node };

    ghost invariant = { λ t. IsBalancedNode t.node };

    ghost size = { λ t. length t.0 };

    ghost use Rattle.std.proofs.Common.{arith, length-append};

    ghost size_decreases = { λ a h. Prim.grind (arith, length-append) };
}

impl<V> Tree<V> {
    /// Returns the empty tree.
    pub fn new() -> Tree<V>
        ensures { result ≡ ([], 0) }
    {
        Tree { node: Node::Leaf }
    }

    /// Returns the number of levels of branches.
    pub fn height(&self) -> u64
        ensures { result ≡ self.now.1 }
    {
        match &self.node {
            Node::Leaf => 0,
            Node::Fork(branch) => branch.height,
        }
    }

    /// Returns the branch at the root.
    pub fn branch(&self) -> Option<&Branch<V>>
        ensures { IsBranchOf self.now result }
    {
        match &self.node {
            Node::Leaf => None,
            Node::Fork(branch) => Some(branch),
        }
    }

    /// Returns the value of a key.
    pub fn get(&self, key: Key) -> Option<&V>
        ensures { option_copied result ≡ find key_cmp key self.now.0 }
    {
        let mut tree = self;
        while let Some(branch) = tree.branch() {
            tree = match compare(key, branch.key) {
                Ordering::Less => &branch.left,
                Ordering::Equal => return Some(&branch.value),
                Ordering::Greater => &branch.right,
            };
        }
        None
    }

    /// Builds a tree from an entry between two trees. If the height overflows its counter, the call fails as
    /// if it ran out of memory.
    pub fn fork(
        alloc: Global,
        left: Tree<V>,
        key: Key,
        value: V,
        right: Tree<V>,
    ) -> Result<Tree<V>, AllocError>
    where
        V: Drop,
        requires sorted { IsTrue (is_sorted key_cmp (left.0 ++ (key, value) ∷ right.0)) }
        requires sides { DifferByAtMost 1 left.1 right.1 }
        ensures { IfOk result (λ tree.
            tree ≡ (left.0 ++ (key, value) ∷ right.0, max left.1 right.1 + 1)) }
    {
        let Some(height) = left.height().max(right.height()).checked_add(1) else {
            return Err(AllocError);
        };
        let branch = Branch {
            key,
            left,
            right,
            value,
            height,
        };
        Ok(Tree {
            node: Node::Fork(Rc::new(alloc, branch)?),
        })
    }

    /// Returns a copy, which shares all branches.
    pub fn copy(&self) -> Result<Tree<V>, AllocError>
    where
        V: Drop,
        ensures { IfOk result (λ tree. tree ≡ self.now) }
    {
        match &self.node {
            Node::Leaf => Ok(Tree::new()),
            Node::Fork(branch) => Ok(Tree {
                node: Node::Fork(branch.clone()?),
            }),
        }
    }
}

impl<V: Clone + Drop> Branch<V> {
    /// Builds a tree from this branch's entry between two other trees.
    pub fn between(
        &self,
        alloc: Global,
        left: Tree<V>,
        right: Tree<V>,
    ) -> Result<Tree<V>, AllocError>
        requires clones { ClonesAreEqual V.is_clone }
        requires sorted { IsTrue
            (is_sorted key_cmp (left.0 ++ (self.now.key, self.now.value) ∷ right.0)) }
        requires sides { DifferByAtMost 1 left.1 right.1 }
        ensures { IfOk result (λ tree.
            tree ≡ (
              left.0 ++ (self.now.key, self.now.value) ∷ right.0,
              max left.1 right.1 + 1,
            )) }
    {
        Tree::fork(alloc, left, self.key, self.value.clone()?, right)
    }
}
