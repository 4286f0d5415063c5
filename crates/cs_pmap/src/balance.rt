//! Builds a tree from an entry between two trees whose heights differ by at most two, with a rotation if they
//! differ by two.
ghost use Rattle.std.specs.Prelude.{◌≡◌, ◌+◌, ◌∷◌, ◌++◌, IfOk, IsTrue};
ghost use Rattle.std.specs.FinMap.{is_sorted};
ghost use Rattle.cs_pmap.specs.Keys.{key_cmp, ClonesAreEqual};
ghost use Rattle.cs_pmap.specs.Tree.{DifferByAtMost, IsHeightOver};

use crate::tree::{Key, Tree};
use std::alloc::{AllocError, Global};

pub fn balanced<V: Clone + Drop>(
    alloc: Global,
    left: Tree<V>,
    key: Key,
    value: V,
    right: Tree<V>,
) -> Result<Tree<V>, AllocError>
    requires clones { ClonesAreEqual V.is_clone }
    requires sorted { IsTrue (is_sorted key_cmp (left.0 ++ (key, value) ∷ right.0)) }
    requires sides { DifferByAtMost 2 left.1 right.1 }
    ensures entries { IfOk result (λ tree. tree.0 ≡ left.0 ++ (key, value) ∷ right.0) }
    ensures height { IfOk result (λ tree. IsHeightOver left.1 right.1 tree.1) }
{
    if left.height().saturating_sub(right.height()) > 1 {
        rotated_right(alloc, &left, key, value, right)
    } else if right.height().saturating_sub(left.height()) > 1 {
        rotated_left(alloc, left, key, value, &right)
    } else {
        Tree::fork(alloc, left, key, value, right)
    }
}

// The left side is two levels higher. Its root, or the root of its inner side, becomes the new root.
fn rotated_right<V: Clone + Drop>(
    alloc: Global,
    left: &Tree<V>,
    key: Key,
    value: V,
    right: Tree<V>,
) -> Result<Tree<V>, AllocError>
    requires clones { ClonesAreEqual V.is_clone }
    requires sorted { IsTrue (is_sorted key_cmp (left.now.0 ++ (key, value) ∷ right.0)) }
    requires two_higher { left.now.1 ≡ right.1 + 2 }
    ensures entries { IfOk result (λ tree. tree.0 ≡ left.now.0 ++ (key, value) ∷ right.0) }
    ensures height { IfOk result (λ tree. IsHeightOver left.now.1 right.1 tree.1) }
{
    let Some(root) = left.branch() else {
        unreachable!()
    };
    if root.left.height() >= root.right.height() {
        let lower = Tree::fork(alloc, root.right.copy()?, key, value, right)?;
        return root.between(alloc, root.left.copy()?, lower);
    }
    let Some(inner) = root.right.branch() else {
        unreachable!()
    };
    let lower_left = root.between(alloc, root.left.copy()?, inner.left.copy()?)?;
    let lower_right = Tree::fork(alloc, inner.right.copy()?, key, value, right)?;
    inner.between(alloc, lower_left, lower_right)
}

// The same for a right side that is two levels higher.
fn rotated_left<V: Clone + Drop>(
    alloc: Global,
    left: Tree<V>,
    key: Key,
    value: V,
    right: &Tree<V>,
) -> Result<Tree<V>, AllocError>
    requires clones { ClonesAreEqual V.is_clone }
    requires sorted { IsTrue (is_sorted key_cmp (left.0 ++ (key, value) ∷ right.now.0)) }
    requires two_higher { right.now.1 ≡ left.1 + 2 }
    ensures entries { IfOk result (λ tree. tree.0 ≡ left.0 ++ (key, value) ∷ right.now.0) }
    ensures height { IfOk result (λ tree. IsHeightOver left.1 right.now.1 tree.1) }
{
    let Some(root) = right.branch() else {
        unreachable!()
    };
    if root.right.height() >= root.left.height() {
        let lower = Tree::fork(alloc, left, key, value, root.left.copy()?)?;
        return root.between(alloc, lower, root.right.copy()?);
    }
    let Some(inner) = root.left.branch() else {
        unreachable!()
    };
    let lower_left = Tree::fork(alloc, left, key, value, inner.left.copy()?)?;
    let lower_right = root.between(alloc, inner.right.copy()?, root.right.copy()?)?;
    inner.between(alloc, lower_left, lower_right)
}
