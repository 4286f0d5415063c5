//! Builds a tree from an entry between two trees of any heights: the join of Blelloch, Ferizovic and Sun
//! (Just Join for Parallel Ordered Sets, 2016). It copies the branches of the higher tree down to the height
//! of the lower one.
ghost use Rattle.std.specs.Prelude.{◌≡◌, ◌+◌, ◌≤◌, ◌∷◌, ◌++◌, IfOk, IsTrue};
ghost use Rattle.std.specs.FinMap.{is_sorted};
ghost use Rattle.cs_pmap.specs.Keys.{key_cmp, ClonesAreEqual};
ghost use Rattle.cs_pmap.specs.Tree.{IsHeightOver};

use crate::balance::balanced;
use crate::tree::{Key, Tree};
use std::alloc::{AllocError, Global};

pub fn join<V: Clone + Drop>(
    alloc: Global,
    left: Tree<V>,
    key: Key,
    value: V,
    right: Tree<V>,
) -> Result<Tree<V>, AllocError>
    requires clones { ClonesAreEqual V.is_clone }
    requires sorted { IsTrue (is_sorted key_cmp (left.0 ++ (key, value) ∷ right.0)) }
    ensures entries { IfOk result (λ tree. tree.0 ≡ left.0 ++ (key, value) ∷ right.0) }
    ensures height { IfOk result (λ tree. IsHeightOver left.1 right.1 tree.1) }
{
    if left.height() < right.height() {
        join_to_left(alloc, left, key, value, &right)
    } else {
        join_to_right(alloc, &left, key, value, right)
    }
}

// The left side is at most one level lower. The entry goes down its right side.
fn join_to_right<V: Clone + Drop>(
    alloc: Global,
    left: &Tree<V>,
    key: Key,
    value: V,
    right: Tree<V>,
) -> Result<Tree<V>, AllocError>
    requires clones { ClonesAreEqual V.is_clone }
    requires sorted { IsTrue (is_sorted key_cmp (left.now.0 ++ (key, value) ∷ right.0)) }
    requires high { right.1 ≤ left.now.1 + 1 }
    ensures entries { IfOk result (λ tree. tree.0 ≡ left.now.0 ++ (key, value) ∷ right.0) }
    ensures height { IfOk result (λ tree. IsHeightOver left.now.1 right.1 tree.1) }
{
    if left.height().saturating_sub(right.height()) <= 1 {
        return Tree::fork(alloc, left.copy()?, key, value, right);
    }
    let Some(root) = left.branch() else {
        unreachable!()
    };
    let joined = join_to_right(alloc, &root.right, key, value, right)?;
    let outer = root.left.copy()?;
    let root_value = root.value.clone()?;
    balanced(alloc, outer, root.key, root_value, joined)
}

// The same with the sides exchanged.
fn join_to_left<V: Clone + Drop>(
    alloc: Global,
    left: Tree<V>,
    key: Key,
    value: V,
    right: &Tree<V>,
) -> Result<Tree<V>, AllocError>
    requires clones { ClonesAreEqual V.is_clone }
    requires sorted { IsTrue (is_sorted key_cmp (left.0 ++ (key, value) ∷ right.now.0)) }
    requires high { left.1 ≤ right.now.1 + 1 }
    ensures entries { IfOk result (λ tree. tree.0 ≡ left.0 ++ (key, value) ∷ right.now.0) }
    ensures height { IfOk result (λ tree. IsHeightOver left.1 right.now.1 tree.1) }
{
    if right.height().saturating_sub(left.height()) <= 1 {
        return Tree::fork(alloc, left, key, value, right.copy()?);
    }
    let Some(root) = right.branch() else {
        unreachable!()
    };
    let joined = join_to_left(alloc, left, key, value, &root.left)?;
    let outer = root.right.copy()?;
    let root_value = root.value.clone()?;
    balanced(alloc, joined, root.key, root_value, outer)
}
