//! Paths to the cells whose contents a run doesn't determine, and their order.
ghost use Rattle.std.specs.Prelude.{◌≡◌, IfOk};
ghost use Rattle.cs_inputs.specs.PathOrder.{path_order};

use crate::cells::Cells;
use cs_names::Name;
use std::alloc::AllocError;
use std::cmp::Ordering;

/// The beginning of a path. Roots are ordered by kind, in the order of these variants, then by name or by numbers.
#[derive(Clone, Debug, Drop, PartialEq, Eq, PartialOrd, Ord, Hash)]
pub enum Root {
    /// A parameter of the entry.
    Param(Name),
    /// A global object.
    Global(Name),
    /// The result of a call of a function without a body, by the call's number in the run from 1.
    Call(u64),
    /// What such a call wrote through one of its arguments, by the argument's number from 0.
    Wrote(u64, u64),
    /// Whether an allocation returns a block, by the allocation's number in the run from 1.
    Malloc(u64),
}

/// A root and the cells that the path follows from it. Paths are ordered by root, then by cells, a prefix first.
#[derive(Clone, Debug, Drop, PartialEq, Eq, PartialOrd, Ord, Hash)]
pub struct Path {
    pub root: Root,
    pub cells: Cells,
}

impl Path {
    /// Returns a copy of the path.
    pub fn copy(&self) -> Result<Path, AllocError>
        ensures { IfOk result (λ made. made ≡ self.now) }
    {
        self.clone()
    }

    /// Compares two paths in path order.
    pub fn order(&self, other: &Path) -> Ordering
        ensures { result ≡ path_order self.now other.now }
    {
        self.cmp(other)
    }
}
