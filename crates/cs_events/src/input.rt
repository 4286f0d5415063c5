//! Inputs that a run looks up.

use cs_inputs::Path;
use cs_types::IntType;

/// What the number of an input determines.
#[derive(Clone, Copy, PartialEq, Eq)]
pub enum InputKind {
    /// A number of an integer type.
    Integer(IntType),
    /// A pointer: null for 0, else a pointer to a block of its own.
    Pointer,
    /// A block of an allocation, or none for 0.
    Allocation,
    /// Nothing: no scalar begins at the end of the path.
    Nothing,
}

/// An input that was looked up.
#[derive(Drop)]
pub struct Lookup {
    pub path: Path,
    pub kind: InputKind,
}
