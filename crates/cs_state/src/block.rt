//! What is known of start blocks and heap blocks.

use cs_model::Standing;
use cs_terms::{Lin, Sym};

/// A type, by its number in the table of types.
#[derive(Clone, Copy, PartialEq, Eq)]
pub struct TypeNumber(pub u64);

/// A start block or a heap block. The program determines the extent and the type of any other object.
#[derive(Clone, Copy)]
pub struct Block {
    /// Its size in bytes.
    pub extent: Lin,
    pub standing: Standing,
    /// The type of its elements.
    pub element: TypeNumber,
    /// The symbol whose number isn't 0 exactly if the block exists: that of the pointer to a start block, or
    /// of the allocation of a heap block.
    pub sym: Sym,
    /// The number of the event that allocated a heap block; 0 for a start block.
    pub made_by: u64,
}
