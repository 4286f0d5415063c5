//! Positions of frames in the code.

/// The position of a frame: a block of its function, and how many steps of the block are done. A counted point, if the block has one, is the
/// first step.
#[derive(Clone, Copy)]
pub struct Position {
    pub block: u32,
    pub done: usize,
}
