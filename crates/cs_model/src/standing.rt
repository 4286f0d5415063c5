//! The standing of objects in a run.

/// Whether the lifetime of an object has ended (C11 6.2.4).
#[derive(Clone, Copy, PartialEq, Eq, Debug)]
pub enum Standing {
    Live,
    /// A block that was freed.
    Freed,
    /// A local of a frame that has ended.
    Ended,
}

/// What a freed pointer points to (C11 7.22.3.3).
#[derive(Clone, Copy, PartialEq, Eq, Debug)]
pub enum Freeable {
    /// A local, a file-scope object or a string literal: it can't be freed.
    Fixed,
    /// A block that was not freed.
    Live,
    /// A block that was freed.
    Freed,
}
