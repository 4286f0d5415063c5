//! The values that cells hold.

use cs_terms::Lin;

/// The default binding of a base region: what all cells hold to which no value was bound since.
#[derive(Clone, Copy, PartialEq, Eq, Debug)]
pub enum Fill {
    /// They were never written.
    Unset,
    /// They hold zeros: 0, or null.
    Zero,
    /// They hold the inputs at the paths that begin with the base region's own.
    Input,
    /// They hold what a call of a function without a body wrote: the call's number in the run, from 1, and
    /// the number of the argument through which it wrote, from 0.
    Wrote(u64, u64),
}

/// The value of a cell or an expression. Base regions are named by their numbers in the table of base regions.
#[derive(Clone, Copy, PartialEq, Eq, Debug)]
pub enum Value {
    /// An integer.
    Number(Lin),
    Null,
    /// A pointer to the byte at this offset of a base region.
    At(u64, Lin),
    /// Null, or a pointer to the byte at this offset of a start block: no test has decided yet which of the two.
    Start(u64, u64),
    /// A value that was never written.
    Unset,
}

/// What a store holds at an offset of a base region.
#[derive(Clone, Copy, PartialEq, Eq, Debug)]
pub enum Binding {
    /// The value that was bound there.
    Direct(Value),
    /// The fill of the base region, if no value was bound since.
    Fill(Fill),
}
