//! The operations about which checkers are queried.

use cs_model::{Freeable, Standing};
use cs_terms::{Lin, Lin2};

/// An operation that is about to be done: the parts on which a fault can depend.
#[derive(Clone, Copy, PartialEq, Eq, Debug)]
pub enum Subject {
    /// An access, or `->`, through a pointer.
    Through { null: bool },
    /// A pointer that is moved by an amount.
    Move { null: bool, amount: Lin },
    /// A division or a remainder by a number.
    Divisor { term: Lin },
    /// A load from a cell, or the use of a call's result.
    Cell { unset: bool },
    /// A pointer that is within bounds exactly if this term isn't below 0.
    Rest { term: Lin2 },
    /// An access at an offset: whether a cell of its type begins there.
    Slot { fits: bool },
    /// `free` of a pointer to this byte of a block.
    Release { block: Freeable, offset: Lin },
    /// An access to an object.
    Reached { standing: Standing },
    /// A shift by a count of an operand of this many bits.
    Shift { count: Lin, width: u32 },
    /// An order comparison or a difference of two pointers: whether they point to the same object.
    Pair { same: bool },
    /// A store to an object.
    Written { constant: bool },
}
