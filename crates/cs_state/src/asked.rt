//! The operations that a path guesses.

use cs_ast::typed::operator::{BinOp, CmpOp};
use cs_ranges::Interval;
use cs_terms::{Lin, Lin2, Sym};
use cs_types::IntType;

/// An operation that isn't followed exactly.
#[derive(Clone, Copy)]
pub enum Asks {
    /// An integer operator, in a type.
    Binary(BinOp, IntType),
    /// A conversion to a type.
    Convert(IntType),
    Compare(CmpOp),
    /// An order test other than that of `calloc`.
    Order,
    /// The order test of `calloc`.
    Product,
    /// A pointer sum.
    Sum,
    /// A pointer difference.
    Difference,
}

/// When the own result of a guessed comparison or order test is 1: exactly where this comparison of the term
/// with 0 holds.
#[derive(Clone, Copy)]
pub struct Fact {
    pub op: CmpOp,
    pub term: Lin2,
}

/// The least and the greatest number that the symbol of each operand may have directly before the event; both
/// are 0 for an operand without a symbol.
#[derive(Clone, Copy)]
pub struct Ends {
    pub left: Interval,
    pub right: Interval,
}

/// A guess: its event, its symbol, and the operation whose result it replaces.
#[derive(Clone, Copy)]
pub struct Asked {
    pub event: u64,
    pub guess: Sym,
    pub asks: Asks,
    /// The operands, as terms before the event.
    pub left: Lin,
    pub right: Lin,
    pub ends: Ends,
    /// Present for a guessed comparison, and for an order test other than that of `calloc`.
    pub fact: Option<Fact>,
}
