//! The operators of typed expressions, and the choices that some of them carry.

/// The arithmetic operators on two integers (C11 6.5.5 to 6.5.7, 6.5.10 to 6.5.12).
#[derive(Clone, Copy, Debug, PartialEq, Eq)]
pub enum BinOp {
    Add,
    Sub,
    Mul,
    Div,
    Rem,
    Shl,
    Shr,
    And,
    Xor,
    Or,
}

/// The arithmetic operators on one integer (C11 6.5.3.3).
#[derive(Clone, Copy, Debug, PartialEq, Eq)]
pub enum UnOp {
    /// `-`
    Negate,
    /// `~`
    Complement,
}

/// The comparisons (C11 6.5.8, 6.5.9).
#[derive(Clone, Copy, Debug, PartialEq, Eq)]
pub enum CmpOp {
    Less,
    AtMost,
    More,
    AtLeast,
    Equal,
    Differs,
}

/// The direction in which a pointer moves.
#[derive(Clone, Copy, Debug, PartialEq, Eq)]
pub enum Direction {
    Forward,
    Back,
}

/// Which of two values is the result of an update (C11 6.5.2.4, 6.5.16).
#[derive(Clone, Copy, Debug, PartialEq, Eq)]
pub enum Gives {
    /// The value before the update.
    Old,
    /// The value after the update.
    New,
}

/// Which of a pointer and its amount comes first in the file, and is evaluated first.
#[derive(Clone, Copy, Debug, PartialEq, Eq)]
pub enum Order {
    PointerFirst,
    AmountFirst,
}

/// The function that allocates (C11 7.22.3).
#[derive(Clone, Copy, Debug, PartialEq, Eq)]
pub enum Allocator {
    Malloc,
    Calloc,
}
