//! The purposes for which expressions are typed.

/// The purpose for which an expression is typed.
#[derive(Clone, Copy, PartialEq, Eq)]
pub enum Purpose {
    /// It is evaluated when the program runs.
    Run,
    /// Its number is needed: it has to be an integer constant expression (C11 6.6).
    Constant,
    /// It is an unevaluated operand of an integer constant expression: it has to be constant, but its operators need no result.
    Unneeded,
}
