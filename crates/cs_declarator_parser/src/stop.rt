//! The results that the parts of the parser return to one another.

pub use cs_expr_parser::Stop;
use cs_grammar::Reason;

/// A tree that tokens begin with.
#[derive(Drop)]
pub struct Taken<T> {
    pub tree: T,
    /// The height of the tree, or of the highest of some trees.
    pub height: u32,
    /// The index of the token after the tree.
    pub next: usize,
}

/// A tree that tokens begin with, and that may end with an expression.
#[derive(Drop)]
pub struct Unclosed<T> {
    pub tree: T,
    /// The height of the tree.
    pub height: u32,
    /// The index of the token after the tree.
    pub next: usize,
    /// Why the token after the tree is refused, if the caller can't continue with it either.
    pub otherwise: Reason,
}
