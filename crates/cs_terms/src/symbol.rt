//! Symbols: numbers that a path doesn't determine.

use cs_inputs::Path;

/// A symbol, by its number in a table of symbols.
#[derive(Clone, Copy, PartialEq, Eq, PartialOrd, Ord, Hash, Debug)]
pub struct Sym(pub u64);

/// What a symbol represents.
#[derive(Clone, Debug, Drop, PartialEq, Eq, PartialOrd, Ord, Hash)]
pub enum SymName {
    /// The input at a path.
    Input(Path),
    /// The number that a run lists as its guess at this event.
    Guess(u64),
}
