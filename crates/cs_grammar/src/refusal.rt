//! Why tokens are refused.

use cs_ast::Place;
use cs_names::Name;

/// Why a token is refused if no phrase within the height limit continues with it.
#[derive(Clone, Copy)]
pub enum Reason {
    /// No phrase of any height continues with it.
    Syntax,
    /// The same, and it is a word or punctuator of C that isn't supported there.
    Unsupported,
    /// A higher phrase continues with it.
    TooDeep,
}

/// The refusal of a file's tokens, at the position of the first token that can't continue a translation unit.
#[derive(Drop)]
pub enum SyntaxRefusal {
    /// The token can't continue a translation unit.
    Syntax(Place),
    /// The same, and the token is this word or punctuator, which isn't supported there.
    Unsupported(Place, Name),
    /// A translation unit that is nested too deeply continues with the token.
    TooDeep(Place),
    /// Memory ran out.
    Memory,
}
