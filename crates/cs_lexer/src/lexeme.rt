//! The result for the first piece of a text.

use cs_ast::TokenKind;
use cs_names::Name;

/// Why a text has no tokens, with respect to a position in it. If two apply at one position, the first here is
/// reported.
#[derive(Clone, Copy)]
pub enum Fault {
    /// A byte that begins no token, or that isn't allowed where it is.
    BadByte,
    /// A comment, a character constant or a string literal that isn't closed, or not on its line.
    Unclosed,
    /// An integer constant or an escape whose value is too large.
    WideNumber,
    /// A line that begins with `#` and is neither a linemarker nor a pragma.
    BadLine,
}

/// The piece that bytes begin with, with its length in bytes, or its fault.
#[derive(Drop)]
pub enum Lexeme {
    /// White space, a comment, a pragma or an ignored word.
    Gap(usize),
    /// A linemarker: the number of the line after it, if there is one, and the name of the file, if the marker has one.
    Marker(usize, Option<u32>, Option<Name>),
    /// A token.
    Token(usize, TokenKind),
    /// A fault, and the number of bytes of the piece before the fault's position.
    Refused(Fault, usize),
}
