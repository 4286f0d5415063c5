//! Why a file is refused.

use cs_grammar::SyntaxRefusal;
use cs_lexer::LexRefusal;
use cs_names::Name;
use cs_scopes::TypeRefusal;

/// The first check that a file doesn't pass. Each may also mean that memory ran out. The positions of the last two are in the files of these names.
#[derive(Drop)]
pub enum FileRefusal {
    /// It has more than `MOST_BYTES` bytes.
    TooLong,
    /// It can't be split into tokens (C11 6.4), or has too many.
    Tokens(LexRefusal),
    /// Its tokens aren't a translation unit (C11 6.9), or its tree is too high.
    Syntax(SyntaxRefusal, Vec<Name>),
    /// It has a type error (C11 6.3 to 6.9).
    Types(TypeRefusal, Vec<Name>),
}
