//! Why a text has no tokens.
ghost use Rattle.std.specs.Prelude.{◌≡◌};
ghost use Rattle.cs_lexer.specs.declared.refusal.LexRefusal.TheVariants.{Memory};
ghost use Rattle.cs_lexer.specs.Lexing as spec;

use crate::lexeme::Fault;
use cs_ast::Place;
use cs_names::Name;
use std::alloc::{AllocError, AllocFailed};
use thiserror::Error;

/// Why a text has no tokens, and where, with the name of the file. The first cause in the text is reported, and at one
/// position the first cause here.
#[derive(PartialEq, Eq, Debug, Error, Drop)]
pub enum LexRefusal {
    /// A byte that begins no token, an unknown escape, an empty character constant, or a byte that isn't allowed after
    /// a number or in a character constant.
    #[error("a bad byte")]
    BadByte(Place, Name),
    /// A comment, a character constant or a string literal that isn't closed, or not on its line; the position is its
    /// first byte.
    #[error("not closed")]
    Unclosed(Place, Name),
    /// An integer constant that is too large for its types, or an escape whose value exceeds a byte.
    #[error("a number that is too large")]
    WideNumber(Place, Name),
    /// A line that begins with `#` and is neither a linemarker nor a pragma.
    #[error("a bad line")]
    BadLine(Place, Name),
    /// More than 400,000 tokens begin.
    #[error("too many tokens")]
    TooManyTokens,
    /// Memory ran out.
    #[error("out of memory")]
    Memory,
}

impl LexRefusal {
    /// Returns the refusal for a fault at a position in a file.
    pub fn of(fault: Fault, place: Place, file: Name) -> LexRefusal
        ensures { result ≡ spec.refusal_of fault place file }
    {
        match fault {
            Fault::BadByte => LexRefusal::BadByte(place, file),
            Fault::Unclosed => LexRefusal::Unclosed(place, file),
            Fault::WideNumber => LexRefusal::WideNumber(place, file),
            Fault::BadLine => LexRefusal::BadLine(place, file),
        }
    }
}

impl From<AllocError> for LexRefusal {
    ghost from_gives = { λ _ refusal. refusal ≡ Memory };

    fn from(_error: AllocError) -> LexRefusal {
        LexRefusal::Memory
    }
}

impl<T: Drop> From<AllocFailed<T>> for LexRefusal {
    ghost from_gives = { λ _ refusal. refusal ≡ Memory };

    fn from(_error: AllocFailed<T>) -> LexRefusal {
        LexRefusal::Memory
    }
}
