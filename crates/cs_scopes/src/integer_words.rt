//! The words of integer types (C11 6.7.2, paragraph 2).
ghost use Rattle.std.specs.Prelude.{◌≡◌};
ghost use Rattle.cs_scopes.specs.TypeNames.{is_word, char_type, named_by};

use cs_ast::raw::written_type::{IntegerWord, TypeWord};
use cs_types::IntType;

/// How often each word that distinguishes integer types occurs among some words.
#[derive(Clone, Copy, Debug)]
pub struct IntegerWords {
    pub char: usize,
    pub short: usize,
    pub long: usize,
    pub signed: usize,
    pub unsigned: usize,
}

impl IntegerWords {
    /// Returns the integer type that they name.
    #[tactic(auto, unfolding(crate::specs::TypeNames::named_by))]
    pub fn named(self) -> IntType
        ensures { result ≡ named_by self }
    {
        let unsigned = self.unsigned > 0;
        if self.char > 0 {
            return char_type(self.signed > 0, unsigned);
        }
        let (signed_one, unsigned_one) = if self.short > 0 {
            (IntType::Short, IntType::UShort)
        } else if self.long > 1 {
            (IntType::LLong, IntType::ULLong)
        } else if self.long > 0 {
            (IntType::Long, IntType::ULong)
        } else {
            (IntType::Int, IntType::UInt)
        };
        if unsigned { unsigned_one } else { signed_one }
    }
}

/// Whether the word is this word of an integer type.
pub fn is_word(kind: IntegerWord, word: &TypeWord) -> bool
    ensures { result ≡ is_word kind word.now }
{
    match word {
        TypeWord::Integer(other) => kind as u8 == *other as u8,
        _ => false,
    }
}

// The character type with a sign, without one, or neither.
fn char_type(signed: bool, unsigned: bool) -> IntType
    ensures { result ≡ char_type signed unsigned }
{
    if unsigned {
        IntType::UChar
    } else if signed {
        IntType::SChar
    } else {
        IntType::Char
    }
}
