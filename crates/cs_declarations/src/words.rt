//! The words of types among specifiers (C11 6.7.2).
ghost use Rattle.std.specs.Prelude.{◌≡◌, option_copied};
ghost use Rattle.cs_scopes.specs.TypeNames.{times, integer_type, whole_word};
ghost use Rattle.cs_declarations.specs.Bodies.{plain_words, is_kind};

use cs_ast::raw::declaration::SpecWord;
use cs_ast::raw::written_type::{IntegerWord, TypeWord};
use cs_scopes::{IntegerWords, is_word};
use cs_types::IntType;

// How often a word of an integer type occurs among these.
#[tactic(auto, using(crate::proofs::PlainWords::times_plain))]
fn times(kind: IntegerWord, words: &[SpecWord]) -> usize
    ensures { result ≡ times kind (plain_words words.now) }
{
    words.iter().filter(|word| is_kind(kind, word)).count()
}

// Whether the word is this word of an integer type.
fn is_kind(kind: IntegerWord, word: &SpecWord) -> bool
    ensures { result ≡ is_kind kind word.now }
{
    match word {
        SpecWord::Plain(word) => is_word(kind, word),
        _ => false,
    }
}

/// Returns the integer type that words name.
#[tactic(auto, unfolding(cs_scopes::specs::TypeNames::integer_type))]
pub fn integer_type(words: &[SpecWord]) -> IntType
    ensures { result ≡ integer_type (plain_words words.now) }
{
    let counts = IntegerWords {
        char: times(IntegerWord::Char, words),
        short: times(IntegerWord::Short, words),
        long: times(IntegerWord::Long, words),
        signed: times(IntegerWord::Signed, words),
        unsigned: times(IntegerWord::Unsigned, words),
    };
    counts.named()
}

/// Returns the word that names a type that isn't an integer type, if there is one.
pub fn whole_word(words: &[SpecWord]) -> Option<&TypeWord>
    ensures { option_copied result ≡ whole_word (plain_words words.now) }
{
    for word in words {
        match word {
            SpecWord::Plain(TypeWord::Const) | SpecWord::Plain(TypeWord::Integer(_)) => {}
            SpecWord::Plain(named) => return Some(named),
            _ => {}
        }
    }
    None
}
