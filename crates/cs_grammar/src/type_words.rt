//! The words of a type, taken one by one (C11 6.7.2).
ghost use Rattle.std.specs.Prelude.{◌≡◌, true, List, IsTrue};
ghost use Rattle.cs_ast.specs.declared.raw.written_type.TypeWord.{TypeWord};
ghost use Rattle.cs_grammar.specs.TypeWords.{Names, word_of, is_type};
ghost use Rattle.cs_grammar.specs.TypesSoFar.{fit, counted, Describes, IsExtended, IsJoined, is_known};

use cs_ast::Keyword;
use cs_ast::raw::written_type::{IntegerWord, TypeWord};

/// The number of occurrences of each integer type word in a type so far.
#[derive(Clone, Copy)]
pub struct IntegerWords {
    pub char: u8,
    pub short: u8,
    pub int: u8,
    pub long: u8,
    pub signed: u8,
    pub unsigned: u8,
}

/// What the words of a type so far are, as far as it determines which words may follow.
#[derive(Clone, Copy)]
pub enum TypeSoFar {
    /// They name no type yet.
    Nothing,
    /// They are words of an integer type, which others may follow.
    Integers(IntegerWords),
    /// They name a type, which only `const` may follow.
    Whole,
}

/// Returns the word of an integer type that a keyword is, if it is one.
pub fn integer_word(keyword: Keyword) -> Option<IntegerWord>
    ensures { result ≡ word_of keyword }
{
    match keyword {
        Keyword::Char => Some(IntegerWord::Char),
        Keyword::Short => Some(IntegerWord::Short),
        Keyword::Int => Some(IntegerWord::Int),
        Keyword::Long => Some(IntegerWord::Long),
        Keyword::Signed => Some(IntegerWord::Signed),
        Keyword::Unsigned => Some(IntegerWord::Unsigned),
        _ => None,
    }
}

const NONE: IntegerWords = IntegerWords {
    char: 0,
    short: 0,
    int: 0,
    long: 0,
    signed: 0,
    unsigned: 0,
};

impl IntegerWords {
    // Returns the words with one more.
    fn with(self, word: IntegerWord) -> IntegerWords
        ensures { fit self ≡ true → result ≡ counted word self }
    {
        let mut all = self;
        match word {
            IntegerWord::Char => all.char = all.char.saturating_add(1),
            IntegerWord::Short => all.short = all.short.saturating_add(1),
            IntegerWord::Int => all.int = all.int.saturating_add(1),
            IntegerWord::Long => all.long = all.long.saturating_add(1),
            IntegerWord::Signed => all.signed = all.signed.saturating_add(1),
            IntegerWord::Unsigned => all.unsigned = all.unsigned.saturating_add(1),
        }
        all
    }

    // Whether the words form a type or a part of one.
    fn fit(self) -> bool
        ensures { result ≡ fit self }
    {
        let signs = self.signed.saturating_add(self.unsigned);
        let sizes = self.char.saturating_add(self.short);
        let joins_char = self.int.saturating_add(self.long);
        signs <= 1
            && self.int <= 1
            && sizes <= 1
            && self.long <= 2
            && (self.char == 0 || joins_char == 0)
            && (self.short == 0 || self.long == 0)
    }

    // Returns the words with one more, if they still form a type or a part of one.
    fn joined(self, word: IntegerWord) -> Option<IntegerWords>
        ensures { fit self ≡ true → IsJoined self word result }
    {
        let all = self.with(word);
        if all.fit() { Some(all) } else { None }
    }
}

impl TypeSoFar {
    /// Returns the description of the words with one more, none if no type begins with them.
    pub fn with(self, next: &TypeWord) -> Option<TypeSoFar>
        ensures { (names : Names) (words : List TypeWord) → Describes names self words
            → IsTrue (is_known names next.now) → IsExtended names words next.now result }
    {
        match (self, next) {
            (_, TypeWord::Const) => Some(self),
            (TypeSoFar::Nothing, TypeWord::Integer(word)) => Some(TypeSoFar::Integers(NONE.with(
                *word,
            ))),
            (TypeSoFar::Nothing, TypeWord::Void) => Some(TypeSoFar::Whole),
            (TypeSoFar::Nothing, TypeWord::Typedef(_)) => Some(TypeSoFar::Whole),
            (TypeSoFar::Nothing, TypeWord::Struct(_)) => Some(TypeSoFar::Whole),
            (TypeSoFar::Nothing, TypeWord::Enum(_)) => Some(TypeSoFar::Whole),
            (TypeSoFar::Integers(all), TypeWord::Integer(word)) => {
                Some(TypeSoFar::Integers(all.joined(*word)?))
            }
            _ => None,
        }
    }

    /// Whether the words name a type.
    pub fn is_type(self) -> bool
        ensures { (names : Names) (words : List TypeWord) → Describes names self words
            → result ≡ is_type names words }
    {
        match self {
            TypeSoFar::Nothing => false,
            TypeSoFar::Integers(_) | TypeSoFar::Whole => true,
        }
    }
}
