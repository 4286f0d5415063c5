//! Words: keywords, unsupported words, ignored words, names.
ghost use Rattle.std.specs.Prelude.{◌≡◌, IfOk};
ghost use Rattle.std.specs.List.{list_any};
ghost use Rattle.std.specs.Prelude.{nat_eq};
ghost use Rattle.std.specs.Cmp.Lexicographic.{pointwise};
ghost use Rattle.cs_lexer.specs.Words as spec;
ghost use Rattle.cs_lexer.specs.Words.{WordGives};

use crate::lexeme::Lexeme;
use crate::spelling::{keyword_spelled, unsupported_spelled};
use cs_ast::TokenKind;
use cs_names::Name;
use std::alloc::{AllocError, Global};

const DROPPED: [&[u8]; 12] = [
    b"__extension__",
    b"__inline",
    b"__inline__",
    b"__restrict",
    b"__restrict__",
    b"restrict",
    b"volatile",
    b"__volatile__",
    b"extern",
    b"register",
    b"inline",
    b"__const",
];

const ATTRIBUTES: [&[u8]; 2] = [b"__attribute__", b"__attribute"];

// Whether a word is one of these.
fn is_among(text: &[u8], words: &[&[u8]]) -> bool
    ensures { result ≡ list_any (λ word. pointwise nat_eq text.now word.now) words.now }
{
    words.iter().any(|word| text == *word)
}

// Whether a word is ignored wherever it occurs.
#[tactic(auto, unfolding(crate::specs::Words::dropped_words))]
fn is_dropped(text: &[u8]) -> bool
    ensures { result ≡ spec.is_dropped text.now }
{
    is_among(text, &DROPPED)
}

// Whether a word begins an attribute.
#[tactic(auto, unfolding(crate::specs::Words::attribute_words))]
fn is_attribute(text: &[u8]) -> bool
    ensures { result ≡ spec.is_attribute text.now }
{
    is_among(text, &ATTRIBUTES)
}

/// Returns what a word is: a token, or a gap if it is ignored.
pub fn word(alloc: Global, text: &[u8]) -> Result<Lexeme, AllocError>
    ensures { IfOk result (λ found. WordGives text.now found) }
{
    if let Some(keyword) = keyword_spelled(text) {
        return Ok(Lexeme::Token(text.len(), TokenKind::Keyword(keyword)));
    }
    if let Some(unsupported) = unsupported_spelled(text) {
        return Ok(Lexeme::Token(text.len(), TokenKind::Unsupported(unsupported)));
    }
    if is_dropped(text) {
        return Ok(Lexeme::Gap(text.len()));
    }
    if is_attribute(text) {
        return Ok(Lexeme::Token(text.len(), TokenKind::Attribute));
    }
    let name = Name::from_slice(alloc, text)?;
    Ok(Lexeme::Token(text.len(), TokenKind::Name(name)))
}
