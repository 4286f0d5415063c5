//! The piece that bytes begin with.
ghost use Rattle.std.specs.Prelude.{◌≡◌, ◌<◌, ◌^◌, length, IfOk};
ghost use Rattle.std.specs.List.{take_while};
ghost use Rattle.cs_lexer.specs.Pieces as spec;
ghost use Rattle.cs_lexer.specs.Pieces.{Begins};
ghost use Rattle.cs_lexer.specs.Classes as classes;

use crate::byte::{is_digit, is_letter, is_name_byte, is_space};
use crate::comment::{comment, line_length};
use crate::directive::directive;
use crate::lexeme::Lexeme;
use crate::number::number;
use crate::part::{begins_with, front};
use crate::punctuator::punctuator;
use crate::quoted::{character, text};
use crate::word::word;
use std::alloc::{AllocError, Global};

/// The classes of pieces, determined by their first bytes.
#[derive(Clone, Copy)]
enum Class {
    /// A line that begins with `#`.
    Directive,
    Space,
    BlockComment,
    LineComment,
    Word,
    Number,
    Character,
    Text,
    Punctuator,
}

// Returns the class of the piece that bytes begin with. `is_line_start`: only blanks are before it on its line.
fn class_of(is_line_start: bool, bytes: &[u8]) -> Class
    ensures { result ≡ spec.class_of is_line_start bytes.now }
{
    let Some((first, rest)) = bytes.split_first() else {
        return Class::Punctuator;
    };
    if is_line_start && *first == b'#' {
        Class::Directive
    } else if is_space(*first) {
        Class::Space
    } else if *first == b'/' && begins_with(rest, b'*') {
        Class::BlockComment
    } else if *first == b'/' && begins_with(rest, b'/') {
        Class::LineComment
    } else if is_letter(*first) {
        Class::Word
    } else {
        other_class(*first)
    }
}

// Returns the class of a piece that is no space, comment or word, from its first byte.
fn other_class(first: u8) -> Class
    ensures { result ≡ spec.other_class first }
{
    if is_digit(first) {
        Class::Number
    } else if first == b'\'' {
        Class::Character
    } else if first == b'"' {
        Class::Text
    } else {
        Class::Punctuator
    }
}

// Returns the number of leading bytes that are white space.
fn space_length(bytes: &[u8]) -> usize
    ensures { result ≡ length (take_while classes.is_space bytes.now) }
{
    bytes.iter().take_while(|byte| is_space(**byte)).count()
}

// Returns the number of leading bytes that can continue a name.
fn word_length(bytes: &[u8]) -> usize
    ensures { result ≡ length (take_while classes.is_name_byte bytes.now) }
{
    bytes.iter().take_while(|byte| is_name_byte(**byte)).count()
}

// Returns the bytes of the leading word.
fn leading_word(bytes: &[u8]) -> &[u8]
    ensures { result.now ≡ take_while classes.is_name_byte bytes.now }
{
    front(bytes, word_length(bytes))
}

/// Returns the piece that bytes, which aren't empty, begin with.
pub fn piece(alloc: Global, is_line_start: bool, bytes: &[u8]) -> Result<Lexeme, AllocError>
    requires { length bytes.now < 2 ^ 32 }
    ensures { IfOk result (λ found. Begins is_line_start bytes.now found) }
{
    match class_of(is_line_start, bytes) {
        Class::Directive => directive(alloc, bytes),
        Class::Space => Ok(Lexeme::Gap(space_length(bytes))),
        Class::BlockComment => Ok(comment(bytes)),
        Class::LineComment => Ok(Lexeme::Gap(line_length(bytes))),
        Class::Word => word(alloc, leading_word(bytes)),
        Class::Number => Ok(number(bytes)),
        Class::Character => Ok(character(bytes)),
        Class::Text => text(alloc, bytes),
        Class::Punctuator => Ok(punctuator(bytes)),
    }
}
