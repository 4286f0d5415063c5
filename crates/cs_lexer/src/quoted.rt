//! Character constants and string literals (C11 6.4.4.4, 6.4.5).
ghost use Rattle.std.specs.Prelude.{◌≡◌, ◌<◌, ◌^◌, false, drop, length, IfOk};
ghost use Rattle.cs_lexer.specs.Quoted as spec;
ghost use Rattle.cs_lexer.specs.Quoted.{TextGives, TextBodyGives};

use crate::escape::{Item, first_item};
use crate::lexeme::{Fault, Lexeme};
use crate::part::{following, front};
use cs_ast::TokenKind;
use cs_names::Bytes;
use std::alloc::{AllocError, Global};

/// Returns the number of bytes before the first quote that isn't escaped by a backslash, if there is no line feed
/// before it.
pub fn closing(quote: u8, bytes: &[u8]) -> Option<usize>
    ensures { result ≡ spec.closing quote false bytes.now }
{
    let mut escaped = false;
    for (i, byte) in bytes.iter().enumerate() {
        if *byte == b'\n' {
            return None;
        }
        if *byte == quote && !escaped {
            return Some(i);
        }
        escaped = *byte == b'\\' && !escaped;
    }
    None
}

// Returns the value of a byte as a signed char.
fn signed(byte: u8) -> i32
    ensures { result ≡ spec.signed byte }
{
    if byte < 128 {
        byte as i32
    } else {
        byte as i32 - 256
    }
}

// Returns the character constant with these bytes between its quotes.
fn character_of(body: &[u8]) -> Lexeme
    requires { length body.now < 2 ^ 32 }
    ensures { result ≡ spec.character_of body.now }
{
    if body.is_empty() {
        return Lexeme::Refused(Fault::BadByte, 0);
    }
    match first_item(body) {
        Item::Refused(fault) => Lexeme::Refused(fault, 1),
        Item::Byte(byte, size) => {
            if size < body.len() {
                Lexeme::Refused(Fault::BadByte, size + 1)
            } else {
                Lexeme::Token(body.len() + 2, TokenKind::Character(signed(byte)))
            }
        }
    }
}

/// Returns the character constant that bytes begin with; the first is its quote.
pub fn character(bytes: &[u8]) -> Lexeme
    requires { length bytes.now < 2 ^ 32 }
    ensures { result ≡ spec.character_at bytes.now }
{
    let more = following(bytes, 1);
    match closing(b'\'', more) {
        Some(count) => character_of(front(more, count)),
        None => Lexeme::Refused(Fault::Unclosed, 0),
    }
}

// Returns the string literal with these bytes between its quotes.
fn text_of(alloc: Global, body: &[u8]) -> Result<Lexeme, AllocError>
    requires { length body.now < 2 ^ 32 }
    ensures { IfOk result (λ found. TextBodyGives body.now found) }
{
    let mut values = Vec::new(alloc);
    let mut rest = body;
    while !rest.is_empty() {
        match first_item(rest) {
            Item::Byte(byte, size) => {
                values.push(byte)?;
                rest = following(rest, size);
            }
            Item::Refused(fault) => {
                return Ok(Lexeme::Refused(fault, body.len() + 1 - rest.len()));
            }
        }
    }
    Ok(Lexeme::Token(body.len() + 2, TokenKind::Text(Bytes::from_vec(values))))
}

/// Returns the string literal that bytes begin with; the first is its quote.
pub fn text(alloc: Global, bytes: &[u8]) -> Result<Lexeme, AllocError>
    requires { length bytes.now < 2 ^ 32 }
    ensures { IfOk result (λ found. TextGives bytes.now found) }
{
    let more = following(bytes, 1);
    match closing(b'"', more) {
        Some(count) => text_of(alloc, front(more, count)),
        None => Ok(Lexeme::Refused(Fault::Unclosed, 0)),
    }
}
