//! Bytes and escapes of character constants and string literals (C11 6.4.4.4).
ghost use Rattle.std.specs.Prelude.{◌≡◌, ◌<◌, length};
ghost use Rattle.cs_lexer.specs.Escapes as spec;

use crate::byte::is_octal_digit;
use crate::digits::{Base, digit_count, is_digit_of, leading_value};
use crate::lexeme::Fault;
use crate::part::front;

/// The first byte that a constant or a literal represents, with the number of source bytes that it takes.
#[derive(Clone, Copy)]
pub enum Item {
    Byte(u8, usize),
    Refused(Fault),
}

// Returns the byte that a simple escape represents: a backslash and this byte.
fn simple(byte: u8) -> Option<u8>
    ensures { result ≡ spec.simple byte }
{
    match byte {
        b'\'' => Some(b'\''),
        b'"' => Some(b'"'),
        b'?' => Some(b'?'),
        b'\\' => Some(b'\\'),
        b'a' => Some(7),
        b'b' => Some(8),
        b'f' => Some(12),
        b'n' => Some(10),
        b'r' => Some(13),
        b't' => Some(9),
        b'v' => Some(11),
        _ => None,
    }
}

// Returns the byte with this value, if it is one, which takes this number of source bytes.
fn byte_of(value: Option<u64>, size: usize) -> Item
    ensures { result ≡ spec.byte_of value size }
{
    match value {
        Some(value) => {
            if value <= 255 {
                Item::Byte(value as u8, size)
            } else {
                Item::Refused(Fault::WideNumber)
            }
        }
        None => Item::Refused(Fault::WideNumber),
    }
}

// Returns the byte that the leading digits represent, with the number of source bytes before them.
fn coded(base: Base, bytes: &[u8], before: usize) -> Item
    requires { before < 3 }
    ensures { result ≡ spec.coded base bytes.now before }
{
    byte_of(
        leading_value(base, bytes),
        before + digit_count(base, bytes),
    )
}

// Whether the first byte is a hexadecimal digit.
fn begins_hexadecimal(bytes: &[u8]) -> bool
    ensures { result ≡ spec.begins_hexadecimal bytes.now }
{
    match bytes.split_first() {
        Some((first, _)) => is_digit_of(Base::Hexadecimal, *first),
        None => false,
    }
}

// Returns the escape that these bytes are the rest of, after its backslash.
fn escape(bytes: &[u8]) -> Item
    ensures { result ≡ spec.escape bytes.now }
{
    match bytes.split_first() {
        Some((first, rest)) => match simple(*first) {
            Some(byte) => Item::Byte(byte, 2),
            None => {
                if is_octal_digit(*first) {
                    coded(Base::Octal, front(bytes, 3), 1)
                } else if *first == b'x' && begins_hexadecimal(rest) {
                    coded(Base::Hexadecimal, rest, 2)
                } else {
                    Item::Refused(Fault::BadByte)
                }
            }
        },
        None => Item::Refused(Fault::BadByte),
    }
}

/// Returns the first byte that these bytes represent.
pub fn first_item(bytes: &[u8]) -> Item
    ensures value { result ≡ spec.item_at bytes.now }
    ensures size { spec.Advances result }
{
    match bytes.split_first() {
        Some((first, rest)) => {
            if *first == b'\\' {
                escape(rest)
            } else {
                Item::Byte(*first, 1)
            }
        }
        None => Item::Refused(Fault::BadByte),
    }
}
