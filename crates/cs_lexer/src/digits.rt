//! Digits and their values.
ghost use Rattle.std.specs.Prelude.{◌≡◌, ◌<◌, length, IsTrue};
ghost use Rattle.std.specs.List.{list_all};
ghost use Rattle.cs_lexer.specs.Digits as spec;
ghost use Rattle.cs_lexer.specs.Digits.{run, value_of};

use crate::byte::{is_digit, is_hexadecimal_digit, is_octal_digit};
use std::str;

/// The base of a number.
#[derive(Clone, Copy)]
pub enum Base {
    Octal,
    Decimal,
    Hexadecimal,
}

// Returns the number of digits of a base.
fn radix(base: Base) -> u32
    ensures { result ≡ spec.radix base }
{
    match base {
        Base::Octal => 8,
        Base::Decimal => 10,
        Base::Hexadecimal => 16,
    }
}

/// Whether a byte is a digit in a base.
pub fn is_digit_of(base: Base, byte: u8) -> bool
    ensures { result ≡ spec.is_digit_of base byte }
{
    match base {
        Base::Octal => is_octal_digit(byte),
        Base::Decimal => is_digit(byte),
        Base::Hexadecimal => is_hexadecimal_digit(byte),
    }
}

/// Returns the number of leading bytes that are digits in a base.
pub fn digit_count(base: Base, bytes: &[u8]) -> usize
    ensures { result ≡ length (run base bytes.now) }
{
    bytes
        .iter()
        .take_while(|byte| is_digit_of(base, **byte))
        .count()
}

// Returns the value of digits, if it fits 64 bits.
fn value(base: Base, digits: &[u8]) -> Option<u64>
    requires some { 0 < length digits.now }
    requires digits { IsTrue (list_all (spec.is_digit_of base) digits.now) }
    ensures { result ≡ value_of base digits.now }
{
    match str::from_utf8(digits) {
        Ok(text) => match u64::from_str_radix(text, radix(base)) {
            Ok(number) => Some(number),
            Err(_) => None,
        },
        Err(_) => None,
    }
}

/// Returns the value of the leading digits, 0 if there are none, if it fits 64 bits.
pub fn leading_value(base: Base, bytes: &[u8]) -> Option<u64>
    ensures { result ≡ value_of base (run base bytes.now) }
{
    let count = digit_count(base, bytes);
    if count == 0 {
        return Some(0);
    }
    value(base, &bytes[..count])
}
