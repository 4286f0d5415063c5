//! Integer constants (C11 6.4.4.1).
ghost use Rattle.std.specs.Prelude.{◌≡◌, ◌<◌, ◌^◌, length};
ghost use Rattle.cs_lexer.specs.Numbers as spec;

use crate::byte::is_name_byte;
use crate::digits::{Base, digit_count, is_digit_of, leading_value};
use crate::lexeme::{Fault, Lexeme};
use crate::part::{begins_with, following};
use cs_ast::{IntegerConstant, Length, TokenKind};

// Whether bytes begin with `0x` or `0X` and a hexadecimal digit.
fn is_hexadecimal(bytes: &[u8]) -> bool
    ensures { result ≡ spec.is_hexadecimal bytes.now }
{
    match bytes {
        [first, second, third, ..] => {
            *first == b'0'
                && (*second == b'x' || *second == b'X')
                && is_digit_of(Base::Hexadecimal, *third)
        }
        _ => false,
    }
}

// Returns the base in which bytes are written.
fn base_of(bytes: &[u8]) -> Base
    ensures { result ≡ spec.base_of bytes.now }
{
    if is_hexadecimal(bytes) {
        Base::Hexadecimal
    } else if begins_with(bytes, b'0') {
        Base::Octal
    } else {
        Base::Decimal
    }
}

// Returns the number of bytes before the digits.
fn prefix_length(base: Base) -> usize
    ensures { result ≡ spec.prefix_length base }
{
    match base {
        Base::Hexadecimal => 2,
        _ => 0,
    }
}

// Whether the first byte is `u` or `U`.
fn begins_unsigned(bytes: &[u8]) -> bool
    ensures { result ≡ spec.begins_unsigned bytes.now }
{
    begins_with(bytes, b'u') || begins_with(bytes, b'U')
}

// Whether bytes begin with this byte twice.
fn begins_twice(bytes: &[u8], byte: u8) -> bool
    ensures { result ≡ spec.begins_twice byte bytes.now }
{
    match bytes.split_first() {
        Some((first, rest)) => *first == byte && begins_with(rest, byte),
        None => false,
    }
}

// Returns the length suffix that bytes begin with.
fn longs(bytes: &[u8]) -> Length
    ensures { result ≡ spec.longs bytes.now }
{
    if begins_twice(bytes, b'l') || begins_twice(bytes, b'L') {
        Length::LongLong
    } else if begins_with(bytes, b'l') || begins_with(bytes, b'L') {
        Length::Long
    } else {
        Length::Plain
    }
}

// Returns the number of bytes of such a suffix.
fn width(length: Length) -> usize
    ensures { result ≡ spec.width length }
{
    match length {
        Length::Plain => 0,
        Length::Long => 1,
        Length::LongLong => 2,
    }
}

/// The suffix of an integer constant.
#[derive(Clone, Copy)]
struct Suffix {
    unsigned: bool,
    length: Length,
    bytes: usize,
}

// Returns the longest suffix that bytes begin with: `u` and `l`s in either order.
fn suffix_at(bytes: &[u8]) -> Suffix
    ensures { result ≡ spec.suffix_of bytes.now }
{
    if begins_unsigned(bytes) {
        let length = longs(following(bytes, 1));
        return Suffix {
            unsigned: true,
            length,
            bytes: 1 + width(length),
        };
    }
    let length = longs(bytes);
    let count = width(length);
    if begins_unsigned(following(bytes, count)) {
        Suffix {
            unsigned: true,
            length,
            bytes: count + 1,
        }
    } else {
        Suffix {
            unsigned: false,
            length,
            bytes: count,
        }
    }
}

// Whether the first byte would continue a number or a name.
fn goes_on(bytes: &[u8]) -> bool
    ensures { result ≡ spec.goes_on bytes.now }
{
    match bytes.split_first() {
        Some((first, _)) => is_name_byte(*first) || *first == b'.',
        None => false,
    }
}

// Whether no signed type holds the value of a decimal constant without `u`.
fn is_too_wide(base: Base, suffix: Suffix, value: u64) -> bool
    ensures { result ≡ spec.is_too_wide base suffix value }
{
    match base {
        Base::Decimal => !suffix.unsigned && value >= 1 << 63,
        _ => false,
    }
}

// Whether a base is decimal.
fn is_decimal(base: Base) -> bool
    ensures { result ≡ spec.is_decimal base }
{
    matches!(base, Base::Decimal)
}

// Returns the constant with this value and suffix, which takes this number of the bytes.
fn constant(base: Base, value: Option<u64>, suffix: Suffix, size: usize, bytes: &[u8]) -> Lexeme
    ensures { result ≡ spec.constant base value suffix size bytes.now }
{
    let Some(value) = value else {
        return Lexeme::Refused(Fault::WideNumber, 0);
    };
    if is_too_wide(base, suffix, value) {
        return Lexeme::Refused(Fault::WideNumber, 0);
    }
    if goes_on(following(bytes, size)) {
        return Lexeme::Refused(Fault::BadByte, size);
    }
    let constant = IntegerConstant {
        value,
        decimal: is_decimal(base),
        unsigned: suffix.unsigned,
        length: suffix.length,
    };
    Lexeme::Token(size, TokenKind::Number(constant))
}

/// Returns the integer constant that bytes begin with; the first is a digit.
pub fn number(bytes: &[u8]) -> Lexeme
    requires { length bytes.now < 2 ^ 32 }
    ensures { result ≡ spec.number_at bytes.now }
{
    let base = base_of(bytes);
    let prefix = prefix_length(base);
    let digits = following(bytes, prefix);
    let count = digit_count(base, digits);
    let suffix = suffix_at(following(digits, count));
    let size = prefix + count + suffix.bytes;
    constant(base, leading_value(base, digits), suffix, size, bytes)
}
