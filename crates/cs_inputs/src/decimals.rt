//! Decimal digits and the numbers that they represent.
ghost use Rattle.std.specs.Prelude.{◌≡◌, ◌<◌, ◌^◌, ◌&&◌, IsTrue, SomeIff, length};
ghost use Rattle.std.specs.List.{list_all};
ghost use Rattle.std.specs.Str.Parse.{digits_value};
ghost use Rattle.cs_inputs.specs.InputText.{is_digit};
ghost use Rattle.cs_inputs.specs.Reading as reading;
ghost use Rattle.cs_inputs.specs.Reading.{Finds, IsDecimalOf};

use std::str;

/// Whether each byte is a decimal digit.
pub fn are_digits(bytes: &[u8]) -> bool
    ensures { result ≡ list_all is_digit bytes.now }
{
    bytes.iter().all(|byte| matches!(*byte, b'0'..=b'9'))
}

/// Returns the value of digits in base ten, if it has at most 64 bits.
pub fn value_of(digits: &[u8]) -> Option<u64>
    requires all { IsTrue (list_all is_digit digits.now) }
    requires some { 0 < length digits.now }
    ensures { SomeIff result (digits_value 10 digits.now < 2 ^ 64) (digits_value 10 digits.now) }
{
    match str::from_utf8(digits) {
        Ok(text) => text.parse::<u64>().ok(),
        Err(_) => None,
    }
}

/// Returns the 64-bit number with this text: digits without a leading zero, or one `0`.
pub fn number_with_text(text: &[u8]) -> Option<u64>
    ensures { Finds (IsDecimalOf text.now) result }
{
    if is_plain(text) { value_of(text) } else { None }
}

// Whether bytes are digits without a leading zero, or one digit.
fn is_plain(bytes: &[u8]) -> bool
    ensures { result ≡ (list_all is_digit bytes.now && reading.has_no_leading_zero bytes.now) }
{
    are_digits(bytes) && has_no_leading_zero(bytes)
}

// Whether there are bytes, and the first isn't `0` unless it is the only one.
fn has_no_leading_zero(bytes: &[u8]) -> bool
    ensures { result ≡ reading.has_no_leading_zero bytes.now }
{
    match bytes.split_first() {
        Some((first, rest)) => *first != b'0' || rest.is_empty(),
        None => false,
    }
}
