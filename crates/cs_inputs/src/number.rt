//! The number of an input.
ghost use Rattle.cs_inputs.specs.Reading.{IsMagnitudeRead, IsNumberRead};

use crate::decimals::{are_digits, value_of};
use crate::refusal::PathRefusal;

/// The greatest number of digits of a number.
const MOST_DIGITS: usize = 39;

/// The greatest magnitude of a negative number.
const MOST_BELOW_ZERO: u64 = 1 << 63;

/// Returns the number that a text represents: an optional `-` and one to 39 digits, which may begin with zeros.
///
/// The error is `BadNumber` if the text isn't a number, and `TooWide` if the number is outside -2^63 to 2^64-1.
pub fn number_of(text: &[u8]) -> Result<i128, PathRefusal>
    ensures { IsNumberRead text.now result }
{
    match text.strip_prefix(b"-") {
        Some(digits) => {
            let magnitude = magnitude_of(digits)?;
            if magnitude > MOST_BELOW_ZERO {
                return Err(PathRefusal::TooWide);
            }
            Ok(-i128::from(magnitude))
        }
        None => Ok(i128::from(magnitude_of(text)?)),
    }
}

// Returns the value of one to 39 digits.
fn magnitude_of(digits: &[u8]) -> Result<u64, PathRefusal>
    ensures { IsMagnitudeRead digits.now result }
{
    if digits.is_empty() || MOST_DIGITS < digits.len() || !are_digits(digits) {
        return Err(PathRefusal::BadNumber);
    }
    match value_of(digits) {
        Some(magnitude) => Ok(magnitude),
        None => Err(PathRefusal::TooWide),
    }
}
