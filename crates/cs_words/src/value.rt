//! The values of options.
ghost use Rattle.std.specs.Prelude.{◌≡◌, ◌≢◌, ℕ, ◌<◌, ◌≤◌, Bool, IsTrue, MatchOption, length};
ghost use Rattle.std.specs.List.{list_all};
ghost use Rattle.std.specs.Str.Parse.{digits_value};
ghost use Rattle.cs_inputs.specs.InputText.{is_digit};
ghost use Rattle.cs_words.specs.Values as values;
ghost use Rattle.cs_words.specs.Values.{IsNumberIn, format_text, model_text};

use cs_types::DataModel;
use std::str;

/// Returns the number that one to nine digits represent, if it is in the range.
pub fn number_in(text: &[u8], least: u32, greatest: u32) -> Option<u32>
    ensures { MatchOption result ((number : ℕ) → IsNumberIn least greatest text.now number
        → ⊥) (IsNumberIn least greatest text.now) }
{
    if text.is_empty() || text.len() > 9 || !are_digits(text) {
        return None;
    }
    let number = value_of(text)?;
    if least <= number && number <= greatest {
        Some(number)
    } else {
        None
    }
}

// Returns the value of one to nine decimal digits.
fn value_of(digits: &[u8]) -> Option<u32>
    requires all { IsTrue (list_all is_digit digits.now) }
    requires some { 0 < length digits.now }
    requires few { length digits.now ≤ 9 }
    ensures { result ≡ Some (digits_value 10 digits.now) }
{
    match str::from_utf8(digits) {
        Ok(text) => text.parse::<u32>().ok(),
        Err(_) => None,
    }
}

// Whether each byte is a decimal digit.
fn are_digits(bytes: &[u8]) -> bool
    ensures { result ≡ list_all is_digit bytes.now }
{
    bytes.iter().all(|byte| matches!(*byte, b'0'..=b'9'))
}

/// Returns the data model with this name, if there is one.
pub fn model_named(text: &[u8]) -> Option<DataModel>
    ensures { MatchOption result ((model : values.DataModel)
        → model_text model ≢ text.now) (λ model. model_text model ≡ text.now) }
{
    match text {
        b"lp64" => Some(DataModel::Lp64),
        b"ilp32" => Some(DataModel::Ilp32),
        _ => None,
    }
}

/// Returns whether the output format with this name is JSON, if there is such a format.
pub fn format_named(text: &[u8]) -> Option<bool>
    ensures { MatchOption result ((json : Bool)
        → format_text json ≢ text.now) (λ json. format_text json ≡ text.now) }
{
    match text {
        b"text" => Some(false),
        b"json" => Some(true),
        _ => None,
    }
}
