//! Words that name an option.
ghost use Rattle.std.specs.Prelude.{◌≡◌, ℕ, List, Option, MatchOption};
ghost use Rattle.cs_words.specs.Settings as given;
ghost use Rattle.cs_words.specs.Settings.{option_text};
ghost use Rattle.cs_words.specs.Scan.{IsOption, setting_in};

use crate::option_name::{OptionName, option_named};
use cs_inputs::split_before;

/// A word `--name`, or `--name=value` with the value's text.
#[derive(Clone, Copy, Debug)]
pub enum OptionWord<'a> {
    Alone(OptionName),
    With(OptionName, &'a [u8]),
}

impl OptionWord<'_> {
    /// Returns the option that the word names.
    pub fn setting(self) -> OptionName
        ensures { result ≡ setting_in self.entry }
    {
        match self {
            OptionWord::Alone(setting) | OptionWord::With(setting, _) => setting,
        }
    }
}

/// Returns the option that a word names, with the value's text in the word.
pub fn option_of(word: &[u8]) -> Option<OptionWord<'_>>
    ensures { MatchOption result ((setting : given.OptionName) (text : Option (List ℕ))
        → word.now ≡ option_text setting text → ⊥) (IsOption word.now) }
{
    let (name, value) = split_before(word.strip_prefix(b"--")?, b'=');
    let setting = option_named(name)?;
    match value.split_first() {
        Some((_, text)) => Some(OptionWord::With(setting, text)),
        None => Some(OptionWord::Alone(setting)),
    }
}
