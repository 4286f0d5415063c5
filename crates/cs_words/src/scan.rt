//! The settings after a command's word.
ghost use Rattle.std.specs.Prelude.{◌≡◌, ◌∷◌, ◌≤◌, IfOk, MatchResult, length};
ghost use Rattle.cs_words.specs.Meaning.{words_text};
ghost use Rattle.cs_words.specs.Options.{verb_text};
ghost use Rattle.cs_words.specs.Scan.{AreReadTo, AreReadWhole, IsFirstOption, IsRefusal, IsRefusalBefore, IsSetBesides, HasValue};

use crate::option_name::OptionName;
use crate::option_word::{OptionWord, option_of};
use crate::refusal::WordsRefusal;
use crate::settings::Settings;
use crate::verb::{Verb, takes};

/// The settings found so far, and the words that remain after them.
#[derive(Clone, Copy, Debug)]
pub struct ParsedOptions<'a> {
    pub settings: Settings<'a>,
    pub rest: &'a [String],
}

/// Returns the settings of a command, from the words after its own.
pub fn settings_of<'a>(
    verb: Verb,
    words: &[String],
    following: &'a [String],
) -> Result<ParsedOptions<'a>, WordsRefusal>
    requires { words_text words.now ≡ verb_text verb ∷ words_text following.now }
    ensures { MatchResult result (λ found.
        AreReadWhole verb (words_text words.now) found.settings (words_text found.rest.now))
        (IsRefusal (words_text words.now)) }
{
    let mut found = ParsedOptions {
        settings: Settings::none(),
        rest: following,
    };
    while let Some((word, others)) = found.rest.split_first() {
        let Some(option) = option_of(word.as_bytes()) else {
            return Ok(found);
        };
        found = with_option(verb, words, found, option, others)?;
    }
    Ok(found)
}

// Returns the settings with the one whose option's word is the first of the rest, before others.
fn with_option<'a>(
    verb: Verb,
    words: &[String],
    found: ParsedOptions<'a>,
    option: OptionWord<'a>,
    others: &'a [String],
) -> Result<ParsedOptions<'a>, WordsRefusal>
    requires read { AreReadTo verb (words_text words.now) found.settings
        (words_text found.rest.now) }
    requires first { IsFirstOption option (words_text others.now) (words_text found.rest.now) }
    ensures read { MatchResult result (λ after.
        AreReadTo verb (words_text words.now) after.settings (words_text after.rest.now))
        (IsRefusal (words_text words.now)) }
    ensures shorter { IfOk result (λ after. length after.rest.now ≤ length others.now) }
{
    let setting = option.setting();
    if !takes(verb, setting) || found.settings.has(setting) {
        return Err(refused(words, found.rest));
    }
    match option {
        OptionWord::With(_, text) => with_value(
            words,
            found.settings,
            setting,
            text,
            found.rest,
            others,
        ),
        OptionWord::Alone(_) => match others.split_first() {
            Some((text, left)) => with_value(
                words,
                found.settings,
                setting,
                text.as_bytes(),
                others,
                left,
            ),
            None => Err(refused(words, others)),
        },
    }
}

// Returns the settings with one more, and the words that remain. The first word of `at` is refused if the text isn't that of a value.
fn with_value<'a>(
    words: &[String],
    settings: Settings<'a>,
    setting: OptionName,
    text: &'a [u8],
    at: &[String],
    left: &'a [String],
) -> Result<ParsedOptions<'a>, WordsRefusal>
    requires { length at.now ≤ length words.now }
    ensures { MatchResult result (λ after.
        IsSetBesides setting text.now settings.entry after.settings
        × (after.rest.now ≡ left.now)) (λ refusal.
        (HasValue setting text.now → ⊥)
        × IsRefusalBefore (length words.now) (length at.now) refusal) }
{
    match settings.with(setting, text) {
        Some(settings) => Ok(ParsedOptions {
            settings,
            rest: left,
        }),
        None => Err(refused(words, at)),
    }
}

/// Returns the refusal of the first word of the rest, by its number.
pub fn refused(words: &[String], rest: &[String]) -> WordsRefusal
    requires { length rest.now ≤ length words.now }
    ensures { IsRefusalBefore (length words.now) (length rest.now) result }
{
    WordsRefusal::Words((words.len() - rest.len()) as u64 + 1)
}
