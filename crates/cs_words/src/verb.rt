//! The first word of the command line, which names the command.
ghost use Rattle.std.specs.Prelude.{◌≡◌, ◌≢◌, MatchOption};
ghost use Rattle.cs_words.specs.Options as options;
ghost use Rattle.cs_words.specs.Options.{verb_text};

use crate::option_name::OptionName;

/// The commands.
#[derive(Clone, Copy, PartialEq, Eq, Debug)]
pub enum Verb {
    Analyze,
    Flow,
    Replay,
    Generate,
}

/// Returns the command with this word, if there is one.
pub fn verb_named(word: &[u8]) -> Option<Verb>
    ensures { MatchOption result ((verb : options.Verb)
        → verb_text verb ≢ word.now) (λ verb. verb_text verb ≡ word.now) }
{
    match word {
        b"analyze" => Some(Verb::Analyze),
        b"flow" => Some(Verb::Flow),
        b"replay" => Some(Verb::Replay),
        b"generate" => Some(Verb::Generate),
        _ => None,
    }
}

/// Whether a command has an option.
pub fn takes(verb: Verb, setting: OptionName) -> bool
    ensures { result ≡ options.takes verb setting }
{
    match verb {
        Verb::Analyze => true,
        Verb::Flow => matches!(setting, OptionName::Model),
        Verb::Replay => matches!(
            setting,
            OptionName::Visits | OptionName::Depth | OptionName::Events | OptionName::Model
        ),
        Verb::Generate => false,
    }
}
