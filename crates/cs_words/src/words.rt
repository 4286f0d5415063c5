//! The words of a command line.
ghost use Rattle.std.specs.Prelude.{◌≡◌, ◌⊎◌, ◌∷◌, ℕ, IfOk, IfErr};
ghost use Rattle.cs_words.specs.declared.verb.Verb.TheVariants as verbs;
ghost use Rattle.cs_words.specs.Meaning as meaning;
ghost use Rattle.cs_words.specs.Meaning.{words_text, WordsMean, AreRefusedAt};
ghost use Rattle.cs_words.specs.Options.{verb_text};
ghost use Rattle.cs_words.specs.Scan.{IsRight, IsRefusal};

use crate::command::{AnalyzeWords, Command, FlowWords, GenerateWords, ReplayWords};
use crate::inputs::inputs_of;
use crate::name::is_name;
use crate::refusal::WordsRefusal;
use crate::scan::{refused, settings_of};
use crate::value::number_in;
use crate::verb::{Verb, verb_named};
use cs_names::Name;
use std::alloc::Global;

/// Returns the command that the words after the program's name mean.
///
/// The error is `Words` with the number, from 1, of the first word that can't continue a command, or the number after the last word if words
/// are missing.
pub fn words_of(alloc: Global, words: &[String]) -> Result<Command, WordsRefusal>
    ensures ok { IfOk result (λ command. WordsMean (words_text words.now) command) }
    ensures accepts { (command : meaning.Command) → WordsMean (words_text words.now) command
        → (result ≡ Ok command) ⊎ (result ≡ Err WordsRefusal.Memory) }
    ensures err { IfErr result (IsRefusal (words_text words.now)) }
    ensures refuses { (number : ℕ) → AreRefusedAt (words_text words.now) number
        → (result ≡ Err (WordsRefusal.Words number)) ⊎ (result ≡ Err WordsRefusal.Memory) }
{
    match words.split_first() {
        Some((first, following)) => command_of(alloc, words, first.as_bytes(), following),
        None => Err(WordsRefusal::Words(1)),
    }
}

// Returns the command of words, given the first of them and those after it.
fn command_of(
    alloc: Global,
    words: &[String],
    first: &[u8],
    following: &[String],
) -> Result<Command, WordsRefusal>
    requires { words_text words.now ≡ first.now ∷ words_text following.now }
    ensures { IsRight (words_text words.now) result }
{
    match verb_named(first) {
        Some(Verb::Analyze) => analyze_words(alloc, words, following),
        Some(Verb::Flow) => flow_words(words, following),
        Some(Verb::Replay) => replay_words(alloc, words, following),
        Some(Verb::Generate) => generate_words(words, following),
        None => Err(WordsRefusal::Words(1)),
    }
}

// Returns the command `analyze` with its settings, from the words after it.
fn analyze_words(
    alloc: Global,
    words: &[String],
    following: &[String],
) -> Result<Command, WordsRefusal>
    requires { words_text words.now ≡ verb_text verbs.Analyze ∷ words_text following.now }
    ensures { IsRight (words_text words.now) result }
{
    let found = settings_of(Verb::Analyze, words, following)?;
    if !found.rest.is_empty() {
        return Err(refused(words, found.rest));
    }
    let kinds = found.settings.kinds(alloc)?;
    let entry = found.settings.entry(alloc)?;
    Ok(Command::Analyze(AnalyzeWords {
        budgets: found.settings.budgets(),
        kinds,
        entry,
        json: found.settings.json(),
        model: found.settings.data_model(),
    }))
}

// Returns the command `flow` with its settings, from the words after it.
fn flow_words(words: &[String], following: &[String]) -> Result<Command, WordsRefusal>
    requires { words_text words.now ≡ verb_text verbs.Flow ∷ words_text following.now }
    ensures { IsRight (words_text words.now) result }
{
    let found = settings_of(Verb::Flow, words, following)?;
    if !found.rest.is_empty() {
        return Err(refused(words, found.rest));
    }
    Ok(Command::Flow(FlowWords {
        model: found.settings.data_model(),
    }))
}

// Returns the command `replay` with its settings, from the words after it.
fn replay_words(
    alloc: Global,
    words: &[String],
    following: &[String],
) -> Result<Command, WordsRefusal>
    requires { words_text words.now ≡ verb_text verbs.Replay ∷ words_text following.now }
    ensures { IsRight (words_text words.now) result }
{
    let found = settings_of(Verb::Replay, words, following)?;
    let Some((entry, others)) = found.rest.split_first() else {
        return Err(refused(words, found.rest));
    };
    if !is_name(entry.as_bytes()) {
        return Err(refused(words, found.rest));
    }
    let inputs = inputs_of(alloc, words, others)?;
    Ok(Command::Replay(ReplayWords {
        budgets: found.settings.run_budgets(),
        entry: Name::from_slice(alloc, entry.as_bytes())?,
        inputs,
        model: found.settings.data_model(),
    }))
}

// Returns the command `generate` with its settings, from the words after it.
fn generate_words(words: &[String], following: &[String]) -> Result<Command, WordsRefusal>
    requires { words_text words.now ≡ verb_text verbs.Generate ∷ words_text following.now }
    ensures { IsRight (words_text words.now) result }
{
    let found = settings_of(Verb::Generate, words, following)?;
    let Some((seed, others)) = found.rest.split_first() else {
        return Err(refused(words, found.rest));
    };
    let Some(seed) = number_in(seed.as_bytes(), 0, 999_999_999) else {
        return Err(refused(words, found.rest));
    };
    let Some((size, more)) = others.split_first() else {
        return Err(refused(words, others));
    };
    let Some(size) = number_in(size.as_bytes(), 0, 4_000) else {
        return Err(refused(words, others));
    };
    if !more.is_empty() {
        return Err(refused(words, more));
    }
    Ok(Command::Generate(GenerateWords { seed, size }))
}
