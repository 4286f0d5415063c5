//! The answer to a command line.
ghost use Rattle.std.specs.Prelude.{◌≡◌, ℕ, ◌++◌, Err, codes, map, IfOk};
ghost use Rattle.std.specs.Io.KnownBytes.{IsAtEnd};
ghost use Rattle.std.specs.Fmt.{decimal};
ghost use Rattle.cs_io.specs.Count.{Rose};
ghost use Rattle.cs_words.specs.declared.command.Command.{Command};
ghost use Rattle.cs_words.specs.Meaning.{words_text, WordsMean, AreRefusedAt};
ghost use Rattle.cs_words.specs.declared.command.Command.TheVariants.{Generate};
ghost use Rattle.cs_words.specs.declared.command.GenerateWords.{GenerateWords};
ghost use Rattle.cs_app.specs.Answers.{IsWhole, IsFileAnswer, IsRead, Reads};

use crate::file::answer_to;
use crate::generated::generated;
use cs_answers::{Answer, Failure, Status};
use cs_checker::Checker;
use cs_commands::refused_length;
use cs_io::{ReadRefusal, Source, read_all};
use cs_words::{Command, WordsRefusal, words_of};
use std::alloc::{AllocError, Global};

/// Returns the answer to a command line, for the file that remains in the source. It reads nothing if the command line isn't valid.
pub fn answer_for<S: Source>(
    alloc: Global,
    words: &[String],
    source: &mut S,
    checkers: &mut Vec<Box<dyn Checker>>,
) -> Result<Answer, Failure>
    ensures whole { IfOk result (λ answer.
        IsWhole (map (λ b. kind_of b) checkers.old.items) (words_text words.now)
        (S.left source.old) answer.status answer.text.items) }
    ensures only { (command : Command) → WordsMean (words_text words.now) command
        → IfOk result (λ answer.
        IsFileAnswer (map (λ b. kind_of b) checkers.old.items) command (S.left source.old)
        answer.status answer.text.items) }
    ensures read { (command : Command) → WordsMean (words_text words.now) command
        → Reads command → IfOk result (λ answer.
        IsRead answer.status → IsAtEnd (S.left source.new)) }
    ensures unread { (n : ℕ) → AreRefusedAt (words_text words.now) n
        → source.new ≡ source.old }
    ensures generated { (generation : GenerateWords)
        → WordsMean (words_text words.now) (Generate generation) → source.new ≡ source.old }
    ensures fault { result ≡ Err Failure.Read
        → Rose (S.faults source.old) (S.faults source.new) }
    ensures kinds { map (λ b. kind_of b) checkers.new.items
        ≡ map (λ b. kind_of b) checkers.old.items }
{
    match words_of(alloc, words) {
        Ok(command) => answer_of(alloc, &command, source, checkers),
        Err(WordsRefusal::Words(number)) => {
            let answer = refused_words(alloc, number)?;
            Ok(answer)
        }
        Err(WordsRefusal::Memory) => Err(Failure::Memory),
    }
}

/// Returns the answer to a refused command line: the number of the first word that can't continue a command.
fn refused_words(alloc: Global, number: u64) -> Result<Answer, AllocError>
    ensures status { IfOk result (λ answer. answer.status ≡ Status.BadWords) }
    ensures text { IfOk result (λ answer.
        answer.text.items ≡ codes "refused words " ++ (decimal number ++ codes "\n")) }
{
    let line = format!(in alloc; "refused words {number}\n")?;
    Ok(Answer {
        status: Status::BadWords,
        text: line.into_bytes(),
    })
}

/// Returns the answer of a command to its file: what remains in the source, or a generated file, for which nothing is read.
fn answer_of<S: Source>(
    alloc: Global,
    command: &Command,
    source: &mut S,
    checkers: &mut Vec<Box<dyn Checker>>,
) -> Result<Answer, Failure>
    ensures whole { IfOk result (λ answer.
        IsFileAnswer (map (λ b. kind_of b) checkers.old.items) command.now (S.left source.old)
        answer.status answer.text.items) }
    ensures read { Reads command.now → IfOk result (λ answer.
        IsRead answer.status → IsAtEnd (S.left source.new)) }
    ensures unread { (Reads command.now → ⊥) → source.new ≡ source.old }
    ensures fault { result ≡ Err Failure.Read
        → Rose (S.faults source.old) (S.faults source.new) }
    ensures kinds { map (λ b. kind_of b) checkers.new.items
        ≡ map (λ b. kind_of b) checkers.old.items }
{
    match command {
        Command::Generate(words) => {
            let answer = generated(alloc, command, words, checkers)?;
            Ok(answer)
        }
        Command::Analyze(_) | Command::Flow(_) | Command::Replay(_) => {
            answer_from(alloc, command, source, checkers)
        }
    }
}

/// Returns the answer of a command to the file that remains in the source.
fn answer_from<S: Source>(
    alloc: Global,
    command: &Command,
    source: &mut S,
    checkers: &mut Vec<Box<dyn Checker>>,
) -> Result<Answer, Failure>
    requires { Reads command.now }
    ensures whole { IfOk result (λ answer.
        IsFileAnswer (map (λ b. kind_of b) checkers.old.items) command.now (S.left source.old)
        answer.status answer.text.items) }
    ensures read { IfOk result (λ answer. IsRead answer.status → IsAtEnd (S.left source.new)) }
    ensures fault { result ≡ Err Failure.Read
        → Rose (S.faults source.old) (S.faults source.new) }
    ensures kinds { map (λ b. kind_of b) checkers.new.items
        ≡ map (λ b. kind_of b) checkers.old.items }
{
    match read_all(alloc, source) {
        Ok(file) => {
            let answer = answer_to(alloc, command, file.as_slice(), checkers)?;
            Ok(answer)
        }
        Err(ReadRefusal::TooLong) => {
            let answer = refused_length(alloc)?;
            Ok(answer)
        }
        Err(ReadRefusal::ReadFault) => Err(Failure::Read),
        Err(ReadRefusal::Memory) => Err(Failure::Memory),
    }
}
