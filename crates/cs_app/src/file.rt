//! The answer to a file.
ghost use Rattle.std.specs.Prelude.{◌≡◌, map, IfOk};
ghost use Rattle.cs_ast.specs.TypedProgram.{typed_program};
ghost use Rattle.cs_well_formed.specs.Programs.{IsWellFormed};
ghost use Rattle.cs_app.specs.Answers.{IsProgramAnswer, IsAnswer, SuitsFile, model_of};

use crate::analysis::{analysis, summarized};
use cs_answers::Answer;
use cs_ast::typed::program::Program;
use cs_checker::Checker;
use cs_commands::{flow, refused, replayed};
use cs_names::Name;
use cs_program::program_of;
use cs_types::DataModel;
use cs_words::Command;
use std::alloc::{AllocError, Global};
use std::mem::forget;

/// Returns the answer of a command to a file.
pub fn answer_to(
    alloc: Global,
    command: &Command,
    file: &[u8],
    checkers: &mut Vec<Box<dyn Checker>>,
) -> Result<Answer, AllocError>
    requires { SuitsFile command.now file.now }
    ensures answer { IfOk result (λ answer.
        IsAnswer (map (λ b. kind_of b) checkers.old.items) command.now file.now answer.status
        answer.text.items) }
    ensures kinds { map (λ b. kind_of b) checkers.new.items
        ≡ map (λ b. kind_of b) checkers.old.items }
{
    match program_of(alloc, model_of(command), file) {
        Ok(found) => {
            let answer = answer_of(alloc, command, file, &found.files, &found.program, checkers)?;
            // The program ends after this answer, so the program of the file needn't be freed piece by piece.
            forget(found);
            Ok(answer)
        }
        Err(refusal) => {
            let answer = refused(alloc, refusal)?;
            Ok(answer)
        }
    }
}

/// Returns the data model of a command.
fn model_of(command: &Command) -> DataModel
    ensures { result ≡ model_of command.now }
{
    match command {
        Command::Analyze(words) => words.model,
        Command::Flow(words) => words.model,
        Command::Replay(words) => words.model,
        Command::Generate(_) => DataModel::Lp64,
    }
}

/// Returns the answer to a file that type-checks. The positions of its program are in files with these names.
fn answer_of(
    alloc: Global,
    command: &Command,
    file: &[u8],
    files: &[Name],
    program: &Program,
    checkers: &mut Vec<Box<dyn Checker>>,
) -> Result<Answer, AllocError>
    requires well_formed { IsWellFormed (typed_program program.now) }
    requires file { SuitsFile command.now file.now }
    ensures answer { IfOk result (λ answer.
        IsProgramAnswer (map (λ b. kind_of b) checkers.old.items) command.now files.now
        (typed_program program.now) answer.status answer.text.items) }
    ensures kinds { map (λ b. kind_of b) checkers.new.items
        ≡ map (λ b. kind_of b) checkers.old.items }
{
    match command {
        Command::Analyze(words) => {
            let answer = analysis(alloc, words, program, checkers)?;
            Ok(answer)
        }
        Command::Flow(_) => {
            let answer = flow(alloc, program)?;
            Ok(answer)
        }
        Command::Replay(words) => {
            let answer = replayed(alloc, files, program, words)?;
            Ok(answer)
        }
        Command::Generate(words) => {
            let answer = summarized(alloc, words, file, program, checkers)?;
            Ok(answer)
        }
    }
}
