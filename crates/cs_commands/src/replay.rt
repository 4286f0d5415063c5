//! The answer to a replay: how the run of a function ends with given inputs. The run follows the function's flow graph.
ghost use Rattle.std.specs.Prelude.{◌≡◌, ◌++◌, Some, codes, IfOk};
ghost use Rattle.cs_ast.specs.TypedProgram.{routine, typed_program};
ghost use Rattle.cs_well_formed.specs.Programs.{IsWellFormed};
ghost use Rattle.cs_cfg.specs.GraphView as view;
ghost use Rattle.cs_cfg.specs.Lowered.{IsLowered};
ghost use Rattle.cs_objects.specs.Prepared.{IsPrepared};
ghost use Rattle.cs_report.specs.ReplayLines.{replay_line};
ghost use Rattle.cs_entries.specs.Named.{entry_of};
ghost use Rattle.cs_commands.specs.Replays.{outcome_status, IsReplayOf, IsReplayAnswer};

use cs_answers::{Answer, Status};
use cs_ast::typed::program::Program;
use cs_cfg::Code;
use cs_entries::{entry_of, number_of};
use cs_events::Outcome;
use cs_lower::lower;
use cs_names::Name;
use cs_objects::Setting;
use cs_objects::prepared::Prepared;
use cs_replay::{ReplayRefusal, replay};
use cs_report::append_replayed;
use cs_words::ReplayWords;
use std::alloc::{AllocError, Global};

/// Returns `Found` if a run ends in a fault.
fn outcome_status(outcome: Outcome) -> Status
    ensures { result ≡ outcome_status outcome }
{
    match outcome {
        Outcome::Fault(_, _) => Status::Found,
        Outcome::Done(_) | Outcome::Over(_, _) => Status::Clean,
    }
}

/// Returns the answer to the run of a function of the program, whose positions are in these files.
pub fn replayed(
    alloc: Global,
    files: &[Name],
    program: &Program,
    words: &ReplayWords,
) -> Result<Answer, AllocError>
    requires { IsWellFormed (typed_program program.now) }
    ensures { IfOk result (λ answer.
        IsReplayAnswer files.now (typed_program program.now) words.now answer.status
        answer.text.items) }
{
    match entry_of(&program.functions, &words.entry) {
        Some(entry) => {
            let answer = run_of(alloc, files, program, words, entry)?;
            Ok(answer)
        }
        None => {
            let answer = refused_entry(alloc, &words.entry)?;
            Ok(answer)
        }
    }
}

/// Returns the line of the outcome of the run that begins in the function with this number, the entry of the command line.
fn run_of(
    alloc: Global,
    files: &[Name],
    program: &Program,
    words: &ReplayWords,
    entry: usize,
) -> Result<Answer, AllocError>
    requires well_formed { IsWellFormed (typed_program program.now) }
    requires found { entry_of words.now.entry (typed_program program.now) ≡ Some entry }
    ensures { IfOk result (λ answer.
        IsReplayOf files.now (typed_program program.now) words.now entry answer.status
        answer.text.items) }
{
    let number = number_of(entry)?;
    let code = lower(alloc, program)?;
    match Prepared::new(alloc, program) {
        Ok(prepared) => {
            let answer = run_prepared(alloc, files, program, &prepared, words, &code, number)?;
            Ok(answer)
        }
        Err(_) => Err(AllocError),
    }
}

/// The same for a program that is lowered already, and for whose runs the shared data is prepared.
fn run_prepared(
    alloc: Global,
    files: &[Name],
    program: &Program,
    prepared: &Prepared,
    words: &ReplayWords,
    code: &Code,
    entry: u32,
) -> Result<Answer, AllocError>
    requires well_formed { IsWellFormed (typed_program program.now) }
    requires prepared { IsPrepared prepared.now program.now }
    requires lowered { IsLowered (view.code code.now) (typed_program program.now) }
    requires found { entry_of words.now.entry (typed_program program.now) ≡ Some entry }
    ensures { IfOk result (λ answer.
        IsReplayOf files.now (typed_program program.now) words.now entry answer.status
        answer.text.items) }
{
    let guesses = Vec::new(alloc);
    let setting = Setting {
        program,
        prepared,
        inputs: &words.inputs,
        guesses: &guesses,
        budgets: words.budgets,
    };
    match replay(alloc, &setting, code, entry) {
        Ok(replayed) => {
            let answer = outcome_of(alloc, files, replayed.outcome)?;
            Ok(answer)
        }
        Err(ReplayRefusal::NoEntry) => {
            let answer = refused_entry(alloc, &words.entry)?;
            Ok(answer)
        }
        Err(ReplayRefusal::Memory) => Err(AllocError),
    }
}

/// Returns the line of an outcome.
fn outcome_of(alloc: Global, files: &[Name], outcome: Outcome) -> Result<Answer, AllocError>
    ensures status { IfOk result (λ answer. answer.status ≡ outcome_status outcome) }
    ensures text { IfOk result (λ answer. answer.text.items ≡ replay_line files.now outcome) }
{
    let mut text = Vec::new(alloc);
    append_replayed(&mut text, files, outcome)?;
    Ok(Answer {
        status: outcome_status(outcome),
        text,
    })
}

/// Returns the answer if the program has no function with this name and a body.
pub fn refused_entry(alloc: Global, name: &Name) -> Result<Answer, AllocError>
    ensures status { IfOk result (λ answer. answer.status ≡ Status.NoEntry) }
    ensures text { IfOk result (λ answer.
        answer.text.items ≡ codes "refused entry " ++ (name.now ++ codes "\n")) }
{
    let mut text = Vec::from_slice(alloc, b"refused entry ")?;
    text.extend_from_slice(name.as_bytes())?;
    text.push(b'\n')?;
    Ok(Answer {
        status: Status::NoEntry,
        text,
    })
}
