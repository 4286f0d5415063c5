//! The run of a program's code beside that of the reference interpreter, as text.
ghost use Rattle.cs_ast.specs.TypedProgram.{typed_program};
ghost use Rattle.cs_objects.specs.Prepared.{IsPrepared, IsReady};
ghost use Rattle.cs_well_formed.specs.Programs.{IsWellFormed};

use crate::pending::{append_pending, same_lookups, same_pending};
use cs_ast::typed::program::{Function, Program};
use cs_events::Guess;
use cs_lower::lower;
use cs_objects::Setting;
use cs_objects::prepared::Prepared;
use cs_program::program_of;
use cs_reference::run;
use cs_replay::{Replayed, replay};
use cs_report::append_replayed;
use cs_run_log::Log;
use cs_words::{Command, ReplayWords, words_of};
use std::alloc::{AllocError, Global};
use std::str;

/// Returns the run of a function's code, if it has a body and memory suffices.
fn coded(alloc: Global, setting: &Setting, entry: u32) -> Option<Replayed>
    requires ready { IsReady setting.now }
    requires well_formed { IsWellFormed (typed_program setting.now.program.now) }
{
    match lower(alloc, setting.program) {
        Ok(code) => replay(alloc, setting, &code, entry).ok(),
        Err(_) => None,
    }
}

/// Whether two runs showed, read and touched the same, and the same was pending at their events.
fn same_logs(one: &Log, other: &Log) -> bool {
    one.events == other.events
        && one.touches == other.touches
        && same_pending(&one.pending, &other.pending)
        && same_lookups(&one.read, &other.read)
}

/// Returns the run of a function's code; None if its outcome or what it shows, reads or touches isn't that of the reference interpreter's
/// run, or memory runs out.
fn run_of<'a>(alloc: Global, setting: &'a Setting<'a>, entry: u32) -> Option<Replayed>
    requires ready { IsReady setting.now }
    requires well_formed { IsWellFormed (typed_program setting.now.program.now) }
{
    let plain = run(alloc, setting, entry).ok()?;
    let coded = coded(alloc, setting, entry)?;
    if plain.outcome == coded.outcome && same_logs(&plain.log, &coded.log) {
        return Some(coded);
    }
    None
}

/// The same for the run that the words request, with guesses. None if the program has no such function.
fn guessed(
    alloc: Global,
    words: &ReplayWords,
    program: &Program,
    guesses: &[Guess],
) -> Option<Replayed>
    requires { IsWellFormed (typed_program program.now) }
{
    match Prepared::new(alloc, program) {
        Ok(prepared) => guessed_prepared(alloc, words, program, &prepared, guesses),
        Err(_) => None,
    }
}

/// The same if the data that the program's runs share is prepared.
fn guessed_prepared(
    alloc: Global,
    words: &ReplayWords,
    program: &Program,
    prepared: &Prepared,
    guesses: &[Guess],
) -> Option<Replayed>
    requires well_formed { IsWellFormed (typed_program program.now) }
    requires prepared { IsPrepared prepared.now program.now }
{
    let is_entry = |it: &Function| it.name == words.entry && it.body.is_some();
    let entry = program.functions.iter().position(is_entry)?;
    let setting = Setting {
        program,
        prepared,
        inputs: &words.inputs,
        guesses,
        budgets: words.budgets,
    };
    run_of(alloc, &setting, u32::try_from(entry).ok()?)
}

/// Returns the text of a run: the line of its outcome, and, if requested, a line of what was pending at each event.
fn text_of(
    alloc: Global,
    program: &Program,
    replayed: &Replayed,
    has_pending: bool,
) -> Result<Vec<u8>, AllocError> {
    let mut text = Vec::new(alloc);
    append_replayed(&mut text, &program.files, replayed.outcome)?;
    if has_pending {
        for pending in &replayed.log.pending {
            append_pending(&mut text, &program.files, pending)?;
        }
    }
    Ok(text)
}

/// Returns the words of a line.
fn words_in(alloc: Global, line: &str) -> Result<Vec<String>, AllocError> {
    let mut words = Vec::new(alloc);
    for word in line.split_ascii_whitespace() {
        words.push(String::from_str(alloc, word)?)?;
    }
    Ok(words)
}

/// Returns the text of the run that a command requests for a file, with guesses. None if the two runs differ.
fn run_text(
    alloc: Global,
    command: &Command,
    file: &str,
    guesses: &[Guess],
    has_pending: bool,
) -> Option<Vec<u8>> {
    let Command::Replay(words) = command else {
        return None;
    };
    let Ok(found) = program_of(alloc, words.model, file.as_bytes()) else {
        return None;
    };
    let replayed = guessed(alloc, words, &found.program, guesses)?;
    text_of(alloc, &found.program, &replayed, has_pending).ok()
}

/// The same for a command line: its words, a colon and the file.
fn row_text(alloc: Global, run: &str, guesses: &[Guess], has_pending: bool) -> Option<Vec<u8>> {
    let (line, file) = run.split_once(": ")?;
    let words = words_in(alloc, line).ok()?;
    let command = words_of(alloc, &words).ok()?;
    run_text(alloc, &command, file, guesses, has_pending)
}

/// Adds a run with its text, if that isn't the wanted text.
pub fn add_if_otherwise(
    alloc: Global,
    found: &mut String,
    row: (&str, &str),
    guesses: &[Guess],
    has_pending: bool,
) -> Result<(), AllocError> {
    let (run, wanted) = row;
    let text = row_text(alloc, run, guesses, has_pending).unwrap_or(Vec::new(alloc));
    let given = str::from_utf8(&text).unwrap_or("no text");
    if given.strip_suffix('\n') == Some(wanted) {
        return Ok(());
    }
    let reported = format!(in alloc; "{run} gives {given}")?;
    found.push_str(reported.as_str())
}

/// Returns those runs of a table of runs and lines whose text differs, or in which the two runs differ, with their texts.
pub fn differing(alloc: Global, table: &str) -> Result<String, AllocError> {
    let mut found = String::new(alloc);
    for line in table.trim().lines() {
        let row = line.split_once(" => ").unwrap_or((line, ""));
        add_if_otherwise(alloc, &mut found, row, &[], false)?;
    }
    Ok(found)
}
