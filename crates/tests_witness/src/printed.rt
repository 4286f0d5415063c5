//! Findings as text: as `analyze` prints them, without their steps.

use cs_events::{Guess, Outcome};
use cs_findings::{Finding, Ground, Others, Run};
use cs_inputs::print;
use cs_names::Name;
use cs_report_parts::{append, append_place};
use cs_witness::Witnessed;
use std::alloc::AllocError;

/// Appends the result of an entry, and how many suspects were dropped.
pub fn append_witnessed(
    text: &mut Vec<u8>,
    files: &[Name],
    witnessed: &Witnessed,
) -> Result<(), AllocError> {
    append(text, witnessed.result.verdict.name())?;
    append(text, format_args!(" dropped {}\n", witnessed.dropped))?;
    for finding in &witnessed.result.reports {
        append_finding(text, files, finding)?;
    }
    for finding in &witnessed.result.overs {
        append_finding(text, files, finding)?;
    }
    Ok(())
}

/// Appends a finding with its inputs and the grounds of its guesses.
pub fn append_finding(
    text: &mut Vec<u8>,
    files: &[Name],
    finding: &Finding,
) -> Result<(), AllocError> {
    append_outcome(text, files, finding.what)?;
    let confirmed = if finding.run.guesses.is_empty() {
        " confirmed\n"
    } else {
        " assumed\n"
    };
    append(text, confirmed)?;
    append_inputs(text, "  input ", &finding.run)?;
    for ground in &finding.grounds {
        append_ground(text, files, ground)?;
    }
    Ok(())
}

fn append_outcome(text: &mut Vec<u8>, files: &[Name], what: Outcome) -> Result<(), AllocError> {
    match what {
        Outcome::Done(_) => append(text, "done"),
        Outcome::Fault(kind, at) => {
            append(text, format_args!("report {} ", kind.name()))?;
            append_place(text, files, at)
        }
        Outcome::Over(budget, at) => {
            append(text, format_args!("over {} ", budget.name()))?;
            append_place(text, files, at)
        }
    }
}

fn append_inputs(text: &mut Vec<u8>, before: &str, run: &Run) -> Result<(), AllocError> {
    for input in run.inputs.list() {
        append(text, before)?;
        text.extend_from_slice(print(*text.allocator(), &input.0)?.as_bytes())?;
        append(text, format_args!(" = {}\n", input.1))?;
    }
    Ok(())
}

fn append_ground(text: &mut Vec<u8>, files: &[Name], ground: &Ground) -> Result<(), AllocError> {
    let Guess { event, number } = ground.guess;
    append(text, format_args!("  guess {event} = {number} at "))?;
    append_place(text, files, ground.place)?;
    append(text, "\n")?;
    match &ground.others {
        Others::One(one) => append_other(text, "    other 1", one),
        Others::Two(one, other) => {
            append_other(text, "    other 1", one)?;
            append_other(text, "    other 2", other)
        }
    }
}

fn append_other(text: &mut Vec<u8>, before: &str, run: &Run) -> Result<(), AllocError> {
    for input in run.inputs.list() {
        append(text, before)?;
        append(text, " ")?;
        text.extend_from_slice(print(*text.allocator(), &input.0)?.as_bytes())?;
        append(text, format_args!(" = {}\n", input.1))?;
    }
    for guess in &run.guesses {
        append(text, before)?;
        append(
            text,
            format_args!(" guess {} = {}\n", guess.event, guess.number),
        )?;
    }
    Ok(())
}
