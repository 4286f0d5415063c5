//! Guesses with the other runs that are their grounds, as text.
ghost use Rattle.std.specs.Prelude.{◌≡◌, ◌++◌, ℤ, OnOk, codes};
ghost use Rattle.std.specs.List.{flat_map};
ghost use Rattle.std.specs.Fmt.{decimal};
ghost use Rattle.cs_inputs.specs.declared.path.Path.{Path};
ghost use Rattle.cs_events.specs.declared.guess.Guess.{Guess};
ghost use Rattle.cs_results.specs.declared.finding.Ground.{Ground};
ghost use Rattle.cs_report_parts.specs.RunLines.{text_of, input_text, guess_text};
ghost use Rattle.cs_report.specs.AnalysisLines.{other_lines, others_lines, ground_lines};

use cs_events::Guess;
use cs_inputs::Path;
use cs_names::Name;
use cs_report_parts::{append, append_guess, append_input, append_place};
use cs_results::{Ground, Others, Run};
use std::alloc::AllocError;

/// Appends the lines of each guess, with its ground.
pub(crate) fn append_grounds(
    text: &mut Vec<u8>,
    files: &[Name],
    grounds: &[Ground],
) -> Result<(), AllocError>
    ensures { OnOk result (text.new.items ≡ text.old.items ++ flat_map
        (λ (reason : Ground). text_of (ground_lines files.now reason)) grounds.now) }
{
    for reason in grounds {
        append_ground(text, files, reason)?;
    }
    Ok(())
}

/// Appends `  guess E = N at PLACE`, and after it the inputs and guesses of the other runs.
fn append_ground(text: &mut Vec<u8>, files: &[Name], reason: &Ground) -> Result<(), AllocError>
    ensures { OnOk result (text.new.items
        ≡ text.old.items ++ text_of (ground_lines files.now reason.now)) }
{
    append(text, "  ")?;
    append_guess(text, reason.guess)?;
    append(text, " at ")?;
    append_place(text, files, reason.place)?;
    append(text, "\n")?;
    append_others(text, &reason.others)
}

/// Appends the inputs and guesses of the other runs, which are numbered from 1.
fn append_others(text: &mut Vec<u8>, others: &Others<Run>) -> Result<(), AllocError>
    ensures { OnOk result (text.new.items
        ≡ text.old.items ++ text_of (others_lines others.now)) }
{
    match others {
        Others::One(first) => append_other(text, 1, first),
        Others::Two(first, second) => {
            append_other(text, 1, first)?;
            append_other(text, 2, second)
        }
    }
}

/// Appends the inputs of another run, then its guesses.
fn append_other(text: &mut Vec<u8>, number: u32, run: &Run) -> Result<(), AllocError>
    ensures { OnOk result (text.new.items
        ≡ text.old.items ++ text_of (other_lines number run.now)) }
{
    append_other_inputs(text, number, run.inputs.list())?;
    append_other_guesses(text, number, &run.guesses)
}

/// Appends `    other J PATH = N` for each input of another run.
fn append_other_inputs(
    text: &mut Vec<u8>,
    number: u32,
    inputs: &[(Path, i128)],
) -> Result<(), AllocError>
    ensures { OnOk result (text.new.items ≡ text.old.items ++ flat_map (λ (input : Path × ℤ).
        (codes "    other " ++ decimal number ++ codes " " ++ input_text input) ++ codes "\n")
        inputs.now) }
{
    for input in inputs {
        append_other_input(text, number, input)?;
    }
    Ok(())
}

/// Appends `    other J PATH = N`.
fn append_other_input(
    text: &mut Vec<u8>,
    number: u32,
    input: &(Path, i128),
) -> Result<(), AllocError>
    ensures { OnOk result (text.new.items ≡ text.old.items
        ++ ((codes "    other " ++ decimal number ++ codes " " ++ input_text input.now)
        ++ codes "\n")) }
{
    append(text, format_args!("    other {number} "))?;
    append_input(text, input)?;
    append(text, "\n")
}

/// Appends `    other J guess E = N` for each guess of another run.
fn append_other_guesses(
    text: &mut Vec<u8>,
    number: u32,
    guesses: &[Guess],
) -> Result<(), AllocError>
    ensures { OnOk result (text.new.items ≡ text.old.items ++ flat_map
        (λ (guess : Guess).
        (codes "    other " ++ decimal number ++ codes " " ++ guess_text guess) ++ codes "\n")
        guesses.now) }
{
    for guess in guesses {
        append_other_guess(text, number, *guess)?;
    }
    Ok(())
}

/// Appends `    other J guess E = N`.
fn append_other_guess(text: &mut Vec<u8>, number: u32, guess: Guess) -> Result<(), AllocError>
    ensures { OnOk result (text.new.items ≡ text.old.items
        ++ ((codes "    other " ++ decimal number ++ codes " " ++ guess_text guess)
        ++ codes "\n")) }
{
    append(text, format_args!("    other {number} "))?;
    append_guess(text, guess)?;
    append(text, "\n")
}
