//! Inputs and guesses as text.
ghost use Rattle.std.specs.Prelude.{◌≡◌, ◌++◌, ℤ, OnOk, codes};
ghost use Rattle.std.specs.List.{flat_map};
ghost use Rattle.cs_inputs.specs.declared.path.Path.{Path};
ghost use Rattle.cs_report_parts.specs.RunLines.{input_text, guess_text};

use crate::printing::append;
use cs_events::Guess;
use cs_inputs::{Path, print};
use std::alloc::AllocError;

/// Appends a line `  input PATH = N` for each input.
pub fn append_inputs(text: &mut Vec<u8>, inputs: &[(Path, i128)]) -> Result<(), AllocError>
    ensures { OnOk result (text.new.items ≡ text.old.items ++ flat_map
        (λ (input : Path × ℤ). codes "  input " ++ input_text input ++ codes "\n") inputs.now) }
{
    for input in inputs {
        append_input_line(text, input)?;
    }
    Ok(())
}

/// Appends `  input PATH = N`.
fn append_input_line(text: &mut Vec<u8>, input: &(Path, i128)) -> Result<(), AllocError>
    ensures { OnOk result (text.new.items
        ≡ text.old.items ++ (codes "  input " ++ input_text input.now ++ codes "\n")) }
{
    append(text, "  input ")?;
    append_input(text, input)?;
    append(text, "\n")
}

/// Appends `PATH = N`.
pub fn append_input(text: &mut Vec<u8>, input: &(Path, i128)) -> Result<(), AllocError>
    ensures { OnOk result (text.new.items ≡ text.old.items ++ input_text input.now) }
{
    let printed = print(*text.allocator(), &input.0)?;
    text.extend_from_slice(printed.as_bytes())?;
    append(text, format_args!(" = {}", input.1))
}

/// Appends `guess E = N`.
pub fn append_guess(text: &mut Vec<u8>, guess: Guess) -> Result<(), AllocError>
    ensures { OnOk result (text.new.items ≡ text.old.items ++ guess_text guess) }
{
    append(
        text,
        format_args!("guess {} = {}", guess.event, guess.number),
    )
}
