//! Inputs, guesses and runs as JSON values.
ghost use Rattle.std.specs.Prelude.{◌≡◌, ◌∷◌, [], ℤ, map, IfOk, codes};
ghost use Rattle.serde_json.specs.View.{view};
ghost use Rattle.cs_model.specs.Places.{place_text};
ghost use Rattle.cs_report_parts.specs.RunJson as form;

use crate::place::append_place;
use cs_ast::Place;
use cs_events::Guess;
use cs_inputs::{Path, print};
use cs_names::Name;
use cs_results::Run;
use serde_json::{Value, json};
use std::alloc::{AllocError, Global};

/// Returns a text as a JSON string, in which bytes that aren't UTF-8 are replaced by U+FFFD.
pub fn text_value(alloc: Global, bytes: &[u8]) -> Result<Value, AllocError>
    ensures { IfOk result (λ value. view value ≡ form.text bytes.now) }
{
    Ok(Value::String(String::from_utf8_lossy(alloc, bytes)?))
}

/// Returns the text of a position.
pub fn place_value(alloc: Global, files: &[Name], place: Place) -> Result<Value, AllocError>
    ensures { IfOk result (λ value. view value ≡ form.text (place_text files.now place)) }
{
    let mut text = Vec::new(alloc);
    append_place(&mut text, files, place)?;
    text_value(alloc, &text)
}

/// Returns a number, or a text of its digits if it doesn't fit into 64 bits.
pub fn number_value(alloc: Global, number: i128) -> Result<Value, AllocError>
    ensures { IfOk result (λ value. view value ≡ form.integer number) }
{
    if let Ok(unsigned) = u64::try_from(number) {
        return Ok(Value::from(unsigned));
    }
    if let Ok(signed) = i64::try_from(number) {
        return Ok(Value::from(signed));
    }
    Ok(Value::String(number.to_string(alloc)?))
}

/// Returns a list of two values.
pub fn pair(alloc: Global, first: Value, second: Value) -> Result<Value, AllocError>
    ensures { IfOk result (λ value.
        view value ≡ form.list (view first ∷ view second ∷ [])) }
{
    json!(in alloc; [first, second])
}

/// Returns the inputs, each a pair of its path and its number.
pub fn inputs_value(alloc: Global, inputs: &[(Path, i128)]) -> Result<Value, AllocError>
    ensures { IfOk result (λ value. view value ≡ form.inputs_json inputs.now) }
{
    let mut list = Vec::new(alloc);
    for input in inputs {
        list.push(input_value(alloc, input)?)?;
    }
    Ok(Value::Array(list))
}

/// Returns an input as a pair.
fn input_value(alloc: Global, input: &(Path, i128)) -> Result<Value, AllocError>
    ensures { IfOk result (λ value. view value ≡ form.input_json input.now) }
{
    let printed = print(alloc, &input.0)?;
    let path = text_value(alloc, printed.as_bytes())?;
    let number = number_value(alloc, input.1)?;
    pair(alloc, path, number)
}

/// Returns another run's guesses, each a pair of its event and its number.
fn guesses_value(alloc: Global, guesses: &[Guess]) -> Result<Value, AllocError>
    ensures { IfOk result (λ value.
        view value ≡ form.list (map form.guess_json guesses.now)) }
{
    let mut list = Vec::new(alloc);
    for guess in guesses {
        list.push(guess_value(alloc, *guess)?)?;
    }
    Ok(Value::Array(list))
}

/// Returns another run's guess as a pair.
fn guess_value(alloc: Global, guess: Guess) -> Result<Value, AllocError>
    ensures { IfOk result (λ value. view value ≡ form.guess_json guess) }
{
    let number = number_value(alloc, guess.number)?;
    pair(alloc, Value::from(guess.event), number)
}

/// Returns another run: its guesses and its inputs.
pub fn run_value(alloc: Global, run: &Run) -> Result<Value, AllocError>
    ensures { IfOk result (λ value. view value ≡ form.run_json run.now) }
{
    let guesses = guesses_value(alloc, &run.guesses)?;
    let inputs = inputs_value(alloc, run.inputs.list())?;
    json!(in alloc; {"guesses": guesses, "inputs": inputs})
}
