//! Findings and cuts as JSON values.
ghost use Rattle.std.specs.Prelude.{◌≡◌, map, IfOk, codes};
ghost use Rattle.serde_json.specs.View.{view};
ghost use Rattle.cs_ast.specs.TypedProgram.{typed_program};
ghost use Rattle.cs_report.specs.AnalysisJson as form;

use crate::json_ground::grounds_value;
use cs_ast::typed::program::Program;
use cs_events::{Event, Outcome};
use cs_names::Name;
use cs_report_parts::{inputs_value, pair, place_value, step_text, text_value};
use cs_results::{Cut, Finding};
use serde_json::{Value, json};
use std::alloc::{AllocError, Global};

/// The parts that reports and met budgets have in common.
#[derive(Drop)]
struct Parts {
    confirmed: bool,
    guesses: Value,
    inputs: Value,
    steps: Value,
}

/// Returns the object of a finding: its position, whether it is confirmed, its guesses, inputs and steps, and its kind or budget.
pub(crate) fn finding_value(
    alloc: Global,
    program: &Program,
    finding: &Finding,
) -> Result<Value, AllocError>
    ensures { IfOk result (λ value.
        view value ≡ form.finding_json (typed_program program.now) finding.now) }
{
    let parts = Parts {
        confirmed: finding.run.guesses.is_empty(),
        guesses: grounds_value(alloc, &program.files, &finding.grounds)?,
        inputs: inputs_value(alloc, finding.run.inputs.list())?,
        steps: steps_value(alloc, program, &finding.events)?,
    };
    value_of(alloc, &program.files, finding.what, parts)
}

/// Returns the object of a finding with these parts.
fn value_of(alloc: Global, files: &[Name], what: Outcome, parts: Parts) -> Result<Value, AllocError>
    ensures { IfOk result (λ value. view value ≡ form.finding_of what files.now parts.confirmed
        (view parts.guesses) (view parts.inputs) (view parts.steps)) }
{
    let Parts {
        confirmed,
        guesses,
        inputs,
        steps,
    } = parts;
    match what {
        Outcome::Fault(kind, place) => {
            let at = place_value(alloc, files, place)?;
            json!(in alloc; {
                "at": at, "confirmed": confirmed, "guesses": guesses, "inputs": inputs,
                "kind": (kind.name()), "steps": steps
            })
        }
        Outcome::Over(budget, place) => {
            let at = place_value(alloc, files, place)?;
            json!(in alloc; {
                "at": at, "budget": (budget.name()), "confirmed": confirmed,
                "guesses": guesses, "inputs": inputs, "steps": steps
            })
        }
        Outcome::Done(_) => Ok(Value::Null),
    }
}

/// Returns the steps of a run, each a pair of its position and what it shows.
fn steps_value(alloc: Global, program: &Program, events: &[Event]) -> Result<Value, AllocError>
    ensures { IfOk result (λ value.
        view value ≡ form.steps_json (typed_program program.now) events.now) }
{
    let mut list = Vec::new(alloc);
    for event in events {
        if let Some(step) = step_text(alloc, program, event.label)? {
            let at = place_value(alloc, &program.files, event.place)?;
            let step = text_value(alloc, &step)?;
            list.push(pair(alloc, at, step)?)?;
        }
    }
    Ok(Value::Array(list))
}

/// Returns the value of a cut.
pub(crate) fn cut_value(alloc: Global, files: &[Name], cut: Cut) -> Result<Value, AllocError>
    ensures { IfOk result (λ value. view value ≡ form.cut_json files.now cut) }
{
    match cut {
        Cut::Nodes(nodes) => json!(in alloc; {"nodes": nodes}),
        Cut::Splits(place, offsets) => {
            let at = place_value(alloc, files, place)?;
            json!(in alloc; {"at": at, "splits": offsets})
        }
    }
}
