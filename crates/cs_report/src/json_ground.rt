//! Guesses with the other runs that are their grounds, as JSON values.
ghost use Rattle.std.specs.Prelude.{◌≡◌, IfOk, codes};
ghost use Rattle.serde_json.specs.View.{view};
ghost use Rattle.cs_report.specs.AnalysisJson as form;

use cs_names::Name;
use cs_report_parts::{number_value, pair, place_value, run_value};
use cs_results::{Ground, Others, Run};
use serde_json::{Value, json};
use std::alloc::{AllocError, Global};

/// Returns the guesses of a finding, each with the other runs that are its ground.
pub(crate) fn grounds_value(
    alloc: Global,
    files: &[Name],
    grounds: &[Ground],
) -> Result<Value, AllocError>
    ensures { IfOk result (λ value. view value ≡ form.grounds_json files.now grounds.now) }
{
    let mut list = Vec::new(alloc);
    for reason in grounds {
        list.push(ground_value(alloc, files, reason)?)?;
    }
    Ok(Value::Array(list))
}

/// Returns the object of a guess with the other runs that are its ground.
fn ground_value(alloc: Global, files: &[Name], reason: &Ground) -> Result<Value, AllocError>
    ensures { IfOk result (λ value. view value ≡ form.ground_json files.now reason.now) }
{
    let at = place_value(alloc, files, reason.place)?;
    let number = number_value(alloc, reason.guess.number)?;
    let others = others_value(alloc, &reason.others)?;
    let event = reason.guess.event;
    json!(in alloc; {"at": at, "event": event, "number": number, "others": others})
}

/// Returns the list of the other runs of a ground.
fn others_value(alloc: Global, others: &Others<Run>) -> Result<Value, AllocError>
    ensures { IfOk result (λ value. view value ≡ form.others_json others.now) }
{
    match others {
        Others::One(first) => {
            let first = run_value(alloc, first)?;
            json!(in alloc; [first])
        }
        Others::Two(first, second) => {
            let first = run_value(alloc, first)?;
            let second = run_value(alloc, second)?;
            pair(alloc, first, second)
        }
    }
}
