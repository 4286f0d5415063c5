//! The outcome of a replayed run, as text.
ghost use Rattle.std.specs.Prelude.{◌≡◌, ◌++◌, OnOk};
ghost use Rattle.cs_report.specs.ReplayLines.{returned_text, replay_line};

use cs_events::{Outcome, Returned};
use cs_names::Name;
use cs_report_parts::{append, append_place};
use std::alloc::AllocError;

/// Appends the line of a run: `done`, `done RETURNED`, `fault KIND PLACE` or `over BUDGET PLACE`.
pub fn append_replayed(
    text: &mut Vec<u8>,
    files: &[Name],
    outcome: Outcome,
) -> Result<(), AllocError>
    ensures { OnOk result (text.new.items ≡ text.old.items ++ replay_line files.now outcome) }
{
    match outcome {
        Outcome::Done(returned) => {
            append(text, "done")?;
            append_returned(text, returned)?;
        }
        Outcome::Fault(kind, place) => {
            append(text, format_args!("fault {} ", kind.name()))?;
            append_place(text, files, place)?;
        }
        Outcome::Over(budget, place) => {
            append(text, format_args!("over {} ", budget.name()))?;
            append_place(text, files, place)?;
        }
    }
    append(text, "\n")
}

/// Appends a space and what an entry returned, if it returned something.
fn append_returned(text: &mut Vec<u8>, returned: Returned) -> Result<(), AllocError>
    ensures { OnOk result (text.new.items ≡ text.old.items ++ returned_text returned) }
{
    match returned {
        Returned::Nothing => Ok(()),
        Returned::Number(number) => append(text, format_args!(" {number}")),
        Returned::Null => append(text, " null"),
        Returned::Object => append(text, " object"),
        Returned::Unset => append(text, " unset"),
    }
}
