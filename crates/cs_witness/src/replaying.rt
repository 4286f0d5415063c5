//! Runs of the entry, replayed.
ghost use Rattle.std.specs.Prelude.{◌≡◌, IfOk};
ghost use Rattle.cs_ast.specs.TypedProgram.{typed_program};
ghost use Rattle.cs_findings.specs.Runs.{run_of};
ghost use Rattle.cs_meaning.specs.ProgramRuns.{RunGives};
ghost use Rattle.cs_run_log.specs.LogView.{log_of};
ghost use Rattle.cs_witness.specs.Entries.{CanRun, up_to};

use crate::entry::Entry;
use cs_events::{Guess, RunBudgets};
use cs_inputs::Inputs;
use cs_objects::Setting;
use cs_replay::{Replayed, replay};
use std::alloc::{AllocError, Global};

/// Replays a run of an entry under a budget of this many events. Returns an error if memory runs out or the function has no body.
pub fn replayed(
    alloc: Global,
    entry: &Entry,
    inputs: &Inputs,
    guesses: &[Guess],
    events: u64,
) -> Result<Replayed, AllocError>
    requires { CanRun entry.now }
    ensures { IfOk result (λ replayed.
        RunGives (typed_program entry.now.program.now) entry.now.function
        (record { inputs = inputs.now; guesses = guesses.now })
        (up_to events entry.now.budgets) replayed.outcome (log_of replayed.log)) }
{
    let setting = Setting {
        program: entry.program,
        prepared: entry.prepared,
        inputs,
        guesses,
        budgets: RunBudgets {
            visits: entry.budgets.visits,
            depth: entry.budgets.depth,
            events,
        },
    };
    match replay(alloc, &setting, entry.code, entry.function) {
        Ok(replayed) => Ok(replayed),
        Err(_) => Err(AllocError),
    }
}
