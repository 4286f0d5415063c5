//! What the judge keeps of a replay.
ghost use Rattle.std.specs.Prelude.{◌≡◌, map, IfOk};
ghost use Rattle.cs_ast.specs.TypedProgram.{typed_program};
ghost use Rattle.cs_findings.specs.Runs.{run_of, run_budgets};
ghost use Rattle.cs_judge.specs.Pools.{IsKept};
ghost use Rattle.cs_witness.specs.Entries.{CanRun};
ghost use Rattle.cs_run_log.specs.LogView.{pending_of};
ghost use Rattle.cs_witness.specs.Keeping.{noted};
ghost use Rattle.cs_witness.specs.Pooling.{IsReplayUpTo};

use crate::entry::Entry;
use crate::replaying::replayed;
use cs_findings::Run;
use cs_judge::{Kept, Replay};
use cs_run_log::Pending;
use std::alloc::{AllocError, Global};

/// Returns what was pending at the events of a run, in the judge's form.
pub fn kept_of(alloc: Global, pending: &[Pending]) -> Result<Vec<Kept>, AllocError>
    ensures { IfOk result (λ kept. kept.items ≡ map noted (map pending_of pending.now)) }
{
    let mut kept = Vec::new(alloc);
    for one in pending {
        kept.push(kept_at(one))?;
    }
    Ok(kept)
}

fn kept_at(pending: &Pending) -> Kept
    ensures { result ≡ noted (pending_of pending.now) }
{
    match pending {
        Pending::Operates(place, operation) => Kept::Operates(*place, *operation),
        Pending::Tries(_, _) => Kept::Other,
        Pending::Accesses(_, _, _) => Kept::Other,
    }
}

/// Replays a run up to an event, and returns it in the judge's form, with no partners yet.
pub fn replay_up_to(
    alloc: Global,
    entry: &Entry,
    run: Run,
    event: u64,
) -> Result<Replay, AllocError>
    requires { CanRun entry.now }
    ensures kept { IfOk result (IsKept (typed_program entry.now.program.now) entry.now.function
        (run_budgets entry.now.budgets)) }
    ensures replayed { IfOk result (IsReplayUpTo entry.now event) }
    ensures run { IfOk result (λ replay. run_of replay.run ≡ run_of run) }
{
    let events = event.min(entry.budgets.events);
    let replayed = replayed(alloc, entry, &run.inputs, run.guesses.as_slice(), events)?;
    let kept = kept_of(alloc, replayed.log.pending.as_slice())?;
    Ok(Replay {
        run,
        events: replayed.log.events,
        kept,
        partners: Vec::new(alloc),
    })
}
