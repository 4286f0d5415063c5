//! How many first events the replays of a pool share with the shown run.
ghost use Rattle.std.specs.Prelude.{IfOk};
ghost use Rattle.cs_judge.specs.Agreement.{AreShares};

use crate::pool::Replay;
use cs_compared::common;
use cs_events::Event;
use std::alloc::{AllocError, Global};

/// Returns for each replay a number of first events that it shares with the shown run.
pub fn shares(alloc: Global, pool: &[Replay], shown: &[Event]) -> Result<Vec<usize>, AllocError>
    ensures { IfOk result (λ shares. AreShares shown.now pool.now shares.items) }
{
    let mut shares = Vec::new(alloc);
    for replay in pool {
        shares.push(common(replay.events.as_slice(), shown))?;
    }
    Ok(shares)
}
