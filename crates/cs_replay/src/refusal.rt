//! Why a replay fails.
ghost use Rattle.std.specs.Prelude.{◌≡◌};
ghost use Rattle.cs_replay.specs.declared.refusal.ReplayRefusal.TheVariants.{Memory};

use std::alloc::AllocError;
use thiserror::Error;

/// Why a replay fails.
#[derive(Clone, Copy, Debug, Error)]
pub enum ReplayRefusal {
    /// The entry isn't a function with a body.
    #[error("the entry is no function with a body")]
    NoEntry,
    /// Memory ran out.
    #[error("out of memory")]
    Memory,
}

impl From<AllocError> for ReplayRefusal {
    ghost from_gives = { λ _ refusal. refusal ≡ Memory };

    fn from(_error: AllocError) -> ReplayRefusal {
        ReplayRefusal::Memory
    }
}
