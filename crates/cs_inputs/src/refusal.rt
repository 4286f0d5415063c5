//! Why a text isn't an input.
ghost use Rattle.std.specs.Prelude.{◌≡◌};
ghost use Rattle.cs_inputs.specs.declared.refusal.PathRefusal.TheVariants.{Memory};

use std::alloc::{AllocError, AllocFailed};
use thiserror::Error;

/// Why a text isn't an input.
#[derive(Clone, Copy, PartialEq, Eq, Debug, Error)]
pub enum PathRefusal {
    /// There is no `=`, or the text before the first one isn't that of a path.
    #[error("not a path")]
    BadPath,
    /// The text after the first `=` isn't a number.
    #[error("not a number")]
    BadNumber,
    /// The number is outside -2^63 to 2^64-1.
    #[error("number out of range")]
    TooWide,
    /// Memory ran out.
    #[error("out of memory")]
    Memory,
}

impl From<AllocError> for PathRefusal {
    ghost from_gives = { λ _ refusal. refusal ≡ Memory };

    fn from(_error: AllocError) -> PathRefusal {
        PathRefusal::Memory
    }
}

impl<T: Drop> From<AllocFailed<T>> for PathRefusal {
    ghost from_gives = { λ _ refusal. refusal ≡ Memory };

    fn from(_error: AllocFailed<T>) -> PathRefusal {
        PathRefusal::Memory
    }
}
