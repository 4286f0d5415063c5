//! Why an operation can't continue.

use std::alloc::{AllocError, AllocFailed};

/// Why an operation pauses before it is done.
#[derive(Clone, Copy)]
pub enum Pause {
    /// Something has to be handled first, which its progress names.
    Waits,
    Memory,
}

impl From<AllocError> for Pause {
    ghost use Rattle.std.specs.Prelude.{◌≡◌};
    ghost use Rattle.cs_progress.specs.declared.pause.Pause.TheVariants.{Memory};

    ghost from_gives = { λ error made. made ≡ Memory };

    fn from(_error: AllocError) -> Pause {
        Pause::Memory
    }
}

impl<T: Drop> From<AllocFailed<T>> for Pause {
    ghost use Rattle.std.specs.Prelude.{◌≡◌};
    ghost use Rattle.cs_progress.specs.declared.pause.Pause.TheVariants.{Memory};

    ghost from_gives = { λ error made. made ≡ Memory };

    fn from(_error: AllocFailed<T>) -> Pause {
        Pause::Memory
    }
}
