//! The results of adding a row.
ghost use Rattle.std.specs.Prelude.{◌≡◌};
ghost use Rattle.cs_graph.specs.declared.adding.GraphRefusal.TheVariants.{Memory};

use std::alloc::AllocError;
use thiserror::Error;

/// The number of the row that has the key.
#[derive(Clone, Copy, PartialEq, Eq, Debug)]
pub enum Added {
    /// The row was added under this number.
    New(u32),
    /// A row with an equal key was there before.
    Old(u32),
}

/// Why a row isn't added.
#[derive(Clone, Copy, PartialEq, Eq, Debug, Error)]
pub enum GraphRefusal {
    /// The key is new, and the number of rows is at its limit.
    #[error("too many rows")]
    Full,
    /// Memory ran out.
    #[error("out of memory")]
    Memory,
}

impl From<AllocError> for GraphRefusal {
    ghost from_gives = { λ _ refusal. refusal ≡ Memory };

    fn from(_error: AllocError) -> GraphRefusal {
        GraphRefusal::Memory
    }
}
