//! Why a command line isn't valid.
ghost use Rattle.std.specs.Prelude.{◌≡◌};
ghost use Rattle.cs_words.specs.declared.refusal.WordsRefusal.TheVariants.{Memory};

use std::alloc::{AllocError, AllocFailed};
use thiserror::Error;

/// Why a command line isn't valid.
#[derive(Clone, Copy, PartialEq, Eq, Debug, Error)]
pub enum WordsRefusal {
    /// The number, from 1, of the first word that can't continue a command; or the number after the last word, if words are missing.
    #[error("word {0} is refused")]
    Words(u64),
    /// Memory ran out.
    #[error("out of memory")]
    Memory,
}

impl From<AllocError> for WordsRefusal {
    ghost from_gives = { λ _ refusal. refusal ≡ Memory };

    fn from(_error: AllocError) -> WordsRefusal {
        WordsRefusal::Memory
    }
}

impl<T: Drop> From<AllocFailed<T>> for WordsRefusal {
    ghost from_gives = { λ _ refusal. refusal ≡ Memory };

    fn from(_error: AllocFailed<T>) -> WordsRefusal {
        WordsRefusal::Memory
    }
}
