//! Words that several owners share.
ghost use Rattle.std.specs.Prelude.{◌≡◌, IfOk};

use crate::words::Words;
use std::alloc::{AllocError, Global};
use std::marker::Model;
use std::rc::Rc;

/// Words that several owners share. A contract sees the list.
#[derive(Drop)]
pub struct SharedWords {
    words: Rc<Words>,
}

impl Model for SharedWords {
    ghost use Rattle.std.specs.Prelude.{ℕ, List};

    ghost Value = { List ℕ };

    ghost view = { λ s. s.words.value };
}

impl SharedWords {
    /// Makes words shareable.
    pub fn new(alloc: Global, words: Words) -> Result<SharedWords, AllocError>
        ensures { IfOk result (λ shared. shared ≡ words) }
    {
        Ok(SharedWords {
            words: Rc::new(alloc, words)?,
        })
    }

    /// Returns the words.
    pub fn words(&self) -> &Words
        ensures { result.now ≡ self.now }
    {
        self.words.as_ref()
    }
}

impl Clone for SharedWords {
    ghost is_clone = { λ shared copy. copy ≡ shared };

    fn clone(&self) -> Result<SharedWords, AllocError> {
        Ok(SharedWords {
            words: self.words.clone()?,
        })
    }
}
