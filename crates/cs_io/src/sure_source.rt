//! A source over memory that never fails.
ghost use Rattle.std.specs.Prelude.{◌≡◌, ◌<◌, ◌++◌, length, take, drop, min, IfOk, Some};

use crate::traits::{Failed, Source};
use std::marker::Model;

/// Returns the bytes of a list, as many in each call as fit. Contracts see the remaining bytes.
#[derive(Drop)]
pub struct SureSource {
    bytes: Vec<u8>,
    given: usize,
}

impl Model for SureSource {
    ghost use Rattle.std.specs.Prelude.{ℕ, ◌≤◌, List, drop, vec_len};

    ghost Value = { List ℕ };

    ghost view = { λ s. drop s.given s.bytes.items };

    ghost invariant = { λ s. s.given ≤ vec_len s.bytes };
}

impl SureSource {
    pub fn new(bytes: Vec<u8>) -> Self
        ensures { result ≡ bytes.items }
    {
        SureSource { bytes, given: 0 }
    }
}

impl Source for SureSource {
    ghost left = { λ s. Some s };

    ghost faults = { λ _. 0 };

    fn read(&mut self, into: &mut [u8]) -> Result<usize, Failed>
        requires nonempty { 0 < length into.old }
        ensures gives { result ≡ Ok (min (length into.old) (length self.old)) }
        ensures fills { IfOk result (λ k. into.new ≡ take k self.old ++ drop k into.old) }
        ensures rest { IfOk result (λ k. self.new ≡ drop k self.old) }
    {
        let left = &self.bytes[self.given..];
        let count = into.len().min(left.len());
        into[..count].copy_from_slice(&left[..count]);
        self.given += count;
        Ok(count)
    }
}
