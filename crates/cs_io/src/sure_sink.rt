//! A sink over memory that never fails.
ghost use Rattle.std.specs.Prelude.{◌≡◌, ◌-◌, ◌<◌, ◌↔◌, ◌++◌, [], length, take, min, IfOk, Some};
ghost use Rattle.cs_io.specs.Count.{CountsUp, empty_takes_after};

use crate::traits::{Failed, Sink};
use std::alloc::{AllocError, Global};
use std::marker::Model;

/// Takes bytes until it is full.
#[derive(Drop)]
pub struct SureSink {
    bytes: Vec<u8>,
    capacity: usize,
    empty_takes: u64,
}

impl Model for SureSink {
    ghost use Rattle.std.specs.Prelude.{◌<◌, ◌≤◌, ◌^◌, vec_len, vec_capacity};
    ghost use Rattle.cs_io.specs.SureSink.{SureSinkState};

    ghost Value = { SureSinkState };

    ghost view = { λ s. record { written = s.bytes.items; capacity = s.capacity; empty_takes = s.empty_takes } };

    ghost invariant = { λ s. (vec_len s.bytes ≤ s.capacity) × (s.capacity ≤ vec_capacity s.bytes) × (s.empty_takes < 2 ^ 64) };
}

impl SureSink {
    /// Makes a sink, and reserves the memory for `capacity` bytes; later calls allocate none.
    pub fn new(alloc: Global, capacity: usize) -> Result<Self, AllocError>
        ensures { IfOk result (λ sink.
            sink ≡ record { written = []; capacity = capacity; empty_takes = 0 }) }
    {
        Ok(SureSink {
            bytes: Vec::with_capacity(alloc, capacity)?,
            capacity,
            empty_takes: 0,
        })
    }

    /// Returns the bytes written, in order.
    pub fn written(&self) -> &[u8]
        ensures { result.now ≡ self.now.written }
    {
        &self.bytes
    }
}

impl Sink for SureSink {
    ghost written = { λ s. Some s.written };

    ghost faults = { λ _. 0 };

    ghost empty_takes = { λ s. s.empty_takes };

    fn write(&mut self, piece: &[u8]) -> Result<usize, Failed>
        requires nonempty { 0 < length piece.now }
        ensures takes { result
            ≡ Ok (min (length piece.now) (self.old.capacity - length self.old.written)) }
        ensures full { (result ≡ Ok 0) ↔ (length self.old.written ≡ self.old.capacity) }
        ensures ok { IfOk result (λ k. self.new ≡ record self.old {
          written = self.old.written ++ take k piece.now;
          empty_takes = empty_takes_after k self.old.empty_takes;
        }) }
        ensures empty_takes { CountsUp self.old.empty_takes self.new.empty_takes }
    {
        let count = piece.len().min(self.capacity - self.bytes.len());
        self.bytes.extend_from_slice(&piece[..count]).unwrap();
        if count == 0 {
            self.empty_takes = self.empty_takes.saturating_add(1);
        }
        Ok(count)
    }
}
