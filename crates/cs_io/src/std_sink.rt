//! A sink over a writer of std; nothing is proved about its bytes.
ghost use Rattle.std.specs.Prelude.{◌≡◌, ◌<◌, ◌≤◌, length, IfOk, OnErr, None};
ghost use Rattle.cs_io.specs.Count.{CountsUp, empty_takes_after, next_count};

use crate::traits::{Failed, Sink};
use std::io::Write;
use std::marker::Model;

/// Writes to `inner`, and counts its errors and the calls that took no byte. Contracts see only these counts.
#[derive(Drop)]
pub struct StdSink<W: Write> {
    inner: W,
    faults: u64,
    empty_takes: u64,
}

impl<W: Write> Model for StdSink<W> {
    ghost use Rattle.std.specs.Prelude.{◌<◌, ◌^◌};
    ghost use Rattle.cs_io.specs.StdSink.{StdSinkState};

    ghost Value = { StdSinkState };

    ghost view = { λ s. record { faults = s.faults; empty_takes = s.empty_takes } };

    ghost invariant = { λ s. (s.faults < 2 ^ 64) × (s.empty_takes < 2 ^ 64) };
}

impl<W: Write> StdSink<W> {
    pub fn new(inner: W) -> Self
        ensures { result ≡ record { faults = 0; empty_takes = 0 } }
    {
        StdSink {
            inner,
            faults: 0,
            empty_takes: 0,
        }
    }
}

impl<W: Write> Sink for StdSink<W> {
    ghost written = { λ _. None };

    ghost faults = { λ s. s.faults };

    ghost empty_takes = { λ s. s.empty_takes };

    fn write(&mut self, piece: &[u8]) -> Result<usize, Failed>
        requires nonempty { 0 < length piece.now }
        ensures within { IfOk result (λ k. k ≤ length piece.now) }
        ensures ok { IfOk result (λ k.
            self.new ≡ record self.old {
              empty_takes = empty_takes_after k self.old.empty_takes;
            }) }
        ensures err { OnErr result (self.new
            ≡ record self.old { faults = next_count self.old.faults }) }
        ensures faults { CountsUp self.old.faults self.new.faults }
        ensures empty_takes { CountsUp self.old.empty_takes self.new.empty_takes }
    {
        match self.inner.write(piece) {
            Ok(count) => {
                if count == 0 {
                    self.empty_takes = self.empty_takes.saturating_add(1);
                }
                Ok(count)
            }
            Err(_) => {
                self.faults = self.faults.saturating_add(1);
                Err(Failed)
            }
        }
    }
}
