//! Sources and sinks of bytes.
ghost use Rattle.std.specs.Prelude.{◌≡◌, ℕ, ◌<◌, ◌≤◌, List, length, take, Option, IfOk, OnErr};
ghost use Rattle.std.specs.Io.KnownBytes.{Appends, Consumes, IsAtEnd, Keeps};
ghost use Rattle.cs_io.specs.Count.{CountsUp, Rose};

use std::error::Error;
use std::fmt;

/// A read or a write failed, and moved no byte.
#[derive(Clone, Copy, Debug, PartialEq, Eq)]
pub struct Failed;

impl fmt::Display for Failed {
    fn fmt<W: fmt::Write>(&self, f: &mut fmt::Formatter<W>) -> fmt::Result {
        f.write_str("a read or a write failed")
    }
}

impl Error for Failed {}

/// Returns bytes, in order, until none remains.
pub trait Source {
    // The remaining bytes, or `None` if the source doesn't state them; then nothing is claimed of them.
    ghost left: { Self → Option (List ℕ) };

    // How many calls failed. The count doesn't exceed its last value, 2^64 - 1.
    ghost faults: { Self → ℕ };

    /// Fills the first bytes of `into`, and returns how many. A result of 0 is the end.
    fn read(&mut self, into: &mut [u8]) -> Result<usize, Failed>
        requires nonempty { 0 < length into.old }
        ensures within { IfOk result (λ k. k ≤ length into.new) }
        ensures takes_next { IfOk result (λ k.
            Consumes (left self.old) (left self.new) (take k into.new)) }
        ensures end { result ≡ Ok 0 → IsAtEnd (left self.new) }
        ensures takes_nothing { OnErr result (Keeps (left self.old) (left self.new)) }

        // A call fails only if the count increases.
        ensures fault { OnErr result (Rose (faults self.old) (faults self.new)) }
        ensures faults { CountsUp (faults self.old) (faults self.new) };
}

/// Takes bytes, in order.
pub trait Sink {
    // The bytes written, or `None` if the sink doesn't state them; then nothing is claimed of them.
    ghost written: { Self → Option (List ℕ) };

    // How many calls failed. The count doesn't exceed its last value, 2^64 - 1.
    ghost faults: { Self → ℕ };

    // How many calls took no byte and didn't fail. The count doesn't exceed its last value, 2^64 - 1.
    ghost empty_takes: { Self → ℕ };

    /// Takes the first bytes of `piece`, and returns how many.
    fn write(&mut self, piece: &[u8]) -> Result<usize, Failed>
        requires nonempty { 0 < length piece.now }
        ensures within { IfOk result (λ k. k ≤ length piece.now) }
        ensures appends { IfOk result (λ k.
            Appends (written self.old) (written self.new) (take k piece.now)) }
        ensures appends_nothing { OnErr result (Keeps (written self.old) (written self.new)) }

        // A call fails, or takes no byte, only if that count increases.
        ensures fault { OnErr result (Rose (faults self.old) (faults self.new)) }
        ensures empty_take { result ≡ Ok 0
            → Rose (empty_takes self.old) (empty_takes self.new) }
        ensures faults { CountsUp (faults self.old) (faults self.new) }
        ensures empty_takes { CountsUp (empty_takes self.old) (empty_takes self.new) };
}
