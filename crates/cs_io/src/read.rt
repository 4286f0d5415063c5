//! Reads all bytes of a source.
ghost use Rattle.std.specs.Prelude.{◌≡◌, ◌+◌, ◌<◌, ◌≤◌, ◌++◌, length, take, vec_len, IfOk, OnOk, OnErr, IfSome};
ghost use Rattle.std.specs.Io.KnownBytes.{Consumes, IsAtEnd};
ghost use Rattle.cs_io.specs.Count.{Rose};
ghost use Rattle.cs_io.specs.Reported.{LosesFront};
ghost use Rattle.cs_io.specs.declared.read.ReadRefusal.TheVariants.{ReadFault, Memory};

use crate::traits::{Failed, Source};
use cs_limits::MOST_BYTES;
use std::alloc::{AllocError, Global};
use std::error::Error;
use std::fmt;

/// The size of the buffer: the most bytes that one call of a source can return.
const BUFFER: usize = 4096;

/// Why a source wasn't read to its end.
#[derive(Clone, Copy, Debug, PartialEq, Eq)]
pub enum ReadRefusal {
    /// A read failed.
    ReadFault,
    /// There are more than `MOST_BYTES` bytes.
    TooLong,
    /// Memory ran out.
    Memory,
}

impl fmt::Display for ReadRefusal {
    fn fmt<W: fmt::Write>(&self, f: &mut fmt::Formatter<W>) -> fmt::Result {
        f.write_str(match self {
            ReadRefusal::ReadFault => "a read failed",
            ReadRefusal::TooLong => "the input is too long",
            ReadRefusal::Memory => "out of memory",
        })
    }
}

impl Error for ReadRefusal {}

impl From<Failed> for ReadRefusal {
    ghost from_gives = { λ _ e. e ≡ ReadFault };

    fn from(_failed: Failed) -> ReadRefusal {
        ReadRefusal::ReadFault
    }
}

impl From<AllocError> for ReadRefusal {
    ghost from_gives = { λ _ e. e ≡ Memory };

    fn from(_error: AllocError) -> ReadRefusal {
        ReadRefusal::Memory
    }
}

/// Reads once into `buffer`, and appends what was read to `bytes`. A result of 0 is the end.
fn read_more<S: Source>(
    source: &mut S,
    buffer: &mut [u8],
    bytes: &mut Vec<u8>,
) -> Result<usize, ReadRefusal>
    requires nonempty { 0 < length buffer.old }
    requires within { vec_len bytes.old ≤ MOST_BYTES }
    ensures takes_next { IfOk result (λ k.
        Consumes (S.left source.old) (S.left source.new) (take k buffer.new)) }
    ensures adds { IfOk result (λ k. bytes.new.items ≡ bytes.old.items ++ take k buffer.new) }
    ensures counts { IfOk result (λ k. vec_len bytes.new ≡ vec_len bytes.old + k) }
    ensures limit { OnOk result (vec_len bytes.new ≤ MOST_BYTES) }
    ensures end { result ≡ Ok 0 → IsAtEnd (S.left source.new) }
    ensures buffer { length buffer.new ≡ length buffer.old }
    ensures loses_front { LosesFront (S.left source.old) (S.left source.new) }
    ensures too_long { result ≡ Err ReadRefusal.TooLong → IfSome (S.left source.old) (λ left.
        MOST_BYTES < length bytes.old.items + length left) }
    ensures fault { result ≡ Err ReadRefusal.ReadFault
        → Rose (S.faults source.old) (S.faults source.new) }
    ensures never_falls { S.faults source.old ≤ S.faults source.new }
{
    let count = source.read(buffer)?;
    if count > MOST_BYTES - bytes.len() {
        return Err(ReadRefusal::TooLong);
    }
    bytes.extend_from_slice(&buffer[..count])?;
    Ok(count)
}

/// Returns all remaining bytes of the source, in order, if they are at most `MOST_BYTES`.
pub fn read_all<S: Source>(alloc: Global, source: &mut S) -> Result<Vec<u8>, ReadRefusal>
    ensures all { IfOk result (λ bytes.
        IfSome (S.left source.old) (λ left. bytes.items ≡ left)) }
    ensures to_the_end { OnOk result (IsAtEnd (S.left source.new)) }
    ensures limit { IfOk result (λ bytes. vec_len bytes ≤ MOST_BYTES) }
    ensures err { OnErr result (LosesFront (S.left source.old) (S.left source.new)) }

    // A source is refused as too long only if more than the limit remained, and as faulty only if its count increased.
    ensures too_long { result ≡ Err ReadRefusal.TooLong
        → IfSome (S.left source.old) (λ left. MOST_BYTES < length left) }
    ensures fault { result ≡ Err ReadRefusal.ReadFault
        → Rose (S.faults source.old) (S.faults source.new) }
    ensures never_falls { S.faults source.old ≤ S.faults source.new }
{
    let mut bytes = Vec::new(alloc);
    let mut buffer = [0; BUFFER];
    loop {
        if read_more(source, &mut buffer, &mut bytes)? == 0 {
            return Ok(bytes);
        }
    }
}
