//! Writes a whole text into a sink.
ghost use Rattle.std.specs.Prelude.{◌≤◌, ◌⊎◌, OnOk, OnErr};
ghost use Rattle.std.specs.Io.KnownBytes.{Appends};
ghost use Rattle.cs_io.specs.Count.{Rose};
ghost use Rattle.cs_io.specs.Reported.{AppendsPart};

use crate::traits::{Failed, Sink};
use std::error::Error;
use std::fmt;

/// Why a text wasn't written completely.
#[derive(Clone, Copy, Debug, PartialEq, Eq)]
pub enum WriteRefusal {
    /// A write failed, or took no byte.
    WriteFault,
}

impl fmt::Display for WriteRefusal {
    fn fmt<W: fmt::Write>(&self, f: &mut fmt::Formatter<W>) -> fmt::Result {
        f.write_str(match self {
            WriteRefusal::WriteFault => "a write failed",
        })
    }
}

impl Error for WriteRefusal {}

impl From<Failed> for WriteRefusal {
    fn from(_failed: Failed) -> WriteRefusal {
        WriteRefusal::WriteFault
    }
}

/// Writes the whole text, in as many calls as the sink needs. It allocates no memory.
pub fn write_all_of<K: Sink>(sink: &mut K, text: &[u8]) -> Result<(), WriteRefusal>
    ensures all { OnOk result (Appends (K.written sink.old) (K.written sink.new) text.now) }
    ensures part { OnErr result (AppendsPart (K.written sink.old) (K.written sink.new) text.now) }

    // It gives up only if a call failed or took nothing.
    ensures fault { OnErr result (Rose (K.faults sink.old) (K.faults sink.new) ⊎
        Rose (K.empty_takes sink.old) (K.empty_takes sink.new)) }
    ensures never_fall { (K.faults sink.old ≤ K.faults sink.new)
        × (K.empty_takes sink.old ≤ K.empty_takes sink.new) }
{
    let mut done = 0;
    while done < text.len() {
        let count = sink.write(&text[done..])?;
        if count == 0 {
            return Err(WriteRefusal::WriteFault);
        }
        done += count;
    }
    Ok(())
}
