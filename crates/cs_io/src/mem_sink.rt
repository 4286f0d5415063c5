//! A sink over memory whose calls can take less than they are given, and can fail.
ghost use Rattle.std.specs.Prelude.{◌≡◌, ◌-◌, ◌<◌, ◌↔◌, ◌++◌, [], length, take, min, IsErr, IfOk, OnErr, Some};
ghost use Rattle.cs_io.specs.Count.{CountsUp, empty_takes_after};
ghost use Rattle.cs_io.specs.FaultPlan.{FailsNext, after_call, after_fault};

use crate::fault_plan::FaultPlan;
use crate::sure_sink::SureSink;
use crate::traits::{Failed, Sink};
use std::alloc::{AllocError, Global};
use std::marker::Model;

/// Takes at most `most` bytes in each call until it is full, and fails at the listed calls.
#[derive(Drop)]
pub struct MemSink {
    inner: SureSink,
    most: usize,
    plan: FaultPlan,
}

impl Model for MemSink {
    ghost use Rattle.std.specs.Prelude.{◌<◌, ◌^◌};
    ghost use Rattle.cs_io.specs.MemSink.{MemSinkState};

    ghost Value = { MemSinkState };

    ghost view = { λ s. record {
      written = s.inner.written;
      capacity = s.inner.capacity;
      most = s.most;
      empty_takes = s.inner.empty_takes;
      plan = s.plan;
    } };

    ghost invariant = { λ s. (0 < s.most) × (s.inner.empty_takes < 2 ^ 64) };
}

impl MemSink {
    /// Makes a sink, and reserves the memory for `capacity` bytes; later calls allocate none. The calls whose numbers, counted from 1, are in
    /// `fails` fail.
    pub fn new(
        alloc: Global,
        capacity: usize,
        most: usize,
        fails: Vec<u64>,
    ) -> Result<Self, AllocError>
        requires { 0 < most }
        ensures { IfOk result (λ sink. sink ≡ record {
          written = [];
          capacity = capacity;
          most = most;
          empty_takes = 0;
          plan = record { fails = fails.items; calls = 0; faults = 0 };
        }) }
    {
        Ok(MemSink {
            inner: SureSink::new(alloc, capacity)?,
            most,
            plan: FaultPlan::new(fails),
        })
    }

    /// Returns the bytes written, in order.
    pub fn written(&self) -> &[u8]
        ensures { result.now ≡ self.now.written }
    {
        self.inner.written()
    }
}

impl Sink for MemSink {
    ghost written = { λ s. Some s.written };

    ghost faults = { λ s. s.plan.faults };

    ghost empty_takes = { λ s. s.empty_takes };

    fn write(&mut self, piece: &[u8]) -> Result<usize, Failed>
        requires nonempty { 0 < length piece.now }
        ensures listed { IsErr result ↔ FailsNext self.old.plan }
        ensures takes { IfOk result (λ k.
            k ≡ min (min (length piece.now) self.old.most)
            (self.old.capacity - length self.old.written)) }
        ensures full { IfOk result (λ k.
            (k ≡ 0) ↔ (length self.old.written ≡ self.old.capacity)) }
        ensures ok { IfOk result (λ k. self.new ≡ record self.old {
          written = self.old.written ++ take k piece.now;
          empty_takes = empty_takes_after k self.old.empty_takes;
          plan = after_call self.old.plan;
        }) }
        ensures err { OnErr result (self.new
            ≡ record self.old { plan = after_fault self.old.plan }) }
        ensures faults { CountsUp self.old.plan.faults self.new.plan.faults }
        ensures empty_takes { CountsUp self.old.empty_takes self.new.empty_takes }
    {
        self.plan.call()?;
        let most = piece.len().min(self.most);
        self.inner.write(&piece[..most])
    }
}
