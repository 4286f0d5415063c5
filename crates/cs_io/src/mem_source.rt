//! A source over memory whose calls can return less than they could, and can fail.
ghost use Rattle.std.specs.Prelude.{◌≡◌, ◌<◌, ◌↔◌, ◌++◌, [], length, take, drop, min, IsErr, IfOk, OnErr, Some};
ghost use Rattle.cs_io.specs.Count.{CountsUp};
ghost use Rattle.cs_io.specs.FaultPlan.{FailsNext, after_call, after_fault};

use crate::fault_plan::FaultPlan;
use crate::sure_source::SureSource;
use crate::traits::{Failed, Source};
use std::marker::Model;

/// Returns the bytes of a list, at most `most` in each call, and fails at the listed calls.
#[derive(Drop)]
pub struct MemSource {
    inner: SureSource,
    most: usize,
    plan: FaultPlan,
}

impl Model for MemSource {
    ghost use Rattle.std.specs.Prelude.{◌<◌};
    ghost use Rattle.cs_io.specs.MemSource.{MemSourceState};

    ghost Value = { MemSourceState };

    ghost view = { λ s. record { left = s.inner; most = s.most; plan = s.plan } };

    ghost invariant = { λ s. 0 < s.most };
}

impl MemSource {
    /// Makes a source. The calls whose numbers, counted from 1, are in `fails` fail.
    pub fn new(bytes: Vec<u8>, most: usize, fails: Vec<u64>) -> Self
        requires { 0 < most }
        ensures { result ≡ record {
          left = bytes.items;
          most = most;
          plan = record { fails = fails.items; calls = 0; faults = 0 };
        } }
    {
        MemSource {
            inner: SureSource::new(bytes),
            most,
            plan: FaultPlan::new(fails),
        }
    }
}

impl Source for MemSource {
    ghost left = { λ s. Some s.left };

    ghost faults = { λ s. s.plan.faults };

    fn read(&mut self, into: &mut [u8]) -> Result<usize, Failed>
        requires nonempty { 0 < length into.old }
        ensures listed { IsErr result ↔ FailsNext self.old.plan }
        ensures gives { IfOk result (λ k.
            k ≡ min (min (length into.old) self.old.most) (length self.old.left)) }
        ensures end { IfOk result (λ k. (k ≡ 0) ↔ (self.old.left ≡ [])) }
        ensures fills { IfOk result (λ k. into.new ≡ take k self.old.left ++ drop k into.old) }
        ensures ok { IfOk result (λ k. self.new ≡ record self.old {
          left = drop k self.old.left;
          plan = after_call self.old.plan;
        }) }
        ensures err { OnErr result (self.new
            ≡ record self.old { plan = after_fault self.old.plan }) }
        ensures untouched { OnErr result (into.new ≡ into.old) }
        ensures faults { CountsUp self.old.plan.faults self.new.plan.faults }
    {
        self.plan.call()?;
        let most = into.len().min(self.most);
        self.inner.read(&mut into[..most])
    }
}
