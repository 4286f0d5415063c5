//! Which calls of a source or a sink over memory fail.
ghost use Rattle.std.specs.Prelude.{◌≡◌, ◌<◌, ◌^◌, ◌↔◌, IsErr, OnOk, OnErr};
ghost use Rattle.cs_io.specs.FaultPlan.{FailsNext, after_call, after_fault};

use crate::traits::Failed;
use std::marker::Model;

/// The numbers of the calls that fail, counted from 1, with how many calls and faults there were.
#[derive(Drop)]
pub struct FaultPlan {
    fails: Vec<u64>,
    calls: u64,
    faults: u64,
}

impl Model for FaultPlan {
    ghost use Rattle.std.specs.Prelude.{◌<◌, ◌≤◌, ◌^◌, All};
    ghost use Rattle.cs_io.specs.FaultPlan.{Plan};

    ghost Value = { Plan };

    ghost view = { λ p. record { fails = p.fails.items; calls = p.calls; faults = p.faults } };

    ghost invariant = { λ p. (p.faults ≤ p.calls) × All (λ n. n < 2 ^ 64) p.fails.items };
}

impl FaultPlan {
    pub fn new(fails: Vec<u64>) -> Self
        ensures { result ≡ record { fails = fails.items; calls = 0; faults = 0 } }
    {
        FaultPlan {
            fails,
            calls: 0,
            faults: 0,
        }
    }

    /// Counts a call, which fails exactly if its number is listed. No call after the first 2^64 - 1 is counted or listed, so later calls don't
    /// fail.
    pub fn call(&mut self) -> Result<(), Failed>
        ensures listed { IsErr result ↔ FailsNext self.old }
        ensures ok { OnOk result (self.new ≡ after_call self.old) }
        ensures err { OnErr result (self.new ≡ after_fault self.old) }
        ensures in_range { self.new.faults < 2 ^ 64 }
    {
        let Some(call) = self.calls.checked_add(1) else {
            return Ok(());
        };
        self.calls = call;
        if self.fails.contains(&call) {
            self.faults += 1;
            return Err(Failed);
        }
        Ok(())
    }
}
