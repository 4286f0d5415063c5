//! The worklist: rows whose successors aren't found yet.
ghost use Rattle.std.specs.Prelude.{◌≡◌, ℕ, [], IfNone, IfSome, OnOk, OnErr};
ghost use Rattle.cs_graph.specs.Waiting.{IsWaiting, HasJoined, IsGiven};

use std::alloc::{AllocError, Global};
use std::collections::BTreeSet;
use std::marker::Model;

/// The rows that wait, each with its number of visits. A contract sees the pairs of visits and row, in order.
#[derive(Drop)]
pub struct Worklist {
    waiting: BTreeSet<(u64, u32)>,
}

impl Model for Worklist {
    ghost use Rattle.std.specs.Prelude.{ℕ, List};
    ghost use Rattle.cs_graph.specs.Waiting.{HasRowsOnce};

    ghost Value = { List (ℕ × ℕ) };

    ghost view = { λ w. w.waiting.keys };

    ghost invariant = { λ w. HasRowsOnce w.waiting.keys };
}

impl Worklist {
    /// Returns a worklist without rows.
    pub fn new(alloc: Global) -> Worklist
        ensures { result ≡ [] }
    {
        Worklist {
            waiting: BTreeSet::new(alloc),
        }
    }

    /// Adds a row that doesn't wait yet.
    pub fn add(&mut self, visits: u64, row: u32) -> Result<(), AllocError>
        requires { (other : ℕ) → ¬ IsWaiting self.old other row }
        ensures ok { OnOk result (HasJoined visits row self.old self.new) }
        ensures err { OnErr result (self.new ≡ self.old) }
    {
        self.waiting.insert((visits, row))?;
        Ok(())
    }

    /// Takes a row with the fewest visits; none if no row waits.
    pub fn take(&mut self) -> Option<u32>
        ensures some { IfSome result (λ row. IsGiven row self.old self.new) }
        ensures none { IfNone result ((self.old ≡ []) × (self.new ≡ [])) }
    {
        let (_, row) = self.waiting.pop_first()?;
        Some(row)
    }
}
