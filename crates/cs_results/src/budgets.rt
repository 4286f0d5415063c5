//! The budgets of an analysis.
ghost use Rattle.std.specs.Prelude.{◌≡◌};
ghost use Rattle.cs_results.specs.RunBudgets.{run_budgets};

use cs_events::RunBudgets;

/// The budgets of an analysis. The first three end a run, the last two only cut the analysis.
#[derive(Clone, Copy, PartialEq, Eq, Debug)]
pub struct Budgets {
    /// How often a frame may reach the same loop head or label.
    pub visits: u32,
    /// How many frames there may be at the same time.
    pub depth: u32,
    /// How many events a run may pass.
    pub events: u64,
    /// How many nodes the exploded graph may have.
    pub nodes: u64,
    /// How many offsets of one access are followed.
    pub splits: u64,
}

impl Budgets {
    /// Returns the budgets that end a run.
    pub fn of_runs(self) -> RunBudgets
        ensures { result ≡ run_budgets self }
    {
        RunBudgets {
            visits: self.visits,
            depth: self.depth,
            events: self.events,
        }
    }
}
