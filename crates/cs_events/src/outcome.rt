//! How a run ends, and the budgets that can end it.
ghost use Rattle.std.specs.Prelude.{◌≡◌};
ghost use Rattle.cs_events.specs.Budgets.{budget_name};

use cs_ast::Place;
use cs_model::Kind;

/// How a run ends.
#[derive(Clone, Copy, PartialEq, Eq, Debug)]
pub enum Outcome {
    /// The entry returned.
    Done(Returned),
    /// A fault of this kind at this source position.
    Fault(Kind, Place),
    /// This budget was exceeded at this source position.
    Over(Budget, Place),
}

/// What an entry returned.
#[derive(Clone, Copy, PartialEq, Eq, Debug)]
pub enum Returned {
    Nothing,
    Number(i128),
    Null,
    Object,
    Unset,
}

/// The budgets that end a run.
#[derive(Clone, Copy, PartialEq, Eq, Debug)]
pub enum Budget {
    Visits,
    Depth,
    Events,
}

impl Budget {
    /// Returns the word for this budget in reports.
    pub fn name(self) -> &'static str
        ensures { result.now ≡ budget_name self }
    {
        match self {
            Budget::Visits => "visits",
            Budget::Depth => "depth",
            Budget::Events => "events",
        }
    }
}

/// The bounds on the length of a run.
#[derive(Clone, Copy, PartialEq, Eq, Debug)]
pub struct RunBudgets {
    /// The greatest number of visits to one loop head or label in a frame.
    pub visits: u32,
    /// The greatest number of frames at a time.
    pub depth: u32,
    /// The greatest number of events.
    pub events: u64,
}
