//! The result of an entry.
ghost use Rattle.std.specs.Prelude.{◌≡◌};
ghost use Rattle.cs_results.specs.Verdicts as verdicts;

use crate::finding::Finding;
use cs_ast::Place;

/// Where an exploration was cut.
#[derive(Clone, Copy, PartialEq, Eq, Debug)]
pub enum Cut {
    /// The graph had this many nodes, the most that it may have.
    Nodes(u64),
    /// The access at a position had this many offsets, more than are followed.
    Splits(Place, u64),
}

/// How far an entry was explored.
#[derive(Clone, Copy, PartialEq, Eq, Debug)]
pub enum Verdict {
    /// All paths were explored.
    Complete,
    /// All paths were explored up to the budgets of a run.
    Bounded,
    /// Some paths weren't explored.
    Cut,
}

impl Verdict {
    /// Returns the word for this verdict in the text of results.
    pub fn name(self) -> &'static str
        ensures { result.now ≡ verdicts.verdict_name self }
    {
        match self {
            Verdict::Complete => "complete",
            Verdict::Bounded => "bounded",
            Verdict::Cut => "cut",
        }
    }

    /// Whether all paths of the entry were explored.
    pub fn is_complete(self) -> bool
        ensures { result ≡ verdicts.is_complete self }
    {
        matches!(self, Verdict::Complete)
    }

    /// Whether all paths of the entry were explored up to the budgets of a run.
    pub fn is_bounded(self) -> bool
        ensures { result ≡ verdicts.is_bounded self }
    {
        matches!(self, Verdict::Bounded)
    }

    /// Whether some paths of the entry weren't explored.
    pub fn is_cut(self) -> bool
        ensures { result ≡ verdicts.is_cut self }
    {
        matches!(self, Verdict::Cut)
    }
}

/// The result of an analysis of an entry.
#[derive(Drop)]
pub struct EntryResult {
    /// The entry's number among the functions of the program.
    pub entry: u32,
    pub verdict: Verdict,
    /// The findings that end in a fault, by position, then by kind.
    pub reports: Vec<Finding>,
    /// The findings that exceed a budget, by position, then by budget.
    pub overs: Vec<Finding>,
    pub cuts: Vec<Cut>,
}
