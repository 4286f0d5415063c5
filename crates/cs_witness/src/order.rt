//! The order of findings: by position, then by the number of the kind or of the budget.
ghost use Rattle.std.specs.Prelude.{◌≡◌, ◌↔◌, IsTrue};
ghost use Rattle.cs_events.specs.Budgets.{budget_number};
ghost use Rattle.cs_findings.specs.GoodEntries.{IsFault, IsOver, place_order, outcome_key, key_order};
ghost use Rattle.cs_witness.specs.Listing.{IsSame};

use cs_ast::Place;
use cs_events::{Budget, Outcome};
use std::cmp::Ordering;

/// Compares two faults, or two met budgets, by their order in a list of findings.
pub fn order(one: Outcome, other: Outcome) -> Ordering
    ensures { result ≡ key_order (outcome_key one) (outcome_key other) }
{
    place_order(place_of(one), place_of(other)).then(number_of(one).cmp(&number_of(other)))
}

/// Whether both are the same fault, or the same budget that was met at the same position.
pub fn is_outcome(one: Outcome, other: Outcome) -> bool
    ensures { IsTrue result ↔ IsSame one other }
{
    match one {
        Outcome::Done(_) => false,
        Outcome::Fault(_, _) => is_fault(other) && order(one, other).is_eq(),
        Outcome::Over(_, _) => is_over(other) && order(one, other).is_eq(),
    }
}

fn is_fault(what: Outcome) -> bool
    ensures { IsTrue result ↔ IsFault what }
{
    match what {
        Outcome::Fault(_, _) => true,
        Outcome::Done(_) | Outcome::Over(_, _) => false,
    }
}

fn is_over(what: Outcome) -> bool
    ensures { IsTrue result ↔ IsOver what }
{
    match what {
        Outcome::Over(_, _) => true,
        Outcome::Done(_) | Outcome::Fault(_, _) => false,
    }
}

/// Compares two positions: by file, then line, then column.
pub fn place_order(one: Place, other: Place) -> Ordering
    ensures { result ≡ place_order one other }
{
    let columns = one.column.cmp(&other.column);
    let lines = one.line.cmp(&other.line);
    one.file.cmp(&other.file).then(lines.then(columns))
}

fn place_of(what: Outcome) -> Place
    ensures { result ≡ (outcome_key what).0 }
{
    match what {
        Outcome::Fault(_, at) => at,
        Outcome::Over(_, at) => at,
        Outcome::Done(_) => Place {
            file: 0,
            line: 0,
            column: 0,
        },
    }
}

fn number_of(what: Outcome) -> u8
    ensures { result ≡ (outcome_key what).1 }
{
    match what {
        Outcome::Fault(kind, _) => kind.number(),
        Outcome::Over(budget, _) => budget_number(budget),
        Outcome::Done(_) => 0,
    }
}

fn budget_number(budget: Budget) -> u8
    ensures { result ≡ budget_number budget }
{
    match budget {
        Budget::Visits => 1,
        Budget::Depth => 2,
        Budget::Events => 3,
    }
}
