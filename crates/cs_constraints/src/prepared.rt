//! The form of a term that arithmetic on it requires.
ghost use Rattle.std.specs.Prelude.{◌≡◌, ◌≢◌, None, ℤ, IsTrue};
ghost use Rattle.cs_ranges.specs.Interval.{IsInside};
ghost use Rattle.cs_ranges.specs.RangeSet.{contains, IsInhabited};
ghost use Rattle.cs_terms.specs.Term.{value_at, IsTerm};
ghost use Rattle.cs_constraints.specs.Prepared.{IsPreparedOver, IsSameFunction};

use cs_ranges::{RangeSet, affine_value};
use cs_terms::Lin;

/// Returns a term over the numbers of its symbol in this form: a constant if there is only one number, else
/// the same function, given by its value at the least number.
pub(crate) fn prepared_over(term: Lin, range: &RangeSet) -> Lin
    requires term { IsTerm term }
    requires symbol { term.sym ≢ None }
    requires inhabited { IsInhabited range.now }
    requires values { (x : ℤ) → IsTrue (contains range.now x) → IsInside (value_at term x) }
    ensures { IsPreparedOver range.now term result }
{
    if let Some(only) = range.is_single() {
        return Lin {
            sym: None,
            slope: 0,
            at: only,
            value: affine_value(term.slope, term.at, term.value, only),
        };
    }
    let Some(least) = range.least() else {
        unreachable!()
    };
    seen_from(term, least)
}

// Returns the same function, given by its value at another number.
fn seen_from(term: Lin, at: i128) -> Lin
    requires term { IsTerm term }
    requires inside { IsInside (value_at term at) }
    ensures place { result.at ≡ at }
    ensures function { IsSameFunction result term }
{
    Lin {
        at,
        value: affine_value(term.slope, term.at, term.value, at),
        ..term
    }
}
