//! Whether the values of a term over a range are within bounds, as the exact results of an operation that
//! never wraps are.
ghost use Rattle.std.specs.Prelude.{◌↔◌, ◌≤ℤ◌, ℤ, IsTrue};
ghost use Rattle.cs_ranges.specs.Interval.{IsInside};
ghost use Rattle.cs_ranges.specs.RangeSet.{contains};
ghost use Rattle.cs_terms.specs.Bounds.{StaysBetween, StaysWithin};
ghost use Rattle.cs_terms.specs.Term.{value_at, IsTerm};

use crate::term::Lin;
use crate::type_range::{greatest_of_type, least_of_type};
use cs_ranges::{RangeSet, affine_value};
use cs_types::{DataModel, IntType};

/// Whether the type can represent each value of the term over the range, so that an operation with the term
/// as its exact result never wraps there (C11 6.2.5, 6.3.1.3). Allocates no memory.
pub fn stays_within(model: DataModel, ty: IntType, term: Lin, range: &RangeSet) -> bool
    requires term { IsTerm term }
    requires values { (x : ℤ) → IsTrue (contains range.now x) → IsInside (value_at term x) }
    ensures { IsTrue result ↔ StaysWithin model ty term range.now }
{
    stays_between(
        term,
        range,
        least_of_type(model, ty),
        greatest_of_type(model, ty),
    )
}

/// Whether each value of the term over the range is from `low` to `high`. A term is monotonic, so that its
/// values at both ends of the range decide. Allocates no memory.
pub fn stays_between(term: Lin, range: &RangeSet, low: i128, high: i128) -> bool
    requires term { IsTerm term }
    requires values { (x : ℤ) → IsTrue (contains range.now x) → IsInside (value_at term x) }
    ensures { IsTrue result ↔ StaysBetween term range.now low high }
{
    let (Some(first), Some(last)) = (range.least(), range.greatest()) else {
        return true;
    };
    is_between_at(term, first, low, high) && is_between_at(term, last, low, high)
}

// Whether the term's value at a number is from `low` to `high`.
fn is_between_at(term: Lin, number: i128, low: i128, high: i128) -> bool
    requires term { IsTerm term }
    requires inside { IsInside (value_at term number) }
    ensures { IsTrue result
        ↔ ((low ≤ℤ value_at term number) × (value_at term number ≤ℤ high)) }
{
    let value = affine_value(term.slope, term.at, term.value, number);
    is_between(value, low, high)
}

fn is_between(number: i128, low: i128, high: i128) -> bool
    ensures { IsTrue result ↔ ((low ≤ℤ number) × (number ≤ℤ high)) }
{
    low <= number && number <= high
}
