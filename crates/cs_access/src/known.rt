//! Whether enough is known about the terms of an operation to split a state by them, decided at run time.
ghost use Rattle.std.specs.Prelude.{◌≡◌, ◌≢◌, ◌+ℤ◌, true, ℤ, IsTrue, None, Some};
ghost use Rattle.cs_ranges.specs.Affine.{affine};
ghost use Rattle.cs_ranges.specs.Interval.{IsInside};
ghost use Rattle.cs_ranges.specs.RangeSet.{contains};
ghost use Rattle.cs_terms.specs.Term.{value_at};
ghost use Rattle.cs_checker.specs.Answers.{IsNumber};
ghost use Rattle.cs_access.specs.Subjects.{IsKnownSum};
ghost use Rattle.cs_access.specs.Checks.{IsKnown, IsKnownOver, CanCheck};

use cs_checker::Subject;
use cs_ranges::{GREATEST, LEAST, RangeSet};
use cs_state::State;
use cs_terms::{Lin, Lin2, Sym};

/// Whether the terms of an operation are known, as `check` requires. Also false if a part of a value doesn't fit in 128 bits.
pub fn can_check(state: &State, subject: &Subject) -> bool
    ensures { result ≡ true → CanCheck state.now.constraints subject.now }
{
    match *subject {
        Subject::Move { null: _, amount } => is_known(state, amount),
        Subject::Divisor { term } => is_known(state, term),
        Subject::Release { block: _, offset } => is_known(state, offset),
        Subject::Shift { count, width: _ } => is_known(state, count),
        Subject::Rest { term } => is_known_sum(term),
        Subject::Through { null: _ } => true,
        Subject::Cell { unset: _ } => true,
        Subject::Slot { fits: _ } => true,
        Subject::Reached { standing: _ } => true,
        Subject::Pair { same: _ } => true,
        Subject::Written { constant: _ } => true,
    }
}

/// Whether a term's symbol, if it has one, is declared, and its values are from `LEAST` to `GREATEST`, as `reach` requires. Also false
/// if a part of a value doesn't fit in 128 bits.
pub fn is_known(state: &State, term: Lin) -> bool
    ensures { result ≡ true → IsKnown state.now.constraints term }
{
    match term.sym {
        Some(sym) => term.slope != 0 && is_known_over(state, term, sym),
        None => is_number(term),
    }
}

// Whether a term's symbol is declared, and the term's values for its numbers are within the bounds.
fn is_known_over(state: &State, term: Lin, sym: Sym) -> bool
    requires symbol { term.sym ≡ Some sym }
    ensures { result ≡ true → IsKnownOver state.now.constraints term sym }
{
    match state.constraints.range_of(sym) {
        Some(set) => stays_inside(term, set),
        None => false,
    }
}

// Whether a term's values for the numbers of its symbol are within the bounds. The term is monotone, so the values at both ends decide.
fn stays_inside(term: Lin, set: &RangeSet) -> bool
    requires symbol { term.sym ≢ None }
    ensures { result ≡ true → (x : ℤ) → IsTrue (contains set.now x)
        → IsInside (value_at term x) }
{
    let (Some(first), Some(last)) = (set.least(), set.greatest()) else {
        return true;
    };
    is_inside_at(term, first) && is_inside_at(term, last)
}

// Whether a term's value at a number of its symbol is within the bounds, and all parts of it fit.
fn is_inside_at(term: Lin, number: i128) -> bool
    ensures { result ≡ true → IsInside (affine term.slope term.at term.value number) }
{
    let Some(distance) = number.checked_sub(term.at) else {
        return false;
    };
    let Some(rise) = term.slope.checked_mul(distance) else {
        return false;
    };
    is_sum_inside(term.value, rise)
}

// Whether a sum is one of two constants, and is within the bounds.
fn is_known_sum(sum: Lin2) -> bool
    ensures { result ≡ true → IsKnownSum sum.first sum.second }
{
    if !is_number(sum.first) || !is_number(sum.second) {
        return false;
    }
    is_sum_inside(sum.first.value, sum.second.value)
}

// Whether the sum of two numbers is within the bounds.
fn is_sum_inside(first: i128, second: i128) -> bool
    ensures { result ≡ true → IsInside (first +ℤ second) }
{
    let Some(sum) = first.checked_add(second) else {
        return false;
    };
    is_inside(sum)
}

// Whether a term is a constant from `LEAST` to `GREATEST`.
fn is_number(term: Lin) -> bool
    ensures { result ≡ true → IsNumber term }
{
    term.sym.is_none() && term.slope == 0 && is_inside(term.value)
}

fn is_inside(number: i128) -> bool
    ensures { result ≡ true → IsInside number }
{
    LEAST <= number && number <= GREATEST
}
