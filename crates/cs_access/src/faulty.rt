//! The values of an operation's term for which it ends in a fault.
ghost use Rattle.std.specs.Prelude.{◌≡◌, ◌+ℤ◌, ℤ, pos, Some, int_le, [], ◌∷◌, IfOk};
ghost use Rattle.cs_ranges.specs.Interval.{IsInside, in_interval};
ghost use Rattle.cs_ranges.specs.RangeSet.{contains};
ghost use Rattle.cs_checker.specs.Answers.{constant};
ghost use Rattle.cs_access.specs.Subjects.{term_of, AreFaultyValues, AreJoined};

use cs_checker::{Cond, Subject};
use cs_ranges::{GREATEST, Interval, LEAST, RangeSet};
use cs_terms::{Lin, Lin2};
use std::alloc::{AllocError, Global};

/// Returns the term that decides whether an operation is faulty; 0 if no term does.
pub(crate) fn deciding_term(subject: &Subject) -> Lin
    ensures { result ≡ term_of subject.now }
{
    match *subject {
        Subject::Move { null: _, amount } => amount,
        Subject::Divisor { term } => term,
        Subject::Release { block: _, offset } => offset,
        Subject::Shift { count, width: _ } => count,
        Subject::Through { null: _ } => zero(),
        Subject::Cell { unset: _ } => zero(),
        Subject::Rest { term: _ } => zero(),
        Subject::Slot { fits: _ } => zero(),
        Subject::Reached { standing: _ } => zero(),
        Subject::Pair { same: _ } => zero(),
        Subject::Written { constant: _ } => zero(),
    }
}

fn zero() -> Lin
    ensures { result ≡ constant (pos 0) }
{
    Lin {
        sym: None,
        slope: 0,
        at: 0,
        value: 0,
    }
}

/// Returns the values of the deciding term for which one of the conditions holds.
pub(crate) fn faulty_values(alloc: Global, conds: &[Option<Cond>]) -> Result<RangeSet, AllocError>
    ensures { IfOk result (λ set. AreFaultyValues conds.now set) }
{
    let mut set = RangeSet::of(alloc, 1, 0)?;
    for cond in conds {
        set = with_values(alloc, set, cond)?;
    }
    Ok(set)
}

// The set with the values for which a condition holds, if there is one.
fn with_values(alloc: Global, set: RangeSet, cond: &Option<Cond>) -> Result<RangeSet, AllocError>
    ensures { IfOk result (λ joined. AreJoined set cond.now joined) }
{
    match cond {
        Some(cond) => {
            let values = values_of(alloc, cond)?;
            set.union(&values)
        }
        None => Ok(set),
    }
}

// The values for which a condition holds: all or none if its term is a constant.
fn values_of(alloc: Global, cond: &Cond) -> Result<RangeSet, AllocError>
    ensures { IfOk result (λ set. AreFaultyValues (Some cond.now ∷ []) set) }
{
    match cond.term.first.sym {
        Some(_) => values_in(alloc, &cond.bad),
        None => all_or_none(alloc, has_sum(&cond.bad, &cond.term)),
    }
}

// All numbers, or none.
fn all_or_none(alloc: Global, all: bool) -> Result<RangeSet, AllocError>
    ensures { IfOk result (λ set. (x : ℤ) → IsInside x → contains set x ≡ all) }
{
    if all {
        RangeSet::of(alloc, LEAST, GREATEST)
    } else {
        RangeSet::of(alloc, 1, 0)
    }
}

// The numbers of some intervals, as far as a set may have them.
fn values_in(alloc: Global, intervals: &[Interval]) -> Result<RangeSet, AllocError>
    ensures { IfOk result (λ set.
        (x : ℤ) → IsInside x → contains set x ≡ contains intervals.now x) }
{
    let mut set = RangeSet::of(alloc, 1, 0)?;
    for interval in intervals {
        let numbers = numbers_in(alloc, interval)?;
        set = set.union(&numbers)?;
    }
    Ok(set)
}

// The numbers of an interval, as far as a set may have them.
fn numbers_in(alloc: Global, interval: &Interval) -> Result<RangeSet, AllocError>
    ensures { IfOk result (λ set.
        (x : ℤ) → IsInside x → contains set x ≡ in_interval interval.now x) }
{
    let from = at_least(alloc, interval.low)?;
    let upto = at_most(alloc, interval.high)?;
    from.intersect(&upto)
}

// The numbers that are at least `low`.
fn at_least(alloc: Global, low: i128) -> Result<RangeSet, AllocError>
    ensures { IfOk result (λ set. (x : ℤ) → IsInside x → contains set x ≡ int_le low x) }
{
    if GREATEST < low {
        return Ok(RangeSet::of(alloc, 1, 0)?);
    }
    if low < LEAST {
        return Ok(RangeSet::of(alloc, LEAST, GREATEST)?);
    }
    Ok(RangeSet::of(alloc, low, GREATEST)?)
}

// The numbers that are at most `high`.
fn at_most(alloc: Global, high: i128) -> Result<RangeSet, AllocError>
    ensures { IfOk result (λ set. (x : ℤ) → IsInside x → contains set x ≡ int_le x high) }
{
    if high < LEAST {
        return Ok(RangeSet::of(alloc, 1, 0)?);
    }
    if GREATEST < high {
        return Ok(RangeSet::of(alloc, LEAST, GREATEST)?);
    }
    Ok(RangeSet::of(alloc, LEAST, high)?)
}

// Whether the sum of two constants is in one of some intervals.
fn has_sum(intervals: &[Interval], numbers: &Lin2) -> bool
    ensures { result
        ≡ contains intervals.now (numbers.now.first.value +ℤ numbers.now.second.value) }
{
    for interval in intervals {
        if is_sum_in(interval, numbers) {
            return true;
        }
    }
    false
}

// Whether the sum of two constants is in an interval. A sum beyond 128 bits is in none.
fn is_sum_in(interval: &Interval, numbers: &Lin2) -> bool
    ensures { result
        ≡ in_interval interval.now (numbers.now.first.value +ℤ numbers.now.second.value) }
{
    let (low, high) = (interval.low, interval.high);
    match numbers.first.value.checked_add(numbers.second.value) {
        Some(sum) => low <= sum && sum <= high,
        None => false,
    }
}
