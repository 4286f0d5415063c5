//! The offsets that an access may have.
ghost use Rattle.std.specs.Prelude.{◌≡◌, ◌&&◌, ◌≤ℤ◌, int_le, ℤ, ◌^◌, ◌-◌, [], ◌∷◌, None, min, map, IfOk, OnOk, MatchOption};
ghost use Rattle.cs_ranges.specs.Interval.{IsInside, IsProper};
ghost use Rattle.cs_ranges.specs.RangeSet.{contains, IsInhabited};
ghost use Rattle.cs_terms.specs.Term.{value_at};
ghost use Rattle.cs_constraints.specs.Constraints.{IsSetOf, HasNoSet};
ghost use Rattle.cs_access.specs.Checks.{IsKnown};
ghost use Rattle.cs_access.specs.Numbers.{IsAscending, IsBelow, IsListing, AreAdded, AreFollowed, HasEach};
ghost use Rattle.cs_access.specs.Offsets.{AreReached, AreTried, IsTried, HasInside, in_order};

use cs_ranges::{Interval, RangeSet, affine_value};
use cs_state::State;
use cs_terms::Lin;
use std::alloc::{AllocError, Global};

/// One offset of an access, and the state of the runs that have it.
#[derive(Drop)]
pub struct ReachedOffset {
    pub offset: i128,
    pub state: State,
}

/// The offsets of an access that are followed.
#[derive(Drop)]
pub enum Reached {
    /// All of them, in order.
    All(Vec<ReachedOffset>),
    /// There are this many, more than the budget allows. The exploration follows only those at the symbol's number of least absolute value, at
    /// its least and at its greatest, each once.
    TooMany(u64, Vec<ReachedOffset>),
}

/// Splits a state by the offset of an access, which isn't below 0.
pub fn reach(alloc: Global, state: &State, offset: Lin, splits: u64) -> Result<Reached, AllocError>
    requires { IsKnown state.now.constraints offset }
    ensures { IfOk result (λ reached. AreReached state.now offset splits reached) }
{
    match numbers_of(state, offset) {
        Some(set) => reach_over(alloc, state, offset, set, splits),
        None => {
            let steps = one_step(alloc, state, offset)?;
            Ok(Reached::All(steps))
        }
    }
}

// The numbers of the term's symbol, if it has one.
fn numbers_of(state: &State, term: Lin) -> Option<&RangeSet>
    ensures { MatchOption result (HasNoSet state.now.constraints term.sym) (λ set.
        IsSetOf state.now.constraints term.sym set.now × IsInhabited set.now) }
{
    state.constraints.range_of(term.sym?)
}

// The offset of a constant term.
fn one_step(alloc: Global, state: &State, offset: Lin) -> Result<Vec<ReachedOffset>, AllocError>
    requires known { IsKnown state.now.constraints offset }
    requires number { offset.sym ≡ None }
    ensures { IfOk result (λ steps. AreTried state.now offset (offset.value ∷ []) steps.items) }
{
    let mut steps = Vec::new(alloc);
    push_step(alloc, &mut steps, state, offset, offset.value)?;
    Ok(steps)
}

// The offsets for the numbers of the term's symbol.
fn reach_over(
    alloc: Global,
    state: &State,
    offset: Lin,
    set: &RangeSet,
    splits: u64,
) -> Result<Reached, AllocError>
    requires known { IsKnown state.now.constraints offset }
    requires set { IsSetOf state.now.constraints offset.sym set.now }
    requires inhabited { IsInhabited set.now }
    ensures { IfOk result (λ reached. AreReached state.now offset splits reached) }
{
    let count = set.count();
    if count <= splits as u128 {
        let numbers = all_numbers(alloc, set)?;
        let steps = steps_at(alloc, state, offset, numbers)?;
        return Ok(Reached::All(steps));
    }
    let numbers = followed_numbers(alloc, set)?;
    let steps = steps_at(alloc, state, offset, numbers)?;
    Ok(Reached::TooMany(as_count(count), steps))
}

// A count, at most the greatest number of 64 bits.
fn as_count(count: u128) -> u64
    ensures { result ≡ min count (2 ^ 64 - 1) }
{
    if count > u64::MAX as u128 {
        u64::MAX
    } else {
        count as u64
    }
}

// The numbers of a set, in order.
fn all_numbers(alloc: Global, set: &RangeSet) -> Result<Vec<i128>, AllocError>
    ensures { IfOk result (λ numbers. IsListing set.now numbers.items) }
{
    let mut numbers = Vec::new(alloc);
    for interval in set.intervals() {
        push_numbers(&mut numbers, *interval)?;
    }
    Ok(numbers)
}

// Adds the numbers of an interval, which are greater than those in the list, in order.
fn push_numbers(numbers: &mut Vec<i128>, interval: Interval) -> Result<(), AllocError>
    requires proper { IsProper interval }
    requires ascending { IsAscending numbers.old.items }
    requires below { IsBelow numbers.old.items interval.low }
    ensures { OnOk result
        (AreAdded numbers.old.items interval.low interval.high numbers.new.items) }
{
    let mut number = interval.low;
    while number <= interval.high {
        numbers.push(number)?;
        number += 1;
    }
    Ok(())
}

// The least number of a set, that of least absolute value and the greatest one, each once.
fn followed_numbers(alloc: Global, set: &RangeSet) -> Result<Vec<i128>, AllocError>
    requires { IsInhabited set.now }
    ensures { IfOk result (λ numbers. AreFollowed set.now numbers.items) }
{
    let Some(least) = set.least() else {
        unreachable!()
    };
    let Some(nearest) = set.least_abs() else {
        unreachable!()
    };
    let Some(greatest) = set.greatest() else {
        unreachable!()
    };
    each_once(alloc, least, nearest, greatest)
}

// Three numbers in ascending order, each once.
fn each_once(alloc: Global, first: i128, second: i128, third: i128) -> Result<Vec<i128>, AllocError>
    requires second { first ≤ℤ second }
    requires third { second ≤ℤ third }
    ensures { IfOk result (λ numbers. HasEach first second third numbers.items) }
{
    let mut numbers = Vec::new(alloc);
    if first < second {
        numbers.push(first)?;
    }
    if second < third {
        numbers.push(second)?;
    }
    numbers.push(third)?;
    Ok(numbers)
}

// The offsets at these numbers of the offset's symbol, which are in ascending order.
fn steps_at(
    alloc: Global,
    state: &State,
    offset: Lin,
    numbers: Vec<i128>,
) -> Result<Vec<ReachedOffset>, AllocError>
    requires known { IsKnown state.now.constraints offset }
    requires inside { HasInside offset numbers.items }
    ensures { IfOk result (λ steps.
        AreTried state.now offset (map (value_at offset) (in_order offset numbers.items))
        steps.items) }
{
    let numbers = by_offset(offset, numbers);
    let mut steps = Vec::new(alloc);
    for number in &numbers {
        push_at(alloc, &mut steps, state, offset, *number)?;
    }
    Ok(steps)
}

// Adds the offset at a number of its symbol.
fn push_at(
    alloc: Global,
    steps: &mut Vec<ReachedOffset>,
    state: &State,
    offset: Lin,
    number: i128,
) -> Result<(), AllocError>
    requires known { IsKnown state.now.constraints offset }
    requires inside { IsInside (value_at offset number) }
    ensures { OnOk result
        (IsTried state.now offset (value_at offset number) steps.old.items steps.new.items) }
{
    let there = affine_value(offset.slope, offset.at, offset.value, number);
    push_step(alloc, steps, state, offset, there)
}

// Ascending numbers of a term's symbol, in the order in which the term's value grows.
fn by_offset(term: Lin, numbers: Vec<i128>) -> Vec<i128>
    ensures { result.items ≡ in_order term numbers.items }
{
    let mut numbers = numbers;
    if term.slope < 0 {
        numbers.reverse();
    }
    numbers
}

// Adds an offset, if some runs have it.
fn push_step(
    alloc: Global,
    steps: &mut Vec<ReachedOffset>,
    state: &State,
    term: Lin,
    offset: i128,
) -> Result<(), AllocError>
    requires known { IsKnown state.now.constraints term }
    requires inside { IsInside offset }
    ensures { OnOk result (IsTried state.now term offset steps.old.items steps.new.items) }
{
    let only = RangeSet::of(alloc, offset, offset)?;
    push_part(steps, state, term, offset, &only)
}

// The same, with the set that has only the offset.
fn push_part(
    steps: &mut Vec<ReachedOffset>,
    state: &State,
    term: Lin,
    offset: i128,
    only: &RangeSet,
) -> Result<(), AllocError>
    requires known { IsKnown state.now.constraints term }
    requires only { (x : ℤ) → contains only.now x ≡ (int_le offset x && int_le x offset) }
    ensures { OnOk result (IsTried state.now term offset steps.old.items steps.new.items) }
{
    match state.narrowed(term, only)? {
        Some(state) => {
            steps.push(ReachedOffset { offset, state })?;
            Ok(())
        }
        None => Ok(()),
    }
}
