//! The numbers at which an affine function has a value in a set.
ghost use Rattle.std.specs.Prelude.{◌≡◌, ◌/◌, ℤ, pos, neg_ℤ, ◌+ℤ◌, ◌≤ℤ◌, ◌<ℤ◌, int_le, ◌&&◌, IsTrue, IfOk};
ghost use Rattle.cs_ranges.specs.Affine.{affine};
ghost use Rattle.cs_ranges.specs.Interval.{IsInside, IsProper};
ghost use Rattle.cs_ranges.specs.RangeSet.{contains};

use super::{Interval, RangeSet};
use std::alloc::{AllocError, Global};

/// Returns the numbers `s` of `within` at which `value + slope * (s - at)` is in `set`.
pub fn affine_preimage(
    alloc: Global,
    slope: i128,
    at: i128,
    value: i128,
    set: &RangeSet,
    within: &RangeSet,
) -> Result<RangeSet, AllocError>
    requires values_inside { (s : ℤ) → IsTrue (contains within.now s)
        → IsInside (affine slope at value s) }
    ensures { IfOk result (λ p.
        (s : ℤ) → contains p s
        ≡ (contains within.now s && contains set.now (affine slope at value s))) }
{
    let (Some(first), Some(last)) = (within.least(), within.greatest()) else {
        return Ok(RangeSet::empty(alloc));
    };
    let line = Line::rising(slope, at, value, first, last);
    let found = if slope < 0 {
        line.preimage_of_negatives(alloc, set)?
    } else {
        line.preimage(alloc, set)?
    };
    found.intersect(within)
}

/// Returns `value + slope * (s - at)`. It fits, so it is right although intermediate results may wrap.
pub fn affine_value(slope: i128, at: i128, value: i128, s: i128) -> i128
    requires { IsInside (affine slope at value s) }
    ensures { result ≡ affine slope at value s }
{
    value.wrapping_add(slope.wrapping_mul(s.wrapping_sub(at)))
}

/// A line that doesn't fall, over the numbers from `first` to `last`: its values are from `start` to `end`,
/// and it rises by `slope` at each step.
#[derive(Drop)]
struct Line {
    first: i128,
    last: i128,
    start: i128,
    end: i128,
    slope: u128,
    ghost over: { IsInside first × IsInside last × (first ≤ℤ last) },
    ghost inside: { IsInside start × IsInside end },
    ghost reaches_end: { end ≡ affine (pos slope) first start last },
}

impl Line {
    ghost use Rattle.cs_ranges.specs.Line.{is_over, value_of, IsPreimage};

    /// Returns the line of an affine function's values, or of their negatives if the values fall.
    fn rising(slope: i128, at: i128, value: i128, first: i128, last: i128) -> Line
        requires over { IsInside first × IsInside last × (first ≤ℤ last) }
        requires inside { IsInside (affine slope at value first)
            × IsInside (affine slope at value last) }
        ensures ends { (result.first ≡ first) × (result.last ≡ last) }
        ensures values { pos 0 ≤ℤ slope → (s : ℤ)
            → value_of result s ≡ affine slope at value s }
        ensures negatives { slope <ℤ pos 0
            → (s : ℤ) → value_of result s ≡ neg_ℤ (affine slope at value s) }
    {
        let start = affine_value(slope, at, value, first);
        let end = affine_value(slope, at, value, last);
        let slope_size = slope.unsigned_abs();
        if slope < 0 {
            return Line {
                first,
                last,
                start: -start,
                end: -end,
                slope: slope_size,
            };
        }
        Line {
            first,
            last,
            start,
            end,
            slope: slope_size,
        }
    }

    /// Returns the numbers from `first` to `last` at which the line has a value in the set.
    fn preimage(&self, alloc: Global, set: &RangeSet) -> Result<RangeSet, AllocError>
        ensures { IfOk result (λ p.
            (s : ℤ) → contains p s
            ≡ (is_over self.now s && contains set.now (value_of self.now s))) }
    {
        let mut found = RangeSet::empty(alloc);
        for interval in set.intervals() {
            let numbers = self.numbers_in(*interval);
            if numbers.low <= numbers.high {
                found.push(numbers)?;
            }
        }
        Ok(found)
    }

    /// Returns the numbers from `first` to `last` at which the set has the negative of the line's value.
    fn preimage_of_negatives(&self, alloc: Global, set: &RangeSet) -> Result<RangeSet, AllocError>
        ensures { IfOk result (λ p.
            (s : ℤ) → contains p s
            ≡ (is_over self.now s && contains set.now (neg_ℤ (value_of self.now s)))) }
    {
        self.preimage(alloc, &set.negated(alloc)?)
    }

    /// Returns the numbers at which the line has a value in the interval.
    fn numbers_in(&self, interval: Interval) -> Interval
        requires { IsProper interval }
        ensures { IsPreimage self.now interval result }
    {
        Interval {
            low: self.first_at_least(interval.low),
            high: self.last_at_most(interval.high),
        }
    }

    /// Returns the first number at which the line is at least `low`, or `last + 1` if it stays below.
    fn first_at_least(&self, low: i128) -> i128
        requires { IsInside low }
        ensures from { self.now.first ≤ℤ result }
        ensures value { (s : ℤ) → IsTrue (is_over self.now s)
            → int_le low (value_of self.now s) ≡ int_le result s }
    {
        if low <= self.start {
            self.first
        } else if self.end < low {
            self.last + 1
        } else {
            let before = self.steps_within(low.abs_diff(self.start) - 1);
            self.first + before + 1
        }
    }

    /// Returns the last number at which the line is at most `high`, or `first - 1` if it is above from the start.
    fn last_at_most(&self, high: i128) -> i128
        requires { IsInside high }
        ensures upto { result ≤ℤ self.now.last }
        ensures value { (s : ℤ) → IsTrue (is_over self.now s)
            → int_le (value_of self.now s) high ≡ int_le s result }
    {
        if self.end <= high {
            self.last
        } else if high < self.start {
            self.first - 1
        } else {
            let steps = self.steps_within(high.abs_diff(self.start));
            self.first + steps
        }
    }

    /// Returns in how many whole steps the line rises by at most `rise`.
    fn steps_within(&self, rise: u128) -> i128
        requires { (self.now.start +ℤ pos rise) <ℤ self.now.end }
        ensures steps { result ≡ pos (rise / self.now.slope) }
        ensures before_end { (self.now.first +ℤ result) <ℤ self.now.last }
    {
        (rise / self.slope) as i128
    }
}
