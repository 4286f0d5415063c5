//! Sets that are made from other sets.
ghost use Rattle.std.specs.Prelude.{◌≡◌, ℤ, neg_ℤ, ◌≤ℤ◌, [], ◌&&◌, ◌||◌, not, IfOk, OnOk};
ghost use Rattle.std.specs.Int.{int_max};
ghost use Rattle.cs_ranges.specs.Interval.{IsInside, IsProper, in_interval};
ghost use Rattle.cs_ranges.specs.RangeSet.{contains, IsSpread, IsSpreadFrom, last_low};

use super::{GREATEST, Interval, LEAST, RangeSet};
use std::alloc::{AllocError, Global};

impl RangeSet {
    /// Returns the numbers that both sets have.
    pub fn intersect(&self, other: &RangeSet) -> Result<RangeSet, AllocError>
        ensures { IfOk result (λ s.
            (x : ℤ) → contains s x ≡ (contains self.now x && contains other.now x)) }
    {
        let mut common = RangeSet::empty(*self.intervals.allocator());
        let mut left = self.intervals.as_slice();
        let mut right = other.intervals.as_slice();
        while let (Some((a, after_a)), Some((b, after_b))) = (
            left.split_first(),
            right.split_first(),
        ) {
            common.push_common(*a, *b)?;
            if a.high < b.high {
                left = after_a;
            } else {
                right = after_b;
            }
        }
        Ok(common)
    }

    /// Adds the numbers that both intervals have.
    fn push_common(&mut self, a: Interval, b: Interval) -> Result<(), AllocError>
        requires a_proper { IsProper a }
        requires b_proper { IsProper b }
        requires following { last_low self.old ≤ℤ int_max a.low b.low }
        ensures members { OnOk result ((x : ℤ)
            → contains self.new x
            ≡ (contains self.old x || (in_interval a x && in_interval b x))) }
        ensures last { OnOk result (last_low self.new ≤ℤ int_max a.low b.low) }
    {
        let low = a.low.max(b.low);
        let high = a.high.min(b.high);
        if low <= high {
            self.push(Interval { low, high })?;
        }
        Ok(())
    }

    /// Returns the numbers that either set has.
    pub fn union(&self, other: &RangeSet) -> Result<RangeSet, AllocError>
        ensures { IfOk result (λ s.
            (x : ℤ) → contains s x ≡ (contains self.now x || contains other.now x)) }
    {
        let mut joined = RangeSet::empty(*self.intervals.allocator());
        let mut left = self.intervals.as_slice();
        let mut right = other.intervals.as_slice();
        while let (Some((a, after_a)), Some((b, after_b))) = (
            left.split_first(),
            right.split_first(),
        ) {
            if a.low < b.low {
                joined.push(*a)?;
                left = after_a;
            } else {
                joined.push(*b)?;
                right = after_b;
            }
        }
        joined.push_all(left)?;
        joined.push_all(right)?;
        Ok(joined)
    }

    /// Adds intervals, the first of which begins no earlier than the last one of the set.
    fn push_all(&mut self, intervals: &[Interval]) -> Result<(), AllocError>
        requires spread { IsSpread intervals.now }
        requires following { IsSpreadFrom (last_low self.old) intervals.now }
        ensures members { OnOk result ((x : ℤ)
            → contains self.new x ≡ (contains self.old x || contains intervals.now x)) }
        ensures none { OnOk result (intervals.now ≡ [] → self.new ≡ self.old) }
    {
        for interval in intervals {
            self.push(*interval)?;
        }
        Ok(())
    }

    /// Returns the numbers of this set that aren't in the other one.
    pub fn minus(&self, other: &RangeSet) -> Result<RangeSet, AllocError>
        ensures { IfOk result (λ s.
            (x : ℤ) → contains s x ≡ (contains self.now x && not (contains other.now x))) }
    {
        let others = other.complement(*self.intervals.allocator())?;
        self.intersect(&others)
    }

    /// Returns the numbers from `LEAST` to `GREATEST` that aren't in the set.
    fn complement(&self, alloc: Global) -> Result<RangeSet, AllocError>
        ensures { IfOk result (λ s.
            (x : ℤ) → IsInside x → contains s x ≡ not (contains self.now x)) }
    {
        let mut gaps = RangeSet::empty(alloc);
        let mut next = LEAST;
        for interval in self.intervals.as_slice() {
            if next < interval.low {
                gaps.push(Interval {
                    low: next,
                    high: interval.low - 1,
                })?;
            }
            next = interval.high + 1;
        }
        if next <= GREATEST {
            gaps.push(Interval {
                low: next,
                high: GREATEST,
            })?;
        }
        Ok(gaps)
    }

    /// Returns the negatives of the set's numbers.
    pub(super) fn negated(&self, alloc: Global) -> Result<RangeSet, AllocError>
        ensures { IfOk result (λ s. (x : ℤ) → contains s x ≡ contains self.now (neg_ℤ x)) }
    {
        let mut negatives = RangeSet::empty(alloc);
        let mut rest = self.intervals.as_slice();
        while let Some((last, before)) = rest.split_last() {
            negatives.push(last.negated())?;
            rest = before;
        }
        Ok(negatives)
    }
}
