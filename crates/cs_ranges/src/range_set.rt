//! `RangeSet`, the set of integers that a symbol may have on a path, in the sense of the range sets of
//! Clang's `RangeConstraintManager`: a finite union of closed ranges. The empty set means that the path is
//! infeasible.
ghost use Rattle.std.specs.Prelude.{◌≡◌, ℤ, neg_ℤ, [], ◌&&◌, ◌||◌, int_le, ◌≤ℤ◌, ◌≤◌, length, IsOk, IfOk, OnOk};
ghost use Rattle.cs_ranges.specs.Interval.{IsInside, IsProper, in_interval};
ghost use Rattle.cs_ranges.specs.RangeSet.{contains, IsSpread, last_low};

use smallvec::SmallVec;
use std::alloc::{AllocError, Global};
use std::marker::Model;

mod affine;
mod combine;
mod query;

pub use affine::{affine_preimage, affine_value};

/// The closed range from `low` to `high`: both ends belong to it, and it is empty if `low` is above `high`.
#[derive(Clone, Copy, Debug, Default, PartialEq, Eq)]
pub struct Interval {
    pub low: i128,
    pub high: i128,
}

impl Interval {
    /// Returns the negatives of the numbers.
    fn negated(self) -> Interval
        requires { IsProper self }
        ensures proper { IsProper result }
        ensures low { result.low ≡ neg_ℤ self.high }
        ensures high { result.high ≡ neg_ℤ self.low }
    {
        Interval {
            low: -self.high,
            high: -self.low,
        }
    }
}

/// The least number that a range set can have.
pub const LEAST: i128 = -(1 << 126);

/// The greatest number that a range set can have.
pub const GREATEST: i128 = 1 << 126;

/// A set of integers from `LEAST` to `GREATEST`.
///
/// Its intervals are in ascending order, none is empty, and no two overlap or touch. So a set has only one
/// list of intervals: `1..2` and `3..5` are kept as `1..5`.
#[derive(Debug)]
pub struct RangeSet {
    // A sorted vector: a comparison splits a range into at most two, so nearly every set on a path
    // has one interval or two. These are kept in the set itself, without an allocation.
    intervals: SmallVec<Interval, 2>,
}

impl Model for RangeSet {
    ghost use Rattle.std.specs.Prelude.{List};
    ghost use Rattle.cs_ranges.specs.declared.range_set.Interval.{Interval};
    ghost use Rattle.cs_ranges.specs.RangeSet.{IsSpread};

    ghost Value = { List Interval };

    ghost view = { λ s. s.intervals.items };

    ghost invariant = { λ s. IsSpread s.intervals.items };
}

// Written out, so that dropping a set is one call, and not a case split on where its intervals are: proofs of
// functions that own several sets stay small.
impl Drop for RangeSet {
    fn drop(self) {
        let RangeSet { intervals: _ } = self;
    }
}

impl Clone for RangeSet {
    ghost is_clone = { λ set made. made ≡ set };

    fn clone(&self) -> Result<RangeSet, AllocError> {
        self.copy()
    }
}

impl RangeSet {
    fn empty(alloc: Global) -> RangeSet
        ensures { result ≡ [] }
    {
        RangeSet {
            intervals: SmallVec::new(alloc),
        }
    }

    /// Returns the numbers from `low` to `high`, none if `low` is above `high`. Allocates no memory.
    #[tactic(auto, unfolding(crate::specs::RangeSet::contains, crate::specs::Interval::in_interval))]
    pub fn of(alloc: Global, low: i128, high: i128) -> Result<RangeSet, AllocError>
        requires low_inside { IsInside low }
        requires high_inside { IsInside high }
        ensures numbers { IfOk result (λ s.
            (x : ℤ) → contains s x ≡ (int_le low x && int_le x high)) }
        ensures succeeds { IsOk result }
    {
        let mut intervals = SmallVec::new(alloc);
        if low <= high {
            intervals.push(Interval { low, high })?;
        }
        Ok(RangeSet { intervals })
    }

    /// Returns a copy. Allocates memory only if there are more than two intervals.
    pub fn copy(&self) -> Result<RangeSet, AllocError>
        ensures same { IfOk result (λ s. s ≡ self.now) }
        ensures succeeds { length self.now ≤ 2 → IsOk result }
    {
        let intervals = SmallVec::from_slice(
            *self.intervals.allocator(),
            self.intervals.as_slice(),
        )?;
        Ok(RangeSet { intervals })
    }

    /// Returns the intervals in ascending order.
    pub fn intervals(&self) -> &[Interval]
        ensures same { result.now ≡ self.now }
        ensures spread { IsSpread self.now }
    {
        self.intervals.as_slice()
    }

    /// Adds an interval that begins no earlier than the last one, and joins the two if they overlap or touch.
    fn push(&mut self, interval: Interval) -> Result<(), AllocError>
        requires proper { IsProper interval }
        requires following { last_low self.old ≤ℤ interval.low }
        ensures members { OnOk result ((x : ℤ)
            → contains self.new x ≡ (contains self.old x || in_interval interval x)) }
        ensures last { OnOk result (last_low self.new ≤ℤ interval.low) }
    {
        let len = self.intervals.len();
        if len > 0 {
            let last = self.intervals.as_slice()[len - 1];
            if interval.low <= last.high + 1 {
                let high = last.high.max(interval.high);
                self.intervals.pop();
                self.intervals.push_reserved(Interval {
                    low: last.low,
                    high,
                });
                return Ok(());
            }
        }
        self.intervals.push(interval)?;
        Ok(())
    }
}
