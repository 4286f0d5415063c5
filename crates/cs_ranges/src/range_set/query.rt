//! Queries of a set, which allocate no memory.
ghost use Rattle.std.specs.Prelude.{◌≡◌, ℤ, ◌⊎◌, ◌≤ℤ◌, IsTrue, IfSome, MatchOption};
ghost use Rattle.std.specs.Bool.{MatchBool};
ghost use Rattle.cs_ranges.specs.Interval.{IsInside, in_interval};
ghost use Rattle.cs_ranges.specs.RangeSet.{contains, IsEmpty, IsInhabited, IsOnly, HasTwo, IsLeast, IsGreatest, IsNearest, IsLeastAbs, IsCount};

use super::{Interval, RangeSet};
use std::cmp::Ordering;

impl RangeSet {
    /// Whether the set has the number.
    pub fn contains(&self, number: i128) -> bool
        ensures { result ≡ contains self.now number }
    {
        let intervals = self.intervals.as_slice();
        let at = intervals.partition_point(|i| i.high < number);
        at < intervals.len() && intervals[at].low <= number
    }

    /// Whether the set has no number.
    pub fn is_empty(&self) -> bool
        ensures { MatchBool result (IsEmpty self.now) (IsInhabited self.now) }
    {
        self.intervals.is_empty()
    }

    /// Returns the set's number, if it has exactly one.
    pub fn is_single(&self) -> Option<i128>
        ensures { MatchOption result (IsEmpty self.now ⊎ HasTwo self.now) (IsOnly self.now) }
    {
        match self.intervals.as_slice() {
            [only] if only.low == only.high => Some(only.low),
            _ => None,
        }
    }

    /// Returns the number of least absolute value, the positive one of two.
    pub fn least_abs(&self) -> Option<i128>
        ensures { MatchOption result (IsEmpty self.now) (IsLeastAbs self.now) }
    {
        let mut least = None;
        for interval in self.intervals.as_slice() {
            let nearest = nearest_to_zero(*interval);
            least = Some(match least {
                None => nearest,
                Some(found) => nearer(found, nearest),
            });
        }
        least
    }

    /// Returns the least number.
    pub fn least(&self) -> Option<i128>
        ensures least { MatchOption result (IsEmpty self.now) (IsLeast self.now) }
        ensures inside { IfSome result IsInside }
    {
        match self.intervals.as_slice() {
            [first, ..] => Some(first.low),
            [] => None,
        }
    }

    /// Returns the greatest number.
    pub fn greatest(&self) -> Option<i128>
        ensures greatest { MatchOption result (IsEmpty self.now) (IsGreatest self.now) }
        ensures inside { IfSome result IsInside }
    {
        match self.intervals.as_slice() {
            [.., last] => Some(last.high),
            [] => None,
        }
    }

    /// Returns how many numbers the set has.
    pub fn count(&self) -> u128
        ensures { IsCount self.now result }
    {
        let mut count = 0;
        for interval in self.intervals.as_slice() {
            count += interval.high.abs_diff(interval.low) + 1;
        }
        count
    }
}

/// Returns the number of an interval that is nearest to zero.
fn nearest_to_zero(interval: Interval) -> i128
    requires { interval.low ≤ℤ interval.high }
    ensures member { IsTrue (in_interval interval result) }
    ensures nearest { (y : ℤ) → IsTrue (in_interval interval y) → IsNearest result y }
{
    0i128.clamp(interval.low, interval.high)
}

/// Returns which of two numbers is nearer to zero; if both are equally near, the positive one.
fn nearer(a: i128, b: i128) -> i128
    ensures one { (result ≡ a) ⊎ (result ≡ b) }
    ensures not_after_a { IsNearest result a }
    ensures not_after_b { IsNearest result b }
{
    match a.unsigned_abs().cmp(&b.unsigned_abs()) {
        Ordering::Less => a,
        Ordering::Equal => a.max(b),
        Ordering::Greater => b,
    }
}
