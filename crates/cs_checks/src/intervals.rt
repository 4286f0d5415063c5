//! The intervals that conditions use.
ghost use Rattle.std.specs.Prelude.{◌≡◌, ◌^◌, pos};

use cs_ranges::{GREATEST, Interval, LEAST};

pub const ZERO: Interval = Interval { low: 0, high: 0 };

/// The numbers below 0 that terms can have.
pub const NEGATIVE: Interval = Interval {
    low: LEAST,
    high: -1,
};

/// The numbers above 0 that terms can have.
pub const POSITIVE: Interval = Interval {
    low: 1,
    high: GREATEST,
};

/// Returns the numbers from this one up.
pub fn at_least(low: u32) -> Interval
    ensures low { result.low ≡ pos low }
    ensures high { result.high ≡ pos (2 ^ 126) }
{
    Interval {
        low: low as i128,
        high: GREATEST,
    }
}
