//! Range sets: the integers that a symbol may have on a path.
#![tactic(auto)]

mod range_set;

pub use range_set::{GREATEST, Interval, LEAST, RangeSet, affine_preimage, affine_value};
