//! Runs that reach the same guess: what they have in common, and how they differ.
#![tactic(auto)]

mod agreement;
mod differences;
mod lines;
mod narrower;
mod pairs;
mod same;

pub use agreement::{agree, common};
pub use differences::{are_spread, comparisons_differ, left_differs, right_differs, tests_differ};
pub use lines::{is_small, product_above, product_at_most};
pub use narrower::{fits_left, fits_right, may_be_used};
pub use pairs::{operands, operands_of_same};
pub use same::same_place;
