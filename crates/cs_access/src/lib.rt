//! Checks of a state by the checkers, and the offsets that an access may have.
#![tactic(auto)]

mod checking;
mod faulty;
mod known;
mod reaching;

pub use checking::{Checked, FaultyPart, Rest, check};
pub use known::{can_check, is_known};
pub use reaching::{Reached, ReachedOffset, reach};
