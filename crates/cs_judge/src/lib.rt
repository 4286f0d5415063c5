//! The judge of guesses: a pool of replayed runs is a certificate that their guesses are real, and one pass checks it.
#![tactic(auto)]

pub mod agreement;
pub mod choosing;
pub mod extremes;
pub mod grounds;
pub mod judging;
pub mod listing;
pub mod pool;

pub use cs_compared::{fits_left, fits_right, may_be_used};
pub use grounds::has_ground;
pub use judging::{are_real, partners};
pub use pool::{Kept, Partners, Replay};
