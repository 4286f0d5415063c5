//! The eleven checkers, one for each kind of fault.
#![tactic(auto)]

mod bad_free;
mod bounds;
mod const_write;
mod dead_local;
mod divide;
mod double_free;
mod freed;
mod intervals;
mod null;
mod shift;
mod unrelated;
mod unset;

pub use bad_free::BadFreeChecker;
pub use bounds::BoundsChecker;
pub use const_write::ConstWriteChecker;
pub use dead_local::DeadLocalChecker;
pub use divide::DivideChecker;
pub use double_free::DoubleFreeChecker;
pub use freed::FreedChecker;
pub use null::NullChecker;
pub use shift::ShiftChecker;
pub use unrelated::UnrelatedChecker;
pub use unset::UnsetChecker;
