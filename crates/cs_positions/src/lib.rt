//! The code at a frame's position: what comes next, and the local that a declaration touches.
#![tactic(auto)]

mod locals;
mod nexts;
mod positions;

pub use locals::if_local;
pub use nexts::{Next, flow_at, next_at};
pub use positions::Position;
