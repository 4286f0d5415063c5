//! The typing of what a file declares (C11 6.9): its tags, its objects, and its functions in their order, without their bodies.
#![tactic(auto)]

mod beginning;
mod filed;
mod functions;
mod objects;
mod order;
mod tags;

pub use beginning::begun;
pub use filed::Filed;
pub use functions::is_result;
