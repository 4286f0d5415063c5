//! The typing of statements (C11 6.8), in the scopes of blocks: declared objects, labels, and targets of jumps.
#![tactic(auto)]

mod cases;
mod inside;
mod labels;
mod statements;
mod switches;

pub use inside::{Inside, Where};
pub use labels::{Labels, labels_of_body};
pub use statements::items_typed;
