//! An operation in progress: what it works with, which of its answers it has used, its operands and pointers, and the end of its frame.
#![tactic(auto)]

mod context;
mod leaving;
mod next;
pub mod operands;
mod pause;
pub mod pointers;
mod progress;
pub mod terms;

pub use context::Context;
pub use leaving::leave;
pub use next::Next;
pub use pause::Pause;
pub use progress::Progress;
