//! Paths to the unknown cells of a run, their text, and the inputs of a run as a map from paths to numbers.
#![tactic(auto)]

mod cells;
mod decimals;
mod input_text;
mod inputs;
mod number;
mod path;
mod refusal;
mod root_text;
mod split;
mod text;

pub use cells::Cells;
pub use input_text::parse;
pub use inputs::Inputs;
pub use path::{Path, Root};
pub use refusal::PathRefusal;
pub use split::split_before;
pub use text::print;
