//! The text of a program's flow: for each function its control points, and what is reached next on each way out of them.
#![tactic(auto)]

mod expressions;
mod flow;
mod function;
mod initials;
mod labels;
mod lines;
mod loops;
mod point;
mod points;
mod statements;
mod switches;
mod targets;

pub use flow::append_flow;
pub use point::{ControlPoint, Exit, Met, Next, Way, meets};
