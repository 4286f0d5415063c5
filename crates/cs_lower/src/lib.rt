//! Lowering: from each function of a typed program with a body to the flow graph that executes it.
#![tactic(auto)]

mod building;
mod context;
mod expressions;
mod functions;
mod initializers;
mod labels;
mod loops;
mod statements;
mod strips;
mod switches;
mod works;

pub use functions::lower;
