//! Parses the parts of declarations: specifiers, declarators, declared objects, initializers and parameters.
#![tactic(auto)]

pub mod block_specs;
mod constants;
pub mod declarator;
pub mod expression;
mod initial;
mod members;
pub mod names;
pub mod objects;
pub mod parameters;
pub mod source;
pub mod specs;
pub mod stop;
mod words;
