//! Integer functions: they work with integers only, without pointers, structs, file-scope objects and calls.
#![tactic(auto)]

mod expressions;
mod functions;
mod statements;

pub use functions::is_integer_function;
