//! The typing of expressions and the values of constant expressions: exact, with the first type error.
#![tactic(auto)]

mod constants;
mod operands;
mod purpose;
mod roles;
mod typing;

pub use roles::{assigned_value, discarded, operand, selector, test, test_fault, value};
