//! The types and forms of expressions, made from those of their operands (C11 6.5).
#![tactic(auto)]

mod calls;
mod conversions;
mod integers;
mod nodes;
mod objects;
mod operators;
mod places;
mod primary;
mod stores;
mod ways;

pub use calls::{call_fault, call_of, called, converted_list};
pub use conversions::{conversion_fault, converted, recast};
pub use integers::{raised, turned};
pub use nodes::number;
pub use objects::{measured, operand, valued};
pub use operators::{chosen, combined, denied, followed, tested};
pub use places::{address_of, indexed, selected, selected_through, through};
pub use primary::{constant_type, named, text};
pub use stores::{
    assignable, assigned, assigned_fault, led, step_operator, steppable, stepped, updatable,
    updated, updated_fault, weighed,
};
