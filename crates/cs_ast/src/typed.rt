//! The typed program: the result of type checking, which all later passes use.

pub mod expression;
pub mod operator;
pub mod program;
pub mod statement;
