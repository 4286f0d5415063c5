//! The syntax of an analyzed program: source positions, tokens, syntax trees and typed trees.
#![tactic(auto)]

pub mod place;
pub mod raw;
pub mod token;
pub mod typed;

pub use place::Place;
pub use token::{IntegerConstant, Keyword, Length, Punctuator, Token, TokenKind, Unsupported};
