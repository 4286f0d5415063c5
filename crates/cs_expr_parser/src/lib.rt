//! The expression parser: tokens to written expressions, exact to the token that is refused.
#![tactic(auto)]

mod answer;
mod ends;
mod infix;
mod lists;
mod loose;
mod nodes;
mod parser;
mod postfix;
mod primary;
mod stop;
mod tokens;
mod types;
mod unary;

pub use answer::{ExprLevel, Phrase};
pub use parser::{expression, expression_at, refusal};
pub use stop::Stop;
pub use tokens::{begins_type, is_punctuator, keyword_at, name_at, place_at, punctuator_at};
