//! The grammar: which trees are phrases, which tokens begin one, and why a token is refused.
#![tactic(auto)]

mod punctuators;
mod refusal;
mod spelling;
mod type_words;
mod typedef_names;

pub use punctuators::{assign_operator, infix_level, infix_operator, prefix_operator, step};
pub use refusal::{Reason, SyntaxRefusal};
pub use spelling::unsupported_text;
pub use type_words::{IntegerWords, TypeSoFar, integer_word};
pub use typedef_names::TypedefNames;
