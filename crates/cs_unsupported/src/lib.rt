//! Decides which punctuators and keywords are unsupported because of the tokens before them.
#![tactic(auto)]

mod declarators;
mod inside;
mod lists;
mod members;
mod types;

pub use declarators::token_for_name;
pub use inside::{is_inside, is_tag_inside};
pub use lists::awaits_list;
pub use members::is_after_member;
pub use types::is_after_type;
