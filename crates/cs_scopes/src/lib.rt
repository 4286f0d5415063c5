//! The declarations in scope, the types that words name, and the type errors for which a file is refused.
#![tactic(auto)]

mod constness;
mod context;
mod declarations;
mod entries;
mod faults;
mod integer_words;
mod layouts;
mod members;
mod moves;
mod parts;
mod refusal;
mod scalars;
mod scope;
mod sizes;
mod type_names;

pub use constness::{is_constant_object, points_to_const};
pub use context::{Context, Scope};
pub use declarations::{Declarations, Tags};
pub use faults::{least, least_code};
pub use integer_words::{IntegerWords, is_word};
pub use layouts::{end_of, struct_of};
pub use members::member_of;
pub use moves::direction_of;
pub use parts::{Parts, parts_of};
pub use refusal::{TypeCode, TypeRefusal};
pub use scalars::{few, has_few_scalars, scalars_in};
pub use scope::{Callee, Declaration, DeclaredFunction, Meaning, Tag, TagMeaning};
pub use sizes::bytes_in;
pub use type_names::{
    array_of, arrayed, complete_at, enum_type, starred, type_named, typedef_type,
};
