//! The typing of declarations (C11 6.7): types with their bodies, declarators, parameters, and initializers.
#![tactic(auto)]

mod bodies;
mod enums;
mod environment;
mod forms;
mod initials;
mod judging;
mod laying;
mod objects;
mod parameters;
mod scopes;
mod sizes;
mod storage;
mod stored;
mod words;

pub use bodies::specs_type;
pub use environment::{Environment, ScopeSnapshot};
pub use initials::initial_typed;
pub use objects::object_type;
pub use parameters::{Head, parameters_typed};
pub use scopes::Inner;
pub use storage::Storage;
