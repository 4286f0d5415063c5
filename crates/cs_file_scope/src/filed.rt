//! A file up to some part.

use cs_ast::typed::program::{Function, Global};
use cs_declarations::Environment;
use cs_names::Name;
use indexmap::IndexSet;

/// What is known after the parts of a file that were read, with its objects and functions.
#[derive(Drop)]
pub struct Filed {
    pub known: Environment,
    pub globals: Vec<Global>,
    /// The names of the functions of the whole file, in the order of their numbers.
    pub order: IndexSet<Name>,
    /// A function is blank before it is declared.
    pub functions: Vec<Function>,
}
