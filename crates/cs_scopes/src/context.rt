//! What the typing of an expression depends on.

use crate::declarations::{Declarations, Tags};
use cs_types::{DataModel, StructTable};

/// The data model, the structs of the file, and the declarations in scope.
#[derive(Drop)]
pub struct Context {
    pub model: DataModel,
    pub table: StructTable,
    pub scope: Scope,
}

/// The declarations in scope, the innermost last, and the tags.
#[derive(Drop)]
pub struct Scope {
    pub declarations: Declarations,
    pub tags: Tags,
}
