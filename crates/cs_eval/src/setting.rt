//! The context in which a question is answered.

use cs_constraints::Constraints;
use cs_terms::Sym;
use cs_types::DataModel;
use std::alloc::Global;

/// The context in which a question is answered.
#[derive(Clone, Copy)]
pub(crate) struct Setting<'a> {
    pub alloc: Global,
    pub model: DataModel,
    pub constraints: &'a Constraints,
    /// The symbol that represents a guessed number. It isn't declared yet.
    pub guess: Sym,
}
