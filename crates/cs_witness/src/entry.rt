//! The function whose runs are replayed.

use cs_ast::typed::program::Program;
use cs_cfg::Code;
use cs_findings::Budgets;
use cs_objects::prepared::Prepared;

/// A function of a program, with the data that its runs need.
#[derive(Drop)]
pub struct Entry<'a> {
    pub program: &'a Program,
    /// The data that all runs of the program share.
    pub prepared: &'a Prepared<'a>,
    /// The lowering of the program.
    pub code: &'a Code,
    /// The function's number in the program.
    pub function: u32,
    pub budgets: Budgets,
}
