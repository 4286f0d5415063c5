//! The setting of a run.

use crate::prepared::Prepared;
use cs_ast::typed::program::Program;
use cs_events::{Guess, RunBudgets};
use cs_inputs::Inputs;

/// A program with the inputs, guesses and budgets of a run. It is constant during the run.
#[derive(Drop)]
pub struct Setting<'a> {
    pub program: &'a Program,
    /// Data that all runs of the program share.
    pub prepared: &'a Prepared<'a>,
    pub inputs: &'a Inputs,
    /// Numbers that replace the results at some events. The first one listed for an event is used.
    pub guesses: &'a [Guess],
    pub budgets: RunBudgets,
}
