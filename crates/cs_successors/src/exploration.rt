//! The settings of an exploration.
use cs_explored::Rule;
use cs_progress::Context;
use cs_results::Budgets;

/// What an exploration works with: the code and its context, the budgets, and the rules of a protocol.
#[derive(Drop)]
pub struct Exploration<'a> {
    pub context: &'a Context<'a>,
    pub budgets: Budgets,
    /// The rules of the protocol that is watched.
    pub rules: &'a [Rule],
}
