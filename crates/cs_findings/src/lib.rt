//! Findings: what makes the results of an analysis good.
//!
//! `specs/` defines over the reference semantics only when the evidence of a finding is good. The types are those of `cs_results`.
#![tactic(auto)]

pub use cs_results::{Budgets, Cut, EntryResult, Finding, Ground, Others, Run, Verdict};
