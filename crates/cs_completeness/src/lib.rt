//! Why the analysis of an integer entry is complete. Definitions and lemmas.
#![tactic(auto)]

pub mod laws;
