//! The invariant of an exploration, and what holds at its end. Definitions and lemmas.
#![tactic(auto)]
