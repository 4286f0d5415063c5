//! The instruction at the spot of a state, and how a step there changes the state. Definitions and lemmas.
#![tactic(auto)]
