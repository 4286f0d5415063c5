//! The successors of the pieces of a state whose operation shows a label, and of its faulty parts. Definitions and lemmas.
#![tactic(auto)]
