//! That an exploration has a row for each position of each run, and an end for each end of a run: definitions, and the lemmas from which it
//! follows.
#![tactic(auto)]
