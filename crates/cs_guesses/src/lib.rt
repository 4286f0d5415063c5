//! What an exploration notes about its guesses, and that each guess of a run that it finds is real: definitions, and the lemmas from which
//! it follows.
#![tactic(auto)]
