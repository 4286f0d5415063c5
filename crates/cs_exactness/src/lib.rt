//! That the rows and ends of an exploration represent only runs, and that no two are alike: definitions, and the lemmas from which it
//! follows.
#![tactic(auto)]
