//! The meaning of accepted programs: the reference machine over typed trees, in `specs/`.
#![tactic(auto)]
