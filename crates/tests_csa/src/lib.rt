//! Whole runs of csa whose source or sink fails. Those without a failure are rows of the tables in `tests/`, which `tools/check-tests` runs.
#![tactic(auto)]

#[cfg(test)]
mod faults;
