//! Worked examples of the parts of states and of the rows of an exploration, with enough memory.
#![tactic(auto)]

#[cfg(test)]
mod frames;
#[cfg(test)]
mod keys;
#[cfg(test)]
mod rows;
#[cfg(test)]
mod tables;
