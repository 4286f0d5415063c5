//! Inputs, operations and memory of the reference interpreter; and runs of whole programs: from words and a file to the outcome, by
//! the code and by the reference interpreter.
#![tactic(auto)]

#[cfg(test)]
mod ends;
#[cfg(test)]
mod guessed;
#[cfg(test)]
mod inputs;
#[cfg(test)]
mod machines;
#[cfg(test)]
mod operations;
#[cfg(test)]
mod pending;
#[cfg(test)]
mod programs;
