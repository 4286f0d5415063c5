//! Worked examples of sets of integers, terms, constraints on symbols, and what operations on terms show.
#![tactic(auto)]

#[cfg(test)]
mod answers;
#[cfg(test)]
mod constraints;
#[cfg(test)]
mod integers;
#[cfg(test)]
mod pointers;
#[cfg(test)]
mod ranges;
#[cfg(test)]
mod terms;
#[cfg(test)]
mod text;
#[cfg(test)]
mod truths;
