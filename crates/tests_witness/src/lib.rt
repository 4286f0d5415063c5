//! Pools of runs made by hand for the judge, and suspects of whole programs for the witness: what is shown, as text, and what is dropped.
#![tactic(auto)]

#[cfg(test)]
mod findings;
#[cfg(test)]
mod grounds;
#[cfg(test)]
mod guessed;
#[cfg(test)]
mod pools;
#[cfg(test)]
mod printed;
#[cfg(test)]
mod suspected;
#[cfg(test)]
mod witnessed;
#[cfg(test)]
mod wrong;
