//! Tests of the texts of results, which are made by hand.
#![tactic(auto)]

#[cfg(test)]
mod forms;
#[cfg(test)]
mod generated;
#[cfg(test)]
mod made;
#[cfg(test)]
mod summaries;
#[cfg(test)]
mod texts;
