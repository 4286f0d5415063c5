//! Tests of the front end on whole files.
#![tactic(auto)]

#[cfg(test)]
mod edited;
#[cfg(test)]
mod front;
#[cfg(test)]
mod ordered;
#[cfg(test)]
mod parsed;
