//! Tests of single layers of the front end, with enough memory: tables of words, tokens, punctuators and expressions, and heights of small trees.
#![tactic(auto)]

#[cfg(test)]
mod expressions;
#[cfg(test)]
mod heights;
#[cfg(test)]
mod lexed;
#[cfg(test)]
mod punctuators;
#[cfg(test)]
mod words;
