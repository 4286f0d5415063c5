//! Worked examples of names, shared maps, regions, stores and checkers.
#![tactic(auto)]

#[cfg(test)]
mod checkers;
#[cfg(test)]
mod maps;
#[cfg(test)]
mod names;
#[cfg(test)]
mod regions;
#[cfg(test)]
mod stores;
