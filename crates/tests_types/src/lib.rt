//! Worked examples of types and of the typing of expressions: numbers, layouts, and texts with their types and values according to gcc.
#![tactic(auto)]

#[cfg(test)]
mod columns;
#[cfg(test)]
mod constants;
#[cfg(test)]
mod integers;
#[cfg(test)]
mod layouts;
#[cfg(test)]
mod refused;
#[cfg(test)]
mod said;
#[cfg(test)]
mod scene;
#[cfg(test)]
mod types;
#[cfg(test)]
mod words;
