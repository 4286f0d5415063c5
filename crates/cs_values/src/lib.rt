//! The values of scalars and expressions in a run, and how they are computed.
#![tactic(auto, using(crate::proofs::Casts::casts))]

pub mod arithmetic;
pub mod constants;
pub mod objects;
pub mod operations;
pub mod paths;
pub mod types;

pub use objects::{Cell, Object, Operand};
pub use operations::{Stride, stride_of};
