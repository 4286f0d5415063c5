//! The code of a program: a flow graph for each function, with blocks of operations on numbered temporaries.
//!
//! The specs define what a run of the code is, and when code is the lowering of a program.
#![tactic(auto)]

pub mod code;
pub mod instructions;
pub mod laws;
pub mod operation;
pub mod spots;
pub mod touch;

pub use code::{Block, BlockEnd, Code, CountedPoint, Flow, Spot, SwitchCase};
pub use instructions::Instruction;
pub use operation::{Access, Operation, Work};
pub use touch::Touch;
