//! The states of the exploration: what is known about a run at a position, as terms over symbols, and the
//! numbers that these may have.
//!
//! `specs/` defines what a state represents: under a valuation of its symbols it is a state of the run of the code.
#![tactic(auto)]

mod asked;
mod block;
mod callers;
mod frame;
pub mod laws;
mod read_cells;
mod start;
mod start_block;
mod state;
mod tables;
mod temporary;
mod visits;
mod writes;

pub use asked::{Asked, Asks, Ends, Fact};
pub use block::{Block, TypeNumber};
pub use callers::{Callers, SharedFrame};
pub use frame::Frame;
pub use read_cells::{ReadCell, ReadCells};
pub use state::{Answers, Counters, State};
pub use tables::{Tables, TypeTable};
pub use temporary::{Scalars, Temporaries, Temporary};
pub use visits::Visits;
