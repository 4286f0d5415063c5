//! The front end as one call: the program of a preprocessed file, or the refusal of the file.
#![tactic(auto)]

mod program;
mod refusal;

pub use program::{FileProgram, program_of};
pub use refusal::FileRefusal;
