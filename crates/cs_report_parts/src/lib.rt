//! The parts of the text of results and of their JSON form: printed values, positions, names of functions, and what is printed of
//! a run.
#![tactic(auto)]

mod input;
mod json_run;
mod name;
mod place;
mod printing;
mod step;

pub use input::{append_guess, append_input, append_inputs};
pub use json_run::{inputs_value, number_value, pair, place_value, run_value, text_value};
pub use name::function_name;
pub use place::{append_located, append_place};
pub use printing::append;
pub use step::{append_steps, step_text};
