//! A run of code in progress.

use cs_cfg::Code;
use cs_positions::Position;
use cs_run_state::machine::Frame;
use cs_runner::runner::Runner;

/// A frame that waits for the value of a call, and its position in the code.
#[derive(Drop)]
pub struct Caller<'a> {
    pub frame: Frame<'a>,
    pub position: Position,
}

/// A run of code in progress: the state on which the operations of the current frame work, the position of that frame in the code, and the
/// frames below it on the call stack, its caller last.
#[derive(Drop)]
pub struct Replayer<'a> {
    pub runner: Runner<'a>,
    pub code: &'a Code,
    pub position: Position,
    pub callers: Vec<Caller<'a>>,
}
