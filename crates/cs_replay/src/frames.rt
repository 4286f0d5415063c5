//! New frames (C11 6.2.4, 6.9.1).
ghost use Rattle.std.specs.Prelude.{◌≡◌, IfOk};
ghost use Rattle.cs_run_state.specs.MachineView.{frame_of};
ghost use Rattle.cs_replay.specs.CodeStates.{begun};

use cs_frames::frames::zeros;
use cs_run_state::machine::Frame;
use std::alloc::{AllocError, Global};

/// Returns a frame at the beginning of the graph of a function.
pub fn new_frame<'a>(
    alloc: Global,
    function: u32,
    number: u64,
    counted_points: u32,
) -> Result<Frame<'a>, AllocError>
    ensures { IfOk result (λ frame. frame_of frame ≡ begun function number counted_points) }
{
    Ok(Frame {
        function,
        number,
        todo: Vec::new(alloc),
        stack: Vec::new(alloc),
        visits: zeros(alloc, u64::from(counted_points))?,
    })
}
