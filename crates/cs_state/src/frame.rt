//! A frame of a run.

use crate::temporary::Temporaries;
use crate::visits::Visits;
use cs_cfg::Spot;
use std::alloc::AllocError;

/// A call that hasn't ended (C11 5.1.2.3), of the function that its spot names.
#[derive(Drop)]
pub struct Frame {
    /// The frame's number in the run.
    pub number: u64,
    /// Its position in the code.
    pub spot: Spot,
    pub temporaries: Temporaries,
    /// How often each of the function's counted points was reached.
    pub visits: Visits,
}

impl Clone for Frame {
    ghost use Rattle.std.specs.Prelude.{◌≡◌};

    ghost is_clone = { λ frame copy. copy ≡ frame };

    fn clone(&self) -> Result<Frame, AllocError> {
        let temporaries = self.temporaries.clone()?;
        let visits = self.visits.clone()?;
        Ok(Frame {
            number: self.number,
            spot: self.spot,
            temporaries,
            visits,
        })
    }
}
