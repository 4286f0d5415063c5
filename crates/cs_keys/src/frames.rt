//! Frames in words.
ghost use Rattle.std.specs.Prelude.{◌≡◌, map, OnOk};
ghost use Rattle.cs_keys.specs.Live.{live_temporary, live_frame};
ghost use Rattle.cs_word_lists.specs.Written.{with_word, with_list};
ghost use Rattle.cs_keys.specs.Words.{with_temporary, with_frame};

use crate::word_list::Key;
use cs_constraints::Constraints;
use cs_state::{Callers, Frame, Temporary};
use std::alloc::AllocError;

impl Key {
    fn temporary(
        &mut self,
        constraints: &Constraints,
        temporary: &Temporary,
    ) -> Result<(), AllocError>
        ensures { OnOk result
            (self.new ≡ with_temporary self.old (live_temporary constraints.now temporary.now)) }
    {
        match temporary {
            Temporary::Scalar(value) => {
                self.value(constraints, value)?;
                self.word(0)
            }
            Temporary::Whole(scalars) => {
                self.values(constraints, scalars.as_slice())?;
                self.word(1)
            }
            Temporary::Nothing => self.word(2),
        }
    }

    fn temporaries(
        &mut self,
        constraints: &Constraints,
        temporaries: &[Temporary],
    ) -> Result<(), AllocError>
        ensures { OnOk result
            (self.new ≡ with_list with_temporary self.old
            (map (live_temporary constraints.now) temporaries.now)) }
    {
        for temporary in temporaries {
            self.temporary(constraints, temporary)?;
        }
        self.word(temporaries.len() as u64)
    }

    fn counts(&mut self, counts: &[u32]) -> Result<(), AllocError>
        ensures { OnOk result (self.new ≡ with_list with_word self.old counts.now) }
    {
        for count in counts {
            self.word(u64::from(*count))?;
        }
        self.word(counts.len() as u64)
    }

    /// Writes a frame.
    pub(crate) fn frame(
        &mut self,
        constraints: &Constraints,
        frame: &Frame,
    ) -> Result<(), AllocError>
        ensures { OnOk result
            (self.new ≡ with_frame self.old (live_frame constraints.now frame.now)) }
    {
        self.word(frame.number)?;
        self.word(u64::from(frame.spot.function))?;
        self.word(u64::from(frame.spot.block))?;
        self.word(u64::from(frame.spot.operation))?;
        self.temporaries(constraints, frame.temporaries.as_slice())?;
        self.counts(frame.visits.as_slice())
    }

    /// Writes the callers, the nearest first.
    pub(crate) fn callers(
        &mut self,
        constraints: &Constraints,
        callers: &Callers,
    ) -> Result<(), AllocError>
        ensures { OnOk result
            (self.new ≡ with_list with_frame self.old
            (map (live_frame constraints.now) callers.now)) }
    {
        let mut rest = callers.clone()?;
        while rest.depth() > 0 {
            let Some(frame) = rest.nearest() else {
                return Err(AllocError);
            };
            self.frame(constraints, frame)?;
            rest.drop_nearest();
        }
        self.word(callers.depth())
    }
}
