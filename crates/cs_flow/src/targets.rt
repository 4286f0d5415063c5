//! Targets of jumps (C11 6.8.6).
ghost use Rattle.std.specs.Prelude.{◌≡◌};
ghost use Rattle.cs_cfg.specs.ControlPoints as cfg;
ghost use Rattle.cs_flow.specs.PointView.{next_of};
ghost use Rattle.cs_flow.specs.TargetView.{targets_of};

use crate::labels::Labels;
use crate::point::Next;

/// The targets of jumps.
#[derive(Clone, Copy)]
pub(crate) struct Targets<'a> {
    /// What is reached after the nearest loop or `switch`.
    pub(crate) out: Next,
    /// What `continue` reaches.
    pub(crate) again: Next,
    pub(crate) labels: &'a Labels,
}

impl<'a> Targets<'a> {
    /// Returns the targets inside a loop, given what is reached after it, and by `continue`.
    pub(crate) fn in_loop(self, out: Next, again: Next) -> Targets<'a>
        ensures { targets_of result
            ≡ cfg.in_loop (targets_of self.entry) (next_of out) (next_of again) }
    {
        let labels = self.labels;
        Targets { out, again, labels }
    }

    /// Returns the targets inside a `switch`, given what is reached after it.
    pub(crate) fn in_switch(self, out: Next) -> Targets<'a>
        ensures { targets_of result ≡ cfg.in_switch (targets_of self.entry) (next_of out) }
    {
        let again = self.again;
        let labels = self.labels;
        Targets { out, again, labels }
    }
}
