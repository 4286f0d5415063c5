//! Visits of counted points: each frame counts its own.
ghost use Rattle.std.specs.Prelude.{◌≡◌, Some, None, false, if◌then◌else◌};
ghost use Rattle.cs_run_state.specs.MachineView.{state_of};
ghost use Rattle.cs_run_state.specs.Visits.{visited};

use crate::machine::Machine;

impl<'a> Machine<'a> {
    /// Counts one more visit of a counted point of the current body, if it was visited fewer times than a limit; returns whether it
    /// was. A counted point without a count isn't counted.
    #[tactic(auto, unfolding(crate::specs::MachineView::state_of))]
    pub fn count_visit(&mut self, counted_point: u64, limit: u32) -> bool
        ensures counted { visited limit counted_point (state_of self.old)
            ≡ (if result then Some (state_of self.new) else None) }
        ensures same { result ≡ false → state_of self.new ≡ state_of self.old }
    {
        let at = counted_point as usize;
        match self.frame.visits.get(at).copied() {
            Some(count) => {
                if count < limit {
                    self.frame.visits[at] = count + 1;
                    true
                } else {
                    false
                }
            }
            None => false,
        }
    }
}
