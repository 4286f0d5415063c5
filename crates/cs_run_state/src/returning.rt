//! Returns from calls (C11 6.8.6.4).
ghost use Rattle.std.specs.Prelude.{◌≡◌, OnOk};
ghost use Rattle.cs_values.specs.View.{operand_of};
ghost use Rattle.cs_run_state.specs.MachineView.{frame_of, state_of};
ghost use Rattle.cs_run_state.specs.Returning.{back_in};

use crate::machine::{Frame, Machine};
use cs_values::Operand;
use std::alloc::AllocError;

impl<'a> Machine<'a> {
    /// Ends the current frame, and the lifetime of its locals (C11 6.2.4, paragraph 2). Its caller gets a value, and continues.
    #[tactic(auto, using(crate::proofs::States::states), unfolding(crate::specs::MachineView::state_of))]
    pub fn come_back(&mut self, caller: Frame<'a>, value: Operand) -> Result<(), AllocError>
        ensures { OnOk result (state_of self.new
            ≡ back_in (frame_of caller.entry) (operand_of value) (state_of self.old)) }
    {
        self.memory.end_frame(self.frame.number);
        self.frame = caller;
        self.push(value)?;
        Ok(())
    }
}
