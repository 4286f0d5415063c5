//! The temporaries of a frame, which are operands.
ghost use Rattle.std.specs.Prelude.{◌≡◌};
ghost use Rattle.cs_run_state.specs.MachineView.{state_of};
ghost use Rattle.cs_replay.specs.Works.{cut_to};

use cs_run_state::machine::Machine;

/// Drops all temporaries but those below a number.
#[tactic(auto, using(cs_run_state::proofs::States::states), unfolding(cs_run_state::specs::MachineView::state_of))]
pub fn cut(state: &mut Machine, number: u64)
    ensures { state_of state.new ≡ cut_to number (state_of state.old) }
{
    state.frame.stack.truncate(number as usize);
}
