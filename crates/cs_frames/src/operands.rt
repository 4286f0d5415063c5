//! Operands popped from a frame's stack.
ghost use Rattle.std.specs.Prelude.{◌≡◌, IfOk, map};
ghost use Rattle.cs_meaning.specs.Machine as machine;
ghost use Rattle.cs_values.specs.View.{operand_of};
ghost use Rattle.cs_run_state.specs.MachineView.{state_of};

use cs_run_state::machine::Machine;
use cs_values::Operand;
use std::alloc::AllocError;

/// Pops the `count` newest operands, and returns the oldest of them first.
#[tactic(auto, using(crate::proofs::Stacks::stacks), unfolding(cs_run_state::specs::MachineView::state_of))]
pub fn pop_newest(state: &mut Machine, count: usize) -> Result<Vec<Operand>, AllocError>
    ensures operands { IfOk result (λ taken.
        map operand_of taken.items ≡ machine.newest count (state_of state.old)) }
    ensures state { IfOk result (λ _.
        state_of state.new ≡ machine.pop_many count (state_of state.old)) }
{
    let left = state.frame.stack.len().saturating_sub(count);
    let taken = state.frame.stack.split_off(left)?;
    Ok(taken)
}
