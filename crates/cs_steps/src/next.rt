//! The next step of an operation.
ghost use Rattle.cs_objects.specs.Prepared.{IsReady};
ghost use Rattle.cs_operators.specs.Asking.{KeepKinds, HasEveryKind};
ghost use Rattle.std.specs.Prelude.{◌≡◌, ◌+◌, OnOk, IfOk, IfErr};
ghost use Rattle.cs_state.specs.Naming.{Naming, naming, Extends};
ghost use Rattle.cs_cfg.specs.GraphView as view;
ghost use Rattle.cs_cfg.specs.Working.{takes};
ghost use Rattle.cs_progress.specs.declared.pause.Pause.TheVariants as pause;
ghost use Rattle.cs_progress.specs.Stepping.{StepsInLocals, IsCutTo, IsCutForEnd};
ghost use Rattle.cs_spots.specs.AtSpots.{StandsAt, EndsAt, StepsAtSpot, came_to};

use crate::ends::{end, reach_counted_point};
use crate::work::work;
use cs_cfg::{BlockEnd, CountedPoint, Instruction, Operation};
use cs_checker::Checker;
use cs_operators::Attempt;
use cs_progress::{Context, Pause, Progress};
use cs_state::{State, Tables};
use std::alloc::AllocError;

/// Executes the operation in progress after its answers so far. Returns true if it is done; else the attempt has what comes next.
/// The checkers are queried about each thing that it does after the last of its answers, until one of them is a fault.
///
/// The cells that it reads become known to the state, and names and numbers to the tables; apart from that, a state changes only if the
/// operation is done.
pub fn proceed(
    context: &Context,
    state: &mut State,
    tables: &mut Tables,
    attempt: &mut Attempt,
) -> Result<bool, AllocError>
    requires { IsReady context.now.setting.now }
    ensures kinds { KeepKinds (λ b. (⟦<dyn Checker as Checker>⟧ b.vtable).kind_of b.value)
        attempt.old.checkers.items attempt.new.checkers.items }
    ensures extends { Extends (naming tables.old) (naming tables.new) }
    ensures steps { HasEveryKind (λ b. (⟦<dyn Checker as Checker>⟧ b.vtable).kind_of b.value)
        attempt.old.checkers.items
        → IfOk result (λ done. StepsInLocals (view.code context.now.code.now)
        context.now.setting.now.program.now.model context.now.setting.now.budgets
        (naming tables.new) state.old state.new (came_to done attempt.new.progress.first)) }
{
    attempt.progress.used = 0;
    match step(context, state, tables, attempt) {
        Ok(()) => {
            state.finish_operation();
            Ok(true)
        }
        Err(Pause::Waits) => Ok(false),
        Err(Pause::Memory) => Err(AllocError),
    }
}

// Executes the instruction at the spot of the current frame.
fn step(
    context: &Context,
    state: &mut State,
    tables: &mut Tables,
    attempt: &mut Attempt,
) -> Result<(), Pause>
    requires { IsReady context.now.setting.now }
    ensures kinds { KeepKinds (λ b. (⟦<dyn Checker as Checker>⟧ b.vtable).kind_of b.value)
        attempt.old.checkers.items attempt.new.checkers.items }
    ensures extends { Extends (naming tables.old) (naming tables.new) }
    ensures steps { HasEveryKind (λ b. (⟦<dyn Checker as Checker>⟧ b.vtable).kind_of b.value)
        attempt.old.checkers.items
        → StepsAtSpot (view.code context.now.code.now) context.now.setting.now.program.now.model
        context.now.setting.now.budgets (naming tables.new) state.old state.new
        attempt.old.progress attempt.new.progress result }
{
    match context.code.instruction_at(state.frame.spot) {
        Instruction::CountedPoint(point) => reach(context, state, &mut attempt.progress, *point),
        Instruction::Operation(operation) => {
            do_operation(context, state, tables, attempt, operation)
        }
        Instruction::End(block_end) => {
            end_block(context, state, tables, &mut attempt.progress, block_end)
        }
        Instruction::Nowhere => {
            let block_end = BlockEnd::Finish;
            end_block(context, state, tables, &mut attempt.progress, &block_end)
        }
    }
}

// Executes a loop head or a label, which needs no temporaries.
fn reach(
    context: &Context,
    state: &mut State,
    progress: &mut Progress,
    point: CountedPoint,
) -> Result<(), Pause>
    requires { IsReady context.now.setting.now }
    ensures steps { (given : Naming)
        → StandsAt (view.code context.now.code.now) (view.reaching point) state.old.frame.spot
        → StepsAtSpot (view.code context.now.code.now) context.now.setting.now.program.now.model
        context.now.setting.now.budgets given state.old state.new progress.old progress.new result }
{
    state.cut(0);
    reach_counted_point(context, state, progress, point)
}

// Executes an operation.
fn do_operation(
    context: &Context,
    state: &mut State,
    tables: &mut Tables,
    attempt: &mut Attempt,
    operation: &Operation,
) -> Result<(), Pause>
    requires { IsReady context.now.setting.now }
    ensures kinds { KeepKinds (λ b. (⟦<dyn Checker as Checker>⟧ b.vtable).kind_of b.value)
        attempt.old.checkers.items attempt.new.checkers.items }
    ensures extends { Extends (naming tables.old) (naming tables.new) }
    ensures steps { HasEveryKind (λ b. (⟦<dyn Checker as Checker>⟧ b.vtable).kind_of b.value)
        attempt.old.checkers.items
        → StandsAt (view.code context.now.code.now) (view.operation operation.now)
        state.old.frame.spot
        → StepsAtSpot (view.code context.now.code.now) context.now.setting.now.program.now.model
        context.now.setting.now.budgets (naming tables.new) state.old state.new
        attempt.old.progress attempt.new.progress result }
{
    keep(state, operation)?;
    work(context, state, tables, attempt, operation)
}

// Executes the end of a block.
fn end_block(
    context: &Context,
    state: &mut State,
    tables: &mut Tables,
    progress: &mut Progress,
    block_end: &BlockEnd,
) -> Result<(), Pause>
    requires { IsReady context.now.setting.now }
    ensures extends { Extends (naming tables.old) (naming tables.new) }
    ensures steps { EndsAt (view.code context.now.code.now) (view.block_end block_end.now)
        state.old.frame.spot
        → StepsAtSpot (view.code context.now.code.now) context.now.setting.now.program.now.model
        context.now.setting.now.budgets (naming tables.new) state.old state.new progress.old
        progress.new result }
{
    keep_for_end(state, block_end)?;
    end(context, state, tables, progress, block_end)
}

// Drops the temporaries that an operation doesn't need.
fn keep(state: &mut State, operation: &Operation) -> Result<(), Pause>
    ensures cut { OnOk result
        (IsCutTo (operation.now.temporary + takes (view.work operation.now.work))
        state.old state.new) }
    ensures memory { IfErr result (λ why. why ≡ pause.Memory) }
{
    let takes = operation.work.takes() as usize;
    let kept = (operation.temporary as usize)
        .checked_add(takes)
        .ok_or(Pause::Memory)?;
    state.cut(kept);
    Ok(())
}

// Drops the temporaries that the end of a block doesn't need.
fn keep_for_end(state: &mut State, end: &BlockEnd) -> Result<(), Pause>
    ensures cut { OnOk result (IsCutForEnd (view.block_end end.now) state.old state.new) }
    ensures memory { IfErr result (λ why. why ≡ pause.Memory) }
{
    let temporary = match end {
        BlockEnd::Branch(_, temporary, _, _) => *temporary,
        BlockEnd::Switch(_, temporary, _, _) => *temporary,
        BlockEnd::Return(temporary) => *temporary,
        BlockEnd::Jump(_) | BlockEnd::Finish => return Ok(()),
    };
    state.cut((temporary as usize).checked_add(1).ok_or(Pause::Memory)?);
    Ok(())
}
