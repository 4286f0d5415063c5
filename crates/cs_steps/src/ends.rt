//! The ends of blocks, and the visits of loop heads and labels.
ghost use Rattle.cs_objects.specs.Prepared.{IsReady};
ghost use Rattle.std.specs.Prelude.{◌≡◌, ℕ, map, OnOk, IfOk, IfErr};
ghost use Rattle.cs_state.specs.Naming.{Naming, naming, Extends};
ghost use Rattle.cs_cfg.specs.Graph as graph;
ghost use Rattle.cs_cfg.specs.GraphView as view;
ghost use Rattle.cs_progress.specs.declared.pause.Pause.TheVariants as pause;
ghost use Rattle.cs_progress.specs.Stepping.{DoesWorkAndGoesOn, GoesTo, IsMovedOn, IsCutFor};
ghost use Rattle.cs_spots.specs.AtSpots.{EndsAt, LeadsTo, LeavesBlock};

use cs_ast::Place;
use cs_cfg::{BlockEnd, CountedPoint, Spot, SwitchCase};
use cs_eval::Tested;
use cs_events::{Budget, Outcome};
use cs_operators::operators::test;
use cs_progress::operands::{drop_newest, number, operand, value};
use cs_progress::terms::has_value;
use cs_progress::{Context, Pause, Progress, leave};
use cs_state::{State, Tables, Temporary};
use cs_store::Value;
use cs_terms::Lin;

/// Executes the end of a block.
pub fn end(
    context: &Context,
    state: &mut State,
    tables: &mut Tables,
    progress: &mut Progress,
    end: &BlockEnd,
) -> Result<(), Pause>
    requires { IsReady context.now.setting.now }
    ensures extends { Extends (naming tables.old) (naming tables.new) }
    ensures leaves { EndsAt (view.code context.now.code.now) (view.block_end end.now)
        state.old.frame.spot
        → IsCutFor (view.block_end end.now) state.old
        → LeavesBlock (view.code context.now.code.now) (naming tables.new) state.old state.new
        progress.old progress.new result (view.block_end end.now) }
{
    match end {
        BlockEnd::Jump(block) => go(context, state, *block),
        BlockEnd::Branch(at, _, one, other) => {
            branch(context, state, progress, *at, *one, *other)
        }
        BlockEnd::Switch(at, _, cases, otherwise) => {
            switch(context, state, progress, *at, cases, *otherwise)
        }
        BlockEnd::Return(_) => {
            let given = operand(state, 0)?.clone()?;
            leave(context, state, tables, progress, given)
        }
        BlockEnd::Finish => {
            let given = Temporary::Scalar(Value::Unset);
            leave(context, state, tables, progress, given)
        }
    }
}

// Continues the frame with one of two blocks, as the test shows.
fn branch(
    context: &Context,
    state: &mut State,
    progress: &mut Progress,
    at: Place,
    one: u32,
    other: u32,
) -> Result<(), Pause>
    ensures { (temporary : ℕ) (given : Naming)
        → IsCutFor (graph.Branch at temporary one other) state.old
        → LeavesBlock (view.code context.now.code.now) given state.old state.new progress.old
        progress.new result (graph.Branch at temporary one other) }
{
    let holds = test(state, progress, at, value(state, 0)?, Tested::Branch)?;
    drop_newest(state, 1)?;
    go(context, state, if holds { one } else { other })
}

// Continues the frame with the block of the first case that has the number, else with the default one.
fn switch(
    context: &Context,
    state: &mut State,
    progress: &mut Progress,
    at: Place,
    cases: &[SwitchCase],
    otherwise: u32,
) -> Result<(), Pause>
    ensures { (temporary : ℕ) (given : Naming)
        → EndsAt (view.code context.now.code.now) (graph.Switch at temporary
        (map view.switch_case cases.now) otherwise) state.old.frame.spot
        → IsCutFor (graph.Switch at temporary (map view.switch_case cases.now) otherwise)
        state.old
        → LeavesBlock (view.code context.now.code.now) given state.old state.new progress.old
        progress.new result (graph.Switch at temporary (map view.switch_case cases.now) otherwise) }
{
    let term = number(state, 0)?;
    progress.select(state, at, term)?;
    let block = way(state, term, cases, otherwise)?;
    drop_newest(state, 1)?;
    go(context, state, block)
}

// The block for the number of a `switch`. For each case, it is known whether the number is the case's.
fn way(state: &State, term: Lin, cases: &[SwitchCase], otherwise: u32) -> Result<u32, Pause>
    ensures leads { IfOk result
        (LeadsTo state.now term (map view.switch_case cases.now) otherwise) }
    ensures memory { IfErr result (λ why. why ≡ pause.Memory) }
{
    for case in cases {
        match has_value(state, term, case.value)? {
            Some(true) => return Ok(case.block),
            Some(false) => {}
            None => return Err(Pause::Memory),
        }
    }
    Ok(otherwise)
}

// Continues the frame at the beginning of a block of its function.
fn go(context: &Context, state: &mut State, block: u32) -> Result<(), Pause>
    ensures goes { OnOk result (GoesTo (view.code context.now.code.now) block state.old state.new) }
    ensures memory { IfErr result (λ why. why ≡ pause.Memory) }
{
    let begins = Spot {
        function: state.frame.spot.function,
        block,
        operation: 0,
    };
    state.go_to(context.code.settled(begins).ok_or(Pause::Memory)?);
    Ok(())
}

/// Continues the frame after the instruction at its spot.
pub fn go_on(context: &Context, state: &mut State) -> Result<(), Pause>
    ensures moved_on { OnOk result
        (IsMovedOn (view.code context.now.code.now) state.old state.new) }
    ensures memory { IfErr result (λ why. why ≡ pause.Memory) }
{
    let next = context.code.next_at(state.frame.spot);
    state.go_to(next.ok_or(Pause::Memory)?);
    Ok(())
}

/// Counts a visit of a loop head or a label, unless the budget of visits is used up.
pub fn reach_counted_point(
    context: &Context,
    state: &mut State,
    progress: &mut Progress,
    point: CountedPoint,
) -> Result<(), Pause>
    requires { IsReady context.now.setting.now }
    ensures work { (given : Naming) → DoesWorkAndGoesOn (view.code context.now.code.now)
        context.now.setting.now.program.now.model context.now.setting.now.budgets given state.old
        state.new progress.old progress.new result point.place
        (graph.Reach point.kind point.number) }
{
    let over = Outcome::Over(Budget::Visits, point.place);
    let number = point.number as usize;
    let Some(count) = state.frame.visits.as_slice().get(number) else {
        return Err(progress.finish(over));
    };
    if *count >= context.setting.budgets.visits {
        return Err(progress.finish(over));
    }
    let count = count.checked_add(1).ok_or(Pause::Memory)?;
    state.count_visit(context.alloc, number, count)?;
    go_on(context, state)
}
