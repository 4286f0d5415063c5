//! Calls of functions (C11 6.5.2.2), with a body and without one.
ghost use Rattle.cs_objects.specs.Prepared.{IsReady};
ghost use Rattle.cs_state.specs.Naming.{naming, Extends};

use crate::ends::go_on;
use cs_ast::Place;
use cs_ast::typed::program::Function;
use cs_cells::cells::{kind_of, received};
use cs_cells::objects::object;
use cs_cfg::{Flow, Spot};
use cs_eval::Question;
use cs_events::{Budget, Outcome};
use cs_inputs::Root;
use cs_model::Standing;
use cs_progress::operands::{drop_newest, replace, value_of};
use cs_progress::pointers::{Seen, look};
use cs_progress::{Context, Pause, Progress};
use cs_regions::Base;
use cs_state::{Counters, Frame, State, Tables, Temporaries, Temporary, Visits};
use cs_store::{Fill, Value};
use cs_values::paths::root_path;
use std::alloc::AllocError;

/// Calls a function with `called.1` arguments; afterwards the caller is at its next operation.
pub fn call(
    context: &Context,
    state: &mut State,
    tables: &mut Tables,
    progress: &mut Progress,
    at: Place,
    called: (u32, u32),
) -> Result<(), Pause>
    requires { IsReady context.now.setting.now }
    ensures { Extends (naming tables.old) (naming tables.new) }
{
    let (function, count) = called;
    match context.code.flow_at(function) {
        Some(flow) => {
            enter_checked(context, state, progress, at, function)?;
            enter(context, state, tables, flow, (function, count))
        }
        None => {
            outside(context, state, tables, progress, at, (function, count))?;
            go_on(context, state)
        }
    }
}

// A call of a function with a body: an event shows the function, unless the budget of depth is used up.
fn enter_checked(
    context: &Context,
    state: &State,
    progress: &mut Progress,
    at: Place,
    function: u32,
) -> Result<(), Pause>
    requires { IsReady context.now.setting.now }
{
    let frames = state.callers.depth().checked_add(1).ok_or(Pause::Memory)?;
    if frames >= u64::from(context.setting.budgets.depth) {
        return Err(progress.finish(Outcome::Over(Budget::Depth, at)));
    }
    progress.ask(state, at, Question::Callee(function))?;
    Ok(())
}

// Pushes the frame of the call: its locals are unset, except the parameters.
fn enter(
    context: &Context,
    state: &mut State,
    tables: &mut Tables,
    flow: &Flow,
    called: (u32, u32),
) -> Result<(), Pause>
    requires { IsReady context.now.setting.now }
    ensures { Extends (naming tables.old) (naming tables.new) }
{
    let (function, count) = called;
    let arguments = newest(context, state, count)?;
    drop_newest(state, count as usize)?;
    go_on(context, state)?;
    let number = state.counters.frames;
    let frame = begun(context, flow, function, number)?;
    state.enter(context.alloc, frame)?;
    state.set_counters(Counters {
        frames: number.checked_add(1).ok_or(Pause::Memory)?,
        ..state.counters
    });
    for (declaration, argument) in arguments.iter().enumerate() {
        receive(state, tables, number, declaration, *argument)?;
    }
    Ok(())
}

// The frame of a call at its beginning.
fn begun(context: &Context, flow: &Flow, function: u32, number: u64) -> Result<Frame, Pause>
    requires { IsReady context.now.setting.now }
{
    let begins = Spot {
        function,
        block: flow.entry,
        operation: 0,
    };
    Ok(Frame {
        number,
        spot: context.code.settled(begins).ok_or(Pause::Memory)?,
        temporaries: Temporaries::new(context.alloc),
        visits: Visits::none(context.alloc, flow.counted_points as usize)?,
    })
}

// Binds a parameter to its argument.
fn receive(
    state: &mut State,
    tables: &mut Tables,
    frame: u64,
    declaration: usize,
    argument: Value,
) -> Result<(), AllocError>
    ensures { Extends (naming tables.old) (naming tables.new) }
{
    if matches!(argument, Value::Unset) {
        return Ok(());
    }
    let decl = u32::try_from(declaration).map_err(|_| AllocError)?;
    let base = tables.base(Base::Local { frame, decl })?;
    state.bind(base, 0, argument)?;
    Ok(())
}

// The newest operands as scalars, the oldest of them first.
fn newest(context: &Context, state: &State, count: u32) -> Result<Vec<Value>, AllocError>
    requires { IsReady context.now.setting.now }
{
    let list = state.frame.temporaries.as_slice();
    let first = list.len().checked_sub(count as usize).ok_or(AllocError)?;
    let mut values = Vec::new(context.alloc);
    for temporary in &list[first..] {
        values.push(value_of(temporary))?;
    }
    Ok(values)
}

// A call of a function without a body: an event shows the function, the result is an input, and the objects that arguments point to are overwritten.
fn outside(
    context: &Context,
    state: &mut State,
    tables: &mut Tables,
    progress: &mut Progress,
    at: Place,
    called: (u32, u32),
) -> Result<(), Pause>
    requires { IsReady context.now.setting.now }
    ensures { Extends (naming tables.old) (naming tables.new) }
{
    let (number, count) = called;
    progress.ask(state, at, Question::Callee(number))?;
    let program = context.program();
    let function = program.functions.get(number as usize).ok_or(Pause::Memory)?;
    let call = state.counters.calls.checked_add(1).ok_or(Pause::Memory)?;
    let arguments = newest(context, state, count)?;
    let written = written(context, state, progress, at, function, &arguments)?;
    let result = result(context, state, tables, function, call)?;
    for (argument, base) in &written {
        overwrite(context, state, tables, *base, Fill::Wrote(call, *argument))?;
    }
    state.set_counters(Counters {
        calls: call,
        ..state.counters
    });
    replace(state, count as usize, result)
}

// The base regions that such a call writes, each with the number of its argument. Each pointer through which it may write is inspected
// for null.
fn written(
    context: &Context,
    state: &State,
    progress: &mut Progress,
    at: Place,
    function: &Function,
    arguments: &[Value],
) -> Result<Vec<(u64, u64)>, Pause>
    requires { IsReady context.now.setting.now }
{
    let mut written = Vec::new(context.alloc);
    for (number, argument) in arguments.iter().enumerate() {
        if function.written.get(number) != Some(&true) {
            continue;
        }
        if let Seen::At(base, _) = look(state, progress, at, *argument)? {
            written.push((number as u64, base))?;
        }
    }
    Ok(written)
}

// The result of such a call.
fn result(
    context: &Context,
    state: &mut State,
    tables: &mut Tables,
    function: &Function,
    call: u64,
) -> Result<Temporary, Pause>
    requires { IsReady context.now.setting.now }
    ensures { Extends (naming tables.old) (naming tables.new) }
{
    if matches!(function.result, cs_types::CType::Void) {
        return Ok(Temporary::Nothing);
    }
    let path = root_path(context.alloc, Root::Call(call));
    let kind = kind_of(context, &function.result)?;
    let value = received(context, state, tables, path, kind)?;
    Ok(Temporary::Scalar(value))
}

// Overwrites an object as such a call does, if it is live and not constant.
fn overwrite(
    context: &Context,
    state: &mut State,
    tables: &Tables,
    base: u64,
    fill: Fill,
) -> Result<(), AllocError>
    requires { IsReady context.now.setting.now }
{
    let known = object(context, state, tables, base)?;
    let is_live = matches!(known.standing, Standing::Live);
    if is_live && !known.constant {
        state.fill(base, fill)?;
    }
    Ok(())
}
