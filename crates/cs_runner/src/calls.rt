//! Calls (C11 6.5.2.2).
ghost use Rattle.std.specs.Prelude.{◌≡◌, [], length, OnOk, IfErr, IfOk, IfSome, IfNone, map};
ghost use Rattle.cs_ast.specs.TypedProgram.{routine};
ghost use Rattle.cs_meaning.specs.Calls as calls;
ghost use Rattle.cs_meaning.specs.Machine as machine;
ghost use Rattle.cs_values.specs.View.{operand_of};
ghost use Rattle.cs_objects.specs.BlockView.{type_of, block_at};
ghost use Rattle.cs_run_state.specs.MachineView.{state_of, frame_of};
ghost use Rattle.cs_frames.specs.Calling.{call_returning, inside_with, called_by};
ghost use Rattle.cs_runner.specs.RunnerView.{program_of, budgets_of, state_in, IsReady, Performs};

use crate::runner::Runner;
use cs_ast::Place;
use cs_ast::typed::program::Function;
use cs_events::{Budget, Label, Outcome};
use cs_frames::frames::{local_blocks, new_frame};
use cs_frames::operands::pop_newest;
use cs_frames::outside::{outside_result, write_arguments};
use cs_objects::blocks::{Block, BlockType};
use cs_run_log::Stop;
use cs_run_state::machine::{Frame, Machine};
use cs_values::Operand;
use std::alloc::AllocError;

impl<'a> Runner<'a> {
    /// Calls a function with `count` arguments, which are on the stack.
    pub fn call(&mut self, place: Place, function: u32, count: usize) -> Result<(), Stop>
        requires { IsReady self.old }
        ensures { Performs self.old self.new result
            (calls.call (program_of self.old) (budgets_of self.old) place function count
            (state_in self.old)) }
    {
        let arguments = pop_newest(&mut self.machine, count)?;
        match self.setting.program.functions.get(function as usize) {
            Some(callee) => match &callee.body {
                Some(_) => self.enter(place, function, callee, arguments),
                None => {
                    let returns = BlockType::Of(&callee.result);
                    self.call_outside(place, function, returns, &callee.written, arguments)
                }
            },
            None => self.call_outside(place, function, BlockType::Void, &[], arguments),
        }
    }

    // Calls a function with a body: the call shows, unless the budget of depth is used up.
    fn enter(
        &mut self,
        place: Place,
        function: u32,
        callee: &'a Function,
        arguments: Vec<Operand>,
    ) -> Result<(), Stop>
        requires { IsReady self.old }
        ensures { Performs self.old self.new result
            (calls.enter (program_of self.old) (budgets_of self.old) place function
            (routine callee.now) (map operand_of arguments.items) (state_in self.old)) }
    {
        if callers_of(&self.machine) >= u64::from(self.setting.budgets.depth.saturating_sub(1)) {
            return Err(Stop::Outcome(Outcome::Over(Budget::Depth, place)));
        }
        self.log.show(self.setting, place, Label::Callee(function))?;
        let alloc = *self.machine.callers.allocator();
        let number = frames_of(&self.machine);
        let frame = new_frame(alloc, function, number, callee)?;
        let locals = local_blocks(alloc, self.setting.program, &callee.locals, &arguments)?;
        go_inside(&mut self.machine, frame, locals)?;
        Ok(())
    }

    // Calls a function without a body: the call shows, gets a number, its result is looked up, and it writes through its arguments.
    fn call_outside(
        &mut self,
        place: Place,
        function: u32,
        returns: BlockType<'a>,
        written: &[bool],
        arguments: Vec<Operand>,
    ) -> Result<(), Stop>
        requires { IsReady self.old }
        ensures { Performs self.old self.new result
            (call_returning (program_of self.old) place function (type_of returns.entry) written.now
            (map operand_of arguments.items) (state_in self.old)) }
    {
        let call = self.machine.calls.checked_add(1).ok_or(AllocError)?;
        self.log.show(self.setting, place, Label::Callee(function))?;
        let memory = &mut self.machine.memory;
        let given = outside_result(memory, &mut self.log, self.setting, returns, call)?;
        write_arguments(
            memory,
            &mut self.log,
            self.setting,
            place,
            call,
            written,
            &arguments,
        )?;
        self.machine.calls = call;
        self.machine.push(given)?;
        Ok(())
    }

    /// Ends the current frame, and returns a value to its caller; if there is none, the run is done.
    pub fn leave(&mut self, value: Operand) -> Result<(), Stop>
        ensures { Performs self.old self.new result
            (calls.leave (operand_of value) (state_in self.old)) }
    {
        match pop_caller(&mut self.machine) {
            Some(caller) => {
                self.machine.come_back(caller, value)?;
                Ok(())
            }
            None => Err(Stop::Outcome(Outcome::Done(value.returned()))),
        }
    }
}

// Continues in a new frame with these locals.
#[tactic(auto, using(cs_run_state::proofs::States::states), unfolding(cs_run_state::specs::MachineView::state_of))]
fn go_inside<'a>(
    state: &mut Machine<'a>,
    frame: Frame<'a>,
    locals: Vec<Block<'a>>,
) -> Result<(), AllocError>
    ensures { OnOk result (state_of state.new
        ≡ inside_with (frame_of frame.entry) (block_at locals.entry.items) (state_of state.old)) }
{
    state.memory.add_frame(locals)?;
    let caller = std::mem::replace(&mut state.frame, frame);
    state.callers.push(caller)?;
    Ok(())
}

// Returns the number of frames below the current one on the call stack.
#[tactic(auto, unfolding(cs_run_state::specs::MachineView::state_of))]
fn callers_of(state: &Machine) -> u64
    ensures { result ≡ length (state_of state.now).callers }
{
    state.callers.len() as u64
}

// Returns the number of frames so far.
#[tactic(auto, unfolding(cs_run_state::specs::MachineView::state_of))]
fn frames_of(state: &Machine) -> u64
    ensures { result ≡ (state_of state.now).frames }
{
    state.memory.frames.len() as u64
}

// Pops the caller of the current frame.
#[tactic(auto, using(cs_run_state::proofs::States::states), unfolding(cs_run_state::specs::MachineView::state_of))]
fn pop_caller<'a>(state: &mut Machine<'a>) -> Option<Frame<'a>>
    ensures some { IfSome result (λ caller.
        state_of state.old ≡ called_by (frame_of caller) (state_of state.new)) }
    ensures none { IfNone result ((state_of state.old).callers ≡ []) }
    ensures same { IfNone result (state_of state.new ≡ state_of state.old) }
{
    match state.callers.pop() {
        Some(caller) => Some(caller),
        None => None,
    }
}
