//! Calls, and returns from them (C11 6.5.2.2, 6.8.6.4).
ghost use Rattle.std.specs.Prelude.{◌≡◌, [], Some, OnOk, IfSome, IfNone, map};
ghost use Rattle.cs_ast.specs.TypedProgram.{typed_program, variable};
ghost use Rattle.cs_cfg.specs.Graph as graph;
ghost use Rattle.cs_cfg.specs.GraphView as view;
ghost use Rattle.cs_cfg.specs.Working as working;
ghost use Rattle.cs_meaning.specs.Calls as calls;
ghost use Rattle.cs_meaning.specs.Machine as machine;
ghost use Rattle.cs_values.specs.View.{operand_of};
ghost use Rattle.cs_objects.specs.BlockView.{block_at};
ghost use Rattle.cs_run_state.specs.MachineView.{state_of, frame_of};
ghost use Rattle.cs_replay.specs.FrameChanges.{inside_with, called_by, back_in};
ghost use Rattle.cs_replay.specs.ReplayerView.{program_of, budgets_of, code_of, caller_of, state_in, IsReady, KeepsSetting, Performs};

use crate::frames::new_frame;
use crate::replayer::{Caller, Replayer};
use cs_ast::Place;
use cs_ast::typed::program::{Local, Program};
use cs_cfg::Flow;
use cs_events::{Budget, Label, Outcome};
use cs_frames::frames::local_blocks;
use cs_frames::operands::pop_newest;
use cs_objects::blocks::Block;
use cs_positions::{Position, flow_at};
use cs_run_log::Stop;
use cs_run_state::machine::{Frame, Machine};
use cs_values::Operand;
use std::alloc::AllocError;

impl<'a> Replayer<'a> {
    /// Calls a function with the `count` newest temporaries as arguments. A function without a graph has no body.
    pub fn call(&mut self, place: Place, function: u32, count: u32) -> Result<(), Stop>
        requires { IsReady self.old }
        ensures { Performs self.old self.new result
            (working.call_flow (program_of self.old) (budgets_of self.old) place function
            (machine.routine_of (program_of self.old) function)
            (graph.flow_of (code_of self.old) function) (machine.newest count (state_in self.old))
            (machine.pop_many count (state_in self.old))) }
    {
        match flow_at(self.code, function) {
            Some(flow) => {
                let arguments = pop_newest(&mut self.runner.machine, count as usize)?;
                self.enter(place, function, flow, arguments)
            }
            None => {
                self.runner.call(place, function, count as usize)?;
                Ok(())
            }
        }
    }

    // Calls a function with a graph: the call shows, unless the budget of depth is used up.
    fn enter(
        &mut self,
        place: Place,
        function: u32,
        flow: &Flow,
        arguments: Vec<Operand>,
    ) -> Result<(), Stop>
        requires ready { IsReady self.old }
        requires graph { graph.flow_of (code_of self.old) function ≡ Some (view.flow flow.now) }
        ensures { Performs self.old self.new result
            (calls.enter_as (program_of self.old) (budgets_of self.old)
            (working.code_frame function (view.flow flow.now)) place function
            (machine.routine_of (program_of self.old) function) (map operand_of arguments.items)
            (state_in self.old)) }
    {
        let setting = self.runner.setting;
        if self.callers.len() as u64 >= u64::from(setting.budgets.depth.saturating_sub(1)) {
            return Err(Stop::Outcome(Outcome::Over(Budget::Depth, place)));
        }
        self.runner
            .log
            .show(setting, place, Label::Callee(function))?;
        let alloc = *self.callers.allocator();
        let number = frames_of(&self.runner.machine);
        let frame = new_frame(alloc, function, number, flow.counted_points)?;
        let variables = locals_of(setting.program, function);
        let locals = local_blocks(alloc, setting.program, variables, &arguments)?;
        self.go_inside(frame, locals, flow.entry)?;
        Ok(())
    }

    // Continues in a new frame with these locals, at the beginning of a block.
    #[tactic(auto, using(cs_run_state::proofs::States::states), unfolding(cs_run_state::specs::MachineView::state_of))]
    fn go_inside(
        &mut self,
        frame: Frame<'a>,
        locals: Vec<Block<'a>>,
        block: u32,
    ) -> Result<(), AllocError>
        ensures state { OnOk result
            (state_in self.new ≡ inside_with
            (graph.block_in (code_of self.old) frame.entry.function block) (frame_of frame.entry)
            (block_at locals.entry.items) (state_in self.old)) }
        ensures log { self.new.runner.log ≡ self.old.runner.log }
        ensures kept { OnOk result (KeepsSetting self.old self.new) }
    {
        self.runner.machine.memory.add_frame(locals)?;
        let caller = Caller {
            frame: std::mem::replace(&mut self.runner.machine.frame, frame),
            position: self.position,
        };
        self.callers.push(caller)?;
        self.position = Position { block, done: 0 };
        Ok(())
    }

    /// Ends the current frame, and returns a value to its caller; if there is none, the run is done.
    pub fn leave(&mut self, value: Operand) -> Result<(), Stop>
        ensures { Performs self.old self.new result
            (calls.leave (operand_of value) (state_in self.old)) }
    {
        match self.pop_caller() {
            Some(caller) => {
                self.come_back(caller, value)?;
                Ok(())
            }
            None => Err(Stop::Outcome(Outcome::Done(value.returned()))),
        }
    }

    // Pops the caller of the current frame.
    #[tactic(auto, using(cs_run_state::proofs::States::states))]
    fn pop_caller(&mut self) -> Option<Caller<'a>>
        ensures some { IfSome result (λ caller.
            state_in self.old ≡ called_by (caller_of self.old.code.now caller)
            (state_in self.new)) }
        ensures none { IfNone result ((state_in self.old).callers ≡ []) }
        ensures log { self.new.runner ≡ self.old.runner }
        ensures kept { KeepsSetting self.old self.new }
    {
        match self.callers.pop() {
            Some(caller) => Some(caller),
            None => None,
        }
    }

    // Returns a value from the current frame, which has ended, to a caller, which continues.
    #[tactic(auto, using(cs_run_state::proofs::States::states), unfolding(cs_run_state::specs::MachineView::state_of))]
    fn come_back(&mut self, caller: Caller<'a>, value: Operand) -> Result<(), AllocError>
        ensures state { OnOk result
            (state_in self.new ≡ back_in (caller_of self.old.code.now caller.entry)
            (operand_of value) (state_in self.old)) }
        ensures log { self.new.runner.log ≡ self.old.runner.log }
        ensures kept { OnOk result (KeepsSetting self.old self.new) }
    {
        self.runner.machine.come_back(caller.frame, value)?;
        self.position = caller.position;
        Ok(())
    }
}

// Returns the locals of a function, the parameters first; none if there is no such function.
fn locals_of(program: &Program, function: u32) -> &[Local]
    ensures { map variable result.now
        ≡ (machine.routine_of (typed_program program.now) function).variables }
{
    match program.functions.get(function as usize) {
        Some(function) => &function.locals,
        None => &[],
    }
}

// Returns the number of frames so far.
#[tactic(auto, unfolding(cs_run_state::specs::MachineView::state_of))]
fn frames_of(state: &Machine) -> u64
    ensures { result ≡ (state_of state.now).frames }
{
    state.memory.frames.len() as u64
}
