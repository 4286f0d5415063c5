//! The steps of a run of code.
ghost use Rattle.std.specs.Prelude.{◌≡◌, ◌+◌, OnOk};
ghost use Rattle.cs_cfg.specs.CodeSteps as steps;
ghost use Rattle.cs_cfg.specs.GraphView as view;
ghost use Rattle.cs_cfg.specs.Working as working;
ghost use Rattle.cs_positions.specs.Nexts.{reaching};
ghost use Rattle.cs_replay.specs.ReplayerView.{program_of, budgets_of, code_of, state_in, IsReady, Performs};

use crate::operands::cut;
use crate::replayer::Replayer;
use crate::working::{takes, work};
use cs_ast::Place;
use cs_cfg::{CountedPoint, Operation, Work};
use cs_positions::{Next, next_at};
use cs_run_log::Stop;
use cs_values::{Cell, Operand};
use std::alloc::AllocError;

impl<'a> Replayer<'a> {
    /// Carries out one step: the next operation of the block, or its end.
    pub fn step(&mut self) -> Result<(), Stop>
        requires { IsReady self.old }
        ensures { Performs self.old self.new result
            (steps.code_step (code_of self.old) (program_of self.old) (budgets_of self.old)
            (state_in self.old)) }
    {
        let function = self.runner.machine.frame.function;
        match next_at(self.code, function, self.position) {
            Next::CountedPoint(counted_point) => {
                self.advance()?;
                self.reach(counted_point)
            }
            Next::Operation(operation) => {
                self.advance()?;
                self.operate(operation)
            }
            Next::End(end) => self.end_block(end),
            Next::Nowhere => self.leave(Operand::Scalar(Cell::Unset)),
        }
    }

    // Advances the position by one step of the block.
    fn advance(&mut self) -> Result<(), AllocError>
        ensures { OnOk result (self.new
            ≡ record self.old {
              position = record self.old.position { done = self.old.position.done + 1 };
            }) }
    {
        self.position.done = self.position.done.checked_add(1).ok_or(AllocError)?;
        Ok(())
    }

    // Reaches a loop head or a label.
    fn reach(&mut self, counted_point: &CountedPoint) -> Result<(), Stop>
        ensures { Performs self.old self.new result
            (steps.do_operation (code_of self.old) (program_of self.old) (budgets_of self.old)
            (reaching counted_point.now) (state_in self.old)) }
    {
        cut(&mut self.runner.machine, 0);
        self.runner.reach_counted_point(
            counted_point.place,
            counted_point.kind,
            u64::from(counted_point.number),
        )?;
        Ok(())
    }

    // Carries out an operation on the temporaries from its number on; those after its operands are dropped.
    fn operate(&mut self, operation: &'a Operation) -> Result<(), Stop>
        requires { IsReady self.old }
        ensures { Performs self.old self.new result
            (steps.do_operation (code_of self.old) (program_of self.old) (budgets_of self.old)
            (view.operation operation.now) (state_in self.old)) }
    {
        let needed = u64::from(operation.temporary) + u64::from(takes(&operation.work));
        cut(&mut self.runner.machine, needed);
        self.work(operation.place, &operation.work)
    }

    // Carries out an operation on the newest temporaries.
    fn work(&mut self, place: Place, one: &'a Work) -> Result<(), Stop>
        requires { IsReady self.old }
        ensures { Performs self.old self.new result
            (working.do_work (code_of self.old) (program_of self.old) (budgets_of self.old) place
            (view.work one.now) (state_in self.old)) }
    {
        match one {
            Work::Call(function, count) => self.call(place, *function, *count),
            one => {
                work(&mut self.runner, place, one)?;
                Ok(())
            }
        }
    }
}
