//! The ends of blocks.
ghost use Rattle.std.specs.Prelude.{◌≡◌, map, if◌then◌else◌};
ghost use Rattle.cs_cfg.specs.CodeSteps as steps;
ghost use Rattle.cs_cfg.specs.Graph as graph;
ghost use Rattle.cs_cfg.specs.GraphView as view;
ghost use Rattle.cs_replay.specs.ReplayerView.{code_of, state_in, KeepsSetting, Performs};

use crate::operands::cut;
use crate::replayer::Replayer;
use crate::ways::way_of;
use cs_ast::Place;
use cs_cfg::{BlockEnd, SwitchCase};
use cs_events::{Label, PointKind};
use cs_positions::Position;
use cs_run_log::{Stop, Touch};
use cs_values::{Cell, Operand};

impl<'a> Replayer<'a> {
    /// Carries out the end of a block: continues with another block, or ends the frame.
    pub fn end_block(&mut self, end: &BlockEnd) -> Result<(), Stop>
        ensures { Performs self.old self.new result
            (steps.do_end (code_of self.old) (view.block_end end.now) (state_in self.old)) }
    {
        match end {
            BlockEnd::Jump(block) => {
                self.enter_block(*block);
                Ok(())
            }
            BlockEnd::Branch(place, temporary, one, other) => {
                self.branch(*place, *temporary, *one, *other)
            }
            BlockEnd::Switch(place, temporary, cases, otherwise) => {
                self.switch(*place, *temporary, cases, *otherwise)
            }
            BlockEnd::Return(temporary) => self.give_back(*temporary),
            BlockEnd::Finish => self.leave(Operand::Scalar(Cell::Unset)),
        }
    }

    // Continues with a block of the current function.
    fn enter_block(&mut self, block: u32)
        ensures state { state_in self.new
            ≡ steps.enters (code_of self.old) block (state_in self.old) }
        ensures log { self.new.runner.log ≡ self.old.runner.log }
        ensures kept { KeepsSetting self.old self.new }
    {
        self.position = Position { block, done: 0 };
    }

    // A test: the branch that it takes shows (C11 6.8.4.1, 6.8.5).
    fn branch(&mut self, place: Place, temporary: u32, one: u32, other: u32) -> Result<(), Stop>
        ensures { Performs self.old self.new result
            (steps.do_end (code_of self.old) (graph.Branch place temporary one other)
            (state_in self.old)) }
    {
        cut(&mut self.runner.machine, u64::from(temporary) + 1);
        let runner = &mut self.runner;
        let setting = runner.setting;
        let holds = runner.machine.test(&mut runner.log, setting, place)?;
        self.enter_block(chosen(holds, one, other));
        Ok(())
    }

    // A `switch`: the case that it takes shows (C11 6.8.4.2).
    fn switch(
        &mut self,
        place: Place,
        temporary: u32,
        cases: &[SwitchCase],
        otherwise: u32,
    ) -> Result<(), Stop>
        ensures { Performs self.old self.new result
            (steps.do_end (code_of self.old)
            (graph.Switch place temporary (map view.switch_case cases.now) otherwise)
            (state_in self.old)) }
    {
        cut(&mut self.runner.machine, u64::from(temporary) + 1);
        let number = self.runner.machine.pop_cell().number();
        let way = way_of(cases, otherwise, number)?;
        let setting = self.runner.setting;
        let log = &mut self.runner.log;
        log.touch(Touch::Meets(PointKind::Switch, place))?;
        log.show(setting, place, Label::Case(way.number))?;
        self.enter_block(way.block);
        Ok(())
    }

    // Returns a temporary from the frame.
    fn give_back(&mut self, temporary: u32) -> Result<(), Stop>
        ensures { Performs self.old self.new result
            (steps.do_end (code_of self.old) (graph.Return temporary) (state_in self.old)) }
    {
        cut(&mut self.runner.machine, u64::from(temporary) + 1);
        let value = self.runner.machine.pop();
        self.leave(value)
    }
}

// Returns the block to which a test leads.
fn chosen(holds: bool, one: u32, other: u32) -> u32
    ensures { result ≡ (if holds then one else other) }
{
    if holds { one } else { other }
}
