//! Whole runs of code.
ghost use Rattle.std.specs.Prelude.{◌≡◌, ◌↔◌, Err, None, IfOk};
ghost use Rattle.cs_ast.specs.TypedProgram.{typed_program};
ghost use Rattle.cs_events.specs.Runs.{empty};
ghost use Rattle.cs_meaning.specs.Machine.{routine_of};
ghost use Rattle.cs_meaning.specs.ProgramRuns as meaning;
ghost use Rattle.cs_cfg.specs.CodeSteps.{code_step, code_start, CodeGives};
ghost use Rattle.cs_cfg.specs.GraphView as view;
ghost use Rattle.cs_cfg.specs.Lowered.{HasGraphs, IsLowered};
ghost use Rattle.cs_objects.specs.Prepared.{IsReady};
ghost use Rattle.cs_run_log.specs.LogView.{log_of};
ghost use Rattle.cs_runner.specs.RunView.{run_of};
ghost use Rattle.cs_replay.specs.RunLengths.{HasLength, HasLength-prop};

use crate::refusal::ReplayRefusal;
use crate::starting::begin;
use cs_cfg::Code;
use cs_events::Outcome;
use cs_objects::Setting;
use cs_positions::flow_at;
use cs_run_log::{Log, Stop};
use std::alloc::{AllocError, Global};

/// A replay that has ended: its outcome, and its log of events, lookups and touches.
#[derive(Drop)]
pub struct Replayed {
    pub outcome: Outcome,
    pub log: Log,
}

// A run to be followed, with the fact that it ends.
#[derive(Drop)]
struct Course<'a> {
    setting: &'a Setting<'a>,
    code: &'a Code,
    entry: u32,
    ghost ends: { HasLength (code_step (view.code code.now) (typed_program setting.now.program.now) setting.now.budgets) (meaning.setting_of (typed_program setting.now.program.now) (run_of setting.now) setting.now.budgets) (code_start (view.code code.now) (typed_program setting.now.program.now) entry (run_of setting.now)) empty } by { HasLength-prop (code_step (view.code code.now) (typed_program setting.now.program.now) setting.now.budgets) (meaning.setting_of (typed_program setting.now.program.now) (run_of setting.now) setting.now.budgets) (code_start (view.code code.now) (typed_program setting.now.program.now) entry (run_of setting.now)) empty },
}

/// Runs the code of a function of a program to the end of the run; the outcome and the log are those of the reference machine's run.
pub fn replay(
    alloc: Global,
    setting: &Setting,
    code: &Code,
    entry: u32,
) -> Result<Replayed, ReplayRefusal>
    requires ready { IsReady setting.now }
    requires lowered { IsLowered (view.code code.now) (typed_program setting.now.program.now) }
    ensures gives { IfOk result (λ replayed.
        meaning.RunGives (typed_program setting.now.program.now) entry (run_of setting.now)
        setting.now.budgets replayed.outcome (log_of replayed.log)) }
    ensures no_entry { (result ≡ Err ReplayRefusal.NoEntry)
        ↔ ((routine_of (typed_program setting.now.program.now) entry).body ≡ None) }
{
    match flow_at(code, entry) {
        Some(_) => {
            let replayed = follow(
                alloc,
                &Course {
                    setting,
                    code,
                    entry,
                },
            )?;
            Ok(replayed)
        }
        None => Err(ReplayRefusal::NoEntry),
    }
}

// Follows a run to its end.
fn follow(alloc: Global, course: &Course) -> Result<Replayed, AllocError>
    requires ready { IsReady course.now.setting.now }
    requires graphs { HasGraphs (view.code course.now.code.now)
        (typed_program course.now.setting.now.program.now) }
    ensures { IfOk result (λ replayed.
        CodeGives (view.code course.now.code.now) (typed_program course.now.setting.now.program.now)
        course.now.entry (run_of course.now.setting.now) course.now.setting.now.budgets
        replayed.outcome (log_of replayed.log)) }
{
    let mut replayer = begin(alloc, course.setting, course.code, course.entry)?;
    loop {
        match replayer.step() {
            Ok(()) => {}
            Err(Stop::Outcome(outcome)) => {
                let log = replayer.runner.log;
                return Ok(Replayed { outcome, log });
            }
            Err(Stop::Memory) => return Err(AllocError),
        }
    }
}
