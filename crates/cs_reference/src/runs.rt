//! Whole runs.
ghost use Rattle.std.specs.Prelude.{IfOk};
ghost use Rattle.cs_ast.specs.TypedProgram.{typed_program};
ghost use Rattle.cs_meaning.specs.ProgramRuns.{RunGives};
ghost use Rattle.cs_objects.specs.Prepared.{IsReady};
ghost use Rattle.cs_run_log.specs.LogView.{log_of};
ghost use Rattle.cs_runner.specs.RunView.{run_of};

use crate::steps::step;
use cs_events::Outcome;
use cs_frames::starting::start;
use cs_objects::Setting;
use cs_run_log::{Log, Stop};
use cs_runner::runner::Runner;
use std::alloc::{AllocError, Global};

/// A run that has ended: its outcome, and its log of events, lookups and touches.
#[derive(Drop)]
pub struct Ended {
    pub outcome: Outcome,
    pub log: Log,
}

/// Runs a function of a program to the end of the run, as the reference machine does.
pub fn run<'a>(alloc: Global, setting: &'a Setting<'a>, entry: u32) -> Result<Ended, AllocError>
    requires { IsReady setting.now }
    ensures { IfOk result (λ ended.
        RunGives (typed_program setting.now.program.now) entry (run_of setting.now)
        setting.now.budgets ended.outcome (log_of ended.log)) }
{
    let machine = start(alloc, setting, entry)?;
    let mut runner = Runner {
        machine,
        log: Log::new(alloc),
        setting,
    };
    loop {
        match step(&mut runner) {
            Ok(()) => {}
            Err(Stop::Outcome(outcome)) => {
                let log = runner.log;
                return Ok(Ended { outcome, log });
            }
            Err(Stop::Memory) => return Err(AllocError),
        }
    }
}
