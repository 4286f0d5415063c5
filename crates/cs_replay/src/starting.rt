//! How a run begins: the static objects, and the first frame.
ghost use Rattle.std.specs.Prelude.{◌≡◌, IfOk, unwrap_or};
ghost use Rattle.cs_ast.specs.TypedProgram.{typed_program};
ghost use Rattle.cs_events.specs.Runs.{empty};
ghost use Rattle.cs_cfg.specs.CodeSteps.{code_start};
ghost use Rattle.cs_cfg.specs.Graph.{no_flow};
ghost use Rattle.cs_cfg.specs.GraphView as view;
ghost use Rattle.cs_objects.specs.Prepared.{IsReady};
ghost use Rattle.cs_run_log.specs.LogView.{log_of};
ghost use Rattle.cs_runner.specs.RunView.{run_of};
ghost use Rattle.cs_positions.specs.Nexts.{flow_found};
ghost use Rattle.cs_replay.specs.ReplayerView.{state_in};

use crate::frames::new_frame;
use crate::replayer::Replayer;
use cs_cfg::{Code, Flow};
use cs_frames::starting::start;
use cs_objects::Setting;
use cs_positions::{Position, flow_at};
use cs_run_log::Log;
use cs_run_state::machine::{Frame, Machine};
use cs_runner::runner::Runner;
use std::alloc::{AllocError, Global};

/// Returns a run in the first frame of an entry, whose parameters hold the values of their paths. An entry without a graph has nothing to do.
pub fn begin<'a>(
    alloc: Global,
    setting: &'a Setting<'a>,
    code: &'a Code,
    entry: u32,
) -> Result<Replayer<'a>, AllocError>
    requires { IsReady setting.now }
    ensures state { IfOk result (λ run.
        state_in run ≡ code_start (view.code code.now) (typed_program setting.now.program.now)
        entry (run_of setting.now)) }
    ensures log { IfOk result (λ run. log_of run.runner.log ≡ empty) }
    ensures kept { IfOk result (λ run.
        (run.runner.setting.now ≡ setting.now) × (run.code.now ≡ code.now)) }
{
    let (block, counted_points) = beginning(flow_at(code, entry));
    let mut machine = start(alloc, setting, entry)?;
    let frame = new_frame(alloc, entry, 0, counted_points)?;
    put_in(&mut machine, frame);
    let log = Log::new(alloc);
    let callers = Vec::new(alloc);
    Ok(Replayer {
        runner: Runner {
            machine,
            log,
            setting,
        },
        code,
        position: Position { block, done: 0 },
        callers,
    })
}

// Returns the block where a graph begins, and the number of its counted points.
fn beginning(flow: Option<&Flow>) -> (u32, u32)
    ensures entry { result.0 ≡ (unwrap_or (flow_found flow.entry) no_flow).entry }
    ensures counted_points { result.1
        ≡ (unwrap_or (flow_found flow.entry) no_flow).counted_points }
{
    match flow {
        Some(flow) => (flow.entry, flow.counted_points),
        None => (0, 0),
    }
}

// Replaces the current frame.
fn put_in<'a>(state: &mut Machine<'a>, frame: Frame<'a>)
    ensures { state.new ≡ record state.old { frame = frame.entry } }
{
    state.frame = frame;
}
