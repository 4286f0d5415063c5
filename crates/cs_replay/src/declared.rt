//! Locals that become unset or zero, and stores in declared objects (C11 6.2.4, paragraph 6; 6.7.9).
ghost use Rattle.cs_types.specs.Shape.{shape_of};
ghost use Rattle.cs_cfg.specs.Graph as graph;
ghost use Rattle.cs_runner.specs.RunnerView.{program_of, budgets_of, state_in, IsReady, Performs};
ghost use Rattle.cs_replay.specs.Works.{works};

use cs_ast::Place;
use cs_frames::frames::number_of;
use cs_memory::access::touch_store;
use cs_objects::blocks::Fill;
use cs_positions::if_local;
use cs_run_log::{Stop, Touch};
use cs_runner::runner::Runner;
use cs_types::CType;

/// Makes a local unset, which is a touch if it is a scalar (C11 6.2.4, paragraph 6).
pub fn clear(run: &mut Runner, place: Place, declaration: u32, scalar: bool) -> Result<(), Stop>
    ensures { Performs run.old run.new result
        (works (program_of run.old) (budgets_of run.old) place (graph.Clear declaration scalar)
        (state_in run.old)) }
{
    let frame = number_of(&run.machine);
    if let Some(local) = if_local(scalar, declaration) {
        run.log.touch(Touch::Clears(frame, local, place))?;
    }
    run.machine.refill_local(declaration, Fill::Unset)?;
    Ok(())
}

/// Makes a local zero, before the pieces of its initializer are stored (C11 6.7.9).
pub fn zero(run: &mut Runner, place: Place, declaration: u32) -> Result<(), Stop>
    ensures { Performs run.old run.new result
        (works (program_of run.old) (budgets_of run.old) place (graph.Zero declaration)
        (state_in run.old)) }
{
    run.machine.refill_local(declaration, Fill::Zero)?;
    Ok(())
}

/// Stores the newest value in a local, at an offset, which is a touch if the local is a scalar.
pub fn store_local(
    run: &mut Runner,
    place: Place,
    declaration: u32,
    offset: u64,
    ty: &CType,
    scalar: bool,
) -> Result<(), Stop>
    requires { IsReady run.old }
    ensures { Performs run.old run.new result
        (works (program_of run.old) (budgets_of run.old) place
        (graph.StoreLocal declaration offset (shape_of ty.now) scalar) (state_in run.old)) }
{
    let frame = number_of(&run.machine);
    touch_store(&mut run.log, frame, place, if_local(scalar, declaration))?;
    run.machine
        .store_newest(run.setting, ty, declaration, offset)?;
    Ok(())
}

/// Stores bytes in a local, from an offset on (C11 6.7.9, paragraph 14).
pub fn spell(
    run: &mut Runner,
    place: Place,
    declaration: u32,
    offset: u64,
    bytes: &[u8],
) -> Result<(), Stop>
    requires { IsReady run.old }
    ensures { Performs run.old run.new result
        (works (program_of run.old) (budgets_of run.old) place
        (graph.Spell declaration offset bytes.now) (state_in run.old)) }
{
    let program = run.setting.program;
    run.machine
        .spell_local(program, declaration, offset, bytes)?;
    Ok(())
}
