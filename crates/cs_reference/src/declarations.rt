//! Declarations, and stores in declared objects (C11 6.2.4, paragraph 6; 6.7.9).
ghost use Rattle.std.specs.Prelude.{Some, option_map, option_copied};
ghost use Rattle.cs_types.specs.Shape.{shape_of};
ghost use Rattle.cs_ast.specs.TypedView.{initial};
ghost use Rattle.cs_meaning.specs.Machine as machine;
ghost use Rattle.cs_meaning.specs.Statements as meaning;
ghost use Rattle.cs_runner.specs.RunnerView.{program_of, state_in, IsReady, Performs};

use cs_ast::Place;
use cs_ast::typed::statement::Initial;
use cs_frames::frames::number_of;
use cs_memory::access::touch_store;
use cs_objects::blocks::Fill;
use cs_objects::pieces::pieces;
use cs_run_log::{Stop, Touch};
use cs_run_state::items::{ExprStep, Item};
use cs_runner::runner::Runner;
use cs_types::CType;

/// Executes a declaration: the object becomes unset, or gets a value, or becomes zero before its pieces are stored.
pub fn declare<'a>(
    run: &mut Runner<'a>,
    place: Place,
    declaration: u32,
    first: Option<&'a Initial>,
) -> Result<(), Stop>
    requires { IsReady run.old }
    ensures { Performs run.old run.new result
        (meaning.declare (program_of run.old) place declaration
        (option_map initial (option_copied first.entry)) (state_in run.old)) }
{
    match first {
        None => clear_local(run, place, declaration),
        Some(first) => set_local(run, place, declaration, first),
    }
}

// A declaration with an initializer: the object gets a value, or becomes zero before its pieces are stored.
fn set_local<'a>(
    run: &mut Runner<'a>,
    place: Place,
    declaration: u32,
    first: &'a Initial,
) -> Result<(), Stop>
    requires { IsReady run.old }
    ensures { Performs run.old run.new result
        (meaning.declare (program_of run.old) place declaration (Some (initial first.now))
        (state_in run.old)) }
{
    let program = run.setting.program;
    match first {
        Initial::Value(value) => {
            run.machine
                .put(Item::Store(place, declaration, 0, &value.ty))?;
            run.machine.put_expr(ExprStep::Evaluate, value)?;
            Ok(())
        }
        Initial::List(_) => {
            run.machine
                .initialize_local(program, place, declaration, first)?;
            Ok(())
        }
        Initial::Text(_) => {
            run.machine
                .initialize_local(program, place, declaration, first)?;
            Ok(())
        }
    }
}

// A declaration without an initializer: the object becomes unset, which is a touch if it is a scalar.
fn clear_local(run: &mut Runner, place: Place, declaration: u32) -> Result<(), Stop>
    ensures { Performs run.old run.new result
        (meaning.clear_local (program_of run.old) place declaration (state_in run.old)) }
{
    let frame = number_of(&run.machine);
    if let Some(local) = run.machine.scalar_local(run.setting.program, declaration) {
        run.log.touch(Touch::Clears(frame, local, place))?;
    }
    run.machine.refill_local(declaration, Fill::Unset)?;
    Ok(())
}

/// Stores the newest value in a local, at an offset.
pub fn store_local<'a>(
    run: &mut Runner<'a>,
    place: Place,
    declaration: u32,
    offset: u64,
    ty: &'a CType,
) -> Result<(), Stop>
    requires { IsReady run.old }
    ensures { Performs run.old run.new result
        (meaning.store_local (program_of run.old) place declaration offset (shape_of ty.now)
        (state_in run.old)) }
{
    let frame = number_of(&run.machine);
    let local = run.machine.scalar_local(run.setting.program, declaration);
    touch_store(&mut run.log, frame, place, local)?;
    run.machine
        .store_newest(run.setting, ty, declaration, offset)?;
    Ok(())
}
