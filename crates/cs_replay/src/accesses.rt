//! Loads, stores and updates (C11 6.3.2.1, 6.5.16).
ghost use Rattle.std.specs.Prelude.{◌≡◌};
ghost use Rattle.cs_objects.specs.AccessView as view;
ghost use Rattle.cs_cfg.specs.Graph as graph;
ghost use Rattle.cs_cfg.specs.GraphView.{access};
ghost use Rattle.cs_runner.specs.RunnerView.{program_of, budgets_of, state_in, IsReady, Performs};
ghost use Rattle.cs_replay.specs.Works.{works};

use cs_ast::Place;
use cs_ast::typed::operator::{BinOp, Direction, Gives};
use cs_cfg::Access;
use cs_objects::access;
use cs_run_log::Stop;
use cs_runner::runner::Runner;
use cs_types::IntType;

/// Loads from an object (C11 6.3.2.1).
pub fn load(run: &mut Runner, place: Place, object: &Access) -> Result<(), Stop>
    requires { IsReady run.old }
    ensures { Performs run.old run.new result
        (works (program_of run.old) (budgets_of run.old) place (graph.Load (access object.now))
        (state_in run.old)) }
{
    let access = access_to(object);
    run.machine.load_from(&mut run.log, run.setting, access)
}

/// Loads for an update of a number; the lvalue stays on the stack, below the value and the value converted to the operator's type.
pub fn fetch_number(
    run: &mut Runner,
    place: Place,
    object: &Access,
    works_in: IntType,
) -> Result<(), Stop>
    requires { IsReady run.old }
    ensures { Performs run.old run.new result
        (works (program_of run.old) (budgets_of run.old) place
        (graph.FetchNumber (access object.now) works_in) (state_in run.old)) }
{
    let access = access_to(object);
    run.machine
        .fetch_number(&mut run.log, run.setting, place, access, works_in)
}

/// Loads for an update of a pointer; the lvalue stays on the stack, below the value.
pub fn fetch_pointer(run: &mut Runner, place: Place, object: &Access) -> Result<(), Stop>
    requires { IsReady run.old }
    ensures { Performs run.old run.new result
        (works (program_of run.old) (budgets_of run.old) place
        (graph.FetchPointer (access object.now)) (state_in run.old)) }
{
    let access = access_to(object);
    run.machine.fetch_pointer(&mut run.log, run.setting, access)
}

/// Assigns, and pushes the stored value (C11 6.5.16.1).
pub fn assign(run: &mut Runner, place: Place, object: &Access) -> Result<(), Stop>
    requires { IsReady run.old }
    ensures { Performs run.old run.new result
        (works (program_of run.old) (budgets_of run.old) place (graph.Store (access object.now))
        (state_in run.old)) }
{
    let access = access_to(object);
    run.machine.assign(&mut run.log, run.setting, place, access)
}

/// Updates a number.
pub fn update(
    run: &mut Runner,
    place: Place,
    operator: BinOp,
    object: &Access,
    works_in: IntType,
    gives: Gives,
) -> Result<(), Stop>
    requires { IsReady run.old }
    ensures { Performs run.old run.new result
        (works (program_of run.old) (budgets_of run.old) place
        (graph.Update operator (access object.now) works_in gives) (state_in run.old)) }
{
    let access = access_to(object);
    run.machine.update(
        &mut run.log,
        run.setting,
        place,
        operator,
        access,
        works_in,
        gives,
    )
}

/// Updates a pointer by a number of elements of a size in bytes.
pub fn move_pointer(
    run: &mut Runner,
    place: Place,
    object: &Access,
    bytes: u64,
    direction: Direction,
    gives: Gives,
) -> Result<(), Stop>
    requires { IsReady run.old }
    ensures { Performs run.old run.new result
        (works (program_of run.old) (budgets_of run.old) place
        (graph.Move (access object.now) bytes direction gives) (state_in run.old)) }
{
    let access = access_to(object);
    run.machine.move_pointer(
        &mut run.log,
        run.setting,
        place,
        access,
        bytes,
        direction,
        gives,
    )
}

// Returns the interpreter's access to an object that the code loads or stores.
fn access_to(object: &Access) -> access::Access<'_>
    ensures { view.access_of result ≡ access object.now }
{
    access::Access {
        place: object.place,
        ty: &object.ty,
        direct: object.direct,
        local: object.local,
    }
}
