//! The load of an update.
ghost use Rattle.std.specs.Prelude.{◌≡◌, OnOk, IfErr};
ghost use Rattle.cs_ast.specs.TypedView.{typed};
ghost use Rattle.cs_meaning.specs.Access.{access_of};
ghost use Rattle.cs_meaning.specs.Expressions as expressions;
ghost use Rattle.cs_run_state.specs.Updates.{fetch_number_act, fetch_pointer_act};
ghost use Rattle.cs_runner.specs.RunnerView.{program_of, state_in, IsReady, Performs};

use cs_ast::Place;
use cs_ast::typed::expression::{Expr, ExprKind};
use cs_objects::access::access_of;
use cs_run_log::Stop;
use cs_runner::runner::Runner;
use cs_types::IntType;

/// Loads for an update; the lvalue stays on the stack, below the value. A number is converted to the operator's type.
pub fn fetch<'a>(run: &mut Runner<'a>, e: &'a Expr) -> Result<(), Stop>
    requires { IsReady run.old }
    ensures { Performs run.old run.new result
        (expressions.fetch (program_of run.old) (typed e.now) (state_in run.old)) }
{
    match &*e.kind {
        ExprKind::Update(_, object, _, works_in, _) => {
            fetch_number(run, e.place, object, *works_in)
        }
        ExprKind::Move(object, _, _, _) => fetch_pointer(run, object),
        ExprKind::Number(_) | ExprKind::Null | ExprKind::Text(_) => Ok(()),
        ExprKind::Local(_) | ExprKind::Global(_) | ExprKind::Through(_) => Ok(()),
        ExprKind::Index(_, _, _) | ExprKind::Member(_, _) | ExprKind::Arrow(_, _) => Ok(()),
        ExprKind::Load(_) | ExprKind::Address(_) | ExprKind::Decay(_) => Ok(()),
        ExprKind::Convert(_) | ExprKind::Unary(_, _) | ExprKind::Not(_) => Ok(()),
        ExprKind::Binary(_, _, _) | ExprKind::Compare(_, _, _) => Ok(()),
        ExprKind::Sum(_, _, _, _) | ExprKind::Difference(_, _) => Ok(()),
        ExprKind::And(_, _) | ExprKind::Or(_, _) | ExprKind::Choice(_, _, _) => Ok(()),
        ExprKind::Comma(_, _) | ExprKind::Assign(_, _) => Ok(()),
        ExprKind::Call(_, _) | ExprKind::Allocate(_, _, _) | ExprKind::Free(_) => Ok(()),
    }
}

// The load of an update of a number.
fn fetch_number(
    run: &mut Runner,
    place: Place,
    object: &Expr,
    works_in: IntType,
) -> Result<(), Stop>
    requires { IsReady run.old }
    ensures { Performs run.old run.new result
        (fetch_number_act (program_of run.old) place (access_of (typed object.now)) works_in
        (state_in run.old)) }
{
    let access = access_of(object);
    run.machine
        .fetch_number(&mut run.log, run.setting, place, access, works_in)
}

// The load of an update of a pointer.
fn fetch_pointer(run: &mut Runner, object: &Expr) -> Result<(), Stop>
    requires { IsReady run.old }
    ensures { Performs run.old run.new result
        (fetch_pointer_act (program_of run.old) (access_of (typed object.now))
        (state_in run.old)) }
{
    let access = access_of(object);
    run.machine.fetch_pointer(&mut run.log, run.setting, access)
}
