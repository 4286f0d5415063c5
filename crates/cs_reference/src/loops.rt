//! The branches of tests, and the turns of loops (C11 6.8.4, 6.8.5).
ghost use Rattle.std.specs.Prelude.{◌+◌, ◌∷◌};
ghost use Rattle.cs_ast.specs.TypedView.{typed, statement};
ghost use Rattle.cs_meaning.specs.Machine as machine;
ghost use Rattle.cs_meaning.specs.CountedPoints as points;
ghost use Rattle.cs_meaning.specs.Statements as meaning;
ghost use Rattle.cs_reference.specs.Deciding.{decides, turns};
ghost use Rattle.cs_runner.specs.RunnerView.{budgets_of, state_in, Performs};

use crate::switches::decide_switch;
use cs_ast::Place;
use cs_ast::typed::expression::Expr;
use cs_ast::typed::statement::{Stmt, StmtKind};
use cs_events::PointKind;
use cs_frames::putting::{put_body, put_stmt, put_test};
use cs_frames::rounds::point_of_body;
use cs_objects::counted_points::{counted_points, together};
use cs_run_log::Stop;
use cs_run_state::items::StmtStep;
use cs_runner::runner::Runner;

/// Takes the branch that the newest value, a test's or a `switch`'s, selects.
pub fn decide<'a>(run: &mut Runner<'a>, s: &'a Stmt, counted_point: u64) -> Result<(), Stop>
    ensures { Performs run.old run.new result
        (meaning.decide (statement s.now) counted_point (state_in run.old)) }
{
    match &*s.kind {
        StmtKind::If(_, body) => decide_if(run, s.place, body, counted_point),
        StmtKind::IfElse(_, body, other) => decide_either(run, s.place, body, other, counted_point),
        StmtKind::While(_, body) => decide_body(
            run,
            s,
            counted_point,
            body,
            together(counted_point, 1)?,
        ),
        StmtKind::Do(_, _) => decide_turn(run, s, counted_point),
        StmtKind::For(first, _, _, body) => {
            let inner = point_of_body(counted_point, first)?;
            decide_body(run, s, counted_point, body, inner)
        }
        StmtKind::Switch(_, cases, statements) => {
            decide_switch(run, s.place, cases, statements, counted_point)
        }
        StmtKind::Block(_) | StmtKind::Declare(_, _) | StmtKind::Run(_) => Ok(()),
        StmtKind::Goto(_) | StmtKind::Label(_, _) | StmtKind::Break => Ok(()),
        StmtKind::Continue | StmtKind::Return(_) => Ok(()),
    }
}

// Schedules a statement if the newest value is true.
fn decide_if<'a>(
    run: &mut Runner<'a>,
    place: Place,
    body: &'a Stmt,
    counted_point: u64,
) -> Result<(), Stop>
    ensures { Performs run.old run.new result
        (decides place (machine.Execute (statement body.now) counted_point
        ∷ (state_in run.old).frame.todo) (state_in run.old).frame.todo
        (state_in run.old)) }
{
    if run.machine.test(&mut run.log, run.setting, place)? {
        put_stmt(&mut run.machine, StmtStep::Execute, body, counted_point)?;
    }
    Ok(())
}

// Schedules one statement or another, by the newest value.
fn decide_either<'a>(
    run: &mut Runner<'a>,
    place: Place,
    body: &'a Stmt,
    other: &'a Stmt,
    counted_point: u64,
) -> Result<(), Stop>
    ensures { Performs run.old run.new result
        (decides place (machine.Execute (statement body.now) counted_point
        ∷ (state_in run.old).frame.todo)
        (machine.Execute (statement other.now)
        (counted_point + points.counted_points (statement body.now))
        ∷ (state_in run.old).frame.todo) (state_in run.old)) }
{
    if run.machine.test(&mut run.log, run.setting, place)? {
        put_stmt(&mut run.machine, StmtStep::Execute, body, counted_point)?;
    } else {
        let following = together(counted_point, counted_points(body)?)?;
        put_stmt(&mut run.machine, StmtStep::Execute, other, following)?;
    }
    Ok(())
}

// Schedules the body of a loop if the newest value is true.
fn decide_body<'a>(
    run: &mut Runner<'a>,
    s: &'a Stmt,
    counted_point: u64,
    body: &'a Stmt,
    inner: u64,
) -> Result<(), Stop>
    ensures { Performs run.old run.new result
        (decides s.now.place (machine.Execute (statement body.now) inner
        ∷ (machine.Again (statement s.now) counted_point ∷ (state_in run.old).frame.todo))
        (state_in run.old).frame.todo (state_in run.old)) }
{
    if run.machine.test(&mut run.log, run.setting, s.place)? {
        put_body(&mut run.machine, s, counted_point, body, inner)?;
    }
    Ok(())
}

// Schedules the head of a loop if the newest value is true.
fn decide_turn<'a>(run: &mut Runner<'a>, s: &'a Stmt, counted_point: u64) -> Result<(), Stop>
    ensures { Performs run.old run.new result
        (decides s.now.place (machine.Turn (statement s.now) counted_point
        ∷ (state_in run.old).frame.todo) (state_in run.old).frame.todo
        (state_in run.old)) }
{
    if run.machine.test(&mut run.log, run.setting, s.place)? {
        put_stmt(&mut run.machine, StmtStep::Turn, s, counted_point)?;
    }
    Ok(())
}

/// Reaches the head of a loop; other statements have none.
pub fn turn<'a>(run: &mut Runner<'a>, s: &'a Stmt, counted_point: u64) -> Result<(), Stop>
    ensures { Performs run.old run.new result
        (meaning.turn (budgets_of run.old) (statement s.now) counted_point
        (state_in run.old)) }
{
    match &*s.kind {
        StmtKind::While(test, _) => turn_to_test(run, s, counted_point, test),
        StmtKind::Do(body, _) => turn_to_body(
            run,
            s,
            counted_point,
            body,
            together(counted_point, 1)?,
        ),
        StmtKind::For(first, test, _, body) => match test {
            Some(test) => turn_to_test(run, s, counted_point, test),
            None => {
                let inner = point_of_body(counted_point, first)?;
                turn_to_body(run, s, counted_point, body, inner)
            }
        },
        StmtKind::Block(_) | StmtKind::Declare(_, _) | StmtKind::Run(_) => Ok(()),
        StmtKind::If(_, _) | StmtKind::IfElse(_, _, _) | StmtKind::Switch(_, _, _) => Ok(()),
        StmtKind::Goto(_) | StmtKind::Label(_, _) | StmtKind::Break => Ok(()),
        StmtKind::Continue | StmtKind::Return(_) => Ok(()),
    }
}

// Reaches the head of a loop, and schedules its test.
fn turn_to_test<'a>(
    run: &mut Runner<'a>,
    s: &'a Stmt,
    counted_point: u64,
    test: &'a Expr,
) -> Result<(), Stop>
    ensures { Performs run.old run.new result
        (turns (budgets_of run.old) s.now.place counted_point
        (machine.Evaluate (typed test.now)
        ∷ (machine.Decide (statement s.now) counted_point ∷ (state_in run.old).frame.todo))
        (state_in run.old)) }
{
    put_test(&mut run.machine, test, s, counted_point)?;
    run.reach_counted_point(s.place, PointKind::Head, counted_point)
}

// Reaches the head of a loop, and schedules its body.
fn turn_to_body<'a>(
    run: &mut Runner<'a>,
    s: &'a Stmt,
    counted_point: u64,
    body: &'a Stmt,
    inner: u64,
) -> Result<(), Stop>
    ensures { Performs run.old run.new result
        (turns (budgets_of run.old) s.now.place counted_point
        (machine.Execute (statement body.now) inner
        ∷ (machine.Again (statement s.now) counted_point ∷ (state_in run.old).frame.todo))
        (state_in run.old)) }
{
    put_body(&mut run.machine, s, counted_point, body, inner)?;
    run.reach_counted_point(s.place, PointKind::Head, counted_point)
}
