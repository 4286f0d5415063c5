//! Jumps (C11 6.8.6): the things to do at their targets.
ghost use Rattle.std.specs.Prelude.{◌≡◌, ◌+◌, ◌∷◌, IfOk};
ghost use Rattle.cs_ast.specs.TypedView.{statement, statement_list};
ghost use Rattle.cs_meaning.specs.Machine as machine;
ghost use Rattle.cs_meaning.specs.Jumps as jumps;
ghost use Rattle.cs_meaning.specs.Statements as statements;
ghost use Rattle.cs_run_state.specs.MachineView.{state_of, todo_of};
ghost use Rattle.cs_meaning.specs.CountedPoints.{counted_points_in};
ghost use Rattle.cs_frames.specs.Jumping.{lands_at, label_landing};

use crate::lists::{drop_first, drop_past_out, drop_to_again, put_first, put_statements};
use crate::rounds::point_of_body;
use cs_ast::Place;
use cs_ast::typed::statement::{Stmt, StmtKind};
use cs_objects::counted_points::{counted_points, together};
use cs_run_state::items::{Item, StmtStep};
use cs_run_state::machine::Machine;
use std::alloc::AllocError;

/// A label that was found: its counted point and its source position.
#[derive(Clone, Copy)]
pub struct Landing {
    pub counted_point: u64,
    pub place: Place,
}

/// Drops the things to do in the nearest loop or `switch`.
#[tactic(auto, unfolding(cs_run_state::specs::MachineView::state_of))]
pub fn break_out(state: &mut Machine)
    ensures { state_of state.new ≡ machine.to_do
        (jumps.broken_out (state_of state.old).frame.todo) (state_of state.old) }
{
    drop_past_out(&mut state.frame.todo);
}

/// Drops the things to do in the body of the nearest loop.
#[tactic(auto, unfolding(cs_run_state::specs::MachineView::state_of))]
pub fn go_on(state: &mut Machine)
    ensures { state_of state.new ≡ machine.to_do (jumps.continued (state_of state.old).frame.todo)
        (state_of state.old) }
{
    drop_to_again(&mut state.frame.todo);
}

/// Returns the number of the current function.
#[tactic(auto, unfolding(cs_run_state::specs::MachineView::state_of))]
pub fn function_of(state: &Machine) -> u32
    ensures { result ≡ (state_of state.now).frame.function }
{
    state.frame.function
}

/// Replaces the things to do.
#[tactic(auto, unfolding(cs_run_state::specs::MachineView::state_of))]
pub fn set_todo<'a>(state: &mut Machine<'a>, todo: Vec<Item<'a>>)
    ensures { state_of state.new ≡ machine.to_do (todo_of todo.entry.items) (state_of state.old) }
{
    state.frame.todo = todo;
}

/// Finds a label in a statement, whose first counted point has a number. If it is found, `todo`, which has the things to do after the
/// statement, gets those at the label before them; else it stays the same.
#[cycle(seek)]
pub fn seek<'a>(
    label: u32,
    s: &'a Stmt,
    counted_point: u64,
    todo: &mut Vec<Item<'a>>,
) -> Result<Option<Landing>, AllocError>
    ensures { IfOk result
        (lands_at (jumps.landing label (statement s.now) counted_point (todo_of todo.old.items))
        todo.old todo.new) }
{
    match &*s.kind {
        StmtKind::Block(statements) => seek_in(label, statements, counted_point, todo),
        StmtKind::If(_, body) => seek(label, body, counted_point, todo),
        StmtKind::IfElse(_, body, other) => match seek(label, body, counted_point, todo)? {
            Some(found) => Ok(Some(found)),
            None => {
                let following = together(counted_point, counted_points(body)?)?;
                seek(label, other, following, todo)
            }
        },
        StmtKind::While(_, body) => seek_after_head(label, body, s, counted_point, todo),
        StmtKind::Do(body, _) => seek_after_head(label, body, s, counted_point, todo),
        StmtKind::For(first, _, _, body) => {
            seek_in_for(label, body, first, s, counted_point, todo)
        }
        StmtKind::Switch(_, _, statements) => {
            seek_in_switch(label, statements, counted_point, todo)
        }
        StmtKind::Label(number, body) => {
            seek_at_label(label, *number, s.place, body, counted_point, todo)
        }
        StmtKind::Declare(_, _) | StmtKind::Run(_) | StmtKind::Goto(_) => Ok(None),
        StmtKind::Break | StmtKind::Continue | StmtKind::Return(_) => Ok(None),
    }
}

// The same in a labeled statement; its label is a counted point too.
#[cycle(seek)]
fn seek_at_label<'a>(
    label: u32,
    number: u32,
    place: Place,
    body: &'a Stmt,
    counted_point: u64,
    todo: &mut Vec<Item<'a>>,
) -> Result<Option<Landing>, AllocError>
    ensures { IfOk result
        (lands_at
        (label_landing label number place (statement body.now) counted_point
        (todo_of todo.old.items))
        todo.old todo.new) }
{
    let inner = together(counted_point, 1)?;
    if number == label {
        put_first(todo, Item::Statement(StmtStep::Execute, body, inner))?;
        Ok(Some(Landing {
            counted_point,
            place,
        }))
    } else {
        seek(label, body, inner, todo)
    }
}

// The same in a loop that begins with its head: a `while` or a `do`.
#[cycle(seek)]
fn seek_after_head<'a>(
    label: u32,
    body: &'a Stmt,
    s: &'a Stmt,
    counted_point: u64,
    todo: &mut Vec<Item<'a>>,
) -> Result<Option<Landing>, AllocError>
    ensures { IfOk result
        (lands_at
        (jumps.landing label (statement body.now) (counted_point + 1)
        (machine.Again (statement s.now) counted_point
        ∷ (machine.Out ∷ todo_of todo.old.items)))
        todo.old todo.new) }
{
    let inner = together(counted_point, 1)?;
    seek_in_loop(label, body, inner, s, counted_point, todo)
}

// The same in a `for`, which begins with its first part.
#[cycle(seek)]
fn seek_in_for<'a>(
    label: u32,
    body: &'a Stmt,
    first: &'a [Stmt],
    s: &'a Stmt,
    counted_point: u64,
    todo: &mut Vec<Item<'a>>,
) -> Result<Option<Landing>, AllocError>
    ensures { IfOk result
        (lands_at
        (jumps.landing label (statement body.now)
        (counted_point + 1 + counted_points_in (statement_list first.now))
        (machine.Again (statement s.now) counted_point
        ∷ (machine.Out ∷ todo_of todo.old.items)))
        todo.old todo.new) }
{
    let inner = point_of_body(counted_point, first)?;
    seek_in_loop(label, body, inner, s, counted_point, todo)
}

// The same in the body of a loop, whose first counted point has a number of its own.
#[cycle(seek)]
fn seek_in_loop<'a>(
    label: u32,
    body: &'a Stmt,
    inner: u64,
    s: &'a Stmt,
    counted_point: u64,
    todo: &mut Vec<Item<'a>>,
) -> Result<Option<Landing>, AllocError>
    ensures { IfOk result
        (lands_at (jumps.landing label (statement body.now) inner
        (machine.Again (statement s.now) counted_point
        ∷ (machine.Out ∷ todo_of todo.old.items))) todo.old todo.new) }
{
    put_first(todo, Item::Out)?;
    put_first(todo, Item::Statement(StmtStep::Again, s, counted_point))?;
    match seek(label, body, inner, todo)? {
        Some(found) => Ok(Some(found)),
        None => {
            drop_first(todo);
            drop_first(todo);
            Ok(None)
        }
    }
}

// The same in the statements of a `switch`.
#[cycle(seek)]
fn seek_in_switch<'a>(
    label: u32,
    statements: &'a [Stmt],
    counted_point: u64,
    todo: &mut Vec<Item<'a>>,
) -> Result<Option<Landing>, AllocError>
    ensures { IfOk result
        (lands_at (jumps.landing_in label (statement_list statements.now) counted_point
        (machine.Out ∷ todo_of todo.old.items)) todo.old todo.new) }
{
    put_first(todo, Item::Out)?;
    match seek_in(label, statements, counted_point, todo)? {
        Some(found) => Ok(Some(found)),
        None => {
            drop_first(todo);
            Ok(None)
        }
    }
}

// The same in consecutive statements.
#[cycle(seek)]
fn seek_in<'a>(
    label: u32,
    statements: &'a [Stmt],
    counted_point: u64,
    todo: &mut Vec<Item<'a>>,
) -> Result<Option<Landing>, AllocError>
    ensures { IfOk result
        (lands_at (jumps.landing_in label (statement_list statements.now) counted_point
        (todo_of todo.old.items)) todo.old todo.new) }
{
    put_statements(todo, statements, counted_point)?;
    let mut at = counted_point;
    for s in statements {
        drop_first(todo);
        if let Some(found) = seek(label, s, at, todo)? {
            return Ok(Some(found));
        }
        at = together(at, counted_points(s)?)?;
    }
    Ok(None)
}
