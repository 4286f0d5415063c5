//! Lists of things to do, stored in reverse order.
#![tactic(auto, using(cs_run_state::proofs::States::states))]

ghost use Rattle.std.specs.Prelude.{◌≡◌, List, ◌∷◌, drop, OnOk, if◌then◌else◌};
ghost use Rattle.cs_ast.specs.TypedView.{statement_list};
ghost use Rattle.cs_meaning.specs.Machine as machine;
ghost use Rattle.cs_meaning.specs.Jumps as jumps;
ghost use Rattle.cs_run_state.specs.MachineView.{item_of, todo_of};

use cs_ast::typed::statement::Stmt;
use cs_objects::counted_points::{counted_points, counted_points_in, together};
use cs_run_state::items::{Item, StmtStep};
use std::alloc::AllocError;

/// Puts a thing to do before the others.
pub fn put_first<'a>(todo: &mut Vec<Item<'a>>, item: Item<'a>) -> Result<(), AllocError>
    ensures { OnOk result (todo_of todo.new.items
        ≡ item_of item.entry ∷ todo_of todo.old.items) }
{
    todo.push(item)?;
    Ok(())
}

/// Drops the first thing to do, if there is one.
#[tactic(auto, using(crate::proofs::Stacks::stacks))]
pub fn drop_first(todo: &mut Vec<Item>)
    ensures { todo_of todo.new.items ≡ drop 1 (todo_of todo.old.items) }
{
    todo.pop();
}

/// Drops the first things to do, up to and including the mark to which `break` leads.
pub fn drop_past_out(todo: &mut Vec<Item>)
    ensures { todo_of todo.new.items ≡ jumps.broken_out (todo_of todo.old.items) }
{
    while let Some(item) = todo.pop() {
        if is_out(&item) {
            return;
        }
    }
}

/// Drops the things to do before the step after the body of the nearest loop.
pub fn drop_to_again(todo: &mut Vec<Item>)
    ensures { todo_of todo.new.items ≡ jumps.continued (todo_of todo.old.items) }
{
    while let Some(item) = todo.last() {
        if is_again(item) {
            return;
        }
        todo.pop();
    }
}

// Whether `break` leads to this.
fn is_out(item: &Item) -> bool
    ensures { (following : List machine.Item)
        → jumps.broken_out (item_of item.now ∷ following)
        ≡ (if result then following else jumps.broken_out following) }
{
    matches!(item, Item::Out)
}

// Whether `continue` leads to this.
fn is_again(item: &Item) -> bool
    ensures { (following : List machine.Item)
        → jumps.continued (item_of item.now ∷ following)
        ≡ (if result then item_of item.now ∷ following else jumps.continued following) }
{
    matches!(item, Item::Statement(StmtStep::Again, _, _))
}

/// Puts consecutive statements, the first counted point of which has a number, before the other things to do.
pub fn put_statements<'a>(
    todo: &mut Vec<Item<'a>>,
    statements: &'a [Stmt],
    counted_point: u64,
) -> Result<(), AllocError>
    ensures { OnOk result (todo_of todo.new.items
        ≡ jumps.executes (statement_list statements.now) counted_point (todo_of todo.old.items)) }
{
    let mut following = together(counted_point, counted_points_in(statements)?)?;
    let mut left = statements.len();
    while left > 0 {
        left -= 1;
        let s = &statements[left];
        following = following.checked_sub(counted_points(s)?).ok_or(AllocError)?;
        put_first(todo, Item::Statement(StmtStep::Execute, s, following))?;
    }
    Ok(())
}
