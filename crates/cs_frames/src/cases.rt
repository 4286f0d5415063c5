//! The cases of a `switch`, and the execution of its statements from one on (C11 6.8.4.2).
ghost use Rattle.std.specs.Prelude.{◌≡◌, ℕ, OnOk, IfOk, None, option_map, unwrap_or};
ghost use Rattle.cs_ast.specs.TypedTree as typed;
ghost use Rattle.cs_ast.specs.TypedView.{statement_list};
ghost use Rattle.cs_meaning.specs.Machine as machine;
ghost use Rattle.cs_meaning.specs.Statements as meaning;
ghost use Rattle.cs_run_state.specs.MachineView.{state_of};
ghost use Rattle.cs_frames.specs.Switching.{chosen_of};

use crate::putting::put_all;
use cs_ast::typed::statement::{Case, Stmt};
use cs_objects::counted_points::{counted_points_in, together};
use cs_run_state::machine::Machine;
use std::alloc::AllocError;

/// A selected case: its number among those with a value, and the number of the statement that it leads to.
#[derive(Clone, Copy)]
pub struct Chosen {
    pub number: u32,
    pub item: u32,
}

/// Schedules the statements from the one with a number on.
pub fn put_from<'a>(
    state: &mut Machine<'a>,
    statements: &'a [Stmt],
    number: u32,
    counted_point: u64,
) -> Result<(), AllocError>
    ensures { OnOk result (state_of state.new
        ≡ machine.to_do (meaning.executes_from number (statement_list statements.now)
        counted_point (state_of state.old).frame.todo) (state_of state.old)) }
{
    let number = number as usize;
    if number <= statements.len() {
        let before = counted_points_in(&statements[..number])?;
        put_all(
            state,
            &statements[number..],
            together(counted_point, before)?,
        )?;
    }
    Ok(())
}

/// Returns the case that a `switch` takes: that of its value, else `default`, else none, which leads to the end of all statements.
pub fn chosen_case(cases: &[Case], statements: &[Stmt], number: i128) -> Result<Chosen, AllocError>
    ensures { IfOk result (λ chosen.
        chosen_of chosen ≡ meaning.chosen_case cases.now (statement_list statements.now)
        (meaning.case_of cases.now number 0)) }
{
    match case_of(cases, number)? {
        Some(chosen) => Ok(chosen),
        None => otherwise(cases, statements),
    }
}

// Returns the case that a `switch` takes if none has its value.
fn otherwise(cases: &[Case], statements: &[Stmt]) -> Result<Chosen, AllocError>
    ensures { IfOk result (λ chosen.
        chosen_of chosen ≡ meaning.chosen_case cases.now (statement_list statements.now) None) }
{
    let number = values_in(cases)?;
    let following = count_of(statements)?;
    let item = default_item(cases).unwrap_or(following);
    Ok(Chosen { number, item })
}

// Returns the number of statements.
#[tactic(auto, using(crate::proofs::InRows::count_of_list))]
fn count_of(statements: &[Stmt]) -> Result<u32, AllocError>
    ensures { IfOk result (λ count. count ≡ typed.count_of (statement_list statements.now)) }
{
    u32::try_from(statements.len()).ok().ok_or(AllocError)
}

// Returns the case with a value, if there is one.
fn case_of(cases: &[Case], number: i128) -> Result<Option<Chosen>, AllocError>
    ensures { IfOk result (λ found.
        option_map chosen_of found ≡ meaning.case_of cases.now number 0) }
{
    let mut count: u32 = 0;
    for case in cases {
        if let Some(value) = case.value {
            if value == number {
                let item = case.item;
                return Ok(Some(Chosen {
                    number: count,
                    item,
                }));
            }
            count = count.checked_add(1).ok_or(AllocError)?;
        }
    }
    Ok(None)
}

// Returns the number of cases with a value.
fn values_in(cases: &[Case]) -> Result<u32, AllocError>
    ensures { IfOk result (λ count. count ≡ meaning.values_in cases.now) }
{
    let mut count: u32 = 0;
    for case in cases {
        if case.value.is_some() {
            count = count.checked_add(1).ok_or(AllocError)?;
        }
    }
    Ok(count)
}

// Returns the statement that `default` leads to, if there is one.
fn default_item(cases: &[Case]) -> Option<u32>
    ensures { (otherwise : ℕ)
        → meaning.default_item cases.now otherwise ≡ unwrap_or result otherwise }
{
    for case in cases {
        if case.value.is_none() {
            return Some(case.item);
        }
    }
    None
}
