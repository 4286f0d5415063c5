//! Labels: the targets of a function's `goto`s (C11 6.8.6.1).
ghost use Rattle.std.specs.Prelude.{◌≡◌, ◌+◌, ◌==◌, ℕ, IfOk, OnOk, Some, None, if◌then◌else◌};
ghost use Rattle.std.specs.Option.{option_or};
ghost use Rattle.std.specs.BTreeMap.{get};
ghost use Rattle.std.specs.Ordering.{nat_cmp};
ghost use Rattle.cs_ast.specs.TypedView.{statement, statement_list};
ghost use Rattle.cs_meaning.specs.CountedPoints as meaning;
ghost use Rattle.cs_lower.specs.Labels.{label_in, label_among};

use cs_ast::typed::statement::{Stmt, StmtKind};
use cs_objects::counted_points::{counted_points_in, together};
use std::alloc::AllocError;
use std::collections::BTreeMap;

/// Adds the labels of a statement with their counted points, unless they are there already; `counted_point` is the number of the statement's
/// first one. Returns the number after its last one.
#[cycle(labels)]
pub fn add_labels(
    labels: &mut BTreeMap<u32, u32>,
    s: &Stmt,
    counted_point: u64,
) -> Result<u64, AllocError>
    ensures next { IfOk result (λ next.
        next ≡ counted_point + meaning.counted_points (statement s.now)) }
    ensures labels { OnOk result ((wanted : ℕ)
        → get nat_cmp labels.new wanted
        ≡ option_or (get nat_cmp labels.old wanted)
        (label_in wanted (statement s.now) counted_point)) }
{
    match &*s.kind {
        StmtKind::Block(statements) => add_labels_in(labels, statements, counted_point),
        StmtKind::Declare(_, _) => Ok(counted_point),
        StmtKind::Run(_) => Ok(counted_point),
        StmtKind::If(_, body) => add_labels(labels, body, counted_point),
        StmtKind::IfElse(_, body, other) => {
            let next = add_labels(labels, body, counted_point)?;
            let next = add_labels(labels, other, next)?;
            Ok(next)
        }
        StmtKind::While(_, body) => add_labels(labels, body, together(counted_point, 1)?),
        StmtKind::Do(body, _) => add_labels(labels, body, together(counted_point, 1)?),
        // In C the first part of a `for` has no labels, so it isn't searched.
        StmtKind::For(first, _, _, body) => {
            let head = together(counted_point, 1)?;
            let next = together(head, counted_points_in(first)?)?;
            add_labels(labels, body, next)
        }
        StmtKind::Switch(_, _, statements) => add_labels_in(labels, statements, counted_point),
        StmtKind::Goto(_) => Ok(counted_point),
        StmtKind::Label(label, body) => {
            add_label(labels, *label, counted_point)?;
            let next = together(counted_point, 1)?;
            add_labels(labels, body, next)
        }
        StmtKind::Break => Ok(counted_point),
        StmtKind::Continue => Ok(counted_point),
        StmtKind::Return(_) => Ok(counted_point),
    }
}

// The same for consecutive statements.
#[cycle(labels)]
fn add_labels_in(
    labels: &mut BTreeMap<u32, u32>,
    statements: &[Stmt],
    counted_point: u64,
) -> Result<u64, AllocError>
    ensures next { IfOk result (λ next.
        next ≡ counted_point + meaning.counted_points_in (statement_list statements.now)) }
    ensures labels { OnOk result ((wanted : ℕ)
        → get nat_cmp labels.new wanted
        ≡ option_or (get nat_cmp labels.old wanted)
        (label_among wanted (statement_list statements.now) counted_point)) }
{
    let mut next = counted_point;
    for s in statements {
        next = add_labels(labels, s, next)?;
    }
    Ok(next)
}

// Adds a label with its counted point, unless it is there already.
fn add_label(
    labels: &mut BTreeMap<u32, u32>,
    label: u32,
    counted_point: u64,
) -> Result<(), AllocError>
    ensures { OnOk result ((wanted : ℕ)
        → get nat_cmp labels.new wanted
        ≡ option_or (get nat_cmp labels.old wanted)
        (if label == wanted then Some counted_point else None)) }
{
    if labels.contains_key(&label) {
        return Ok(());
    }
    let counted_point = u32::try_from(counted_point).map_err(|_| AllocError)?;
    match labels.insert(label, counted_point) {
        Ok(_) => Ok(()),
        Err(_) => Err(AllocError),
    }
}
