//! `switch` (C11 6.8.4.2).
ghost use Rattle.std.specs.Prelude.{◌≡◌, ◌≤◌, ◌^◌, unsigned_abs};
ghost use Rattle.cs_types.specs.Shape.{shape_of};
ghost use Rattle.cs_declarations.specs.Answered.{AnswersWith};
ghost use Rattle.cs_statements.specs.Statements.{switch_whole, switch_list_typed, switch_item_typed, no_cases, wrapped_in};
ghost use Rattle.cs_statements.specs.View.{inside_of, where_of, kind_part, switching_of};

use crate::cases::Cases;
use crate::inside::{Inside, Where};
use crate::statements::item_typed;
use cs_ast::Place;
use cs_ast::raw::expression::RawExpr;
use cs_ast::raw::statement::RawSwitchItem;
use cs_ast::typed::statement::{Stmt, StmtKind};
use cs_consts::value;
use cs_scopes::TypeRefusal;
use cs_types::{CType, DataModel, wrap};
use std::alloc::Global;

/// A `switch` so far: its cases and its statements.
#[derive(Drop)]
pub struct Switched {
    pub cases: Cases,
    pub statements: Vec<Stmt>,
}

/// Types a `switch`, whose items are a scope.
#[cycle(statements)]
pub fn switch_typed(
    alloc: Global,
    inside: &mut Inside,
    at: Where,
    place: Place,
    items: &[RawSwitchItem],
    tree: &RawExpr,
) -> Result<StmtKind, TypeRefusal>
    ensures { AnswersWith (kind_part place)
        (switch_whole (where_of at.entry) (inside_of inside.old) place tree.now items.now) result
        inside.new }
{
    let selector = inside.selected(alloc, place, tree)?;
    let around = inside.known.enter();
    let found = switch_items(alloc, inside, at.in_switch(), items, &selector.ty)?;
    inside.known.leave(around);
    Ok(StmtKind::Switch(selector, found.cases.into_list(), found.statements))
}

// The items between the braces of a `switch` on a value of this type.
#[cycle(statements)]
fn switch_items(
    alloc: Global,
    inside: &mut Inside,
    at: Where,
    items: &[RawSwitchItem],
    ty: &CType,
) -> Result<Switched, TypeRefusal>
    ensures { AnswersWith switching_of
        (switch_list_typed (where_of at.entry) (shape_of ty.now) items.now
        (no_cases (inside_of inside.old))) result inside.new }
{
    let mut so_far = Switched {
        cases: Cases::new(alloc),
        statements: Vec::new(alloc),
    };
    for item in items {
        so_far = switch_item(alloc, inside, at, item, ty, so_far)?;
    }
    Ok(so_far)
}

// Appends one of these.
#[cycle(statements)]
fn switch_item(
    alloc: Global,
    inside: &mut Inside,
    at: Where,
    item: &RawSwitchItem,
    ty: &CType,
    before: Switched,
) -> Result<Switched, TypeRefusal>
    ensures { AnswersWith switching_of
        (switch_item_typed (where_of at.entry) (shape_of ty.now) item.now
        (switching_of before inside.old)) result inside.new }
{
    let mut so_far = before;
    match item {
        RawSwitchItem::Case(place, tree) => {
            let constant = value(alloc, &inside.known.context, tree)?;
            let number = wrapped_in(inside.known.context.model, ty, constant.1);
            so_far
                .cases
                .add(*place, Some(number), so_far.statements.len())?;
            Ok(so_far)
        }
        RawSwitchItem::Default(place) => {
            so_far.cases.add(*place, None, so_far.statements.len())?;
            Ok(so_far)
        }
        RawSwitchItem::Item(item) => Ok(Switched {
            statements: item_typed(alloc, inside, at, item, so_far.statements)?,
            cases: so_far.cases,
        }),
    }
}

// A number converted to the type of a `switch`, modulo if that can't represent it (C11 6.8.4.2, paragraph 5).
fn wrapped_in(model: DataModel, ty: &CType, number: i128) -> i128
    requires { unsigned_abs number ≤ 2 ^ 126 }
    ensures { result ≡ wrapped_in model (shape_of ty.now) number }
{
    match ty {
        CType::Int(ty) => wrap(model, *ty, number),
        _ => number,
    }
}
