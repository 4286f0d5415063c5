//! Statements (C11 6.8), each at its position and in its scope.
ghost use Rattle.std.specs.Prelude.{◌≡◌, if◌then◌else◌};
ghost use Rattle.cs_types.specs.Shape.{shape_of};
ghost use Rattle.cs_declarations.specs.Answered.{AnswersWith};
ghost use Rattle.cs_statements.specs.Locals.{Inside as InsideOf};
ghost use Rattle.cs_statements.specs.Statements.{no_statements, statement_typed, while_typed, do_typed, answer_after, for_typed, first_typed, block_typed, body_typed, item_typed, returned, value_returned, is_void, label_number, goto_typed, label_typed};
ghost use Rattle.cs_statements.specs.View.{inside_of, where_of, typed_statements_of, statement_part, kind_part, kind_at, typed_part, optional_part};
ghost use Rattle.cs_scopes.specs.Verdicts.{Answers, Fine, Fault};
ghost use Rattle.cs_scopes.specs.declared.refusal.TypeCode.TheVariants.{Jump};

use crate::inside::{Inside, Where};
use crate::switches::switch_typed;
use cs_ast::Place;
use cs_ast::raw::expression::RawExpr;
use cs_ast::raw::statement::{RawFirst, RawItem, RawStmt, RawStmtKind};
use cs_ast::typed::expression::Expr;
use cs_ast::typed::statement::{Stmt, StmtKind};
use cs_consts::{assigned_value, test_fault};
use cs_names::Name;
use cs_scopes::{TypeCode, TypeRefusal};
use cs_types::CType;
use std::alloc::{AllocError, Global};

/// Types a statement.
#[cycle(statements)]
pub fn statement_typed(
    alloc: Global,
    inside: &mut Inside,
    at: Where,
    tree: &RawStmt,
) -> Result<Stmt, TypeRefusal>
    ensures { AnswersWith statement_part
        (statement_typed (where_of at.entry) (inside_of inside.old) tree.now.place
        tree.now.kind.value) result inside.new }
{
    let kind = kind_typed(alloc, inside, at, tree.place, &*tree.kind)?;
    Ok(Stmt {
        place: tree.place,
        kind: Box::new(alloc, kind)?,
    })
}

// The kind of a statement at a position.
#[cycle(statements)]
fn kind_typed(
    alloc: Global,
    inside: &mut Inside,
    at: Where,
    place: Place,
    tree: &RawStmtKind,
) -> Result<StmtKind, TypeRefusal>
    ensures { AnswersWith (kind_part place)
        (statement_typed (where_of at.entry) (inside_of inside.old) place tree.now) result
        inside.new }
{
    match tree {
        RawStmtKind::Block(items) => Ok(StmtKind::Block(block(alloc, inside, at, items)?)),
        RawStmtKind::Empty => Ok(StmtKind::Block(Vec::new(alloc))),
        RawStmtKind::Run(value) => Ok(StmtKind::Run(inside.dropped(alloc, value)?)),
        RawStmtKind::If(test, body) => {
            let test = inside.tested(alloc, place, test)?;
            let body = statement_typed(alloc, inside, at, body)?;
            Ok(StmtKind::If(test, body))
        }
        RawStmtKind::IfElse(test, body, other) => {
            let test = inside.tested(alloc, place, test)?;
            let body = statement_typed(alloc, inside, at, body)?;
            let other = statement_typed(alloc, inside, at, other)?;
            Ok(StmtKind::IfElse(test, body, other))
        }
        RawStmtKind::While(test, body) => while_typed(alloc, inside, at, place, body, test),
        RawStmtKind::Do(body, test) => do_typed(alloc, inside, at, place, body, test),
        RawStmtKind::For(first, test, last, body) => {
            for_typed(alloc, inside, at, place, first, test, last, body)
        }
        RawStmtKind::Switch(value, items) => switch_typed(alloc, inside, at, place, items, value),
        RawStmtKind::Label(name, body) => labelled(alloc, inside, at, place, name, body),
        RawStmtKind::Return(value) => {
            Ok(StmtKind::Return(returned(alloc, inside, at, place, value)?))
        }
        RawStmtKind::Goto(name) => jump(at, place, name),
        RawStmtKind::Continue => leave(at.continues, place, StmtKind::Continue),
        RawStmtKind::Break => leave(at.breaks, place, StmtKind::Break),
    }
}

// `while` (C11 6.8.5.1).
#[cycle(statements)]
fn while_typed(
    alloc: Global,
    inside: &mut Inside,
    at: Where,
    place: Place,
    body: &RawStmt,
    test: &RawExpr,
) -> Result<StmtKind, TypeRefusal>
    ensures { AnswersWith (kind_part place)
        (while_typed (where_of at.entry) (inside_of inside.old) place test.now body.now.place
        body.now.kind.value) result inside.new }
{
    let test = inside.tested(alloc, place, test)?;
    let body = statement_typed(alloc, inside, at.in_loop(), body)?;
    Ok(StmtKind::While(test, body))
}

// `do` (C11 6.8.5.2).
#[cycle(statements)]
fn do_typed(
    alloc: Global,
    inside: &mut Inside,
    at: Where,
    place: Place,
    body: &RawStmt,
    test: &RawExpr,
) -> Result<StmtKind, TypeRefusal>
    ensures { AnswersWith (kind_part place)
        (do_typed (where_of at.entry) (inside_of inside.old) place test.now body.now.place
        body.now.kind.value) result inside.new }
{
    let fault = test_fault(alloc, &inside.known.context, test)?;
    let typed = statement_typed(alloc, inside, at.in_loop(), body);
    let body = after_word(place, fault, typed)?;
    let test = inside.tested(alloc, place, test)?;
    Ok(StmtKind::Do(body, test))
}

// The part between a keyword and its test: if it is refused, a fault of the test at the keyword is reported first.
fn after_word<T>(
    place: Place,
    fault: Option<TypeCode>,
    typed: Result<T, TypeRefusal>,
) -> Result<T, TypeRefusal>
    ensures { result ≡ answer_after place fault typed }
{
    match (fault, typed) {
        (Some(code), Err(TypeRefusal::Code(_, _))) => Err(TypeRefusal::Code(code, place)),
        (_, typed) => typed,
    }
}

// `for`, whose parts are a scope (C11 6.8.5, paragraph 5; 6.8.5.3).
#[cycle(statements)]
fn for_typed(
    alloc: Global,
    inside: &mut Inside,
    at: Where,
    place: Place,
    first: &RawFirst,
    test: &Option<RawExpr>,
    last: &Option<RawExpr>,
    body: &RawStmt,
) -> Result<StmtKind, TypeRefusal>
    ensures { AnswersWith (kind_part place)
        (for_typed (where_of at.entry) (inside_of inside.old) place first.now test.now last.now
        body.now.place body.now.kind.value) result inside.new }
{
    let around = inside.known.enter();
    let fault = inside.word_fault(alloc, test)?;
    let first = after_word(place, fault, first_typed(alloc, inside, first))?;
    let test = inside.tested_if(alloc, place, test)?;
    let last = inside.dropped_if(alloc, last)?;
    let body = statement_typed(alloc, inside, at.in_loop(), body)?;
    inside.known.leave(around);
    Ok(StmtKind::For(first, test, last, body))
}

// The first part of a `for`.
fn first_typed(
    alloc: Global,
    inside: &mut Inside,
    first: &RawFirst,
) -> Result<Vec<Stmt>, TypeRefusal>
    ensures { AnswersWith (λ list following. typed_statements_of list.items following)
        (first_typed (inside_of inside.old) first.now) result inside.new }
{
    let mut statements = Vec::new(alloc);
    match first {
        RawFirst::Empty => Ok(statements),
        RawFirst::Run(value) => {
            let dropped = inside.dropped(alloc, value)?;
            let kind = Box::new(alloc, StmtKind::Run(dropped))?;
            statements.push(Stmt {
                place: value.place,
                kind,
            })?;
            Ok(statements)
        }
        RawFirst::Declare(specs, objects) => inside.declare(alloc, specs, objects, statements),
    }
}

// The statements of `{ .. }`, which is a scope (C11 6.8.2).
#[cycle(statements)]
fn block(
    alloc: Global,
    inside: &mut Inside,
    at: Where,
    items: &[RawItem],
) -> Result<Vec<Stmt>, TypeRefusal>
    ensures { AnswersWith (λ list following. typed_statements_of list.items following)
        (block_typed (where_of at.entry) (inside_of inside.old) items.now) result inside.new }
{
    let around = inside.known.enter();
    let statements = items_typed(alloc, inside, at, items)?;
    inside.known.leave(around);
    Ok(statements)
}

/// Types the items of a block or of the body of a function.
#[cycle(statements)]
pub fn items_typed(
    alloc: Global,
    inside: &mut Inside,
    at: Where,
    items: &[RawItem],
) -> Result<Vec<Stmt>, TypeRefusal>
    ensures { AnswersWith (λ list following. typed_statements_of list.items following)
        (body_typed (where_of at.entry) items.now (no_statements (inside_of inside.old))) result
        inside.new }
{
    let mut statements = Vec::new(alloc);
    for item in items {
        statements = item_typed(alloc, inside, at, item, statements)?;
    }
    Ok(statements)
}

/// Types a declaration or a statement of a block, and appends it.
#[cycle(statements)]
pub fn item_typed(
    alloc: Global,
    inside: &mut Inside,
    at: Where,
    item: &RawItem,
    before: Vec<Stmt>,
) -> Result<Vec<Stmt>, TypeRefusal>
    ensures { AnswersWith (λ list following. typed_statements_of list.items following)
        (item_typed (where_of at.entry) item.now (typed_statements_of before.items inside.old))
        result inside.new }
{
    match item {
        RawItem::Declare(specs, objects) => inside.declare(alloc, specs, objects, before),
        RawItem::Run(statement) => {
            let mut statements = before;
            statements.push(statement_typed(alloc, inside, at, statement)?)?;
            Ok(statements)
        }
    }
}

// The value of a `return`, which has one exactly if the function has a result (C11 6.8.6.4).
fn returned(
    alloc: Global,
    inside: &mut Inside,
    at: Where,
    place: Place,
    value: &Option<RawExpr>,
) -> Result<Option<Expr>, TypeRefusal>
    ensures { AnswersWith optional_part
        (returned (where_of at.entry) place (inside_of inside.old) value.now) result inside.new }
{
    match value {
        Some(tree) => Ok(Some(value_returned(alloc, inside, at, place, tree)?)),
        None => {
            if is_void(at.returns) {
                Ok(None)
            } else {
                Err(TypeRefusal::Code(TypeCode::Return, place))
            }
        }
    }
}

// The value of a `return`, if the function has a result.
fn value_returned(
    alloc: Global,
    inside: &mut Inside,
    at: Where,
    place: Place,
    tree: &RawExpr,
) -> Result<Expr, TypeRefusal>
    ensures { AnswersWith typed_part
        (value_returned (where_of at.entry) place (inside_of inside.old) tree.now) result
        inside.new }
{
    if is_void(at.returns) {
        return Err(TypeRefusal::Code(TypeCode::Return, place));
    }
    let known = &mut inside.known;
    assigned_value(
        alloc,
        &known.context,
        &mut known.literals,
        place,
        at.returns,
        tree,
    )
}

// Whether the type of a function's result is `void`: the function has no result.
fn is_void(ty: &CType) -> bool
    ensures { result ≡ is_void (shape_of ty.now) }
{
    match ty {
        CType::Void => true,
        _ => false,
    }
}

// `goto` (C11 6.8.6.1).
fn jump(at: Where, place: Place, name: &Name) -> Result<StmtKind, TypeRefusal>
    ensures { (inside : InsideOf)
        → Answers (λ kind. kind_at place kind inside)
        (goto_typed place inside (label_number name.now (where_of at.entry).labels)) result }
{
    match at.labels.number_of(name) {
        Some(number) => Ok(StmtKind::Goto(number)),
        None => Err(TypeRefusal::Code(TypeCode::Jump, place)),
    }
}

// A `continue` or a `break`, which must have a target (C11 6.8.6.2, 6.8.6.3).
fn leave(leads: bool, place: Place, kind: StmtKind) -> Result<StmtKind, TypeRefusal>
    ensures { Answers (λ kind. kind) (if leads then Fine kind else Fault Jump place) result }
{
    if leads {
        Ok(kind)
    } else {
        Err(TypeRefusal::Code(TypeCode::Jump, place))
    }
}

// A label, which must be the first one of its name in the function, and its statement (C11 6.8.1).
#[cycle(statements)]
fn labelled(
    alloc: Global,
    inside: &mut Inside,
    at: Where,
    place: Place,
    name: &Name,
    body: &RawStmt,
) -> Result<StmtKind, TypeRefusal>
    ensures { AnswersWith (kind_part place)
        (label_typed (where_of at.entry) (inside_of inside.old) place name.now body.now.place
        body.now.kind.value) result inside.new }
{
    let number = inside.met;
    if at.labels.number_of(name) != Some(number) {
        return Err(TypeRefusal::Code(TypeCode::Jump, place));
    }
    let next = number.checked_add(1).ok_or(AllocError)?;
    inside.met = next;
    let body = statement_typed(alloc, inside, at, body)?;
    Ok(StmtKind::Label(number, body))
}
