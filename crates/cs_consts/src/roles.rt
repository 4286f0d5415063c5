//! What the typing of declarations and statements requires of expressions.
ghost use Rattle.std.specs.Prelude.{◌≡◌, OnOk, IfOk, None, Some};
ghost use Rattle.cs_types.specs.Shape.{shape_of};
ghost use Rattle.cs_ast.specs.TypedView.{typed};
ghost use Rattle.cs_ast.specs.declared.place.Place.{Place as AnyPlace};
ghost use Rattle.cs_scopes.specs.Verdicts.{Yields, Answers};
ghost use Rattle.cs_expressions.specs.Calls.{shape_in};
ghost use Rattle.cs_consts.specs.Typing.{literals_after};
ghost use Rattle.cs_consts.specs.Roles.{number_of_constant, value_of, operand_of, assigned_value, test_of, test_fault, selector_of, discarded_value};

use crate::operands::scalar_fault;
use crate::purpose::Purpose;
use crate::typing::{judged, operand_in, value_in};
use cs_ast::Place;
use cs_ast::raw::expression::RawExpr;
use cs_ast::typed::expression::{Expr, ExprKind};
use cs_expressions::{converted, raised, tested};
use cs_names::Bytes;
use cs_scopes::{Context, TypeCode, TypeRefusal};
use cs_types::{CType, IntType};
use std::alloc::{AllocError, Global};

/// Returns the type and the number of a constant expression (C11 6.6).
#[tactic(auto, unfolding(crate::specs::Roles::value_of), using(cs_scopes::proofs::Lifting::lifts))]
pub fn value(
    alloc: Global,
    context: &Context,
    tree: &RawExpr,
) -> Result<(IntType, i128), TypeRefusal>
    ensures { Answers (λ number. number) (value_of context.now tree.now) result }
{
    let mut literals = Vec::new(alloc);
    let constant = judged(alloc, context, Purpose::Constant, &mut literals, None, tree)?;
    number_of_constant(&constant)
}

// The number of a constant, and its type.
fn number_of_constant(constant: &Expr) -> Result<(IntType, i128), TypeRefusal>
    ensures { Answers (λ number. number) (number_of_constant (typed constant.now)) result }
{
    match (&constant.ty, &*constant.kind) {
        (CType::Int(ty), ExprKind::Number(number)) => Ok((*ty, *number)),
        _ => Err(TypeRefusal::Code(TypeCode::NotConstant, constant.place)),
    }
}

/// Returns an expression that must have a value, which may be assigned or converted to a type. It isn't converted yet.
#[tactic(auto, unfolding(crate::specs::Roles::operand_of))]
pub fn operand(
    alloc: Global,
    context: &Context,
    literals: &mut Vec<Bytes>,
    target: Option<&CType>,
    tree: &RawExpr,
) -> Result<Expr, TypeRefusal>
    ensures reported { Yields
        (operand_of context.now literals.old.items (shape_in target.entry) tree.now) result }
    ensures texts { OnOk result (literals.new.items
        ≡ literals_after literals.old.items tree.now.kind.value) }
{
    operand_in(alloc, context, Purpose::Run, literals, target, tree)
}

/// Returns an expression whose value is converted to a type as if by assignment: an initializer, or the value of a `return`
/// (C11 6.7.9, 6.8.6.4). `place` is the position of the `=` or the `return`.
#[tactic(auto, unfolding(crate::specs::Roles::assigned_value), using(cs_scopes::proofs::Lifting::lifts))]
pub fn assigned_value(
    alloc: Global,
    context: &Context,
    literals: &mut Vec<Bytes>,
    place: Place,
    target: &CType,
    tree: &RawExpr,
) -> Result<Expr, TypeRefusal>
    ensures reported { Yields
        (assigned_value context.now literals.old.items place (shape_of target.now) tree.now)
        result }
    ensures texts { OnOk result (literals.new.items
        ≡ literals_after literals.old.items tree.now.kind.value) }
{
    let value = operand_in(alloc, context, Purpose::Run, literals, Some(target), tree)?;
    converted(alloc, context.model, place, value, target)
}

/// Returns an expression that a statement tests against 0 (C11 6.8.4.1, 6.8.5). `place` is the position of the statement's keyword.
#[tactic(auto, unfolding(crate::specs::Roles::test_of), using(cs_scopes::proofs::Lifting::lifts))]
pub fn test(
    alloc: Global,
    context: &Context,
    literals: &mut Vec<Bytes>,
    place: Place,
    tree: &RawExpr,
) -> Result<Expr, TypeRefusal>
    ensures reported { Yields (test_of context.now literals.old.items place tree.now) result }
    ensures texts { OnOk result (literals.new.items
        ≡ literals_after literals.old.items tree.now.kind.value) }
{
    let value = operand_in(alloc, context, Purpose::Run, literals, None, tree)?;
    tested(place, value)
}

/// Returns the code with which a statement's keyword refuses its test, if that has a type: for a statement whose test comes
/// after another part.
#[tactic(auto, unfolding(crate::specs::Roles::test_fault))]
pub fn test_fault(
    alloc: Global,
    context: &Context,
    tree: &RawExpr,
) -> Result<Option<TypeCode>, AllocError>
    ensures { IfOk result (λ code.
        (at : AnyPlace) → code ≡ test_fault context.now at tree.now) }
{
    let mut literals = Vec::new(alloc);
    match operand(alloc, context, &mut literals, None, tree) {
        Ok(value) => Ok(scalar_fault(&value.ty)),
        Err(TypeRefusal::Code(_, _)) => Ok(None),
        Err(TypeRefusal::Memory) => Err(AllocError),
    }
}

/// Returns the integer that controls a `switch`, in its promoted type (C11 6.8.4.2). `place` is the position of the keyword.
#[tactic(auto, unfolding(crate::specs::Roles::selector_of), using(cs_scopes::proofs::Lifting::lifts))]
pub fn selector(
    alloc: Global,
    context: &Context,
    literals: &mut Vec<Bytes>,
    place: Place,
    tree: &RawExpr,
) -> Result<Expr, TypeRefusal>
    ensures reported { Yields (selector_of context.now literals.old.items place tree.now) result }
    ensures texts { OnOk result (literals.new.items
        ≡ literals_after literals.old.items tree.now.kind.value) }
{
    let value = operand_in(alloc, context, Purpose::Run, literals, None, tree)?;
    raised(alloc, context.model, place, value)
}

/// Returns an expression whose value, if it has one, is discarded (C11 6.8.3).
#[tactic(auto, unfolding(crate::specs::Roles::discarded_value))]
pub fn discarded(
    alloc: Global,
    context: &Context,
    literals: &mut Vec<Bytes>,
    tree: &RawExpr,
) -> Result<Expr, TypeRefusal>
    ensures reported { Yields (discarded_value context.now literals.old.items tree.now) result }
    ensures texts { OnOk result (literals.new.items
        ≡ literals_after literals.old.items tree.now.kind.value) }
{
    value_in(alloc, context, Purpose::Run, literals, tree)
}
