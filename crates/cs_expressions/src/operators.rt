//! Operators on values (C11 6.5.3.3, 6.5.6, 6.5.8, 6.5.9, 6.5.13 to 6.5.15).
ghost use Rattle.std.specs.Prelude.{◌≡◌, IfOk};
ghost use Rattle.cs_types.specs.Shape.{Shape, shape_of, pointer};
ghost use Rattle.cs_ast.specs.declared.place.Place.{Place as AnyPlace};
ghost use Rattle.cs_ast.specs.TypedView.{typed};
ghost use Rattle.cs_scopes.specs.Verdicts.{Yields, Answers, Fine, lift};
ghost use Rattle.cs_expressions.specs.Conversions.{pointers_met};
ghost use Rattle.cs_ast.specs.TypedTree.{Of, And as AndForm, Or as OrForm, Compare as CompareForm, Choice as ChoiceForm};
ghost use Rattle.cs_expressions.specs.Integers.{in_type};
ghost use Rattle.cs_expressions.specs.Operators.{int_at, met, equated, ordered, moved, added, apart, subtracted, tested, denied, both_tested, combined, alike, chosen, chosen_pair, followed};
ghost use Rattle.cs_expressions.specs.Ways.{by_meeting};
ghost use Rattle.cs_expressions.specs.Pairs.{pair_of};

use crate::integers::{in_type, joined, shifted};
use crate::nodes::{and, choice, comma, compare, convert, difference, not, null, or, sum};
use crate::ways::Meeting;
use cs_ast::Place;
use cs_ast::raw::operator::InfixOp;
use cs_ast::typed::expression::Expr;
use cs_ast::typed::operator::{BinOp, CmpOp, Direction, Order};
use cs_folding::is_null;
use cs_scopes::{TypeCode, TypeRefusal, direction_of};
use cs_types::{
    CType, DataModel, IntType, StructTable, difference_type, is_complete, is_scalar, is_void, usual,
};
use std::alloc::{AllocError, Global};

/// Two values of one type.
#[derive(Drop)]
pub struct Pair {
    pub left: Expr,
    pub right: Expr,
}

// How two values are converted to one type.
#[tactic(auto, unfolding(crate::specs::Operators::met))]
fn meeting(model: DataModel, left: &Expr, right: &Expr) -> Meeting
    ensures { (at : AnyPlace)
        → met model at (typed left.now) (typed right.now) (shape_of left.now.ty)
        (shape_of right.now.ty) ≡ by_meeting at (typed left.now) (typed right.now) result }
{
    match (&left.ty, &right.ty) {
        (CType::Int(one), CType::Int(other)) => Meeting::Integers(usual(model, *one, *other)),
        (CType::Pointer(one), CType::Pointer(other)) => {
            pointer_meeting(model, left, right, one, other)
        }
        (CType::Pointer(_), CType::Int(_)) if is_null(model, right) => Meeting::RightNull,
        (CType::Int(_), CType::Pointer(_)) if is_null(model, left) => Meeting::LeftNull,
        _ => Meeting::Refused,
    }
}

// How two pointers are converted to one type, by the types that they point to.
#[tactic(auto, unfolding(crate::specs::Conversions::pointers_met))]
fn pointer_meeting(
    model: DataModel,
    left: &Expr,
    right: &Expr,
    one: &CType,
    other: &CType,
) -> Meeting
    requires left { shape_of left.now.ty ≡ pointer (shape_of one.now) }
    requires right { shape_of right.now.ty ≡ pointer (shape_of other.now) }
    ensures { (at : AnyPlace)
        → pointers_met model at (typed left.now) (typed right.now) (shape_of one.now)
        (shape_of other.now) ≡ by_meeting at (typed left.now) (typed right.now) result }
{
    if *one == *other {
        Meeting::Kept
    } else if is_null(model, right) {
        Meeting::RightNull
    } else if is_null(model, left) {
        Meeting::LeftNull
    } else if is_void(one) {
        Meeting::RightConverts
    } else if is_void(other) {
        Meeting::LeftConverts
    } else {
        Meeting::Refused
    }
}

// Two values, converted to one type in a given way.
fn meet(
    alloc: Global,
    place: Place,
    left: Expr,
    right: Expr,
    meeting: Meeting,
) -> Result<Pair, TypeRefusal>
    ensures { Answers pair_of (by_meeting place (typed left) (typed right) meeting) result }
{
    match meeting {
        Meeting::Integers(ty) => {
            let left = in_type(alloc, place, ty, left)?;
            let right = in_type(alloc, place, ty, right)?;
            Ok(Pair { left, right })
        }
        Meeting::Kept => Ok(Pair { left, right }),
        Meeting::RightNull => {
            let right = null(alloc, place, &left.ty)?;
            Ok(Pair { left, right })
        }
        Meeting::LeftNull => {
            let left = null(alloc, place, &right.ty)?;
            Ok(Pair { left, right })
        }
        Meeting::RightConverts => {
            let ty = left.ty.copy(alloc)?;
            let right = convert(alloc, place, ty, right)?;
            Ok(Pair { left, right })
        }
        Meeting::LeftConverts => {
            let ty = right.ty.copy(alloc)?;
            let left = convert(alloc, place, ty, left)?;
            Ok(Pair { left, right })
        }
        Meeting::Refused => Err(TypeRefusal::Code(TypeCode::OperandTypes, place)),
    }
}

// Two values, converted to one type.
fn met(
    alloc: Global,
    model: DataModel,
    place: Place,
    left: Expr,
    right: Expr,
) -> Result<Pair, TypeRefusal>
    ensures { Answers pair_of
        (met model place (typed left) (typed right) (shape_of left.ty) (shape_of right.ty)) result }
{
    let meeting = meeting(model, &left, &right);
    meet(alloc, place, left, right, meeting)
}

// `==` and `!=`.
#[tactic(auto, unfolding(crate::specs::Operators::equated), using(cs_scopes::proofs::Lifting::lifts))]
fn equated(
    alloc: Global,
    model: DataModel,
    operator: CmpOp,
    place: Place,
    left: Expr,
    right: Expr,
) -> Result<Expr, TypeRefusal>
    ensures { Yields (equated model operator place (typed left) (typed right)) result }
{
    let pair = met(alloc, model, place, left, right)?;
    let made = compare(alloc, place, operator, pair.left, pair.right)?;
    Ok(made)
}

// `<`, `<=`, `>` and `>=`.
#[tactic(auto, unfolding(crate::specs::Operators::ordered))]
fn ordered(
    alloc: Global,
    model: DataModel,
    operator: CmpOp,
    place: Place,
    left: Expr,
    right: Expr,
) -> Result<Expr, TypeRefusal>
    ensures { Yields (ordered model operator place (typed left) (typed right) (shape_of left.ty)
        (shape_of right.ty)) result }
{
    match (&left.ty, &right.ty) {
        (CType::Int(one), CType::Int(other)) => {
            let ty = usual(model, *one, *other);
            let made = compare_in(alloc, place, operator, ty, left, right)?;
            Ok(made)
        }
        (CType::Pointer(one), CType::Pointer(other)) if **one == **other => {
            let made = compare(alloc, place, operator, left, right)?;
            Ok(made)
        }
        _ => Err(TypeRefusal::Code(TypeCode::OperandTypes, place)),
    }
}

// A comparison of two integers that are converted to a type.
fn compare_in(
    alloc: Global,
    place: Place,
    operator: CmpOp,
    ty: IntType,
    left: Expr,
    right: Expr,
) -> Result<Expr, AllocError>
    ensures { IfOk result (λ made.
        typed made ≡ int_at place
        (CompareForm operator (in_type place ty (typed left)) (in_type place ty (typed right)))) }
{
    let left = in_type(alloc, place, ty, left)?;
    let right = in_type(alloc, place, ty, right)?;
    let made = compare(alloc, place, operator, left, right)?;
    Ok(made)
}

// A pointer moved by a number of elements, whose type has to be complete.
#[tactic(auto, unfolding(crate::specs::Operators::moved))]
fn moved(
    alloc: Global,
    table: &StructTable,
    place: Place,
    base: Expr,
    amount: Expr,
    direction: Direction,
    order: Order,
) -> Result<Expr, TypeRefusal>
    ensures { (target : Shape) → shape_of base.ty ≡ pointer target
        → Yields (moved table.now.list place (typed base) (typed amount) target direction order)
        result }
{
    let CType::Pointer(target) = &base.ty else {
        return Err(TypeRefusal::Code(TypeCode::OperandTypes, place));
    };
    if !is_complete(table, target) {
        return Err(TypeRefusal::Code(TypeCode::IncompleteType, place));
    }
    let ty = base.ty.copy(alloc)?;
    let made = sum(alloc, place, ty, base, amount, direction, order)?;
    Ok(made)
}

// `+`.
#[tactic(auto, unfolding(crate::specs::Operators::added))]
fn added(
    alloc: Global,
    model: DataModel,
    table: &StructTable,
    place: Place,
    left: Expr,
    right: Expr,
) -> Result<Expr, TypeRefusal>
    ensures { Yields (added model table.now.list place (typed left) (typed right) (shape_of left.ty)
        (shape_of right.ty)) result }
{
    match (&left.ty, &right.ty) {
        (CType::Int(_), CType::Int(_)) => joined(alloc, model, BinOp::Add, place, left, right),
        (CType::Pointer(_), CType::Int(_)) => {
            let (direction, order) = (direction_of(BinOp::Add), Order::PointerFirst);
            moved(alloc, table, place, left, right, direction, order)
        }
        (CType::Int(_), CType::Pointer(_)) => {
            let (direction, order) = (direction_of(BinOp::Add), Order::AmountFirst);
            moved(alloc, table, place, right, left, direction, order)
        }
        _ => Err(TypeRefusal::Code(TypeCode::OperandTypes, place)),
    }
}

// The number of elements between two pointers.
#[tactic(auto, unfolding(crate::specs::Operators::apart))]
fn apart(
    alloc: Global,
    model: DataModel,
    table: &StructTable,
    place: Place,
    left: Expr,
    right: Expr,
) -> Result<Expr, TypeRefusal>
    ensures { (target source : Shape) → shape_of left.ty ≡ pointer target
        → shape_of right.ty ≡ pointer source
        → Yields (apart model table.now.list place (typed left) (typed right) target source)
        result }
{
    let (CType::Pointer(one), CType::Pointer(other)) = (&left.ty, &right.ty) else {
        return Err(TypeRefusal::Code(TypeCode::OperandTypes, place));
    };
    if **one != **other {
        return Err(TypeRefusal::Code(TypeCode::OperandTypes, place));
    }
    if !is_complete(table, one) {
        return Err(TypeRefusal::Code(TypeCode::IncompleteType, place));
    }
    let made = difference(alloc, place, difference_type(model), left, right)?;
    Ok(made)
}

// `-` between two operands.
#[tactic(auto, unfolding(crate::specs::Operators::subtracted))]
fn subtracted(
    alloc: Global,
    model: DataModel,
    table: &StructTable,
    place: Place,
    left: Expr,
    right: Expr,
) -> Result<Expr, TypeRefusal>
    ensures { Yields (subtracted model table.now.list place (typed left) (typed right)
        (shape_of left.ty) (shape_of right.ty)) result }
{
    match (&left.ty, &right.ty) {
        (CType::Int(_), CType::Int(_)) => joined(alloc, model, BinOp::Sub, place, left, right),
        (CType::Pointer(_), CType::Int(_)) => {
            let (direction, order) = (direction_of(BinOp::Sub), Order::PointerFirst);
            moved(alloc, table, place, left, right, direction, order)
        }
        (CType::Pointer(_), CType::Pointer(_)) => apart(alloc, model, table, place, left, right),
        _ => Err(TypeRefusal::Code(TypeCode::OperandTypes, place)),
    }
}

/// Returns a value that is tested, if it is an integer or a pointer.
#[tactic(auto, unfolding(crate::specs::Operators::tested))]
pub fn tested(place: Place, value: Expr) -> Result<Expr, TypeRefusal>
    ensures { Yields (tested place (typed value)) result }
{
    if is_scalar(&value.ty) {
        Ok(value)
    } else {
        Err(TypeRefusal::Code(TypeCode::OperandTypes, place))
    }
}

/// Returns `!`.
#[tactic(auto, unfolding(crate::specs::Operators::denied))]
pub fn denied(alloc: Global, place: Place, value: Expr) -> Result<Expr, TypeRefusal>
    ensures { Yields (denied place (typed value)) result }
{
    if !is_scalar(&value.ty) {
        return Err(TypeRefusal::Code(TypeCode::OperandTypes, place));
    }
    let made = not(alloc, place, value)?;
    Ok(made)
}

// `&&`.
#[tactic(auto, unfolding(crate::specs::Operators::both_tested))]
fn both(alloc: Global, place: Place, left: Expr, right: Expr) -> Result<Expr, TypeRefusal>
    ensures { Yields (both_tested place (typed left) (typed right)
        (AndForm (typed left) (typed right))) result }
{
    if !is_scalar(&left.ty) || !is_scalar(&right.ty) {
        return Err(TypeRefusal::Code(TypeCode::OperandTypes, place));
    }
    let made = and(alloc, place, left, right)?;
    Ok(made)
}

// `||`.
#[tactic(auto, unfolding(crate::specs::Operators::both_tested))]
fn either(alloc: Global, place: Place, left: Expr, right: Expr) -> Result<Expr, TypeRefusal>
    ensures { Yields (both_tested place (typed left) (typed right)
        (OrForm (typed left) (typed right))) result }
{
    if !is_scalar(&left.ty) || !is_scalar(&right.ty) {
        return Err(TypeRefusal::Code(TypeCode::OperandTypes, place));
    }
    let made = or(alloc, place, left, right)?;
    Ok(made)
}

/// Returns an operator between two values.
#[tactic(auto, unfolding(crate::specs::Operators::combined))]
pub fn combined(
    alloc: Global,
    model: DataModel,
    table: &StructTable,
    operator: InfixOp,
    place: Place,
    left: Expr,
    right: Expr,
) -> Result<Expr, TypeRefusal>
    ensures { Yields (combined model table.now.list operator place (typed left) (typed right))
        result }
{
    match operator {
        InfixOp::Or => either(alloc, place, left, right),
        InfixOp::And => both(alloc, place, left, right),
        InfixOp::BitOr => joined(alloc, model, BinOp::Or, place, left, right),
        InfixOp::BitXor => joined(alloc, model, BinOp::Xor, place, left, right),
        InfixOp::BitAnd => joined(alloc, model, BinOp::And, place, left, right),
        InfixOp::Equal => equated(alloc, model, CmpOp::Equal, place, left, right),
        InfixOp::Differs => equated(alloc, model, CmpOp::Differs, place, left, right),
        InfixOp::Less => ordered(alloc, model, CmpOp::Less, place, left, right),
        InfixOp::AtMost => ordered(alloc, model, CmpOp::AtMost, place, left, right),
        InfixOp::More => ordered(alloc, model, CmpOp::More, place, left, right),
        InfixOp::AtLeast => ordered(alloc, model, CmpOp::AtLeast, place, left, right),
        InfixOp::ShiftLeft => shifted(alloc, model, BinOp::Shl, place, left, right),
        InfixOp::ShiftRight => shifted(alloc, model, BinOp::Shr, place, left, right),
        InfixOp::Add => added(alloc, model, table, place, left, right),
        InfixOp::Subtract => subtracted(alloc, model, table, place, left, right),
        InfixOp::Multiply => joined(alloc, model, BinOp::Mul, place, left, right),
        InfixOp::Divide => joined(alloc, model, BinOp::Div, place, left, right),
        InfixOp::Remainder => joined(alloc, model, BinOp::Rem, place, left, right),
    }
}

/// Returns `?:` of values.
#[tactic(auto, unfolding(crate::specs::Operators::chosen))]
pub fn chosen(
    alloc: Global,
    model: DataModel,
    place: Place,
    test: Expr,
    one: Expr,
    other: Expr,
) -> Result<Expr, TypeRefusal>
    ensures { Yields (chosen model place (typed test) (typed one) (typed other) (shape_of one.ty)
        (shape_of other.ty)) result }
{
    if alike(&one.ty, &other.ty) {
        let made = chosen_alike(alloc, place, test, one, other)?;
        Ok(made)
    } else {
        chosen_met(alloc, model, place, test, one, other)
    }
}

// Whether `?:` takes values of these types without conversion: both are `void`, or the same struct.
fn alike(one: &CType, other: &CType) -> bool
    ensures { result ≡ alike (shape_of one.now) (shape_of other.now) }
{
    match (one, other) {
        (CType::Void, CType::Void) => true,
        (CType::Struct(left), CType::Struct(right)) => *left == *right,
        _ => false,
    }
}

// A choice between two values that are converted to one type.
#[tactic(auto, using(cs_scopes::proofs::Lifting::lifts))]
fn chosen_met(
    alloc: Global,
    model: DataModel,
    place: Place,
    test: Expr,
    one: Expr,
    other: Expr,
) -> Result<Expr, TypeRefusal>
    ensures { Yields (lift (chosen_pair place (typed test))
        (met model place (typed one) (typed other) (shape_of one.ty) (shape_of other.ty))) result }
{
    let pair = met(alloc, model, place, one, other)?;
    let made = chosen_pair(alloc, place, test, pair)?;
    Ok(made)
}

// A choice between two values that need no conversion.
fn chosen_alike(
    alloc: Global,
    place: Place,
    test: Expr,
    one: Expr,
    other: Expr,
) -> Result<Expr, AllocError>
    ensures { IfOk result (λ made.
        typed made ≡ Of place (shape_of one.ty)
        (ChoiceForm (typed test) (typed one) (typed other))) }
{
    let ty = one.ty.copy(alloc)?;
    let made = choice(alloc, place, ty, test, one, other)?;
    Ok(made)
}

// A choice between the two values of a pair.
fn chosen_pair(alloc: Global, place: Place, test: Expr, pair: Pair) -> Result<Expr, AllocError>
    ensures { IfOk result (λ made.
        chosen_pair place (typed test) (pair_of pair) ≡ Fine (typed made)) }
{
    let ty = pair.left.ty.copy(alloc)?;
    let made = choice(alloc, place, ty, test, pair.left, pair.right)?;
    Ok(made)
}

/// Returns `,` of two values.
pub fn followed(alloc: Global, place: Place, first: Expr, second: Expr) -> Result<Expr, TypeRefusal>
    ensures { Yields (followed place (typed first) (typed second)) result }
{
    let ty = second.ty.copy(alloc)?;
    let made = comma(alloc, place, ty, first, second)?;
    Ok(made)
}
