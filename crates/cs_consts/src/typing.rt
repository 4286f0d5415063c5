//! The typing of expressions (C11 6.5): a function for each production or group of productions.
ghost use Rattle.std.specs.Prelude.{◌≡◌, OnOk, IfOk, None, Some, length, vec_len, if◌then◌else◌};
ghost use Rattle.cs_types.specs.Shape.{shape_of};
ghost use Rattle.cs_ast.specs.TypedView.{typed, form, typed_list};
ghost use Rattle.cs_scopes.specs.Faults.{least_code, unless_fault, unless_stopped};
ghost use Rattle.cs_scopes.specs.Verdicts.{Fine, lift, Yields, Answers};
ghost use Rattle.cs_expressions.specs.Stores.{steppable, step_operator};
ghost use Rattle.cs_scopes.specs.TypeNames.{complete_at};
ghost use Rattle.cs_scopes.specs.Meanings.{signature_of};
ghost use Rattle.cs_expressions.specs.Calls.{shape_in};
ghost use Rattle.cs_consts.specs.Typing.{literals_after, literals_after_list, formed, judged, value_in, operand_in, done, stepped_object, is_address, prefixed, prefixed_value, purpose_after, purpose_if, is_zero_number, is_plain, operator_of, left_side, left_fault, stored_by, stored, arguments_listed, arguments_listed_fault, numbers_listed, bounds_listed, measured_arrays, measured_type_name, base_in, number_at, call_with, cast_type, castable, cast_operand, cast_to, infix_formed, subscript_formed, choice_formed, store_formed, call_formed, cast_formed};

use crate::constants::finished;
use crate::operands::left_operand_fault;
use crate::purpose::Purpose;
use cs_ast::Place;
use cs_ast::raw::expression::{RawExpr, RawExprKind};
use cs_ast::raw::operator::{AssignOp, InfixOp, PrefixOp, Step};
use cs_ast::raw::written_type::WrittenType;
use cs_ast::typed::expression::{Expr, ExprKind};
use cs_ast::typed::operator::{BinOp, Gives, UnOp};
use cs_expressions::{
    address_of, assignable, assigned, assigned_fault, call_fault, call_of, called, chosen,
    combined, constant_type, conversion_fault, converted, converted_list, denied, followed,
    indexed, led, measured, named, number, operand, raised, recast, selected, selected_through,
    step_operator, steppable, stepped, tested, text, through, turned, updatable, updated,
    updated_fault, valued, weighed,
};
use cs_names::Bytes;
use cs_scopes::{
    Context, DeclaredFunction, TypeCode, TypeRefusal, arrayed, complete_at, least_code, type_named,
};
use cs_types::{CType, IntType, is_void};
use std::alloc::{AllocError, Global};

/// Returns the typed expression for a purpose. Appends its string literals to `literals`. `target` is the type that the
/// context of the expression assigns or converts its value to, if there is one.
#[cycle(typing)]
pub fn judged(
    alloc: Global,
    context: &Context,
    purpose: Purpose,
    literals: &mut Vec<Bytes>,
    target: Option<&CType>,
    tree: &RawExpr,
) -> Result<Expr, TypeRefusal>
    ensures reported { Yields
        (judged context.now purpose literals.old.items (shape_in target.entry) tree.now) result }
    ensures texts { OnOk result (literals.new.items
        ≡ literals_after literals.old.items tree.now.kind.value) }
{
    let value = formed(alloc, context, purpose, literals, target, tree)?;
    finished(alloc, context.model, purpose, value)
}

/// Returns the value of an expression, or the expression itself if it has none.
#[cycle(typing)]
pub fn value_in(
    alloc: Global,
    context: &Context,
    purpose: Purpose,
    literals: &mut Vec<Bytes>,
    tree: &RawExpr,
) -> Result<Expr, TypeRefusal>
    ensures reported { Yields
        (value_in context.now purpose
        (formed context.now purpose literals.old.items None tree.now.place tree.now.kind.value))
        result }
    ensures texts { OnOk result (literals.new.items
        ≡ literals_after literals.old.items tree.now.kind.value) }
{
    let value = judged(alloc, context, purpose, literals, None, tree)?;
    valued(alloc, &context.table, value)
}

/// Returns the value of an expression that must have one.
#[cycle(typing)]
pub fn operand_in(
    alloc: Global,
    context: &Context,
    purpose: Purpose,
    literals: &mut Vec<Bytes>,
    target: Option<&CType>,
    tree: &RawExpr,
) -> Result<Expr, TypeRefusal>
    ensures reported { Yields
        (operand_in context.now purpose
        (formed context.now purpose literals.old.items (shape_in target.entry) tree.now.place
        tree.now.kind.value)) result }
    ensures texts { OnOk result (literals.new.items
        ≡ literals_after literals.old.items tree.now.kind.value) }
{
    let value = judged(alloc, context, purpose, literals, target, tree)?;
    operand(alloc, &context.table, value)
}

// An expression by the rule of its production.
#[cycle(typing)]
fn formed(
    alloc: Global,
    context: &Context,
    purpose: Purpose,
    literals: &mut Vec<Bytes>,
    target: Option<&CType>,
    tree: &RawExpr,
) -> Result<Expr, TypeRefusal>
    ensures reported { Yields
        (formed context.now purpose literals.old.items (shape_in target.entry) tree.now.place
        tree.now.kind.value) result }
    ensures texts { OnOk result (literals.new.items
        ≡ literals_after literals.old.items tree.now.kind.value) }
{
    let place = tree.place;
    match &*tree.kind {
        RawExprKind::Name(name) => named(alloc, place, context.scope.declarations.newest(name)),
        RawExprKind::Number(constant) => {
            let ty = constant_type(context.model, *constant);
            let made = number(alloc, place, ty, i128::from(constant.value))?;
            Ok(made)
        }
        RawExprKind::Character(value) => {
            let made = number(alloc, place, IntType::Int, i128::from(*value))?;
            Ok(made)
        }
        RawExprKind::Text(bytes) => text(alloc, literals, place, bytes),
        RawExprKind::Parenthesis(inner) => {
            judged(alloc, context, purpose, literals, target, inner)
        }
        RawExprKind::Index(left, right) => {
            subscript(alloc, context, purpose, literals, place, left, right)
        }
        RawExprKind::Call(function, arguments) => call(
            alloc, context, purpose, literals, target, place, function, arguments,
        ),
        RawExprKind::Member(object, name) => {
            let object = judged(alloc, context, purpose, literals, None, object)?;
            selected(alloc, &context.table, place, name, object)
        }
        RawExprKind::Arrow(value, name) => {
            let value = operand_in(alloc, context, purpose, literals, None, value)?;
            selected_through(alloc, &context.table, place, name, value)
        }
        RawExprKind::StepAfter(by, object) => {
            let gives = Gives::Old;
            step(alloc, context, purpose, literals, place, *by, gives, object)
        }
        RawExprKind::StepBefore(by, object) => {
            let gives = Gives::New;
            step(alloc, context, purpose, literals, place, *by, gives, object)
        }
        RawExprKind::Prefix(operator, operand) => {
            let operand = judged(alloc, context, purpose, literals, None, operand)?;
            prefixed(alloc, context, *operator, place, operand)
        }
        RawExprKind::SizeOf(operand) => {
            let operand = judged(alloc, context, Purpose::Run, literals, None, operand)?;
            measured(alloc, context.model, &context.table, place, &operand.ty)
        }
        RawExprKind::SizeOfType(ty, bounds) => {
            size_of_type(alloc, context, literals, place, ty, bounds)
        }
        RawExprKind::Cast(ty, bounds, operand) => {
            let count = bounds.len();
            cast(alloc, context, purpose, literals, place, ty, count, operand)
        }
        RawExprKind::Infix(operator, left, right) => infix(
            alloc, context, purpose, literals, place, *operator, left, right,
        ),
        RawExprKind::Choice(test, one, other) => {
            select(alloc, context, purpose, literals, place, test, one, other)
        }
        RawExprKind::Assign(operator, object, value) => store(
            alloc, context, purpose, literals, place, *operator, object, value,
        ),
        RawExprKind::Comma(first, second) => {
            let first = value_in(alloc, context, purpose, literals, first)?;
            let second = value_in(alloc, context, purpose, literals, second)?;
            followed(alloc, place, first, second)
        }
    }
}

// `++` or `--`.
#[cycle(typing)]
fn step(
    alloc: Global,
    context: &Context,
    purpose: Purpose,
    literals: &mut Vec<Bytes>,
    place: Place,
    step: Step,
    gives: Gives,
    object: &RawExpr,
) -> Result<Expr, TypeRefusal>
    ensures reported { Yields
        (lift (stepped_object context.now (step_operator step) gives place)
        (lift (steppable context.now.table.list (step_operator step) place)
        (done context.now purpose
        (formed context.now purpose literals.old.items None object.now.place
        object.now.kind.value)))) result }
    ensures texts { OnOk result (literals.new.items
        ≡ literals_after literals.old.items object.now.kind.value) }
{
    let operator = step_operator(step);
    let object = judged(alloc, context, purpose, literals, None, object)?;
    let object = steppable(&context.table, operator, place, object)?;
    stepped(alloc, context.model, operator, gives, place, object)
}

// A prefix operator, on its typed operand.
#[tactic(auto, unfolding(crate::specs::Typing::prefixed), using(cs_scopes::proofs::Lifting::lifts))]
fn prefixed(
    alloc: Global,
    context: &Context,
    operator: PrefixOp,
    place: Place,
    value: Expr,
) -> Result<Expr, TypeRefusal>
    ensures { Yields (prefixed context.now operator place (typed value)) result }
{
    if is_address(operator) {
        return address_of(alloc, place, value);
    }
    let value = operand(alloc, &context.table, value)?;
    prefixed_value(alloc, context, operator, place, value)
}

// Whether the operator is `&`.
fn is_address(operator: PrefixOp) -> bool
    ensures { result ≡ is_address operator }
{
    match operator {
        PrefixOp::Address => true,
        _ => false,
    }
}

// A prefix operator, on the value of its operand.
#[tactic(auto, unfolding(crate::specs::Typing::prefixed_value))]
fn prefixed_value(
    alloc: Global,
    context: &Context,
    operator: PrefixOp,
    place: Place,
    value: Expr,
) -> Result<Expr, TypeRefusal>
    ensures { Yields (prefixed_value context.now operator place (typed value)) result }
{
    let model = context.model;
    match operator {
        PrefixOp::Address => address_of(alloc, place, value),
        PrefixOp::Through => through(alloc, place, value),
        PrefixOp::Plus => raised(alloc, model, place, value),
        PrefixOp::Minus => turned(alloc, model, UnOp::Negate, place, value),
        PrefixOp::Complement => turned(alloc, model, UnOp::Complement, place, value),
        PrefixOp::Not => denied(alloc, place, value),
    }
}

// An operator between two operands, of which `&&` and `||` may not evaluate the second one.
#[cycle(typing)]
fn infix(
    alloc: Global,
    context: &Context,
    purpose: Purpose,
    literals: &mut Vec<Bytes>,
    place: Place,
    operator: InfixOp,
    left: &RawExpr,
    right: &RawExpr,
) -> Result<Expr, TypeRefusal>
    ensures reported { Yields
        (infix_formed context.now purpose literals.old.items place operator left.now right.now)
        result }
    ensures texts { OnOk result (literals.new.items
        ≡ literals_after (literals_after literals.old.items left.now.kind.value)
        right.now.kind.value) }
{
    let left = operand_in(alloc, context, purpose, literals, None, left)?;
    let following = purpose_after(operator, purpose, &left);
    let fault = left_operand_fault(&context.table, operator, &left.ty);
    let other = operand_in(alloc, context, following, literals, None, right);
    let right = led(place, fault, other)?;
    combined(
        alloc,
        context.model,
        &context.table,
        operator,
        place,
        left,
        right,
    )
}

// A subscript, which requires the same of its left operand as `+` (C11 6.5.2.1, paragraph 2).
#[cycle(typing)]
fn subscript(
    alloc: Global,
    context: &Context,
    purpose: Purpose,
    literals: &mut Vec<Bytes>,
    place: Place,
    left: &RawExpr,
    right: &RawExpr,
) -> Result<Expr, TypeRefusal>
    ensures reported { Yields
        (subscript_formed context.now purpose literals.old.items place left.now right.now) result }
    ensures texts { OnOk result (literals.new.items
        ≡ literals_after (literals_after literals.old.items left.now.kind.value)
        right.now.kind.value) }
{
    let left = operand_in(alloc, context, purpose, literals, None, left)?;
    let fault = left_operand_fault(&context.table, InfixOp::Add, &left.ty);
    let other = operand_in(alloc, context, purpose, literals, None, right);
    let right = led(place, fault, other)?;
    indexed(alloc, &context.table, place, left, right)
}

// The purpose of the right operand of an operator.
fn purpose_after(operator: InfixOp, purpose: Purpose, left: &Expr) -> Purpose
    ensures { result ≡ purpose_after operator purpose (Fine (typed left.now)) }
{
    match operator {
        InfixOp::And => purpose_if(true, purpose, left),
        InfixOp::Or => purpose_if(false, purpose, left),
        _ => purpose,
    }
}

// The purpose of an operand that is only evaluated if a test is true, or only if it is false.
fn purpose_if(way: bool, purpose: Purpose, test: &Expr) -> Purpose
    ensures { result ≡ purpose_if way purpose (Fine (typed test.now)) }
{
    match purpose {
        Purpose::Constant if is_zero_number(&*test.kind) == way => Purpose::Unneeded,
        _ => purpose,
    }
}

// Whether the expression is the number 0.
fn is_zero_number(kind: &ExprKind) -> bool
    ensures { result ≡ is_zero_number (form kind.now) }
{
    match kind {
        ExprKind::Number(number) => *number == 0,
        _ => false,
    }
}

// `?:`.
#[cycle(typing)]
fn select(
    alloc: Global,
    context: &Context,
    purpose: Purpose,
    literals: &mut Vec<Bytes>,
    place: Place,
    test: &RawExpr,
    one: &RawExpr,
    other: &RawExpr,
) -> Result<Expr, TypeRefusal>
    ensures reported { Yields
        (choice_formed context.now purpose literals.old.items place test.now one.now other.now)
        result }
    ensures texts { OnOk result (literals.new.items
        ≡ literals_after (literals_after (literals_after literals.old.items test.now.kind.value)
        one.now.kind.value) other.now.kind.value) }
{
    let test = operand_in(alloc, context, purpose, literals, None, test)?;
    let test = tested(place, test)?;
    let for_one = purpose_if(true, purpose, &test);
    let for_other = purpose_if(false, purpose, &test);
    let one = value_in(alloc, context, for_one, literals, one)?;
    let other = value_in(alloc, context, for_other, literals, other)?;
    chosen(alloc, context.model, place, test, one, other)
}

// An assignment operator.
#[cycle(typing)]
fn store(
    alloc: Global,
    context: &Context,
    purpose: Purpose,
    literals: &mut Vec<Bytes>,
    place: Place,
    operator: AssignOp,
    object: &RawExpr,
    value: &RawExpr,
) -> Result<Expr, TypeRefusal>
    ensures reported { Yields
        (store_formed context.now purpose literals.old.items place operator object.now value.now)
        result }
    ensures texts { OnOk result (literals.new.items
        ≡ literals_after (literals_after literals.old.items object.now.kind.value)
        value.now.kind.value) }
{
    let object = judged(alloc, context, purpose, literals, None, object)?;
    let object = left_side(operator, place, object)?;
    let fault = left_fault(context, operator, &object.ty);
    let target = right_target(operator, &object.ty);
    let right = operand_in(alloc, context, purpose, literals, target, value);
    let value = led(place, fault, right)?;
    stored(alloc, context, operator, place, object, value)
}

// The type that the right operand of an assignment operator is assigned to; only `=` has one.
fn right_target(operator: AssignOp, ty: &CType) -> Option<&CType>
    ensures { shape_in result ≡ (if is_plain operator then Some (shape_of ty.now) else None) }
{
    if is_plain(operator) { Some(ty) } else { None }
}

// Whether the operator is `=`.
fn is_plain(operator: AssignOp) -> bool
    ensures { result ≡ is_plain operator }
{
    match operator {
        AssignOp::Plain => true,
        _ => false,
    }
}

// The operator of a compound assignment.
fn operator_of(operator: AssignOp) -> BinOp
    ensures { result ≡ operator_of operator }
{
    match operator {
        AssignOp::Plain | AssignOp::Add => BinOp::Add,
        AssignOp::Multiply => BinOp::Mul,
        AssignOp::Divide => BinOp::Div,
        AssignOp::Remainder => BinOp::Rem,
        AssignOp::Subtract => BinOp::Sub,
        AssignOp::ShiftLeft => BinOp::Shl,
        AssignOp::ShiftRight => BinOp::Shr,
        AssignOp::BitAnd => BinOp::And,
        AssignOp::BitXor => BinOp::Xor,
        AssignOp::BitOr => BinOp::Or,
    }
}

// The left operand of an assignment operator, as far as the operator refuses it whatever the right one is.
#[tactic(auto, unfolding(crate::specs::Typing::left_side))]
fn left_side(operator: AssignOp, place: Place, object: Expr) -> Result<Expr, TypeRefusal>
    ensures { Yields (left_side operator place (typed object)) result }
{
    if is_plain(operator) {
        assignable(place, object)
    } else {
        updatable(operator_of(operator), place, object)
    }
}

// What else the operator refuses in the type of its left operand.
#[tactic(auto, unfolding(crate::specs::Typing::left_fault))]
fn left_fault(context: &Context, operator: AssignOp, ty: &CType) -> Option<TypeCode>
    ensures { result ≡ left_fault context.now operator (shape_of ty.now) }
{
    if is_plain(operator) {
        assigned_fault(&context.table, ty)
    } else {
        updated_fault(&context.table, ty)
    }
}

// An assignment operator on an object and a value: of what it refuses in the object's type and in both, the least code is reported.
#[tactic(auto, unfolding(crate::specs::Typing::stored))]
fn stored(
    alloc: Global,
    context: &Context,
    operator: AssignOp,
    place: Place,
    object: Expr,
    value: Expr,
) -> Result<Expr, TypeRefusal>
    ensures { Yields (stored context.now operator place (typed object) (typed value)) result }
{
    let fault = left_fault(context, operator, &object.ty);
    let made = stored_by(alloc, context, operator, place, object, value);
    weighed(place, fault, made)
}

// An assignment operator on an object and a value, by the types of both.
#[tactic(auto, unfolding(crate::specs::Typing::stored_by), using(cs_scopes::proofs::Lifting::lifts))]
fn stored_by(
    alloc: Global,
    context: &Context,
    operator: AssignOp,
    place: Place,
    object: Expr,
    value: Expr,
) -> Result<Expr, TypeRefusal>
    ensures { Yields (stored_by context.now operator place (typed object) (typed value)) result }
{
    if !is_plain(operator) {
        let operator = operator_of(operator);
        return updated(alloc, context.model, operator, place, object, value);
    }
    let value = converted(alloc, context.model, place, value, &object.ty)?;
    let made = assigned(alloc, place, object, value)?;
    Ok(made)
}

// A call of a function; a call of anything else is refused.
#[cycle(typing)]
fn call(
    alloc: Global,
    context: &Context,
    purpose: Purpose,
    literals: &mut Vec<Bytes>,
    target: Option<&CType>,
    place: Place,
    function: &RawExpr,
    arguments: &[RawExpr],
) -> Result<Expr, TypeRefusal>
    ensures reported { Yields
        (call_formed context.now purpose literals.old.items (shape_in target.entry) place
        function.now arguments.now) result }
    ensures texts { OnOk result (literals.new.items
        ≡ literals_after_list literals.old.items arguments.now) }
{
    let Some(called) = called(&context.scope, function) else {
        operand_in(alloc, context, purpose, literals, None, function)?;
        return Err(TypeRefusal::Code(TypeCode::OperandTypes, place));
    };
    let fault = call_fault(target, arguments.len(), called);
    let values = arguments_of(
        alloc, context, purpose, literals, place, fault, called, arguments,
    )?;
    call_with(alloc, context, place, target, called, values)
}

// A call of a function, with the values of its arguments.
#[tactic(auto, unfolding(crate::specs::Typing::call_with), using(cs_scopes::proofs::Lifting::lifts))]
fn call_with(
    alloc: Global,
    context: &Context,
    place: Place,
    target: Option<&CType>,
    function: &DeclaredFunction,
    values: Vec<Expr>,
) -> Result<Expr, TypeRefusal>
    requires { vec_len values ≡ vec_len function.now.parameters }
    ensures { Yields (call_with context.now place (shape_in target.entry)
        (signature_of function.now) (typed_list values.items)) result }
{
    let list = converted_list(alloc, context.model, place, &function.parameters, values)?;
    call_of(alloc, place, target, function, list)
}

// The values of the arguments of a call, one for each parameter. A fault at the call, also of an argument that has a type, is
// reported before an argument that is refused.
#[cycle(typing)]
fn arguments_of(
    alloc: Global,
    context: &Context,
    purpose: Purpose,
    literals: &mut Vec<Bytes>,
    place: Place,
    fault: Option<TypeCode>,
    function: &DeclaredFunction,
    arguments: &[RawExpr],
) -> Result<Vec<Expr>, TypeRefusal>
    ensures reported { Answers (λ list. typed_list list.items)
        (unless_fault place
        (least_code fault (arguments_listed_fault context.now purpose literals.old.items place
        (signature_of function.now).parameters arguments.now))
        (arguments_listed context.now purpose literals.old.items
        (signature_of function.now).parameters arguments.now)) result }
    ensures texts { OnOk result (length arguments.now ≡ vec_len function.now.parameters
        → literals.new.items ≡ literals_after_list literals.old.items arguments.now) }
    ensures count { IfOk result (λ list. length arguments.now ≡ vec_len function.now.parameters
        → vec_len list ≡ length arguments.now) }
{
    let types = function.parameters.as_slice();
    let mut least = fault;
    let mut refused = None;
    let mut list = Vec::new(alloc);
    for i in 0..arguments.len().min(types.len()) {
        let ty = &types[i];
        match operand_in(alloc, context, purpose, literals, Some(ty), &arguments[i]) {
            Ok(value) => {
                least = least_code(least, conversion_fault(context.model, &value, ty));
                list.push(value)?;
            }
            Err(TypeRefusal::Code(code, at)) => {
                refused = refused.or(Some((code, at)));
                literals.clear();
            }
            Err(TypeRefusal::Memory) => return Err(TypeRefusal::Memory),
        }
    }
    unless_refused(place, least, refused, list)
}

// The list, unless there is a code at a position before it, or something after the position is refused.
fn unless_refused(
    place: Place,
    fault: Option<TypeCode>,
    refused: Option<(TypeCode, Place)>,
    list: Vec<Expr>,
) -> Result<Vec<Expr>, TypeRefusal>
    ensures values { Answers (λ found. typed_list found.items)
        (unless_fault place fault (unless_stopped refused (Fine (typed_list list.items)))) result }
    ensures count { IfOk result (λ found. found ≡ list × (refused ≡ None)) }
{
    if let Some(code) = fault {
        return Err(TypeRefusal::Code(code, place));
    }
    match refused {
        Some((code, at)) => Err(TypeRefusal::Code(code, at)),
        None => Ok(list),
    }
}

// `sizeof` of a type with bounds.
#[cycle(typing)]
fn size_of_type(
    alloc: Global,
    context: &Context,
    literals: &mut Vec<Bytes>,
    place: Place,
    ty: &WrittenType,
    bounds: &[RawExpr],
) -> Result<Expr, TypeRefusal>
    ensures reported { Yields
        (measured_type_name context.now place (base_in context.now place ty.now)
        (numbers_listed context.now literals.old.items bounds.now)
        (bounds_listed context.now literals.old.items bounds.now)) result }
    ensures texts { OnOk result (literals.new.items
        ≡ literals_after_list literals.old.items bounds.now) }
{
    let base = type_named(alloc, &context.scope, place, ty)?;
    let base = complete_at(&context.table, place, base)?;
    let bounds = bounds_of(alloc, context, literals, bounds)?;
    let size = measured_arrays(alloc, context, place, base, &bounds.numbers)?;
    match bounds.refused {
        Some((code, at)) => Err(TypeRefusal::Code(code, at)),
        None => Ok(size),
    }
}

// `sizeof` of arrays of these sizes.
#[tactic(auto, unfolding(crate::specs::Typing::measured_arrays), using(cs_scopes::proofs::Lifting::lifts))]
fn measured_arrays(
    alloc: Global,
    context: &Context,
    place: Place,
    base: CType,
    numbers: &[i128],
) -> Result<Expr, TypeRefusal>
    ensures { Yields (measured_arrays context.now place numbers.now (shape_of base)) result }
{
    let ty = arrayed(alloc, context.model, &context.table, place, base, numbers)?;
    measured(alloc, context.model, &context.table, place, &ty)
}

// The numbers of bounds, which have to be constant, and the code and position of the first one that is refused, which counts as 1.
#[derive(Drop)]
struct Bounds {
    numbers: Vec<i128>,
    refused: Option<(TypeCode, Place)>,
}

// The bounds of a type.
#[cycle(typing)]
fn bounds_of(
    alloc: Global,
    context: &Context,
    literals: &mut Vec<Bytes>,
    bounds: &[RawExpr],
) -> Result<Bounds, AllocError>
    ensures numbers { IfOk result (λ found. found.numbers.items
        ≡ numbers_listed context.now literals.old.items bounds.now) }
    ensures refused { IfOk result (λ found. unless_stopped found.refused (Fine tt)
        ≡ bounds_listed context.now literals.old.items bounds.now) }
    ensures texts { IfOk result (λ found. found.refused ≡ None → literals.new.items
        ≡ literals_after_list literals.old.items bounds.now) }
{
    let mut numbers = Vec::new(alloc);
    let mut refused = None;
    for bound in bounds {
        match judged(alloc, context, Purpose::Constant, literals, None, bound) {
            Ok(value) => numbers.push(number_at(&*value.kind))?,
            Err(TypeRefusal::Code(code, at)) => {
                numbers.push(1)?;
                refused = refused.or(Some((code, at)));
                literals.clear();
            }
            Err(TypeRefusal::Memory) => return Err(AllocError),
        }
    }
    Ok(Bounds { numbers, refused })
}

// The number of a constant.
fn number_at(kind: &ExprKind) -> i128
    ensures { result ≡ number_at (form kind.now) }
{
    match kind {
        ExprKind::Number(number) => *number,
        _ => 0,
    }
}

// A cast to a type with this number of bounds.
#[cycle(typing)]
fn cast(
    alloc: Global,
    context: &Context,
    purpose: Purpose,
    literals: &mut Vec<Bytes>,
    place: Place,
    ty: &WrittenType,
    bounds: usize,
    operand: &RawExpr,
) -> Result<Expr, TypeRefusal>
    ensures reported { Yields
        (cast_formed context.now purpose literals.old.items place ty.now bounds operand.now)
        result }
    ensures texts { OnOk result (literals.new.items
        ≡ literals_after literals.old.items operand.now.kind.value) }
{
    let target = cast_type(alloc, context, place, ty, bounds)?;
    let value = judged(alloc, context, purpose, literals, Some(&target), operand)?;
    cast_to(alloc, context, place, &target, value)
}

// The type of a cast with this number of bounds.
#[tactic(auto, unfolding(crate::specs::Typing::cast_type), using(cs_scopes::proofs::Lifting::lifts))]
fn cast_type(
    alloc: Global,
    context: &Context,
    place: Place,
    ty: &WrittenType,
    bounds: usize,
) -> Result<CType, TypeRefusal>
    ensures { Answers shape_of (cast_type place bounds (base_in context.now place ty.now)) result }
{
    if bounds > 0 {
        return Err(TypeRefusal::Code(TypeCode::OperandTypes, place));
    }
    let target = type_named(alloc, &context.scope, place, ty)?;
    castable(place, target)
}

// The type, if a value can be cast to it.
fn castable(place: Place, ty: CType) -> Result<CType, TypeRefusal>
    ensures { Answers shape_of (castable place (shape_of ty)) result }
{
    match &ty {
        CType::Array(_, _) | CType::Struct(_) => {
            Err(TypeRefusal::Code(TypeCode::OperandTypes, place))
        }
        _ => Ok(ty),
    }
}

// The operand of a cast: that of a cast to `void` needs no value.
#[tactic(auto, unfolding(crate::specs::Typing::cast_operand))]
fn cast_operand(
    alloc: Global,
    context: &Context,
    target: &CType,
    value: Expr,
) -> Result<Expr, TypeRefusal>
    ensures { Yields (cast_operand context.now (shape_of target.now) (typed value)) result }
{
    if is_void(target) {
        valued(alloc, &context.table, value)
    } else {
        operand(alloc, &context.table, value)
    }
}

// A cast of a value to a type.
#[tactic(auto, unfolding(crate::specs::Typing::cast_to), using(cs_scopes::proofs::Lifting::lifts))]
fn cast_to(
    alloc: Global,
    context: &Context,
    place: Place,
    target: &CType,
    value: Expr,
) -> Result<Expr, TypeRefusal>
    ensures { Yields (cast_to context.now place (shape_of target.now) (typed value)) result }
{
    let value = cast_operand(alloc, context, target, value)?;
    recast(alloc, context.model, place, value, target)
}
