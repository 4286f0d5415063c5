//! Calls (C11 6.5.2.2, 7.22.3).
ghost use Rattle.std.specs.Prelude.{◌≡◌, IfOk, option_copied, length, map, vec_len};
ghost use Rattle.std.specs.Option.{option_map};
ghost use Rattle.cs_types.specs.Shape.{shape_of};
ghost use Rattle.cs_ast.specs.TypedView.{typed, typed_list};
ghost use Rattle.cs_scopes.specs.Verdicts.{Yields, Answers};
ghost use Rattle.cs_scopes.specs.Meanings.{signature_of, meaning_of};
ghost use Rattle.cs_expressions.specs.Calls.{function_in, called, allocates, is_pointer_target, call_fault, block_of, allocated, freed, call_of, converted_list, shape_in};

use crate::conversions::converted;
use crate::nodes::{allocate, call, free};
use cs_ast::Place;
use cs_ast::raw::expression::{RawExpr, RawExprKind};
use cs_ast::typed::expression::Expr;
use cs_ast::typed::operator::Allocator;
use cs_scopes::{Callee, DeclaredFunction, Meaning, Scope, TypeCode, TypeRefusal, least};
use cs_types::{CType, DataModel, IntType};
use std::alloc::{AllocError, Global};

/// Returns the function that a call names, whether its name is in parentheses or not.
pub fn called<'a>(scope: &'a Scope, function: &RawExpr) -> Option<&'a DeclaredFunction>
    ensures { option_map signature_of (option_copied result)
        ≡ called scope.now.declarations function.now.kind.value }
{
    match &*function.kind {
        RawExprKind::Name(name) => function_in(scope.declarations.newest(name)),
        RawExprKind::Parenthesis(inner) => called(scope, inner),
        _ => None,
    }
}

// The function that a name declares, if it declares one.
fn function_in(meaning: Option<&Meaning>) -> Option<&DeclaredFunction>
    ensures { option_map signature_of (option_copied result)
        ≡ function_in (option_map meaning_of (option_copied meaning.entry)) }
{
    match meaning {
        Some(Meaning::Function(function)) => Some(function),
        _ => None,
    }
}

// Whether the function allocates memory.
fn allocates(callee: Callee) -> bool
    ensures { result ≡ allocates callee }
{
    match callee {
        Callee::Malloc | Callee::Calloc => true,
        _ => false,
    }
}

// Whether the call's result is assigned or converted to a pointer.
fn is_pointer_target(target: Option<&CType>) -> bool
    ensures { result ≡ is_pointer_target (shape_in target.entry) }
{
    match target {
        Some(CType::Pointer(_)) => true,
        _ => false,
    }
}

/// Returns what is wrong with the number of arguments, or with the target of an allocation, which has to be a
/// pointer. Both are reported at the call.
#[tactic(auto, unfolding(crate::specs::Calls::call_fault))]
pub fn call_fault(
    target: Option<&CType>,
    count: usize,
    function: &DeclaredFunction,
) -> Option<TypeCode>
    ensures { result ≡ call_fault (shape_in target.entry) count (signature_of function.now) }
{
    if function.parameters.len() != count {
        return Some(TypeCode::ArgumentCount);
    }
    if allocates(function.callee) && !is_pointer_target(target) {
        return Some(TypeCode::NoTarget);
    }
    None
}

/// Converts arguments to the types of their parameters. Of the codes of those that can't be converted, the least
/// is reported.
pub fn converted_list(
    alloc: Global,
    model: DataModel,
    place: Place,
    types: &[CType],
    values: Vec<Expr>,
) -> Result<Vec<Expr>, TypeRefusal>
    requires { vec_len values ≡ length types.now }
    ensures { Answers (λ list. typed_list list.items)
        (converted_list model place (map (λ ty. shape_of ty) types.now) (typed_list values.items))
        result }
{
    let mut left = values;
    let mut list = Vec::new(alloc);
    let mut refused = None;
    while let Some(value) = left.pop() {
        match converted(alloc, model, place, value, &types[left.len()]) {
            Ok(value) => list.push(value)?,
            Err(TypeRefusal::Code(code, _)) => refused = Some(least(code, refused)),
            Err(TypeRefusal::Memory) => return Err(TypeRefusal::Memory),
        }
    }
    list.reverse();
    match refused {
        Some(code) => Err(TypeRefusal::Code(code, place)),
        None => Ok(list),
    }
}

// The element type of a block that is allocated for a pointer to a type: bytes for `void *`.
fn block_of(alloc: Global, target: &CType) -> Result<CType, AllocError>
    ensures { IfOk result (λ made. shape_of made ≡ block_of (shape_of target.now)) }
{
    match target {
        CType::Void => Ok(CType::Int(IntType::UChar)),
        _ => target.copy(alloc),
    }
}

// An allocated block, typed by the pointer that it is assigned to.
fn allocated(
    alloc: Global,
    place: Place,
    allocator: Allocator,
    arguments: Vec<Expr>,
    target: Option<&CType>,
) -> Result<Expr, TypeRefusal>
    ensures { Yields (allocated place allocator (typed_list arguments.items)
        (shape_in target.entry)) result }
{
    let Some(ty) = target else {
        return Err(TypeRefusal::Code(TypeCode::NoTarget, place));
    };
    let CType::Pointer(element) = ty else {
        return Err(TypeRefusal::Code(TypeCode::NoTarget, place));
    };
    let element = block_of(alloc, element)?;
    let ty = ty.copy(alloc)?;
    let made = allocate(alloc, place, ty, allocator, arguments, element)?;
    Ok(made)
}

// A call of `free`.
fn freed(alloc: Global, place: Place, mut arguments: Vec<Expr>) -> Result<Expr, TypeRefusal>
    ensures { Yields (freed place (typed_list arguments.items)) result }
{
    let Some(block) = arguments.pop() else {
        return Err(TypeRefusal::Code(TypeCode::ArgumentCount, place));
    };
    if !arguments.is_empty() {
        return Err(TypeRefusal::Code(TypeCode::ArgumentCount, place));
    }
    let made = free(alloc, place, block)?;
    Ok(made)
}

/// Returns a call of a function with its arguments.
#[tactic(auto, unfolding(crate::specs::Calls::call_of))]
pub fn call_of(
    alloc: Global,
    place: Place,
    target: Option<&CType>,
    function: &DeclaredFunction,
    arguments: Vec<Expr>,
) -> Result<Expr, TypeRefusal>
    ensures { Yields (call_of place (shape_in target.entry) (signature_of function.now)
        (typed_list arguments.items)) result }
{
    match function.callee {
        Callee::Numbered(number) => {
            let ty = function.result.copy(alloc)?;
            let made = call(alloc, place, ty, number, arguments)?;
            Ok(made)
        }
        Callee::Malloc => allocated(alloc, place, Allocator::Malloc, arguments, target),
        Callee::Calloc => allocated(alloc, place, Allocator::Calloc, arguments, target),
        Callee::Free => freed(alloc, place, arguments),
    }
}
