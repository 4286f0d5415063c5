//! The bounds of declarators, and the arrays that they declare (C11 6.7.6.2).
ghost use Rattle.std.specs.Prelude.{◌≡◌, List, Some, IfOk};
ghost use Rattle.std.specs.Option.{option_map, option_or};
ghost use Rattle.cs_types.specs.Shape.{shape_of};
ghost use Rattle.cs_scopes.specs.Verdicts.{Answers};
ghost use Rattle.cs_declarations.specs.Sizes.{size_said, size_or_one, sizes_said, fault_in, refused_bound, bounds_taken, all_said, bounded, element_of, outermost, extent_of, filled};
ghost use Rattle.cs_declarations.specs.Bodies.{declarator_type};
ghost use Rattle.cs_declarations.specs.View.{extent};

use cs_ast::Place;
use cs_ast::raw::declaration::RawDeclarator;
use cs_ast::raw::expression::RawExpr;
use cs_consts::value;
use cs_scopes::{Context, TypeCode, TypeRefusal, array_of, arrayed, complete_at, starred};
use cs_types::CType;
use std::alloc::{AllocError, Global};

/// What is declared: something of a type, or an array of these elements without a size.
#[derive(Drop)]
pub enum Extent {
    Whole(CType),
    Unsized(CType),
}

// The size in a bound, if it has one.
#[tactic(auto, using(cs_scopes::proofs::Lifting::lifts))]
fn size_said(
    alloc: Global,
    context: &Context,
    bound: &Option<RawExpr>,
) -> Result<Option<i128>, TypeRefusal>
    ensures { Answers (λ size. size) (size_said context.now bound.now) result }
{
    match bound {
        None => Ok(None),
        Some(size) => {
            let (_, number) = value(alloc, context, size)?;
            Ok(Some(number))
        }
    }
}

/// The sizes of bounds, the outermost first, and the code and position of the first bound that is refused, whose size counts as 1.
#[derive(Drop)]
pub struct Sizes {
    pub list: Vec<Option<i128>>,
    pub refused: Option<(TypeCode, Place)>,
}

/// Returns the sizes of bounds.
pub fn sizes_said(
    alloc: Global,
    context: &Context,
    bounds: &[Option<RawExpr>],
) -> Result<Sizes, AllocError>
    ensures list { IfOk result (λ sizes. sizes.list.items ≡ sizes_said context.now bounds.now) }
    ensures refused { IfOk result (λ sizes.
        sizes.refused ≡ refused_bound context.now bounds.now) }
{
    let mut list = Vec::new(alloc);
    let mut refused = None;
    for bound in bounds {
        match size_said(alloc, context, bound) {
            Ok(size) => list.push(size)?,
            Err(TypeRefusal::Code(code, place)) => {
                list.push(Some(1))?;
                refused = first_of(refused, (code, place));
            }
            Err(TypeRefusal::Memory) => return Err(AllocError),
        }
    }
    Ok(Sizes { list, refused })
}

// The first of two faults.
fn first_of(before: Option<(TypeCode, Place)>, next: (TypeCode, Place)) -> Option<(TypeCode, Place)>
    ensures { result ≡ option_or before (Some next) }
{
    match before {
        Some(first) => Some(first),
        None => Some(next),
    }
}

/// Refuses what a name declares, if a bound after it is refused.
pub fn bounds_taken(refused: Option<(TypeCode, Place)>) -> Result<(), TypeRefusal>
    ensures { Answers (λ _. tt) (bounds_taken refused) result }
{
    match refused {
        Some((code, place)) => Err(TypeRefusal::Code(code, place)),
        None => Ok(()),
    }
}

// The sizes in these bounds, of which each needs one.
fn all_said(alloc: Global, place: Place, sizes: &[Option<i128>]) -> Result<Vec<i128>, TypeRefusal>
    ensures { Answers (λ numbers. numbers.items) (all_said place sizes.now) result }
{
    let mut numbers = Vec::new(alloc);
    for size in sizes {
        match size {
            Some(number) => numbers.push(*number)?,
            None => return Err(TypeRefusal::Code(TypeCode::Size, place)),
        }
    }
    Ok(numbers)
}

/// Returns the type before bounds, which has to be complete if there are any.
pub fn bounded(
    context: &Context,
    place: Place,
    base: CType,
    bounds: &[Option<RawExpr>],
) -> Result<CType, TypeRefusal>
    ensures { Answers shape_of (bounded context.now place (shape_of base) bounds.now) result }
{
    match bounds {
        [] => Ok(base),
        [_, ..] => complete_at(&context.table, place, base),
    }
}

/// Returns the element type of the outermost array, whose bound is followed by these.
#[tactic(auto, using(cs_scopes::proofs::Lifting::lifts))]
pub fn element_of(
    alloc: Global,
    context: &Context,
    place: Place,
    base: CType,
    others: &[Option<i128>],
) -> Result<CType, TypeRefusal>
    ensures { Answers shape_of (element_of context.now place (shape_of base) others.now) result }
{
    let numbers = all_said(alloc, place, others)?;
    arrayed(alloc, context.model, &context.table, place, base, &numbers)
}

// An array with or without a size.
#[tactic(auto, using(cs_scopes::proofs::Lifting::lifts))]
fn outermost(
    alloc: Global,
    context: &Context,
    place: Place,
    size: Option<i128>,
    element: CType,
) -> Result<Extent, TypeRefusal>
    ensures { Answers extent (outermost context.now place size (shape_of element)) result }
{
    match size {
        Some(number) => {
            let ty = array_of(alloc, context.model, &context.table, place, number, element)?;
            Ok(Extent::Whole(ty))
        }
        None => Ok(Extent::Unsized(element)),
    }
}

/// Returns what a declarator declares, at its name; `base` is its type with the pointers.
pub fn extent_of(
    alloc: Global,
    context: &Context,
    place: Place,
    base: CType,
    sizes: &[Option<i128>],
) -> Result<Extent, TypeRefusal>
    ensures { Answers extent (extent_of context.now place (shape_of base) sizes.now) result }
{
    match sizes {
        [] => Ok(Extent::Whole(base)),
        [first, others @ ..] => {
            let element = element_of(alloc, context, place, base, others)?;
            outermost(alloc, context, place, *first, element)
        }
    }
}

/// Returns the type of what is declared; an array without a size has `count` elements.
pub fn filled(
    alloc: Global,
    context: &Context,
    place: Place,
    count: Option<usize>,
    declared: Extent,
) -> Result<CType, TypeRefusal>
    ensures { Answers shape_of (filled context.now place count (extent declared)) result }
{
    match (declared, count) {
        (Extent::Whole(ty), _) => Ok(ty),
        (Extent::Unsized(element), Some(count)) => array_of(
            alloc,
            context.model,
            &context.table,
            place,
            count as i128,
            element,
        ),
        (Extent::Unsized(_), None) => Err(TypeRefusal::Code(TypeCode::Size, place)),
    }
}

/// Returns the type that a declarator gives its name; `base` is the type of the specifiers. An array without a size has
/// `count` elements.
#[tactic(auto, using(cs_scopes::proofs::Lifting::lifts))]
pub fn declarator_type(
    alloc: Global,
    context: &Context,
    base: &CType,
    count: Option<usize>,
    declarator: &RawDeclarator,
) -> Result<CType, TypeRefusal>
    ensures { Answers shape_of
        (declarator_type context.now (shape_of base.now) count declarator.now) result }
{
    let place = declarator.place;
    let pointed = starred(alloc, &declarator.pointers, base.copy(alloc)?)?;
    let whole = bounded(context, place, pointed, &declarator.bounds)?;
    let sizes = sizes_said(alloc, context, &declarator.bounds)?;
    let declared = extent_of(alloc, context, place, whole, &sizes.list)?;
    let ty = filled(alloc, context, place, count, declared)?;
    bounds_taken(sizes.refused)?;
    Ok(ty)
}
