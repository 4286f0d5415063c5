//! Parameters (C11 6.7.6.3).
ghost use Rattle.std.specs.Prelude.{◌≡◌, not, OnOk};
ghost use Rattle.cs_types.specs.Shape.{shape_of};
ghost use Rattle.cs_scopes.specs.Verdicts.{Answers, Fine};
ghost use Rattle.cs_declarations.specs.Answered.{AnswersWith, Leaves};
ghost use Rattle.cs_declarations.specs.LaidOut.{IsSound};
ghost use Rattle.cs_declarations.specs.Bodies.{specs_type};
ghost use Rattle.cs_declarations.specs.Parameters.{place_of, plainly_passed, array_passed, passed, parameter_passed, refused_after, twice_after, after_twice, may_write, is_free_name, with_parameter, parameter_typed, parameters_typed};
ghost use Rattle.cs_declarations.specs.View.{environment_of, passed_of, head, typing};

use crate::bodies::specs_type;
use crate::environment::Environment;
use crate::sizes::{bounded, bounds_taken, element_of, sizes_said};
use cs_ast::Place;
use cs_ast::raw::declaration::{RawParameter, RawParameters};
use cs_ast::typed::program::Local;
use cs_names::Name;
use cs_scopes::{Context, Meaning, TypeCode, TypeRefusal, array_of, points_to_const, starred};
use cs_types::CType;
use std::alloc::{AllocError, Global};

/// The type of a parameter, and, if it was written with a bound, how many elements the block has that it points to.
#[derive(Drop)]
pub struct Passed {
    pub ty: CType,
    pub block: Option<u64>,
}

/// Parameters so far, and for each whether a function without a body may write through it. The position of the first
/// name that is declared twice among them is kept, since that parameter has a type nevertheless.
#[derive(Drop)]
pub struct Head {
    pub parameters: Vec<Local>,
    pub written: Vec<bool>,
    pub twice: Option<Place>,
}

// The position of a parameter: its name, or its first token if it has none.
fn place_of(parameter: &RawParameter) -> Place
    ensures { result ≡ place_of parameter.now.place parameter.now.name }
{
    match &parameter.name {
        Some(name) => name.place,
        None => parameter.place,
    }
}

// A parameter without bounds: an array by a typedef becomes a pointer too, and structs aren't supported.
fn plainly_passed(place: Place, ty: CType) -> Result<Passed, TypeRefusal>
    ensures { Answers passed_of (plainly_passed place (shape_of ty)) result }
{
    match ty {
        CType::Void | CType::Struct(_) => Err(TypeRefusal::Code(TypeCode::IncompleteType, place)),
        CType::Array(element, count) => Ok(Passed {
            ty: CType::Pointer(element),
            block: Some(count),
        }),
        CType::Int(_) | CType::Pointer(_) => Ok(Passed { ty, block: None }),
    }
}

// A pointer to elements in place of an array of them, which may have a size.
#[tactic(auto, using(cs_scopes::proofs::Lifting::lifts))]
fn array_passed(
    alloc: Global,
    context: &Context,
    place: Place,
    size: Option<i128>,
    element: CType,
) -> Result<Passed, TypeRefusal>
    ensures { Answers passed_of (array_passed context.now place size (shape_of element)) result }
{
    match size {
        Some(number) => {
            let array = array_of(alloc, context.model, &context.table, place, number, element)?;
            plainly_passed(place, array)
        }
        None => Ok(Passed {
            ty: CType::Pointer(Box::new(alloc, element)?),
            block: None,
        }),
    }
}

// How a parameter with these bounds is passed; `base` is its type with the pointers.
fn passed_as(
    alloc: Global,
    context: &Context,
    place: Place,
    base: CType,
    sizes: &[Option<i128>],
) -> Result<Passed, TypeRefusal>
    ensures { Answers passed_of (passed context.now place (shape_of base) sizes.now) result }
{
    match sizes {
        [] => plainly_passed(place, base),
        [first, others @ ..] => {
            let element = element_of(alloc, context, place, base, others)?;
            array_passed(alloc, context, place, *first, element)
        }
    }
}

// How a parameter is passed; `base` is its type with the pointers.
#[tactic(auto, using(cs_scopes::proofs::Lifting::lifts))]
fn parameter_passed(
    alloc: Global,
    context: &Context,
    parameter: &RawParameter,
    base: CType,
) -> Result<Passed, TypeRefusal>
    ensures { Answers passed_of (parameter_passed context.now parameter.now (shape_of base))
        result }
{
    let place = place_of(parameter);
    let whole = bounded(context, place, base, &parameter.bounds)?;
    let sizes = sizes_said(alloc, context, &parameter.bounds)?;
    let found = passed_as(alloc, context, place, whole, &sizes.list)?;
    bounds_taken(sizes.refused)?;
    Ok(found)
}

// Whether a function without a body may write through the parameter.
fn may_write(parameter: &RawParameter, ty: &CType) -> bool
    ensures { result ≡ may_write parameter.now (shape_of ty.now) }
{
    let is_pointer = match ty {
        CType::Pointer(_) => true,
        _ => false,
    };
    is_pointer && !points_to_const(&parameter.specs, &parameter.pointers, &parameter.bounds)
}

// The refusal that is reported after a name that is declared twice: the name comes first.
fn refused_after(twice: Option<Place>, refusal: TypeRefusal) -> TypeRefusal
    ensures { result ≡ refused_after twice refusal }
{
    match twice {
        None => refusal,
        Some(place) => match refusal {
            TypeRefusal::Code(_, _) => TypeRefusal::Code(TypeCode::DeclaredTwice, place),
            TypeRefusal::Memory => TypeRefusal::Memory,
        },
    }
}

// How a parameter is passed after a name that may be declared twice.
fn passed_after(
    alloc: Global,
    context: &Context,
    twice: Option<Place>,
    parameter: &RawParameter,
    base: CType,
) -> Result<Passed, TypeRefusal>
    ensures { Answers passed_of
        (after_twice twice (parameter_passed context.now parameter.now (shape_of base))) result }
{
    match parameter_passed(alloc, context, parameter, base) {
        Ok(found) => Ok(found),
        Err(refusal) => Err(refused_after(twice, refusal)),
    }
}

// The type of the specifiers of a parameter after a name that may be declared twice.
fn words_after(
    alloc: Global,
    known: &mut Environment,
    twice: Option<Place>,
    parameter: &RawParameter,
) -> Result<CType, TypeRefusal>
    ensures { AnswersWith typing
        (after_twice twice (specs_type (environment_of known.old) parameter.now.place
        parameter.now.specs)) result known.new }
{
    match specs_type(alloc, known, parameter.place, &parameter.specs) {
        Ok(base) => Ok(base),
        Err(refusal) => Err(refused_after(twice, refusal)),
    }
}

// The position of the first name that is declared twice, after one more parameter.
fn twice_after(known: &Environment, parameter: &RawParameter, twice: Option<Place>) -> Option<Place>
    ensures { result ≡ twice_after parameter.now twice (environment_of known.now) }
{
    match twice {
        Some(place) => Some(place),
        None if is_declared(known, parameter) => Some(place_of(parameter)),
        None => None,
    }
}

// Whether the parameter has a name that its scope already has.
fn is_declared(known: &Environment, parameter: &RawParameter) -> bool
    ensures { result ≡ not (is_free_name parameter.now.name (environment_of known.now)) }
{
    match &parameter.name {
        Some(name) => known.is_declared_here(&name.name),
        None => false,
    }
}

impl Head {
    // Appends a parameter.
    #[tactic(auto, using(cs_scopes::proofs::Lifting::lifts))]
    fn add(
        &mut self,
        alloc: Global,
        known: &mut Environment,
        parameter: &RawParameter,
    ) -> Result<(), TypeRefusal>
        ensures { Leaves (parameter_typed parameter.now (head self.old known.old)) result
            (head self.new known.new) }
    {
        let base = words_after(alloc, known, self.twice, parameter)?;
        let twice = twice_after(known, parameter, self.twice);
        let pointed = starred(alloc, &parameter.pointers, base)?;
        let found = passed_after(alloc, &known.context, twice, parameter, pointed)?;
        self.put(alloc, known, parameter, found)?;
        Ok(())
    }

    // Appends a parameter with its type.
    fn put(
        &mut self,
        alloc: Global,
        known: &mut Environment,
        parameter: &RawParameter,
        found: Passed,
    ) -> Result<(), AllocError>
        ensures { OnOk result
            (with_parameter parameter.now (head self.old known.old) (environment_of known.old)
            (passed_of found) ≡ Fine (head self.new known.new)) }
    {
        self.written.push(may_write(parameter, &found.ty))?;
        self.twice = twice_after(known, parameter, self.twice);
        let name = match &parameter.name {
            Some(name) => {
                let number = u32::try_from(self.parameters.len()).map_err(|_| AllocError)?;
                let ty = found.ty.copy(alloc)?;
                known.declare(&name.name, Meaning::Local(number, ty))?;
                name.name.copy()?
            }
            None => Name::from_slice(alloc, b"")?,
        };
        self.parameters.push(Local {
            name,
            ty: found.ty,
            block: found.block,
        })?;
        Ok(())
    }
}

/// Returns the parameters between a function's parentheses, each of which is known after its declarator.
pub fn parameters_typed(
    alloc: Global,
    known: &mut Environment,
    parameters: &RawParameters,
) -> Result<Head, TypeRefusal>
    ensures reported { AnswersWith head (parameters_typed (environment_of known.old) parameters.now)
        result known.new }
    ensures laid_out { IsSound (environment_of known.old)
        → OnOk result (IsSound (environment_of known.new)) }
{
    let mut head = Head {
        parameters: Vec::new(alloc),
        written: Vec::new(alloc),
        twice: None,
    };
    if let RawParameters::List(list) = parameters {
        for parameter in list {
            head.add(alloc, known, parameter)?;
        }
    }
    Ok(head)
}
