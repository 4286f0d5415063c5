//! The constants of enums (C11 6.7.2.2).
ghost use Rattle.std.specs.Prelude.{◌≡◌, pos, OnOk};
ghost use Rattle.cs_scopes.specs.Verdicts.{Answers};
ghost use Rattle.cs_declarations.specs.Answered.{AnswersWith};
ghost use Rattle.cs_declarations.specs.Bodies.{number_said, constant_declared, constants_declared, enum_body};
ghost use Rattle.cs_declarations.specs.View.{environment_of, typing, counting};

use crate::environment::Environment;
use cs_ast::Place;
use cs_ast::raw::declaration::RawEnumerator;
use cs_ast::raw::expression::RawExpr;
use cs_consts::value;
use cs_names::Name;
use cs_scopes::{Context, Meaning, TagMeaning, TypeCode, TypeRefusal};
use cs_types::{CType, IntType, in_range};
use std::alloc::Global;

// The number that is written for a constant, or else the next one.
#[tactic(auto, using(cs_scopes::proofs::Lifting::lifts))]
fn number_said(
    alloc: Global,
    context: &Context,
    next: i128,
    said: &Option<RawExpr>,
) -> Result<i128, TypeRefusal>
    ensures { Answers (λ number. number) (number_said context.now next said.now) result }
{
    match said {
        None => Ok(next),
        Some(tree) => {
            let (_, number) = value(alloc, context, tree)?;
            Ok(number)
        }
    }
}

// Declares a constant, and returns the next number.
#[tactic(auto, using(cs_scopes::proofs::Lifting::lifts))]
fn declare_constant(
    alloc: Global,
    known: &mut Environment,
    next: i128,
    constant: &RawEnumerator,
) -> Result<i128, TypeRefusal>
    ensures reported { AnswersWith counting
        (constant_declared constant.now (counting next known.old)) result known.new }
    ensures reading { OnOk result (known.new.reading.items ≡ known.old.reading.items) }
    ensures tags { OnOk result (known.new.context.scope.tags ≡ known.old.context.scope.tags) }
{
    if known.is_declared_here(&constant.name) {
        return Err(TypeRefusal::Code(TypeCode::DeclaredTwice, constant.place));
    }
    let number = number_said(alloc, &known.context, next, &constant.value)?;
    if !in_range(known.context.model, IntType::Int, number) {
        return Err(TypeRefusal::Code(TypeCode::NotConstant, constant.place));
    }
    known.declare(&constant.name, Meaning::Constant(number))?;
    Ok(number + 1)
}

// Declares constants, each with its written number, or with one more than the constant before it. Returns the next number.
fn declare_constants(
    alloc: Global,
    known: &mut Environment,
    constants: &[RawEnumerator],
) -> Result<i128, TypeRefusal>
    ensures reported { AnswersWith counting
        (constants_declared constants.now (counting (pos 0) known.old)) result known.new }
    ensures reading { OnOk result (known.new.reading.items ≡ known.old.reading.items) }
    ensures tags { OnOk result (known.new.context.scope.tags ≡ known.old.context.scope.tags) }
{
    let mut next = 0;
    for constant in constants {
        next = declare_constant(alloc, known, next, constant)?;
    }
    Ok(next)
}

/// Returns the type of the body of an enum at the position of its tag, which is new, and known after the body.
#[tactic(auto, using(cs_scopes::proofs::Lifting::lifts))]
pub fn enum_body(
    alloc: Global,
    known: &mut Environment,
    place: Place,
    tag: &Option<Name>,
    constants: &[RawEnumerator],
) -> Result<CType, TypeRefusal>
    ensures reported { AnswersWith typing
        (enum_body (environment_of known.old) place tag.now constants.now) result known.new }
    ensures reading { OnOk result (known.new.reading.items ≡ known.old.reading.items) }
{
    if let Some(name) = tag
        && known.context.scope.tags.meaning(name).is_some()
    {
        return Err(TypeRefusal::Code(TypeCode::DeclaredTwice, place));
    }
    declare_constants(alloc, known, constants)?;
    if let Some(name) = tag {
        known.add_tag(name, TagMeaning::Enum)?;
    }
    Ok(CType::Int(IntType::Int))
}
