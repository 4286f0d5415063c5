//! The types of declared objects (C11 6.7).
ghost use Rattle.std.specs.Prelude.{◌≡◌};
ghost use Rattle.cs_types.specs.Shape.{shape_of};
ghost use Rattle.cs_scopes.specs.Verdicts.{Answers};
ghost use Rattle.cs_declarations.specs.Objects.{count_given, object_type};

use crate::forms::elements_given;
use crate::sizes::declarator_type;
use cs_ast::raw::declaration::{RawFirstValue, RawInit};
use cs_scopes::{Context, TypeRefusal, complete_at};
use cs_types::CType;
use std::alloc::Global;

// How many elements the initializer after an `=` gives.
fn count_given(first: &Option<RawFirstValue>) -> Option<usize>
    ensures { result ≡ count_given first.now }
{
    match first {
        Some(first) => Some(elements_given(&first.initial)),
        None => None,
    }
}

/// Returns the type of a declared object, which has to be complete (C11 6.7, paragraph 7).
#[tactic(auto, using(cs_scopes::proofs::Lifting::lifts))]
pub fn object_type(
    alloc: Global,
    context: &Context,
    base: &CType,
    declared: &RawInit,
) -> Result<CType, TypeRefusal>
    ensures { Answers shape_of (object_type context.now (shape_of base.now) declared.now) result }
{
    let count = count_given(&declared.initial);
    let ty = declarator_type(alloc, context, base, count, &declared.declarator)?;
    complete_at(&context.table, declared.declarator.place, ty)
}
