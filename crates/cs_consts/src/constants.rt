//! Integer constant expressions, replaced by their numbers (C11 6.6).
ghost use Rattle.std.specs.Prelude.{◌≡◌};
ghost use Rattle.cs_types.specs.Shape.{shape_of};
ghost use Rattle.cs_ast.specs.TypedView.{typed};
ghost use Rattle.cs_folding.specs.Folding.{number_in};
ghost use Rattle.cs_scopes.specs.Verdicts.{Yields};
ghost use Rattle.cs_consts.specs.Constants.{integer_in, constant_at, finished};

use crate::purpose::Purpose;
use cs_ast::typed::expression::Expr;
use cs_expressions::number;
use cs_folding::number_in;
use cs_scopes::{TypeCode, TypeRefusal};
use cs_types::{CType, DataModel, IntType};
use std::alloc::Global;

/// Returns an expression for its purpose: in a constant it is replaced by its number.
#[tactic(auto, unfolding(crate::specs::Constants::finished))]
pub fn finished(
    alloc: Global,
    model: DataModel,
    purpose: Purpose,
    value: Expr,
) -> Result<Expr, TypeRefusal>
    ensures { Yields (finished model purpose (typed value)) result }
{
    match purpose {
        Purpose::Run => Ok(value),
        Purpose::Constant => constant(alloc, model, true, value),
        Purpose::Unneeded => constant(alloc, model, false, value),
    }
}

// An integer constant expression, replaced by its number.
fn constant(alloc: Global, model: DataModel, needed: bool, value: Expr) -> Result<Expr, TypeRefusal>
    ensures { Yields (constant_at value.place (shape_of value.ty)
        (number_in model needed (typed value))) result }
{
    let place = value.place;
    let Some(ty) = integer_type(&value.ty) else {
        return Err(TypeRefusal::Code(TypeCode::NotConstant, place));
    };
    match number_in(model, needed, &value) {
        Some(found) => {
            let made = number(alloc, place, ty, found)?;
            Ok(made)
        }
        None => Err(TypeRefusal::Code(TypeCode::NotConstant, place)),
    }
}

// The type as an integer type, if it is one.
fn integer_type(ty: &CType) -> Option<IntType>
    ensures { result ≡ integer_in (shape_of ty.now) }
{
    match ty {
        CType::Int(ty) => Some(*ty),
        _ => None,
    }
}
