//! Integer constant expressions (C11 6.6) and null pointer constants (C11 6.3.2.3).
ghost use Rattle.std.specs.Prelude.{◌≡◌, IfSome};
ghost use Rattle.cs_types.specs.Shape.{shape_of};
ghost use Rattle.cs_types.specs.IntType.{IsIntegerOfC};
ghost use Rattle.cs_ast.specs.TypedView.{typed, form};
ghost use Rattle.cs_folding.specs.Folding.{number_in, is_null, is_null_cast, is_null_form, is_void_pointer};

use crate::arithmetic::{applied, compared, is_zero, kept, truth, turned};
use cs_ast::typed::expression::{Expr, ExprKind};
use cs_types::{CType, DataModel, is_void, wrap};

/// Returns the number of an integer constant expression, if the expression is one and its operators have results; they needn't
/// have any if its value isn't needed.
pub fn number_in(model: DataModel, needed: bool, value: &Expr) -> Option<i128>
    ensures value { result ≡ number_in model needed (typed value.now) }
    ensures small { IfSome result IsIntegerOfC }
{
    let CType::Int(ty) = &value.ty else {
        return None;
    };
    match &*value.kind {
        ExprKind::Number(number) => kept(model, *ty, *number),
        ExprKind::Convert(value) => Some(wrap(model, *ty, number_in(model, needed, value)?)),
        ExprKind::Unary(operator, operand) => {
            turned(
                model,
                needed,
                *operator,
                *ty,
                number_in(model, needed, operand)?,
            )
        }
        ExprKind::Not(operand) => Some(truth(number_in(model, needed, operand)? == 0)),
        ExprKind::Binary(operator, left, right) => applied(
            model,
            needed,
            *operator,
            *ty,
            number_in(model, needed, left)?,
            number_in(model, needed, right)?,
        ),
        ExprKind::Compare(operator, left, right) => Some(truth(compared(
            *operator,
            number_in(model, needed, left)?,
            number_in(model, needed, right)?,
        ))),
        ExprKind::And(left, right) => {
            let left = number_in(model, needed, left)?;
            let right = number_in(model, needed && left != 0, right)?;
            Some(truth(left != 0 && right != 0))
        }
        ExprKind::Or(left, right) => {
            let left = number_in(model, needed, left)?;
            let right = number_in(model, needed && left == 0, right)?;
            Some(truth(left != 0 || right != 0))
        }
        ExprKind::Choice(test, one, other) => {
            let test = number_in(model, needed, test)?;
            let one = number_in(model, needed && test != 0, one)?;
            let other = number_in(model, needed && test == 0, other)?;
            Some(if test != 0 { one } else { other })
        }
        _ => None,
    }
}

/// Whether the expression is a null pointer constant.
#[tactic(auto, unfolding(crate::specs::Folding::is_null))]
pub fn is_null(model: DataModel, value: &Expr) -> bool
    ensures { result ≡ is_null model (typed value.now) }
{
    if is_void_pointer(&value.ty) && is_null_kind(&*value.kind) {
        return true;
    }
    is_zero(number_in(model, true, value))
}

/// Whether a pointer becomes the null pointer when it is cast to a pointer type, by the types that both point to: if it is a
/// null pointer constant and is cast neither to its own type nor to `void *` (C11 6.3.2.3, paragraph 3).
#[tactic(auto, unfolding(crate::specs::Folding::is_null_cast))]
pub fn is_null_cast(model: DataModel, value: &Expr, to: &CType, from: &CType) -> bool
    ensures { result ≡ is_null_cast model (typed value.now) (shape_of to.now) (shape_of from.now) }
{
    *to != *from && !is_void(to) && is_null(model, value)
}

// Whether the type is `void *`.
fn is_void_pointer(ty: &CType) -> bool
    ensures { result ≡ is_void_pointer (shape_of ty.now) }
{
    match ty {
        CType::Pointer(target) => is_void(target),
        _ => false,
    }
}

// Whether the expression is the null pointer.
fn is_null_kind(kind: &ExprKind) -> bool
    ensures { result ≡ is_null_form (form kind.now) }
{
    match kind {
        ExprKind::Null => true,
        _ => false,
    }
}
