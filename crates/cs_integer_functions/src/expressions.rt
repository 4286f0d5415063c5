//! Expressions of integer functions.
ghost use Rattle.std.specs.Prelude.{◌≡◌};
ghost use Rattle.cs_ast.specs.TypedView.{typed, some_typed};
ghost use Rattle.cs_integer_functions.specs.IntegerFunctions as definition;

use cs_ast::typed::expression::{Expr, ExprKind};

/// Whether an expression and all its parts are numbers, locals, loads and stores of these, conversions and operators of integers.
pub fn is_integer(e: &Expr) -> bool
    ensures { result ≡ definition.is_integer (typed e.now) }
{
    match &*e.kind {
        ExprKind::Number(_) | ExprKind::Local(_) => true,
        ExprKind::Load(part) | ExprKind::Convert(part) => is_integer(part),
        ExprKind::Unary(_, part) | ExprKind::Not(part) => is_integer(part),
        ExprKind::Binary(_, left, right) => is_integer(left) && is_integer(right),
        ExprKind::Compare(_, left, right) => is_integer(left) && is_integer(right),
        ExprKind::And(left, right) | ExprKind::Or(left, right) => {
            is_integer(left) && is_integer(right)
        }
        ExprKind::Choice(test, one, other) => {
            is_integer(test) && is_integer(one) && is_integer(other)
        }
        ExprKind::Comma(first, second) => is_integer(first) && is_integer(second),
        ExprKind::Assign(object, value) => is_integer(object) && is_integer(value),
        ExprKind::Update(_, object, value, _, _) => is_integer(object) && is_integer(value),
        _ => false,
    }
}

/// The same for an expression that may be missing.
pub fn is_integer_if_any(e: &Option<Expr>) -> bool
    ensures { result ≡ definition.is_integer_if_any (some_typed e.now) }
{
    match e {
        Some(e) => is_integer(e),
        None => true,
    }
}
