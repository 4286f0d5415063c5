//! Constants that may initialize file-scope objects: numbers and addresses (C11 6.6).
ghost use Rattle.std.specs.Prelude.{◌≡◌};
ghost use Rattle.cs_ast.specs.TypedView.{typed};
ghost use Rattle.cs_folding.specs.Addresses.{is_number, is_null_address, is_static_address, is_static_part, is_address};

use crate::folding::number_in;
use cs_ast::typed::expression::{Expr, ExprKind};
use cs_types::DataModel;

/// Whether the expression is an integer constant expression (C11 6.6, paragraph 6).
pub fn is_number(model: DataModel, value: &Expr) -> bool
    ensures { result ≡ is_number model (typed value.now) }
{
    number_in(model, true, value).is_some()
}

// Whether the value points to a file-scope object or a string literal, or to a part of one, with constant subscripts, plus or
// minus constants.
#[cycle(addresses)]
fn is_static_address(model: DataModel, value: &Expr) -> bool
    ensures { result ≡ is_static_address model (typed value.now) }
{
    match &*value.kind {
        ExprKind::Address(object) | ExprKind::Decay(object) => is_static_part(model, object),
        ExprKind::Sum(address, amount, _, _) => {
            is_static_address(model, address) && is_number(model, amount)
        }
        ExprKind::Convert(value) => is_static_address(model, value),
        _ => false,
    }
}

// Whether the object is a file-scope object, a string literal, or a part of one, with constant subscripts.
#[cycle(addresses)]
fn is_static_part(model: DataModel, object: &Expr) -> bool
    ensures { result ≡ is_static_part model (typed object.now) }
{
    match &*object.kind {
        ExprKind::Global(_) | ExprKind::Text(_) => true,
        ExprKind::Member(object, _) => is_static_part(model, object),
        ExprKind::Index(elements, number, _) => {
            is_static_address(model, elements) && is_number(model, number)
        }
        _ => false,
    }
}

// Whether the value is the null pointer, converted or not.
fn is_null_address(value: &Expr) -> bool
    ensures { result ≡ is_null_address (typed value.now) }
{
    match &*value.kind {
        ExprKind::Null => true,
        ExprKind::Convert(value) => is_null_address(value),
        _ => false,
    }
}

/// Whether the value is an address constant (C11 6.6, paragraph 9). The null pointer has no elements, so it has no sums.
pub fn is_address(model: DataModel, value: &Expr) -> bool
    ensures { result ≡ is_address model (typed value.now) }
{
    is_null_address(value) || is_static_address(model, value)
}
