//! Accesses: what a load or a store needs to know of the expression that designates an object.
ghost use Rattle.std.specs.Prelude.{◌≡◌};
ghost use Rattle.cs_types.specs.Shape.{shape_of};
ghost use Rattle.cs_ast.specs.TypedView.{typed};
ghost use Rattle.cs_meaning.specs.Types as types;
ghost use Rattle.cs_meaning.specs.Access as loads;
ghost use Rattle.cs_objects.specs.AccessView.{access_of};

use cs_ast::Place;
use cs_ast::typed::expression::{Expr, ExprKind};
use cs_types::CType;

/// What a load or a store needs to know of the expression that designates an object.
#[derive(Clone, Copy)]
pub struct Access<'a> {
    pub place: Place,
    pub ty: &'a CType,
    /// Whether the expression is a variable, or a member of one: such an object is accessed without a check.
    pub direct: bool,
    /// The declaration of the scalar local that it designates, if it is one.
    pub local: Option<u32>,
}

/// Returns the access to the object that an expression designates.
pub fn access_of(e: &Expr) -> Access<'_>
    ensures { access_of result ≡ loads.access_of (typed e.now) }
{
    Access {
        place: e.place,
        ty: &e.ty,
        direct: is_direct(e),
        local: scalar_local(e),
    }
}

// Whether an expression is a variable, or a member of one.
fn is_direct(e: &Expr) -> bool
    ensures { result ≡ loads.is_direct (typed e.now) }
{
    match &*e.kind {
        ExprKind::Local(_) => true,
        ExprKind::Global(_) => true,
        ExprKind::Member(object, _) => is_direct(object),
        ExprKind::Number(_) | ExprKind::Null | ExprKind::Text(_) => false,
        ExprKind::Through(_) | ExprKind::Index(_, _, _) | ExprKind::Arrow(_, _) => false,
        ExprKind::Load(_) | ExprKind::Address(_) | ExprKind::Decay(_) => false,
        ExprKind::Convert(_) | ExprKind::Unary(_, _) | ExprKind::Not(_) => false,
        ExprKind::Binary(_, _, _) | ExprKind::Compare(_, _, _) => false,
        ExprKind::Sum(_, _, _, _) | ExprKind::Difference(_, _) => false,
        ExprKind::And(_, _) | ExprKind::Or(_, _) | ExprKind::Choice(_, _, _) => false,
        ExprKind::Comma(_, _) | ExprKind::Assign(_, _) => false,
        ExprKind::Update(_, _, _, _, _) | ExprKind::Move(_, _, _, _) => false,
        ExprKind::Call(_, _) | ExprKind::Allocate(_, _, _) | ExprKind::Free(_) => false,
    }
}

/// Whether a type is a scalar (C11 6.2.5, paragraph 21).
pub fn is_scalar(ty: &CType) -> bool
    ensures { result ≡ types.is_scalar (shape_of ty.now) }
{
    match ty {
        CType::Int(_) | CType::Pointer(_) => true,
        CType::Void | CType::Array(_, _) | CType::Struct(_) => false,
    }
}

// Returns the declaration that an expression designates, if it is a scalar local of the function.
fn scalar_local(e: &Expr) -> Option<u32>
    ensures { result ≡ loads.scalar_local (typed e.now) }
{
    match &*e.kind {
        ExprKind::Local(declaration) => {
            if is_scalar(&e.ty) {
                Some(*declaration)
            } else {
                None
            }
        }
        ExprKind::Number(_) | ExprKind::Null | ExprKind::Text(_) | ExprKind::Global(_) => None,
        ExprKind::Through(_) | ExprKind::Index(_, _, _) | ExprKind::Member(_, _) => None,
        ExprKind::Arrow(_, _) | ExprKind::Load(_) | ExprKind::Address(_) => None,
        ExprKind::Decay(_) | ExprKind::Convert(_) | ExprKind::Unary(_, _) => None,
        ExprKind::Not(_) | ExprKind::Binary(_, _, _) | ExprKind::Compare(_, _, _) => None,
        ExprKind::Sum(_, _, _, _) | ExprKind::Difference(_, _) | ExprKind::And(_, _) => None,
        ExprKind::Or(_, _) | ExprKind::Choice(_, _, _) | ExprKind::Comma(_, _) => None,
        ExprKind::Assign(_, _) | ExprKind::Update(_, _, _, _, _) => None,
        ExprKind::Move(_, _, _, _) | ExprKind::Call(_, _) => None,
        ExprKind::Allocate(_, _, _) | ExprKind::Free(_) => None,
    }
}
