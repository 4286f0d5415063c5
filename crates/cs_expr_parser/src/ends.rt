//! The level of an expression, and its last part.
ghost use Rattle.std.specs.Prelude.{◌≡◌, nat_le};
ghost use Rattle.cs_ast.specs.RawView.{written, written_kind};
ghost use Rattle.cs_grammar.specs.Levels.{level_of};
ghost use Rattle.cs_expr_parser.specs.Reasons.{ends_in_type};

use cs_ast::raw::expression::{RawExpr, RawExprKind};

/// Whether the last part of the expression is `sizeof ( type )`, so that it ends with a type between parentheses.
#[cycle(ends)]
pub fn ends_with_type(tree: &RawExpr) -> bool
    ensures { result ≡ ends_in_type (written tree.now) }
{
    kind_ends_with_type(&*tree.kind)
}

#[cycle(ends)]
fn kind_ends_with_type(kind: &RawExprKind) -> bool
    ensures { result ≡ ends_in_type (written_kind kind.now) }
{
    match kind {
        RawExprKind::SizeOfType(_, _) => true,
        RawExprKind::StepBefore(_, last) | RawExprKind::Prefix(_, last) => ends_with_type(last),
        RawExprKind::SizeOf(last) | RawExprKind::Cast(_, _, last) => ends_with_type(last),
        RawExprKind::Infix(_, _, last) | RawExprKind::Choice(_, _, last) => ends_with_type(last),
        RawExprKind::Assign(_, _, last) | RawExprKind::Comma(_, last) => ends_with_type(last),
        _ => false,
    }
}

/// Whether the expression is a unary one (C11 6.5.3), so that it may be the left operand of an assignment.
pub fn is_unary(tree: &RawExpr) -> bool
    ensures { result ≡ nat_le 14 (level_of (written tree.now)) }
{
    match &*tree.kind {
        RawExprKind::Cast(_, _, _) | RawExprKind::Infix(_, _, _) => false,
        RawExprKind::Choice(_, _, _) | RawExprKind::Assign(_, _, _) => false,
        RawExprKind::Comma(_, _) => false,
        _ => true,
    }
}
