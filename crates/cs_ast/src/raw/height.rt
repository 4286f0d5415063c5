//! The height of written expressions: a leaf has height 1, any other node one more than its highest child.
ghost use Rattle.std.specs.Prelude.{◌≡◌, ◌<◌, ◌^◌};
ghost use Rattle.cs_ast.specs.RawView.{written, written_kind, written_list};
ghost use Rattle.cs_ast.specs.RawDeclarationView.{bounds_of};
ghost use Rattle.cs_ast.specs.RawHeight as tree;
ghost use Rattle.cs_ast.specs.RawFileHeight as file;
ghost use Rattle.std.specs.Option.{option_map};

use crate::raw::expression::{RawExpr, RawExprKind};

impl RawExpr {
    /// Returns the height of the expression.
    #[cycle(raw_height)]
    pub fn height(&self) -> u32
        requires { tree.height (written self.now) < 2 ^ 32 }
        ensures { result ≡ tree.height (written self.now) }
    {
        match &*self.kind {
            RawExprKind::Name(_)
            | RawExprKind::Number(_)
            | RawExprKind::Character(_)
            | RawExprKind::Text(_) => 1,
            RawExprKind::Parenthesis(inner) => 1 + inner.height(),
            RawExprKind::Index(array, number) => 1 + array.height().max(number.height()),
            RawExprKind::Call(function, arguments) => 1
                + function.height().max(1 + highest(arguments)),
            RawExprKind::Member(object, _) => 1 + object.height(),
            RawExprKind::Arrow(pointer, _) => 1 + pointer.height(),
            RawExprKind::StepAfter(_, object) => 1 + object.height(),
            RawExprKind::StepBefore(_, object) => 1 + object.height(),
            RawExprKind::Prefix(_, operand) => 1 + operand.height(),
            RawExprKind::SizeOf(operand) => 1 + operand.height(),
            RawExprKind::SizeOfType(_, bounds) => 1 + highest(bounds).max(1),
            RawExprKind::Cast(_, bounds, operand) => 1 + highest(bounds).max(operand.height()),
            RawExprKind::Infix(_, left, right) => 1 + left.height().max(right.height()),
            RawExprKind::Choice(test, one, other) => 1
                + test.height().max(one.height().max(other.height())),
            RawExprKind::Assign(_, object, value) => 1 + object.height().max(value.height()),
            RawExprKind::Comma(first, second) => 1 + first.height().max(second.height()),
        }
    }
}

/// Returns the height of the highest of some expressions, 0 if there is none.
#[cycle(raw_height)]
pub fn highest(list: &[RawExpr]) -> u32
    requires { tree.highest (written_list list.now) < 2 ^ 32 }
    ensures { result ≡ tree.highest (written_list list.now) }
{
    let mut best = 0;
    for expression in list {
        best = best.max(expression.height());
    }
    best
}

/// Returns the height of an optional expression, 0 if it is absent.
pub fn height_of_some(expression: &Option<RawExpr>) -> u32
    requires { file.height_of_some (option_map written expression.now) < 2 ^ 32 }
    ensures { result ≡ file.height_of_some (option_map written expression.now) }
{
    match expression {
        None => 0,
        Some(expression) => expression.height(),
    }
}

/// Returns the height of the highest bound of an array, 0 if there is none.
pub fn highest_bound(bounds: &[Option<RawExpr>]) -> u32
    requires { file.highest_by file.height_of_some (bounds_of bounds.now) < 2 ^ 32 }
    ensures { result ≡ file.highest_by file.height_of_some (bounds_of bounds.now) }
{
    let mut best = 0;
    for bound in bounds {
        best = best.max(height_of_some(bound));
    }
    best
}
