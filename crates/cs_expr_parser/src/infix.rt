//! Left-associative infix operators (C11 6.5.5 to 6.5.14).
ghost use Rattle.std.specs.Prelude.{◌≡◌, ◌≤◌, ◌<◌, ◌^◌, ◌+◌, ◌-◌, length, max, IfOk, IsSome};
ghost use Rattle.cs_expr_parser.specs.Places.{IsOkPlaced, IsBuiltWith};
ghost use Rattle.cs_ast.specs.RawTree.{Infix};
ghost use Rattle.cs_ast.specs.RawView.{written};
ghost use Rattle.cs_expr_parser.specs.LastTokens.{IsStopReported};
ghost use Rattle.cs_expr_parser.specs.Parts.{IsBounded, IsNode, Answers};
ghost use Rattle.cs_expr_parser.specs.Operators.{IsInfixAt};
ghost use Rattle.cs_expr_parser.specs.Positions.{kind_or_end};

use crate::nodes::infix as infix_node;
use crate::postfix::deepened;
use crate::stop::{Stop, Taken};
use crate::tokens::{place_at, punctuator_at};
use crate::unary::cast;
use cs_ast::Token;
use cs_ast::raw::operator::InfixOp;
use cs_grammar::{TypedefNames, infix_level, infix_operator};
use std::alloc::{AllocError, Global};

/// The level of casts, which are the operands of the tightest infix operators.
const CASTS: u32 = 13;

/// Returns the expression with operators of this level or a tighter one that begins at an index.
#[cycle(expression)]
pub fn infix(
    alloc: Global,
    tokens: &[Token],
    names: &TypedefNames,
    from: usize,
    limit: u32,
    level: u32,
) -> Result<Taken, Stop>
    requires within { from ≤ length tokens.now }
    requires few { length tokens.now < 2 ^ 32 }
    requires infix { 3 ≤ level }
    requires tight { level ≤ 13 }
    ensures bounds { IsBounded limit tokens.now from result }
    ensures parsed { Answers names.now level limit tokens.now from result }
    ensures reported { IsStopReported names.now tokens.now from result }
    ensures placed { IsOkPlaced tokens.now from result }
{
    if level == CASTS {
        return cast(alloc, tokens, names, from, limit);
    }
    let mut left = infix(alloc, tokens, names, from, limit, level + 1)?;
    'chain: while let Some(operator) = operator_at(tokens, left.next, level) {
        if left.height >= limit {
            return Ok(deepened(left));
        }
        let right = infix(alloc, tokens, names, left.next + 1, limit - 1, level + 1)?;
        left = joined(alloc, tokens, operator, left, right)?;
    }
    Ok(left)
}

/// Returns the operator of this level at an index, if there is one.
fn operator_at(tokens: &[Token], at: usize, level: u32) -> Option<InfixOp>
    ensures within { IsSome result → at < length tokens.now }
    ensures operator { IsInfixAt level (kind_or_end tokens.now at) result }
{
    let operator = infix_operator(punctuator_at(tokens, at)?)?;
    if infix_level(operator) == level {
        Some(operator)
    } else {
        None
    }
}

/// Returns the infix expression of two operands, with the operator between them.
fn joined(
    alloc: Global,
    tokens: &[Token],
    operator: InfixOp,
    left: Taken,
    right: Taken,
) -> Result<Taken, AllocError>
    requires within { left.next < length tokens.now }
    requires low { (left.height < 2 ^ 32 - 1) × (right.height < 2 ^ 32 - 1) }
    ensures node { IfOk result
        (IsNode (Infix operator (written left.tree) (written right.tree))
        (max left.height right.height + 1) right.next right.deep) }
    ensures placed { IfOk result (IsBuiltWith tokens.now left right) }
{
    let place = place_at(tokens, left.next);
    let tree = infix_node(alloc, place, operator, left.tree, right.tree)?;
    Ok(Taken {
        tree,
        height: left.height.max(right.height) + 1,
        next: right.next,
        deep: right.deep,
    })
}
