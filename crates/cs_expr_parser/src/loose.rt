//! The loosest expressions: conditional ones, assignments, and those with commas (C11 6.5.15 to 6.5.17).
ghost use Rattle.std.specs.Prelude.{◌≡◌, ◌≤◌, ◌<◌, ◌^◌, ◌+◌, ◌-◌, length, max, IfOk, IsSome};
ghost use Rattle.cs_expr_parser.specs.Places.{IsOkPlaced, IsBuiltWith, IsBuiltOfThree};
ghost use Rattle.cs_ast.specs.RawTree.{Choice, Assign, Comma};
ghost use Rattle.cs_ast.specs.RawView.{written};
ghost use Rattle.cs_grammar.specs.Levels.{COMMA, ASSIGN, CHOICE};
ghost use Rattle.cs_expr_parser.specs.LastTokens.{IsStopReported};
ghost use Rattle.cs_expr_parser.specs.Parts.{IsBounded, IsNode, Answers};
ghost use Rattle.cs_expr_parser.specs.Operators.{IsAssignAt};
ghost use Rattle.cs_expr_parser.specs.Positions.{kind_or_end};

use crate::ends::is_unary;
use crate::infix::infix;
use crate::nodes::{assign as assign_node, choice as choice_node, comma as comma_node};
use crate::postfix::deepened;
use crate::stop::{Stop, Taken};
use crate::tokens::{is_punctuator, place_at, punctuator_at, refuse_after};
use cs_ast::raw::operator::AssignOp;
use cs_ast::{Punctuator, Token};
use cs_grammar::{TypedefNames, assign_operator};
use std::alloc::{AllocError, Global};

/// The level of the loosest infix operators.
const INFIX: u32 = 3;

/// Returns the conditional expression, or the tighter one, that begins at an index.
#[cycle(expression)]
pub fn choice(
    alloc: Global,
    tokens: &[Token],
    names: &TypedefNames,
    from: usize,
    limit: u32,
) -> Result<Taken, Stop>
    requires within { from ≤ length tokens.now }
    requires few { length tokens.now < 2 ^ 32 }
    ensures bounds { IsBounded limit tokens.now from result }
    ensures parsed { Answers names.now CHOICE limit tokens.now from result }
    ensures reported { IsStopReported names.now tokens.now from result }
    ensures placed { IsOkPlaced tokens.now from result }
{
    let test = infix(alloc, tokens, names, from, limit, INFIX)?;
    if !is_punctuator(tokens, test.next, Punctuator::Question) {
        return Ok(test);
    }
    if test.height >= limit {
        return Ok(deepened(test));
    }
    let one = comma(alloc, tokens, names, test.next + 1, limit - 1)?;
    if !is_punctuator(tokens, one.next, Punctuator::Colon) {
        return Err(refuse_after(tokens, &one));
    }
    let other = choice(alloc, tokens, names, one.next + 1, limit - 1)?;
    Ok(chosen(alloc, tokens, test, one, other)?)
}

/// Returns the conditional expression of its three parts.
fn chosen(
    alloc: Global,
    tokens: &[Token],
    test: Taken,
    one: Taken,
    other: Taken,
) -> Result<Taken, AllocError>
    requires within { test.next < length tokens.now }
    requires low { (test.height < 2 ^ 32 - 1) × (one.height < 2 ^ 32 - 1)
        × (other.height < 2 ^ 32 - 1) }
    ensures node { IfOk result
        (IsNode (Choice (written test.tree) (written one.tree) (written other.tree))
        (max (max test.height one.height) other.height + 1) other.next other.deep) }
    ensures placed { IfOk result (IsBuiltOfThree tokens.now test one other) }
{
    let place = place_at(tokens, test.next);
    let tree = choice_node(alloc, place, test.tree, one.tree, other.tree)?;
    Ok(Taken {
        tree,
        height: test.height.max(one.height).max(other.height) + 1,
        next: other.next,
        deep: other.deep,
    })
}

/// Returns the assignment, or the tighter expression, that begins at an index.
#[cycle(expression)]
pub fn assign(
    alloc: Global,
    tokens: &[Token],
    names: &TypedefNames,
    from: usize,
    limit: u32,
) -> Result<Taken, Stop>
    requires within { from ≤ length tokens.now }
    requires few { length tokens.now < 2 ^ 32 }
    ensures bounds { IsBounded limit tokens.now from result }
    ensures parsed { Answers names.now ASSIGN limit tokens.now from result }
    ensures reported { IsStopReported names.now tokens.now from result }
    ensures placed { IsOkPlaced tokens.now from result }
{
    let object = choice(alloc, tokens, names, from, limit)?;
    let Some(operator) = assign_operator_at(tokens, object.next) else {
        return Ok(object);
    };
    if !is_unary(&object.tree) {
        return Ok(object);
    }
    if object.height >= limit {
        return Ok(deepened(object));
    }
    let value = assign(alloc, tokens, names, object.next + 1, limit - 1)?;
    Ok(stored(alloc, tokens, operator, object, value)?)
}

/// Returns the assignment operator at an index, if there is one.
fn assign_operator_at(tokens: &[Token], at: usize) -> Option<AssignOp>
    ensures within { IsSome result → at < length tokens.now }
    ensures operator { IsAssignAt (kind_or_end tokens.now at) result }
{
    assign_operator(punctuator_at(tokens, at)?)
}

/// Returns the assignment of a value to an object, with the operator between them.
fn stored(
    alloc: Global,
    tokens: &[Token],
    operator: AssignOp,
    object: Taken,
    value: Taken,
) -> Result<Taken, AllocError>
    requires within { object.next < length tokens.now }
    requires low { (object.height < 2 ^ 32 - 1) × (value.height < 2 ^ 32 - 1) }
    ensures node { IfOk result
        (IsNode (Assign operator (written object.tree) (written value.tree))
        (max object.height value.height + 1) value.next value.deep) }
    ensures placed { IfOk result (IsBuiltWith tokens.now object value) }
{
    let place = place_at(tokens, object.next);
    let tree = assign_node(alloc, place, operator, object.tree, value.tree)?;
    Ok(Taken {
        tree,
        height: object.height.max(value.height) + 1,
        next: value.next,
        deep: value.deep,
    })
}

/// Returns the expression with commas, or the tighter one, that begins at an index.
#[cycle(expression)]
pub fn comma(
    alloc: Global,
    tokens: &[Token],
    names: &TypedefNames,
    from: usize,
    limit: u32,
) -> Result<Taken, Stop>
    requires within { from ≤ length tokens.now }
    requires few { length tokens.now < 2 ^ 32 }
    ensures bounds { IsBounded limit tokens.now from result }
    ensures parsed { Answers names.now COMMA limit tokens.now from result }
    ensures reported { IsStopReported names.now tokens.now from result }
    ensures placed { IsOkPlaced tokens.now from result }
{
    let mut first = assign(alloc, tokens, names, from, limit)?;
    'chain: while is_punctuator(tokens, first.next, Punctuator::Comma) {
        if first.height >= limit {
            return Ok(deepened(first));
        }
        let second = assign(alloc, tokens, names, first.next + 1, limit - 1)?;
        first = followed(alloc, tokens, first, second)?;
    }
    Ok(first)
}

/// Returns the comma expression of two expressions.
fn followed(
    alloc: Global,
    tokens: &[Token],
    first: Taken,
    second: Taken,
) -> Result<Taken, AllocError>
    requires within { first.next < length tokens.now }
    requires low { (first.height < 2 ^ 32 - 1) × (second.height < 2 ^ 32 - 1) }
    ensures node { IfOk result
        (IsNode (Comma (written first.tree) (written second.tree))
        (max first.height second.height + 1) second.next second.deep) }
    ensures placed { IfOk result (IsBuiltWith tokens.now first second) }
{
    let place = place_at(tokens, first.next);
    let tree = comma_node(alloc, place, first.tree, second.tree)?;
    Ok(Taken {
        tree,
        height: first.height.max(second.height) + 1,
        next: second.next,
        deep: second.deep,
    })
}
