//! Casts and unary expressions (C11 6.5.3, 6.5.4).
ghost use Rattle.std.specs.Prelude.{◌≡◌, ◌↔◌, ◌≤◌, ◌<◌, ◌^◌, ◌+◌, ◌-◌, false, length, max, IfOk, IsSome, IsTrue};
ghost use Rattle.cs_expr_parser.specs.Places.{IsOkPlaced, IsBuiltBefore, IsTypeConverting, IsTypeMeasured, PlacesBefore};
ghost use Rattle.cs_ast.specs.RawTree.{Cast, SizeOfType};
ghost use Rattle.cs_ast.specs.RawView.{written, written_list};
ghost use Rattle.cs_grammar.specs.Levels.{CAST, UNARY};
ghost use Rattle.cs_expr_parser.specs.declared.unary.Before.TheVariants.{Size};
ghost use Rattle.cs_ast.specs.declared.token.TokenKind.TheVariants as token;
ghost use Rattle.cs_ast.specs.declared.token.Punctuator.TheVariants.{OpenParenthesis};
ghost use Rattle.cs_expr_parser.specs.LastTokens.{IsStopReported};
ghost use Rattle.cs_expr_parser.specs.Parts.{IsBounded, IsNode, Answers};
ghost use Rattle.cs_expr_parser.specs.Unary.{opens_type as type_opens, before_text, prefixed_tree, IsOperatorAt};
ghost use Rattle.cs_expr_parser.specs.Positions.{kind_or_end};

use crate::loose::comma;
use crate::nodes::{cast as cast_node, prefix, size_of, size_of_type, step_before};
use crate::postfix::postfix;
use crate::stop::{Stop, Taken};
use crate::tokens::{
    begins_type, is_brace, is_punctuator, keyword_at, place_at, punctuator_at, refuse,
    refuse_in_type,
};
use crate::types::{TakenType, parenthesised_type};
use cs_ast::raw::expression::RawExpr;
use cs_ast::raw::operator::{PrefixOp, Step};
use cs_ast::{Keyword, Place, Punctuator, Token};
use cs_grammar::{TypedefNames, prefix_operator, step};
use std::alloc::{AllocError, Global};

/// What precedes the operand of a unary expression.
#[derive(Clone, Copy)]
pub enum Before {
    /// `++` or `--`, before a unary expression.
    Step(Step),
    /// Another prefix operator, before a cast.
    Operator(PrefixOp),
    /// `sizeof`, before a unary expression or a type.
    Size,
}

/// Whether an opening parenthesis and a type after it are at an index.
fn opens_type(tokens: &[Token], names: &TypedefNames, at: usize) -> bool
    requires few { at < 2 ^ 33 }
    ensures opens { result ≡ type_opens names.now (kind_or_end tokens.now at)
        (kind_or_end tokens.now (at + 1)) }
    ensures within { IsTrue result → at < length tokens.now }
{
    is_punctuator(tokens, at, Punctuator::OpenParenthesis) && begins_type(tokens, names, at + 1)
}

/// Returns the cast, or the unary expression, that begins at an index.
#[cycle(expression)]
pub fn cast(
    alloc: Global,
    tokens: &[Token],
    names: &TypedefNames,
    from: usize,
    limit: u32,
) -> Result<Taken, Stop>
    requires within { from ≤ length tokens.now }
    requires few { length tokens.now < 2 ^ 32 }
    ensures bounds { IsBounded limit tokens.now from result }
    ensures parsed { Answers names.now CAST limit tokens.now from result }
    ensures reported { IsStopReported names.now tokens.now from result }
    ensures placed { IsOkPlaced tokens.now from result }
{
    if !opens_type(tokens, names, from) {
        return unary(alloc, tokens, names, from, limit);
    }
    if limit < 2 {
        return Err(refuse(tokens, from, true));
    }
    let taken = parenthesised_type(alloc, tokens, names, from + 1, limit - 1)?;
    if is_brace(tokens, taken.next) {
        return Err(refuse_in_type(tokens, taken.next, true));
    }
    let operand = cast(alloc, tokens, names, taken.next, limit - 1)?;
    Ok(converted(alloc, tokens, from, taken, operand)?)
}

/// Returns the cast of the operand to a type between parentheses, the first of which is at an index.
fn converted(
    alloc: Global,
    tokens: &[Token],
    from: usize,
    taken: TakenType,
    operand: Taken,
) -> Result<Taken, AllocError>
    requires within { from < length tokens.now }
    requires low { (taken.height < 2 ^ 32 - 1) × (operand.height < 2 ^ 32 - 1) }
    ensures node { IfOk result
        (IsNode (Cast taken.ty.words.items taken.ty.pointers.items (written_list taken.bounds.items)
        (written operand.tree)) (max taken.height operand.height + 1) operand.next operand.deep) }
    ensures placed { IfOk result (IsTypeConverting tokens.now from taken operand) }
{
    let place = place_at(tokens, from);
    let tree = cast_node(alloc, place, taken.ty, taken.bounds, operand.tree)?;
    Ok(Taken {
        tree,
        height: taken.height.max(operand.height) + 1,
        next: operand.next,
        deep: operand.deep,
    })
}

/// Returns the unary expression that begins at an index.
#[cycle(expression)]
pub fn unary(
    alloc: Global,
    tokens: &[Token],
    names: &TypedefNames,
    from: usize,
    limit: u32,
) -> Result<Taken, Stop>
    requires within { from ≤ length tokens.now }
    requires few { length tokens.now < 2 ^ 32 }
    ensures bounds { IsBounded limit tokens.now from result }
    ensures parsed { Answers names.now UNARY limit tokens.now from result }
    ensures reported { IsStopReported names.now tokens.now from result }
    ensures placed { IsOkPlaced tokens.now from result }
{
    let Some(before) = operator_at(tokens, from) else {
        return postfix(alloc, tokens, names, from, limit);
    };
    if limit < 2 {
        return Err(refuse(tokens, from, true));
    }
    match before {
        Before::Step(_) => {
            let operand = unary(alloc, tokens, names, from + 1, limit - 1)?;
            Ok(prefixed(alloc, tokens, from, before, operand)?)
        }
        Before::Operator(_) => {
            let operand = cast(alloc, tokens, names, from + 1, limit - 1)?;
            Ok(prefixed(alloc, tokens, from, before, operand)?)
        }
        Before::Size => sized(alloc, tokens, names, from, limit),
    }
}

/// Returns the prefix at an index, if there is one that an operand may follow.
fn operator_at(tokens: &[Token], at: usize) -> Option<Before>
    ensures within { IsSome result → at < length tokens.now }
    ensures operator { IsOperatorAt (kind_or_end tokens.now at) result }
{
    if let Some(punctuator) = punctuator_at(tokens, at) {
        return operator_of(punctuator);
    }
    match keyword_at(tokens, at) {
        Some(Keyword::Sizeof) => Some(Before::Size),
        _ => None,
    }
}

fn operator_of(punctuator: Punctuator) -> Option<Before>
    ensures { IsOperatorAt (token.Punctuator punctuator) result }
{
    if let Some(by) = step(punctuator) {
        return Some(Before::Step(by));
    }
    if let Some(operator) = prefix_operator(punctuator) {
        return Some(Before::Operator(operator));
    }
    None
}

/// Returns the operand with its prefix.
fn prefixed(
    alloc: Global,
    tokens: &[Token],
    from: usize,
    before: Before,
    operand: Taken,
) -> Result<Taken, AllocError>
    requires within { from < length tokens.now }
    requires low { operand.height < 2 ^ 32 - 1 }
    ensures node { IfOk result
        (IsNode (prefixed_tree before (written operand.tree)) (operand.height + 1) operand.next
        operand.deep) }
    ensures placed { IfOk result (IsBuiltBefore tokens.now from operand) }
{
    let place = place_at(tokens, from);
    let tree = prefixed_node(alloc, place, before, operand.tree)?;
    Ok(Taken {
        tree,
        height: operand.height + 1,
        next: operand.next,
        deep: operand.deep,
    })
}

fn prefixed_node(
    alloc: Global,
    place: Place,
    before: Before,
    operand: RawExpr,
) -> Result<RawExpr, AllocError>
    ensures tree { IfOk result (λ tree. written tree ≡ prefixed_tree before (written operand)) }
    ensures placed { IfOk result (PlacesBefore place operand) }
{
    match before {
        Before::Step(by) => step_before(alloc, place, by, operand),
        Before::Operator(operator) => prefix(alloc, place, operator, operand),
        Before::Size => size_of(alloc, place, operand),
    }
}

/// Returns the `sizeof` of a type or of an expression (C11 6.5.3.4).
#[cycle(expression)]
fn sized(
    alloc: Global,
    tokens: &[Token],
    names: &TypedefNames,
    from: usize,
    limit: u32,
) -> Result<Taken, Stop>
    requires within { from < length tokens.now }
    requires least { 2 ≤ limit }
    requires few { length tokens.now < 2 ^ 32 }
    requires stands { kind_or_end tokens.now from ≡ before_text Size }
    ensures bounds { IsBounded limit tokens.now from result }
    ensures parsed { Answers names.now UNARY limit tokens.now from result }
    ensures reported { IsStopReported names.now tokens.now from result }
    ensures placed { IsOkPlaced tokens.now from result }
{
    if opens_type(tokens, names, from + 1) {
        let taken = parenthesised_type(alloc, tokens, names, from + 2, limit - 1)?;
        return Ok(measured(alloc, tokens, from, taken)?);
    }
    // At a limit of 2 the parenthesis can only be that of a type, so that the token after it is refused.
    if is_narrow(tokens, from + 1, limit) {
        return comma(alloc, tokens, names, from + 2, 0);
    }
    let operand = unary(alloc, tokens, names, from + 1, limit - 1)?;
    Ok(prefixed(alloc, tokens, from, Before::Size, operand)?)
}

/// Whether an opening parenthesis is at an index that, by the limit, only a type can follow.
fn is_narrow(tokens: &[Token], at: usize, limit: u32) -> bool
    ensures { IsTrue result ↔ ((limit ≡ 2)
        × (kind_or_end tokens.now at ≡ token.Punctuator OpenParenthesis)) }
{
    limit == 2 && is_punctuator(tokens, at, Punctuator::OpenParenthesis)
}

/// Returns the `sizeof`, at an index, of a type.
fn measured(
    alloc: Global,
    tokens: &[Token],
    from: usize,
    taken: TakenType,
) -> Result<Taken, AllocError>
    requires within { from < length tokens.now }
    requires low { taken.height < 2 ^ 32 - 1 }
    ensures node { IfOk result
        (IsNode (SizeOfType taken.ty.words.items taken.ty.pointers.items
        (written_list taken.bounds.items)) (max taken.height 1 + 1) taken.next false) }
    ensures placed { IfOk result (IsTypeMeasured tokens.now from taken) }
{
    let place = place_at(tokens, from);
    let tree = size_of_type(alloc, place, taken.ty, taken.bounds)?;
    Ok(Taken {
        tree,
        height: taken.height.max(1) + 1,
        next: taken.next,
        deep: false,
    })
}
