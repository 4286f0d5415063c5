//! Postfix expressions (C11 6.5.2).
ghost use Rattle.std.specs.Prelude.{◌≡◌, ℕ, ◌≤◌, ◌<◌, ◌^◌, ◌+◌, ◌-◌, false, true, Some, length, max, IfOk, IsSome, drop, if◌then◌else◌};
ghost use Rattle.cs_grammar.specs.Places.{HasPlaces};
ghost use Rattle.cs_expr_parser.specs.Places.{IsOkPlaced, IsBuiltAfter, IsBuiltWith, IsBuiltWithRow, PlacesMember};
ghost use Rattle.cs_ast.specs.RawTree.{Index, Call, Member, Arrow, StepAfter};
ghost use Rattle.cs_ast.specs.RawView.{written, written_list};
ghost use Rattle.cs_grammar.specs.Levels.{POSTFIX};
ghost use Rattle.cs_ast.specs.declared.token.TokenKind.TheVariants as token;
ghost use Rattle.cs_expr_parser.specs.LastTokens.{IsStopReported};
ghost use Rattle.cs_expr_parser.specs.Parts.{IsBounded, IsNode, IsSelected, IsChainFrom, Answers, ChainAnswers};
ghost use Rattle.cs_expr_parser.specs.Positions.{kind_or_end, IsSuffixAt};

use crate::lists::{Listed, arguments};
use crate::loose::comma;
use crate::nodes::{arrow, call, index, member, step_after};
use crate::primary::primary;
use crate::stop::{Stop, Taken};
use crate::tokens::{is_punctuator, name_at, place_at, punctuator_at, refuse, refuse_after};
use cs_ast::raw::expression::RawExpr;
use cs_ast::raw::name::RawName;
use cs_ast::raw::operator::Step;
use cs_ast::{Place, Punctuator, Token};
use cs_grammar::TypedefNames;
use std::alloc::{AllocError, Global};

/// Returns the postfix expression that begins at an index.
#[cycle(expression)]
pub fn postfix(
    alloc: Global,
    tokens: &[Token],
    names: &TypedefNames,
    from: usize,
    limit: u32,
) -> Result<Taken, Stop>
    requires within { from ≤ length tokens.now }
    requires few { length tokens.now < 2 ^ 32 }
    ensures bounds { IsBounded limit tokens.now from result }
    ensures parsed { Answers names.now POSTFIX limit tokens.now from result }
    ensures reported { IsStopReported names.now tokens.now from result }
    ensures placed { IsOkPlaced tokens.now from result }
{
    let mut left = primary(alloc, tokens, names, from, limit)?;
    'chain: while let Some(punctuator) = suffix_at(tokens, left.next) {
        if left.height >= limit {
            return Ok(deepened(left));
        }
        left = suffixed(alloc, tokens, names, left, punctuator, limit)?;
    }
    Ok(left)
}

/// Returns the expression, with the flag set that an expression above the limit continues it.
pub fn deepened(taken: Taken) -> Taken
    ensures node { IsNode (written taken.tree) taken.height taken.next true result }
    ensures same { result.tree ≡ taken.tree }
{
    Taken {
        tree: taken.tree,
        height: taken.height,
        next: taken.next,
        deep: true,
    }
}

/// Returns the punctuator at an index, if it begins a suffix of an operand.
fn suffix_at(tokens: &[Token], at: usize) -> Option<Punctuator>
    ensures within { IsSome result → at < length tokens.now }
    ensures punctuator { IsSuffixAt (kind_or_end tokens.now at) result }
{
    match punctuator_at(tokens, at) {
        Some(punctuator) => suffix_of(punctuator),
        None => None,
    }
}

fn suffix_of(punctuator: Punctuator) -> Option<Punctuator>
    ensures { IsSuffixAt (token.Punctuator punctuator) result }
{
    match punctuator {
        Punctuator::OpenBracket => Some(punctuator),
        Punctuator::OpenParenthesis => Some(punctuator),
        Punctuator::Dot => Some(punctuator),
        Punctuator::Arrow => Some(punctuator),
        Punctuator::Increment => Some(punctuator),
        Punctuator::Decrement => Some(punctuator),
        _ => None,
    }
}

/// Returns the operand with the suffix that begins with this punctuator.
#[cycle(expression)]
fn suffixed(
    alloc: Global,
    tokens: &[Token],
    names: &TypedefNames,
    left: Taken,
    punctuator: Punctuator,
    limit: u32,
) -> Result<Taken, Stop>
    requires within { left.next < length tokens.now }
    requires stands { IsSuffixAt (kind_or_end tokens.now left.next) (Some punctuator) }
    requires low { left.height < limit }
    requires some { 1 ≤ left.height }
    requires few { length tokens.now < 2 ^ 32 }
    ensures bounds { IsBounded limit tokens.now left.next result }
    ensures chained { (from : ℕ) → IsChainFrom names.now POSTFIX limit tokens.now from left
        → ChainAnswers names.now POSTFIX limit tokens.now from result }
    ensures reported { (from : ℕ) → IsChainFrom names.now POSTFIX limit tokens.now from left
        → IsStopReported names.now tokens.now from result }
    ensures placed { (from : ℕ) → IsChainFrom names.now POSTFIX limit tokens.now from left
        → HasPlaces left.tree (drop from tokens.now) → IsOkPlaced tokens.now from result }
{
    match punctuator {
        Punctuator::OpenBracket => {
            let number = comma(alloc, tokens, names, left.next + 1, limit - 1)?;
            if !is_punctuator(tokens, number.next, Punctuator::CloseBracket) {
                return Err(refuse_after(tokens, &number));
            }
            Ok(indexed(alloc, tokens, left, number)?)
        }
        Punctuator::OpenParenthesis => {
            let listed = arguments(alloc, tokens, names, left.next + 1, limit - 2)?;
            Ok(called(alloc, tokens, left, listed)?)
        }
        Punctuator::Dot => selected(alloc, tokens, left, false),
        Punctuator::Arrow => selected(alloc, tokens, left, true),
        Punctuator::Increment => Ok(stepped(alloc, tokens, left, Step::Up)?),
        _ => Ok(stepped(alloc, tokens, left, Step::Down)?),
    }
}

/// `left [ number ]`
fn indexed(alloc: Global, tokens: &[Token], left: Taken, number: Taken) -> Result<Taken, AllocError>
    requires within { left.next < length tokens.now }
    requires low { (left.height < 2 ^ 32 - 1) × (number.height < 2 ^ 32 - 1) }
    requires few { number.next < 2 ^ 32 }
    ensures node { IfOk result
        (IsNode (Index (written left.tree) (written number.tree))
        (max left.height number.height + 1) (number.next + 1) false) }
    ensures placed { IfOk result (IsBuiltWith tokens.now left number) }
{
    let tree = index(alloc, place_at(tokens, left.next), left.tree, number.tree)?;
    Ok(Taken {
        tree,
        height: left.height.max(number.height) + 1,
        next: number.next + 1,
        deep: false,
    })
}

/// `left ( arguments )`
fn called(alloc: Global, tokens: &[Token], left: Taken, listed: Listed) -> Result<Taken, AllocError>
    requires within { left.next < length tokens.now }
    requires low { (left.height < 2 ^ 32 - 1) × (listed.height < 2 ^ 32 - 2) }
    ensures node { IfOk result
        (IsNode (Call (written left.tree) (written_list listed.trees.items))
        (max left.height (listed.height + 1) + 1) listed.next false) }
    ensures placed { IfOk result (IsBuiltWithRow tokens.now left listed) }
{
    let tree = call(alloc, place_at(tokens, left.next), left.tree, listed.trees)?;
    Ok(Taken {
        tree,
        height: left.height.max(listed.height + 1) + 1,
        next: listed.next,
        deep: false,
    })
}

/// Returns the operand with the dot or arrow and the name of a member after it.
fn selected(alloc: Global, tokens: &[Token], left: Taken, through: bool) -> Result<Taken, Stop>
    requires within { left.next < length tokens.now }
    requires low { left.height < 2 ^ 32 - 1 }
    requires few { left.next < 2 ^ 32 }
    ensures node { IsSelected through (written left.tree) left.height left.next tokens.now result }
    ensures placed { IfOk result (IsBuiltAfter tokens.now left) }
{
    let Some(name) = name_at(tokens, left.next + 1) else {
        return Err(refuse(tokens, left.next + 1, false));
    };
    let place = place_at(tokens, left.next);
    let name = RawName {
        place: place_at(tokens, left.next + 1),
        name: name.copy()?,
    };
    let tree = selected_node(alloc, place, left.tree, name, through)?;
    Ok(Taken {
        tree,
        height: left.height + 1,
        next: left.next + 2,
        deep: false,
    })
}

fn selected_node(
    alloc: Global,
    place: Place,
    object: RawExpr,
    name: RawName,
    through: bool,
) -> Result<RawExpr, AllocError>
    ensures tree { IfOk result (λ tree.
        written tree ≡ (if through then Arrow (written object) name.name
        else Member (written object) name.name)) }
    ensures placed { IfOk result (PlacesMember place object name) }
{
    if through {
        arrow(alloc, place, object, name)
    } else {
        member(alloc, place, object, name)
    }
}

/// Returns the operand with `++` or `--` after it.
fn stepped(alloc: Global, tokens: &[Token], left: Taken, by: Step) -> Result<Taken, AllocError>
    requires within { left.next < length tokens.now }
    requires low { left.height < 2 ^ 32 - 1 }
    requires few { left.next < 2 ^ 32 }
    ensures node { IfOk result
        (IsNode (StepAfter by (written left.tree)) (left.height + 1) (left.next + 1) false) }
    ensures placed { IfOk result (IsBuiltAfter tokens.now left) }
{
    let tree = step_after(alloc, place_at(tokens, left.next), by, left.tree)?;
    Ok(Taken {
        tree,
        height: left.height + 1,
        next: left.next + 1,
        deep: false,
    })
}
