//! Declared objects, each with its initializer (C11 6.7).
ghost use Rattle.std.specs.Prelude.{◌≡◌, ℕ, ◌≤◌, ◌<◌, ◌^◌, List, length, drop, map, IfOk};
ghost use Rattle.cs_ast.specs.declared.token.Token.{Token};
ghost use Rattle.cs_ast.specs.declared.token.TokenKind.TheVariants as token;
ghost use Rattle.cs_ast.specs.declared.token.Punctuator.TheVariants as punctuator;
ghost use Rattle.cs_ast.specs.RawDeclarationView.{declared};
ghost use Rattle.cs_grammar.specs.Composed.{Separated};
ghost use Rattle.cs_grammar.specs.DeclarationClasses.{Objects};
ghost use Rattle.cs_declarator_parser.specs.TreePlaces.{UnclosedTreeAt};
ghost use Rattle.cs_declarator_parser.specs.declared.declarator.Declares.TheVariants as declaring;
ghost use Rattle.cs_declarator_parser.specs.Answers.{IsUnclosed, ExactAnswers, UnclosedAnswers};
ghost use Rattle.cs_declarator_parser.specs.DeclarationAnswers.{IsDeclaratorTaken, IsAlone};
ghost use Rattle.cs_declarator_parser.specs.Bounds.{IsBounded, IsUnclosedBounded, IsUnclosedRowBounded};
ghost use Rattle.cs_declarator_parser.specs.DeclarationPlaces.{IsDeclaratorPlaced, IsDeclaredPlaced, AreObjectsPlaced};
ghost use Rattle.cs_expr_parser.specs.Positions.{kind_or_end};
ghost use Rattle.cs_declarator_parser.specs.Aptness.{IsApt, IsAnswerApt, IsUnclosedApt};

use crate::declarator::{Declares, declarator};
use crate::initial::initial;
use crate::source::{Scope, Source, is_punctuator, place_at, reason_at};
use crate::stop::{Stop, Taken, Unclosed};
use cs_ast::Punctuator;
use cs_ast::raw::declaration::{RawDeclarator, RawFirstValue, RawInit};
use cs_grammar::Reason;
use std::alloc::Global;

/// Returns the objects, at least one, with commas between them, to after the semicolon. The height is that of the
/// highest.
pub fn objects(
    alloc: Global,
    source: &Source,
    scope: Scope,
    from: usize,
    limit: u32,
) -> Result<Taken<Vec<RawInit>>, Stop>
    requires within { from ≤ length source.now.tokens.now }
    requires few { length source.now.tokens.now < 2 ^ 32 }
    requires some { 1 ≤ limit }
    ensures bounds { IsBounded limit source.now.tokens.now from result }
    ensures parsed { ExactAnswers
        (Separated (Objects source.now.names.now) (token.Punctuator punctuator.Semicolon))
        (λ list. map declared list.items) limit source.now.tokens.now from result }
    ensures placed { IfOk result (λ taken.
        AreObjectsPlaced taken.tree.items (drop from source.now.tokens.now)) }
    ensures apt { IsAnswerApt scope source.now.tokens.now result }
{
    let first = object(alloc, source, scope, from, limit)?;
    let all = with_others(alloc, source, scope, first, limit)?;
    Ok(all)
}

/// Returns the objects, of which the first was taken already, to after the semicolon.
pub fn with_others(
    alloc: Global,
    source: &Source,
    scope: Scope,
    first: Unclosed<RawInit>,
    limit: u32,
) -> Result<Taken<Vec<RawInit>>, Stop>
    requires within { first.next ≤ length source.now.tokens.now }
    requires few { length source.now.tokens.now < 2 ^ 32 }
    requires some { 1 ≤ limit }
    requires low { first.height ≤ limit }
    requires apt { IsApt scope (kind_or_end source.now.tokens.now first.next) first.otherwise }
    ensures bounds { IsBounded limit source.now.tokens.now first.next result }
    ensures parsed { (from : ℕ)
        → IsUnclosed (Objects source.now.names.now) declared limit source.now.tokens.now from
        first
        → ExactAnswers (Separated (Objects source.now.names.now)
        (token.Punctuator punctuator.Semicolon)) (λ list. map declared list.items) limit
        source.now.tokens.now from result }
    ensures placed { (from : ℕ)
        → IsUnclosed (Objects source.now.names.now) declared limit source.now.tokens.now from
        first → IsDeclaredPlaced first.tree (drop from source.now.tokens.now)
        → IfOk result (λ taken.
        AreObjectsPlaced taken.tree.items (drop from source.now.tokens.now)) }
    ensures apt { IsAnswerApt scope source.now.tokens.now result }
{
    // Usually there is no other.
    let mut list = Vec::with_capacity(alloc, 1)?;
    let mut height = first.height;
    let mut last = first;
    'objects: while is_punctuator(source, last.next, Punctuator::Comma) {
        let another = object(alloc, source, scope, last.next + 1, limit)?;
        list.push(last.tree)?;
        height = height.max(another.height);
        last = another;
    }
    list.push(last.tree)?;
    if !is_punctuator(source, last.next, Punctuator::Semicolon) {
        return Err(Stop::Refused(last.next, last.otherwise));
    }
    Ok(Taken {
        tree: list,
        height,
        next: last.next + 1,
    })
}

fn object(
    alloc: Global,
    source: &Source,
    scope: Scope,
    from: usize,
    limit: u32,
) -> Result<Unclosed<RawInit>, Stop>
    requires within { from ≤ length source.now.tokens.now }
    requires few { length source.now.tokens.now < 2 ^ 32 }
    requires some { 1 ≤ limit }
    ensures bounds { IsUnclosedBounded limit source.now.tokens.now from result }
    ensures parsed { UnclosedAnswers (Objects source.now.names.now) declared limit
        source.now.tokens.now from result }
    ensures placed { IfOk result (UnclosedTreeAt IsDeclaredPlaced source.now.tokens.now from) }
    ensures apt { IsUnclosedApt scope source.now.tokens.now result }
{
    let declarator = declarator(alloc, source, scope, from, limit, Declares::Names)?;
    let object = with_value(alloc, source, scope, declarator, limit)?;
    Ok(object)
}

/// Returns the object of a declarator, with its initializer if it has one.
pub fn with_value(
    alloc: Global,
    source: &Source,
    scope: Scope,
    declarator: Taken<RawDeclarator>,
    limit: u32,
) -> Result<Unclosed<RawInit>, Stop>
    requires within { declarator.next ≤ length source.now.tokens.now }
    requires few { length source.now.tokens.now < 2 ^ 32 }
    requires some { 1 ≤ declarator.height }
    requires low { declarator.height ≤ limit }
    ensures bounds { IsUnclosedRowBounded limit source.now.tokens.now declarator.next result }
    ensures parsed { (from : ℕ)
        → IsDeclaratorTaken declaring.Names source.now.names.now limit source.now.tokens.now from
        declarator → UnclosedAnswers (Objects source.now.names.now) declared limit
        source.now.tokens.now from result }
    ensures placed { (from : ℕ)
        → IsDeclaratorTaken declaring.Names source.now.names.now limit source.now.tokens.now from
        declarator → IsDeclaratorPlaced declarator.tree (drop from source.now.tokens.now)
        → IfOk result (UnclosedTreeAt IsDeclaredPlaced source.now.tokens.now from) }
    ensures apt { IsUnclosedApt scope source.now.tokens.now result }
{
    let at = declarator.next;
    if !is_punctuator(source, at, Punctuator::Equal) {
        return Ok(alone(declarator, reason_at(source, at, scope)));
    }
    if declarator.height >= limit {
        return Ok(alone(declarator, Reason::TooDeep));
    }
    let value = initial(alloc, source, scope, at + 1, limit - 1)?;
    Ok(Unclosed {
        tree: RawInit {
            declarator: declarator.tree,
            initial: Some(RawFirstValue {
                place: place_at(source, at),
                initial: value.tree,
            }),
        },
        height: declarator.height.max(value.height) + 1,
        next: value.next,
        otherwise: value.otherwise,
    })
}

/// Returns the object of a declarator without an initializer, and why the token after it is refused.
fn alone(declarator: Taken<RawDeclarator>, otherwise: Reason) -> Unclosed<RawInit>
    ensures tree { IsAlone declarator.tree result.tree }
    ensures height { result.height ≡ declarator.height }
    ensures next { result.next ≡ declarator.next }
    ensures otherwise { result.otherwise ≡ otherwise }
    ensures placed { (tokens : List Token) → IsDeclaratorPlaced declarator.tree tokens
        → IsDeclaredPlaced result.tree tokens }
{
    Unclosed {
        tree: RawInit {
            declarator: declarator.tree,
            initial: None,
        },
        height: declarator.height,
        next: declarator.next,
        otherwise,
    }
}
