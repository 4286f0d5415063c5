//! Declarators: names with the pointers before them and the array bounds after them (C11 6.7.6).
ghost use Rattle.std.specs.Prelude.{◌≡◌, ℕ, ◌+◌, ◌≤◌, ◌<◌, ◌^◌, true, false, length, drop, map, IfOk, IsSome, IsTrue};
ghost use Rattle.cs_ast.specs.declared.token.TokenKind.TheVariants as token;
ghost use Rattle.cs_ast.specs.declared.token.Punctuator.TheVariants as punctuator;
ghost use Rattle.cs_ast.specs.RawDeclarationView.{bounds_of, declarator as declarator_of};
ghost use Rattle.cs_grammar.specs.Composed.{Separated};
ghost use Rattle.cs_grammar.specs.Places.{StandsAt};
ghost use Rattle.cs_grammar.specs.Text.{pointers_text};
ghost use Rattle.cs_expr_parser.specs.Positions.{kind_or_end};
ghost use Rattle.cs_declarator_parser.specs.TreePlaces.{TreeAt};
ghost use Rattle.cs_declarator_parser.specs.Answers.{ExactAnswers};
ghost use Rattle.cs_declarator_parser.specs.Bounds.{IsBounded, IsRowBounded};
ghost use Rattle.cs_declarator_parser.specs.DeclarationAnswers.{has_no_limit, is_full, IsNameAt, IsNameFor, IsPointed, PointedAnswers, DeclaratorAnswers, DeclaratorsFor, BoundAnswer, BoundsAnswer, RefusesAfter};
ghost use Rattle.cs_declarator_parser.specs.DeclarationPlaces.{past, IsSomePlaced, IsNamePlaced, AreBracketsPlaced, IsDeclaratorPlaced, AreDeclaratorsPlaced};
ghost use Rattle.cs_declarator_parser.specs.Aptness.{IsStopApt, IsAnswerApt};

use crate::expression::{closed, closed_if_any};
use crate::names::{any_name_at, free_name_at};
use crate::source::{Scope, Source, is_punctuator, refuse, refuse_but, refuse_deep};
use crate::stop::{Stop, Taken};
use crate::words::stars;
use cs_ast::Punctuator;
use cs_ast::raw::declaration::RawDeclarator;
use cs_ast::raw::expression::RawExpr;
use cs_ast::raw::name::RawName;
use cs_ast::raw::written_type::PointerWord;
use cs_expr_parser::ExprLevel;
use std::alloc::{AllocError, Global};

/// What a declarator declares.
#[derive(Clone, Copy)]
pub enum Declares {
    /// Objects, functions or typedef names: the name is no typedef name so far, and a bound may be absent.
    Names,
    /// Members: any name is allowed, and each bound is required.
    Members,
}

/// A name with the pointers before it.
#[derive(Drop)]
pub struct Pointed {
    pub pointers: Vec<PointerWord>,
    pub name: RawName,
}

/// Returns the declarator that begins at an index.
pub fn declarator(
    alloc: Global,
    source: &Source,
    scope: Scope,
    from: usize,
    limit: u32,
    declares: Declares,
) -> Result<Taken<RawDeclarator>, Stop>
    requires within { from ≤ length source.now.tokens.now }
    requires few { length source.now.tokens.now < 2 ^ 32 }
    requires some { 1 ≤ limit }
    ensures bounds { IsBounded limit source.now.tokens.now from result }
    ensures some { IfOk result (λ taken. 1 ≤ taken.height) }
    ensures parsed { DeclaratorAnswers declares source.now.names.now limit source.now.tokens.now
        from result }
    ensures placed { IfOk result (TreeAt IsDeclaratorPlaced source.now.tokens.now from) }
    ensures apt { IsAnswerApt scope source.now.tokens.now result }
{
    let pointed = pointed_name(alloc, source, scope, from, declares)?;
    let taken = with_bounds(alloc, source, pointed, limit, declares)?;
    Ok(taken)
}

/// Returns the name, with the pointers before it, that begins at an index.
pub fn pointed_name(
    alloc: Global,
    source: &Source,
    scope: Scope,
    from: usize,
    declares: Declares,
) -> Result<Taken<Pointed>, Stop>
    requires within { from ≤ length source.now.tokens.now }
    requires few { length source.now.tokens.now < 2 ^ 32 }
    ensures bounds { IsBounded 1 source.now.tokens.now from result }
    ensures parsed { PointedAnswers declares source.now.names.now source.now.tokens.now from
        result }
    ensures placed { IfOk result (λ taken.
        StandsAt taken.tree.name.place (past (pointers_text taken.tree.pointers.items)
        (drop from source.now.tokens.now))) }
    ensures apt { IsAnswerApt scope source.now.tokens.now result }
{
    let pointers = stars(alloc, source, from)?;
    let Some(name) = name_at(source, pointers.next, declares)? else {
        let unsupported = Punctuator::OpenParenthesis;
        return Err(refuse_but(source, pointers.next, scope, unsupported));
    };
    Ok(Taken {
        tree: Pointed {
            pointers: pointers.tree,
            name,
        },
        height: 1,
        next: pointers.next + 1,
    })
}

/// Returns the name at an index, if there is one that may be declared.
fn name_at(source: &Source, at: usize, declares: Declares) -> Result<Option<RawName>, AllocError>
    ensures within { IfOk result (λ name. IsSome name → at < length source.now.tokens.now) }
    ensures name { IfOk result
        (IsNameAt (IsNameFor declares source.now.names.now)
        (kind_or_end source.now.tokens.now at)) }
    ensures placed { IfOk result (λ name. IsNamePlaced name (drop at source.now.tokens.now)) }
{
    match declares {
        Declares::Names => free_name_at(source, at),
        Declares::Members => any_name_at(source, at),
    }
}

/// Returns the declarator of a name with the bounds after it.
pub fn with_bounds(
    alloc: Global,
    source: &Source,
    pointed: Taken<Pointed>,
    limit: u32,
    declares: Declares,
) -> Result<Taken<RawDeclarator>, Stop>
    requires within { pointed.next ≤ length source.now.tokens.now }
    requires few { length source.now.tokens.now < 2 ^ 32 }
    requires some { 1 ≤ limit }
    ensures bounds { IsRowBounded limit source.now.tokens.now pointed.next result }
    ensures some { IfOk result (λ taken. 1 ≤ taken.height) }
    ensures parsed { (from : ℕ)
        → IsPointed declares source.now.names.now source.now.tokens.now from pointed
        → DeclaratorAnswers declares source.now.names.now limit source.now.tokens.now from
        result }
    ensures placed { (from : ℕ)
        → IsPointed declares source.now.names.now source.now.tokens.now from pointed
        → StandsAt pointed.tree.name.place
        (past (pointers_text pointed.tree.pointers.items) (drop from source.now.tokens.now))
        → IfOk result (TreeAt IsDeclaratorPlaced source.now.tokens.now from) }
    ensures apt { IsAnswerApt Scope.Block source.now.tokens.now result }
{
    let bounds = bounds(alloc, source, pointed.next, limit - 1, declares)?;
    Ok(Taken {
        tree: RawDeclarator {
            pointers: pointed.tree.pointers,
            place: pointed.tree.name.place,
            name: pointed.tree.name.name,
            bounds: bounds.tree,
        },
        height: bounds.height + 1,
        next: bounds.next,
    })
}

/// Returns the array bounds from an index on, each between brackets. The height is that of the highest, 0 if there is
/// none. If the limit doesn't allow the bound of a member, the bound isn't taken.
pub fn bounds(
    alloc: Global,
    source: &Source,
    from: usize,
    limit: u32,
    declares: Declares,
) -> Result<Taken<Vec<Option<RawExpr>>>, Stop>
    requires within { from ≤ length source.now.tokens.now }
    requires few { length source.now.tokens.now < 2 ^ 32 }
    ensures bounds { IsRowBounded limit source.now.tokens.now from result }
    ensures parsed { BoundsAnswer declares source.now.names.now (λ bounds. bounds_of bounds.items)
        limit source.now.tokens.now from result }
    ensures placed { IfOk result (λ taken.
        AreBracketsPlaced taken.tree.items (drop from source.now.tokens.now)) }
    ensures apt { IsAnswerApt Scope.Block source.now.tokens.now result }
{
    let mut list = Vec::new(alloc);
    let mut height = 0;
    let mut next = from;
    'bounds: while begins_bound(source, next, limit, declares) {
        let taken = bound(alloc, source, next, limit, declares)?;
        height = height.max(taken.height);
        next = taken.next;
        list.push(taken.tree)?;
    }
    Ok(Taken {
        tree: list,
        height,
        next,
    })
}

/// Whether the limit doesn't allow a bound that may not be absent.
fn lacks_limit(declares: Declares, limit: u32) -> bool
    ensures { result ≡ has_no_limit declares limit }
{
    match declares {
        Declares::Names => false,
        Declares::Members => limit == 0,
    }
}

/// Whether the bracket of a bound is at an index, and the limit allows the bound.
fn begins_bound(source: &Source, at: usize, limit: u32, declares: Declares) -> bool
    ensures bracket { IsTrue result
        → kind_or_end source.now.tokens.now at ≡ token.Punctuator punctuator.OpenBracket }
    ensures limit { IsTrue result → has_no_limit declares limit ≡ false }
    ensures other { (result ≡ false)
        → kind_or_end source.now.tokens.now at ≡ token.Punctuator punctuator.OpenBracket
        → has_no_limit declares limit ≡ true }
    ensures within { IsTrue result → at < length source.now.tokens.now }
{
    !lacks_limit(declares, limit) && is_punctuator(source, at, Punctuator::OpenBracket)
}

/// Returns the array bound between brackets; the first is at an index.
fn bound(
    alloc: Global,
    source: &Source,
    at: usize,
    limit: u32,
    declares: Declares,
) -> Result<Taken<Option<RawExpr>>, Stop>
    requires within { at < length source.now.tokens.now }
    requires few { length source.now.tokens.now < 2 ^ 32 }
    ensures bounds { IsBounded limit source.now.tokens.now at result }
    ensures parsed { BoundAnswer declares source.now.names.now limit source.now.tokens.now (at + 1)
        result }
    ensures placed { IfOk result (TreeAt IsSomePlaced source.now.tokens.now (at + 1)) }
    ensures apt { IsAnswerApt Scope.Block source.now.tokens.now result }
{
    let (level, closing) = (ExprLevel::Cond, Punctuator::CloseBracket);
    match declares {
        Declares::Names => {
            let taken = closed_if_any(alloc, source, at + 1, limit, level, closing)?;
            Ok(taken)
        }
        Declares::Members => {
            let taken = closed(alloc, source, at + 1, limit, level, closing)?;
            Ok(Taken {
                tree: Some(taken.tree),
                height: taken.height,
                next: taken.next,
            })
        }
    }
}

/// Returns the declarators, at least one, with commas between them, to after the semicolon. The height is that of the
/// highest.
pub fn declarators(
    alloc: Global,
    source: &Source,
    from: usize,
    limit: u32,
    declares: Declares,
) -> Result<Taken<Vec<RawDeclarator>>, Stop>
    requires within { from ≤ length source.now.tokens.now }
    requires few { length source.now.tokens.now < 2 ^ 32 }
    requires some { 1 ≤ limit }
    ensures bounds { IsBounded limit source.now.tokens.now from result }
    ensures parsed { ExactAnswers
        (Separated (DeclaratorsFor declares source.now.names.now)
        (token.Punctuator punctuator.Semicolon)) (λ list. map declarator_of list.items) limit
        source.now.tokens.now from result }
    ensures placed { IfOk result (λ taken.
        AreDeclaratorsPlaced taken.tree.items (drop from source.now.tokens.now)) }
    ensures apt { IsAnswerApt Scope.File source.now.tokens.now result }
{
    let scope = Scope::File;
    let mut list = Vec::new(alloc);
    let mut last = declarator(alloc, source, scope, from, limit, declares)?;
    let mut height = last.height;
    'declarators: while is_punctuator(source, last.next, Punctuator::Comma) {
        let another = declarator(alloc, source, scope, last.next + 1, limit, declares)?;
        list.push(last.tree)?;
        height = height.max(another.height);
        last = another;
    }
    list.push(last.tree)?;
    if !is_punctuator(source, last.next, Punctuator::Semicolon) {
        return Err(refuse_after(source, last.next, limit, declares));
    }
    Ok(Taken {
        tree: list,
        height,
        next: last.next + 1,
    })
}

/// Returns the refusal of the token after a declarator, at an index.
fn refuse_after(source: &Source, at: usize, limit: u32, declares: Declares) -> Stop
    requires some { 1 ≤ limit }
    ensures is { (inner : ℕ) → limit ≡ 1 + inner
        → RefusesAfter at (is_full declares inner (kind_or_end source.now.tokens.now at)) result }
    ensures apt { IsStopApt Scope.File source.now.tokens.now result }
{
    if lacks_limit(declares, limit - 1) && is_punctuator(source, at, Punctuator::OpenBracket) {
        return refuse_deep(at);
    }
    refuse(source, at, Scope::File)
}
