//! Initializers (C11 6.7.9).
ghost use Rattle.std.specs.Prelude.{◌≡◌, ◌≤◌, ◌<◌, ◌^◌, length, true, IfOk, IsTrue};
ghost use Rattle.cs_ast.specs.declared.token.TokenKind.TheVariants as token;
ghost use Rattle.cs_ast.specs.declared.token.Punctuator.TheVariants as punctuator;
ghost use Rattle.cs_ast.specs.RawDeclarationView.{initial as initial_of};
ghost use Rattle.cs_grammar.specs.DeclarationClasses.{Values};
ghost use Rattle.cs_expr_parser.specs.Positions.{kind_or_end};
ghost use Rattle.cs_declarator_parser.specs.TreePlaces.{UnclosedTreeAt};
ghost use Rattle.cs_declarator_parser.specs.Answers.{UnclosedAnswers};
ghost use Rattle.cs_declarator_parser.specs.DeclarationAnswers.{is_designator};
ghost use Rattle.cs_declarator_parser.specs.Bounds.{IsUnclosedBounded};
ghost use Rattle.cs_declarator_parser.specs.DeclarationPlaces.{IsInitialPlaced};
ghost use Rattle.cs_declarator_parser.specs.Aptness.{IsUnclosedApt};

use crate::constants::{closing_at, goes_on};
use crate::expression::expression;
use crate::source::{Scope, Source, is_punctuator, reason_at, refuse_deep};
use crate::stop::{Stop, Unclosed};
use cs_ast::Punctuator;
use cs_ast::raw::declaration::RawInitial;
use cs_expr_parser::ExprLevel;
use cs_grammar::Reason;
use std::alloc::Global;

/// Returns the initializer: an expression without a comma, or items between braces.
#[cycle(initial)]
pub fn initial(
    alloc: Global,
    source: &Source,
    scope: Scope,
    from: usize,
    limit: u32,
) -> Result<Unclosed<RawInitial>, Stop>
    requires within { from ≤ length source.now.tokens.now }
    requires few { length source.now.tokens.now < 2 ^ 32 }
    requires some { 1 ≤ limit }
    ensures bounds { IsUnclosedBounded limit source.now.tokens.now from result }
    ensures parsed { UnclosedAnswers (Values source.now.names.now) initial_of limit
        source.now.tokens.now from result }
    ensures placed { IfOk result (UnclosedTreeAt IsInitialPlaced source.now.tokens.now from) }
    ensures apt { IsUnclosedApt scope source.now.tokens.now result }
{
    if is_punctuator(source, from, Punctuator::OpenBrace) {
        return items(alloc, source, scope, from, limit);
    }
    if begins_designator(source, from) {
        return Err(Stop::Refused(from, Reason::Unsupported));
    }
    let value = expression(alloc, source, from, limit, ExprLevel::Assign)?;
    Ok(Unclosed {
        tree: RawInitial::Value(value.tree),
        height: value.height,
        next: value.next,
        otherwise: value.otherwise,
    })
}

/// Whether a designator begins with the token at an index.
fn begins_designator(source: &Source, at: usize) -> bool
    ensures { IsTrue result → is_designator (kind_or_end source.now.tokens.now at) ≡ true }
{
    is_punctuator(source, at, Punctuator::Dot) || is_punctuator(source, at, Punctuator::OpenBracket)
}

/// Returns the items between braces, at least one; the first brace is at an index.
#[cycle(initial)]
fn items(
    alloc: Global,
    source: &Source,
    scope: Scope,
    from: usize,
    limit: u32,
) -> Result<Unclosed<RawInitial>, Stop>
    requires within { from < length source.now.tokens.now }
    requires few { length source.now.tokens.now < 2 ^ 32 }
    requires stands { kind_or_end source.now.tokens.now from
        ≡ token.Punctuator punctuator.OpenBrace }
    ensures bounds { IsUnclosedBounded limit source.now.tokens.now from result }
    ensures parsed { UnclosedAnswers (Values source.now.names.now) initial_of limit
        source.now.tokens.now from result }
    ensures placed { IfOk result (UnclosedTreeAt IsInitialPlaced source.now.tokens.now from) }
    ensures apt { IsUnclosedApt scope source.now.tokens.now result }
{
    if limit < 2 {
        return Err(refuse_deep(from));
    }
    let mut list = Vec::new(alloc);
    let mut last = initial(alloc, source, scope, from + 1, limit - 1)?;
    let mut height = last.height;
    'items: while goes_on(source, last.next) {
        let another = initial(alloc, source, scope, last.next + 1, limit - 1)?;
        list.push(last.tree)?;
        height = height.max(another.height);
        last = another;
    }
    list.push(last.tree)?;
    let comma = is_punctuator(source, last.next, Punctuator::Comma);
    let closing = closing_at(last.next, comma);
    if !is_punctuator(source, closing, Punctuator::CloseBrace) {
        return Err(Stop::Refused(closing, last.otherwise));
    }
    Ok(Unclosed {
        tree: RawInitial::List(list, comma),
        height: height + 1,
        next: closing + 1,
        otherwise: reason_at(source, closing + 1, scope),
    })
}
