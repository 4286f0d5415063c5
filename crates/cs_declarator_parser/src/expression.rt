//! Expressions as parts of declarations and statements, with the punctuators that close them.
ghost use Rattle.std.specs.Prelude.{◌≤◌, ◌<◌, ◌+◌, ◌^◌, length, IfOk, IsTrue};
ghost use Rattle.cs_ast.specs.RawView.{written};
ghost use Rattle.cs_grammar.specs.Parsing.{Expressions};
ghost use Rattle.cs_grammar.specs.Places.{HasPlaces};
ghost use Rattle.cs_grammar.specs.FileClasses.{Tests};
ghost use Rattle.cs_expr_parser.specs.Expression.{level_asked};
ghost use Rattle.cs_declarator_parser.specs.TreePlaces.{TreeAt, UnclosedTreeAt};
ghost use Rattle.cs_declarator_parser.specs.Answers.{ExactAnswers, UnclosedAnswers, closes};
ghost use Rattle.cs_declarator_parser.specs.DeclarationAnswers.{ClosedAnswer, ClosedIfAnyAnswer};
ghost use Rattle.cs_declarator_parser.specs.DeclarationPlaces.{IsSomePlaced};
ghost use Rattle.cs_declarator_parser.specs.Bounds.{IsBounded, IsUnclosedBounded, IsPhraseOf};
ghost use Rattle.cs_declarator_parser.specs.Aptness.{IsAnswerApt, IsUnclosedApt};

use crate::source::{Scope, Source, is_punctuator, refuse};
use crate::stop::{Stop, Taken, Unclosed};
use cs_ast::Punctuator;
use cs_ast::raw::expression::RawExpr;
use cs_expr_parser::{ExprLevel, Phrase, expression_at};
use std::alloc::Global;

/// Returns the expression of a level that begins at an index.
pub fn expression(
    alloc: Global,
    source: &Source,
    from: usize,
    limit: u32,
    level: ExprLevel,
) -> Result<Unclosed<RawExpr>, Stop>
    requires within { from ≤ length source.now.tokens.now }
    requires few { length source.now.tokens.now < 2 ^ 32 }
    ensures bounds { IsUnclosedBounded limit source.now.tokens.now from result }
    ensures some { IfOk result (λ taken. 1 ≤ taken.height) }
    ensures parsed { UnclosedAnswers (Expressions source.now.names.now (level_asked level)) written
        limit source.now.tokens.now from result }
    ensures placed { IfOk result (UnclosedTreeAt HasPlaces source.now.tokens.now from) }
    ensures apt { IsUnclosedApt Scope.Block source.now.tokens.now result }
{
    let phrase = expression_at(alloc, source.tokens, source.names, from, limit, level)?;
    Ok(unclosed(phrase))
}

fn unclosed(phrase: Phrase) -> Unclosed<RawExpr>
    ensures { IsPhraseOf phrase result }
{
    Unclosed {
        tree: phrase.tree,
        height: phrase.height,
        next: phrase.next,
        otherwise: phrase.otherwise,
    }
}

/// Returns the expression of a level, with the punctuator that closes it.
pub fn closed(
    alloc: Global,
    source: &Source,
    from: usize,
    limit: u32,
    level: ExprLevel,
    closing: Punctuator,
) -> Result<Taken<RawExpr>, Stop>
    requires within { from ≤ length source.now.tokens.now }
    requires few { length source.now.tokens.now < 2 ^ 32 }
    requires closing { IsTrue (closes closing) }
    ensures bounds { IsBounded limit source.now.tokens.now from result }
    ensures some { IfOk result (λ taken. 1 ≤ taken.height) }
    ensures parsed { ClosedAnswer source.now.names.now level closing limit source.now.tokens.now
        from result }
    ensures placed { IfOk result (TreeAt HasPlaces source.now.tokens.now from) }
    ensures apt { IsAnswerApt Scope.Block source.now.tokens.now result }
{
    let inner = expression(alloc, source, from, limit, level)?;
    if !is_punctuator(source, inner.next, closing) {
        return Err(Stop::Refused(inner.next, inner.otherwise));
    }
    Ok(Taken {
        tree: inner.tree,
        height: inner.height,
        next: inner.next + 1,
    })
}

/// Returns the expression, if any, with the punctuator that closes it. Its height is 0 if it is absent.
pub fn closed_if_any(
    alloc: Global,
    source: &Source,
    from: usize,
    limit: u32,
    level: ExprLevel,
    closing: Punctuator,
) -> Result<Taken<Option<RawExpr>>, Stop>
    requires within { from ≤ length source.now.tokens.now }
    requires few { length source.now.tokens.now < 2 ^ 32 }
    requires closing { IsTrue (closes closing) }
    ensures bounds { IsBounded limit source.now.tokens.now from result }
    ensures parsed { ClosedIfAnyAnswer source.now.names.now level closing limit
        source.now.tokens.now from result }
    ensures placed { IfOk result (TreeAt IsSomePlaced source.now.tokens.now from) }
    ensures apt { IsAnswerApt Scope.Block source.now.tokens.now result }
{
    if is_punctuator(source, from, closing) {
        return Ok(Taken {
            tree: None,
            height: 0,
            next: from + 1,
        });
    }
    let inner = closed(alloc, source, from, limit, level, closing)?;
    Ok(Taken {
        tree: Some(inner.tree),
        height: inner.height,
        next: inner.next,
    })
}

/// Returns the expression between parentheses; the first has to be at an index.
pub fn parenthesised(
    alloc: Global,
    source: &Source,
    from: usize,
    limit: u32,
) -> Result<Taken<RawExpr>, Stop>
    requires within { from ≤ length source.now.tokens.now }
    requires few { length source.now.tokens.now < 2 ^ 32 }
    requires some { 1 ≤ limit }
    ensures bounds { IsBounded limit source.now.tokens.now from result }
    ensures parsed { ExactAnswers (Tests source.now.names.now) written limit source.now.tokens.now
        from result }
    ensures placed { IfOk result (TreeAt HasPlaces source.now.tokens.now (from + 1)) }
    ensures apt { IsAnswerApt Scope.Block source.now.tokens.now result }
{
    if !is_punctuator(source, from, Punctuator::OpenParenthesis) {
        return Err(refuse(source, from, Scope::Block));
    }
    let closing = Punctuator::CloseParenthesis;
    let inner = closed(alloc, source, from + 1, limit, ExprLevel::Expr, closing)?;
    Ok(inner)
}
