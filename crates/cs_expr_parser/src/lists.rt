//! Lists of expressions: arguments of calls, and bounds of arrays.
ghost use Rattle.std.specs.Prelude.{◌≡◌, ◌≤◌, ◌<◌, ◌^◌, length};
ghost use Rattle.cs_expr_parser.specs.Places.{IsRowPlaced, AreBoundsPlaced};
ghost use Rattle.cs_grammar.specs.Levels.{ASSIGN, CHOICE};
ghost use Rattle.cs_grammar.specs.Phrases.{ArePhrases};
ghost use Rattle.cs_grammar.specs.Text.{Kinds};
ghost use Rattle.cs_expr_parser.specs.LastTokens.{IsStopReported, IsStopReportedAfter, YieldsAfter};
ghost use Rattle.cs_expr_parser.specs.Words.{is_last_tag};
ghost use Rattle.cs_expr_parser.specs.Parts.{IsRowBounded, RowAnswers, arguments_text, closed_bounds_text};

use crate::loose::{assign, choice};
use crate::stop::Stop;
use crate::tokens::{is_punctuator, refuse_after, refuse_in_type};
use cs_ast::raw::expression::RawExpr;
use cs_ast::{Punctuator, Token};
use cs_grammar::TypedefNames;
use std::alloc::Global;

/// A list of expressions and what closes it, as a part of the parser returns it to another.
#[derive(Drop)]
pub struct Listed {
    pub trees: Vec<RawExpr>,
    /// The height of the highest, 0 if there is none.
    pub height: u32,
    /// The index of the token after what closes the list.
    pub next: usize,
}

/// Returns the arguments of a call, from after the opening parenthesis to after the closing one (C11 6.5.2.2).
#[cycle(expression)]
pub fn arguments(
    alloc: Global,
    tokens: &[Token],
    names: &TypedefNames,
    from: usize,
    limit: u32,
) -> Result<Listed, Stop>
    requires within { from ≤ length tokens.now }
    requires few { length tokens.now < 2 ^ 32 }
    ensures bounds { IsRowBounded limit tokens.now from result }
    ensures parsed { RowAnswers arguments_text (ArePhrases names.now ASSIGN) limit tokens.now from
        result }
    ensures reported { IsStopReported names.now tokens.now from result }
    ensures placed { IsRowPlaced tokens.now from result }
{
    let mut trees = Vec::new(alloc);
    if is_punctuator(tokens, from, Punctuator::CloseParenthesis) {
        return Ok(Listed {
            trees,
            height: 0,
            next: from + 1,
        });
    }
    let mut last = assign(alloc, tokens, names, from, limit)?;
    let mut height = last.height;
    'row: while is_punctuator(tokens, last.next, Punctuator::Comma) {
        let another = assign(alloc, tokens, names, last.next + 1, limit)?;
        trees.push(last.tree)?;
        height = height.max(another.height);
        last = another;
    }
    if !is_punctuator(tokens, last.next, Punctuator::CloseParenthesis) {
        return Err(refuse_after(tokens, &last));
    }
    trees.push(last.tree)?;
    Ok(Listed {
        trees,
        height,
        next: last.next + 1,
    })
}

/// Returns the bounds of a type's arrays, each between brackets, to after the parenthesis that closes the type (C11
/// 6.7.6.2). `after_tag`, whether a tag is before them, decides why a brace is refused.
#[cycle(expression)]
pub fn bounds(
    alloc: Global,
    tokens: &[Token],
    names: &TypedefNames,
    from: usize,
    limit: u32,
    after_tag: bool,
) -> Result<Listed, Stop>
    requires within { from ≤ length tokens.now }
    requires few { length tokens.now < 2 ^ 32 }
    requires least { 1 ≤ limit }
    ensures bounds { IsRowBounded limit tokens.now from result }
    ensures parsed { RowAnswers closed_bounds_text (ArePhrases names.now CHOICE) limit tokens.now
        from result }
    ensures reported { (before : Kinds) → YieldsAfter names.now before after_tag
        → IsStopReportedAfter names.now before tokens.now from result }
    ensures placed { AreBoundsPlaced tokens.now from result }
{
    let mut trees = Vec::new(alloc);
    let mut height: u32 = 0;
    let mut next = from;
    'row: while is_punctuator(tokens, next, Punctuator::OpenBracket) {
        let bound = choice(alloc, tokens, names, next + 1, limit)?;
        if !is_punctuator(tokens, bound.next, Punctuator::CloseBracket) {
            return Err(refuse_after(tokens, &bound));
        }
        height = height.max(bound.height);
        next = bound.next + 1;
        trees.push(bound.tree)?;
    }
    if !is_punctuator(tokens, next, Punctuator::CloseParenthesis) {
        return Err(refuse_in_type(tokens, next, is_last_word(after_tag, &trees)));
    }
    Ok(Listed {
        trees,
        height,
        next: next + 1,
    })
}

/// Whether what was last before these items is still last.
pub fn is_last_word<T>(last: bool, following: &[T]) -> bool
    ensures { result ≡ is_last_tag last following.now }
{
    last && following.is_empty()
}
