//! The constants of an enumeration (C11 6.7.2.2).
ghost use Rattle.std.specs.Prelude.{◌≡◌, ◌≤◌, ◌<◌, ◌^◌, ◌+◌, List, length, drop, IfOk, IsTrue, None, if◌then◌else◌};
ghost use Rattle.std.specs.Option.{option_map};
ghost use Rattle.cs_ast.specs.declared.token.Token.{Token};
ghost use Rattle.cs_ast.specs.RawView.{written};
ghost use Rattle.cs_ast.specs.RawDeclarationView.{constant as constant_of};
ghost use Rattle.cs_grammar.specs.DeclarationClasses.{Constants};
ghost use Rattle.cs_grammar.specs.FileText.{constant_text};
ghost use Rattle.cs_grammar.specs.Places.{StandsAt};
ghost use Rattle.cs_expr_parser.specs.Positions.{kind_or_end};
ghost use Rattle.cs_declarator_parser.specs.TreePlaces.{UnclosedTreeAt};
ghost use Rattle.cs_declarator_parser.specs.Answers.{UnclosedAnswers};
ghost use Rattle.cs_declarator_parser.specs.DeclarationAnswers.{ConstantsAnswer, goes_on as list_goes_on, IsConstantOf};
ghost use Rattle.cs_declarator_parser.specs.Bounds.{IsBounded, IsUnclosedBounded};
ghost use Rattle.cs_declarator_parser.specs.DeclarationPlaces.{AreInRow, IsSomePlaced, IsConstantPlaced};
ghost use Rattle.cs_declarator_parser.specs.Aptness.{IsAnswerApt, IsUnclosedApt};

use crate::expression::expression;
use crate::names::free_name_at;
use crate::source::{Scope, Source, is_punctuator, reason_at, refuse};
use crate::stop::{Stop, Taken, Unclosed};
use cs_ast::Punctuator;
use cs_ast::raw::declaration::RawEnumerator;
use cs_ast::raw::expression::RawExpr;
use cs_ast::raw::name::RawName;
use cs_expr_parser::ExprLevel;
use cs_grammar::Reason;
use std::alloc::Global;

/// The constants of an enumeration, at least one.
#[derive(Drop)]
pub struct ConstantList {
    pub list: Vec<RawEnumerator>,
    /// Whether a comma ends the list.
    pub comma: bool,
}

/// Returns the constants from after an opening brace to after the closing one. The height is that of the highest.
pub fn constants(
    alloc: Global,
    source: &Source,
    from: usize,
    limit: u32,
) -> Result<Taken<ConstantList>, Stop>
    requires within { from ≤ length source.now.tokens.now }
    requires few { length source.now.tokens.now < 2 ^ 32 }
    requires some { 1 ≤ limit }
    ensures bounds { IsBounded limit source.now.tokens.now from result }
    ensures parsed { ConstantsAnswer source.now.names.now limit source.now.tokens.now from result }
    ensures placed { IfOk result (λ taken.
        AreInRow IsConstantPlaced (λ e. constant_text (constant_of e)) taken.tree.list.items
        (drop from source.now.tokens.now)) }
    ensures apt { IsAnswerApt Scope.File source.now.tokens.now result }
{
    let mut list = Vec::new(alloc);
    let mut last = constant(alloc, source, from, limit)?;
    let mut height = last.height;
    'constants: while goes_on(source, last.next) {
        let another = constant(alloc, source, last.next + 1, limit)?;
        list.push(last.tree)?;
        height = height.max(another.height);
        last = another;
    }
    list.push(last.tree)?;
    let comma = is_punctuator(source, last.next, Punctuator::Comma);
    let closing = closing_at(last.next, comma);
    if !is_punctuator(source, closing, Punctuator::CloseBrace) {
        return Err(Stop::Refused(closing, last.otherwise));
    }
    Ok(Taken {
        tree: ConstantList { list, comma },
        height,
        next: closing + 1,
    })
}

/// Returns the index of the brace that closes a list whose last item ends before `at`: after the comma, if there is
/// one.
pub fn closing_at(at: usize, comma: bool) -> usize
    requires few { at < 2 ^ 33 }
    ensures { result ≡ (if comma then at + 1 else at) }
{
    if comma { at + 1 } else { at }
}

/// Whether a comma is at an index, and isn't followed by a closing brace.
pub fn goes_on(source: &Source, at: usize) -> bool
    requires few { at < 2 ^ 33 }
    ensures within { IsTrue result → at < length source.now.tokens.now }
    ensures comma { result ≡ list_goes_on (kind_or_end source.now.tokens.now at)
        (kind_or_end source.now.tokens.now (at + 1)) }
{
    is_punctuator(source, at, Punctuator::Comma)
        && !is_punctuator(source, at + 1, Punctuator::CloseBrace)
}

/// Returns the constant, with its value if it has one.
fn constant(
    alloc: Global,
    source: &Source,
    from: usize,
    limit: u32,
) -> Result<Unclosed<RawEnumerator>, Stop>
    requires within { from ≤ length source.now.tokens.now }
    requires few { length source.now.tokens.now < 2 ^ 32 }
    requires some { 1 ≤ limit }
    ensures bounds { IsUnclosedBounded limit source.now.tokens.now from result }
    ensures parsed { UnclosedAnswers (Constants source.now.names.now) constant_of limit
        source.now.tokens.now from result }
    ensures placed { IfOk result (UnclosedTreeAt IsConstantPlaced source.now.tokens.now from) }
    ensures apt { IsUnclosedApt Scope.File source.now.tokens.now result }
{
    let Some(name) = free_name_at(source, from)? else {
        return Err(refuse(source, from, Scope::File));
    };
    if !is_punctuator(source, from + 1, Punctuator::Equal) {
        return Ok(lone(name, from + 1, reason_at(source, from + 1, Scope::File)));
    }
    if limit < 2 {
        return Ok(lone(name, from + 1, Reason::TooDeep));
    }
    let value = expression(alloc, source, from + 2, limit - 1, ExprLevel::Cond)?;
    Ok(Unclosed {
        tree: enumerator(name, Some(value.tree)),
        height: value.height + 1,
        next: value.next,
        otherwise: value.otherwise,
    })
}

/// Returns a constant without a value, with the index of the token after it and why that is refused.
fn lone(name: RawName, next: usize, otherwise: Reason) -> Unclosed<RawEnumerator>
    ensures tree { IsConstantOf name.name None result.tree }
    ensures height { result.height ≡ 1 }
    ensures next { result.next ≡ next }
    ensures otherwise { result.otherwise ≡ otherwise }
    ensures placed { (tokens : List Token) → StandsAt name.place tokens
        → IsConstantPlaced result.tree tokens }
{
    Unclosed {
        tree: enumerator(name, None),
        height: 1,
        next,
        otherwise,
    }
}

fn enumerator(name: RawName, value: Option<RawExpr>) -> RawEnumerator
    ensures tree { IsConstantOf name.name (option_map written value) result }
    ensures placed { (tokens : List Token) → StandsAt name.place tokens
        → IsSomePlaced value (drop 2 tokens) → IsConstantPlaced result tokens }
{
    RawEnumerator {
        place: name.place,
        name: name.name,
        value,
    }
}
