//! Selection statements (C11 6.8.4).
ghost use Rattle.std.specs.Prelude.{◌≡◌, ℕ, ◌≤◌, ◌<◌, ◌^◌, length, drop, IfOk};
ghost use Rattle.cs_ast.specs.declared.token.TokenKind.TheVariants as token;
ghost use Rattle.cs_ast.specs.declared.token.Keyword.TheVariants as keyword;
ghost use Rattle.cs_ast.specs.RawStatementView.{switch_item as switch_item_of};
ghost use Rattle.cs_grammar.specs.FileClasses.{SwitchParts, SwitchRows};
ghost use Rattle.cs_expr_parser.specs.Positions.{kind_or_end};
ghost use Rattle.cs_declarator_parser.specs.TreePlaces.{TreeAt};
ghost use Rattle.cs_declarator_parser.specs.Answers.{Answers, StatementAnswers, ExactAnswers};
ghost use Rattle.cs_decl_parser.specs.Blocks.{switch_items_of};
ghost use Rattle.cs_declarator_parser.specs.Bounds.{IsBounded};
ghost use Rattle.cs_decl_parser.specs.FilePlaces.{IsSwitchItemPlaced};
ghost use Rattle.cs_decl_parser.specs.StatementPlaces.{HasStatementPlaces, AreSwitchItemsBeside};
ghost use Rattle.cs_declarator_parser.specs.Aptness.{IsAnswerApt};

use crate::block::item;
use crate::nodes::{if_else_node, if_node, node};
use crate::statement::statement;
use cs_ast::raw::statement::{RawStmt, RawStmtKind, RawSwitchItem};
use cs_ast::{Keyword, Punctuator};
use cs_declarator_parser::expression::{closed, parenthesised};
use cs_declarator_parser::source::{
    Scope, Source, is_keyword, is_punctuator, place_at, refuse, refuse_deep,
};
use cs_declarator_parser::stop::{Stop, Taken};
use cs_expr_parser::ExprLevel;
use std::alloc::Global;

/// `if ( test ) body` or `if ( test ) body else other`, from an index on. An `else` belongs to the nearest `if`.
#[cycle(statement)]
pub fn if_statement(
    alloc: Global,
    source: &Source,
    from: usize,
    limit: u32,
) -> Result<Taken<RawStmt>, Stop>
    requires within { from < length source.now.tokens.now }
    requires few { length source.now.tokens.now < 2 ^ 32 }
    requires enough { 2 ≤ limit }
    requires stands { kind_or_end source.now.tokens.now from ≡ token.Keyword keyword.If }
    ensures bounds { IsBounded limit source.now.tokens.now from result }
    ensures parsed { StatementAnswers source.now.names.now limit source.now.tokens.now from result }
    ensures placed { IfOk result (TreeAt HasStatementPlaces source.now.tokens.now from) }
    ensures apt { IsAnswerApt Scope.Block source.now.tokens.now result }
{
    let place = place_at(source, from);
    let test = parenthesised(alloc, source, from + 1, limit - 1)?;
    let body = statement(alloc, source, test.next, limit - 1)?;
    if !is_keyword(source, body.next, Keyword::Else) {
        let made = if_node(alloc, place, test, body)?;
        return Ok(made);
    }
    let other = statement(alloc, source, body.next + 1, limit - 1)?;
    let made = if_else_node(alloc, place, test, body, other)?;
    Ok(made)
}

/// `switch ( value ) { .. }`, from an index on.
#[cycle(statement)]
pub fn switch_statement(
    alloc: Global,
    source: &Source,
    from: usize,
    limit: u32,
) -> Result<Taken<RawStmt>, Stop>
    requires within { from < length source.now.tokens.now }
    requires few { length source.now.tokens.now < 2 ^ 32 }
    requires enough { 2 ≤ limit }
    requires stands { kind_or_end source.now.tokens.now from ≡ token.Keyword keyword.Switch }
    ensures bounds { IsBounded limit source.now.tokens.now from result }
    ensures parsed { StatementAnswers source.now.names.now limit source.now.tokens.now from result }
    ensures placed { IfOk result (TreeAt HasStatementPlaces source.now.tokens.now from) }
    ensures apt { IsAnswerApt Scope.Block source.now.tokens.now result }
{
    let value = parenthesised(alloc, source, from + 1, limit - 1)?;
    if !is_punctuator(source, value.next, Punctuator::OpenBrace) {
        return Err(refuse(source, value.next, Scope::Block));
    }
    let items = switch_items(alloc, source, value.next + 1, limit - 2)?;
    let height = value.height.max(items.height + 1) + 1;
    let kind = RawStmtKind::Switch(value.tree, items.tree);
    Ok(node(alloc, place_at(source, from), kind, height, items.next)?)
}

/// Returns the items of a `switch`, from after its opening brace to after the closing one. The height is that of the
/// highest.
#[cycle(statement)]
fn switch_items(
    alloc: Global,
    source: &Source,
    from: usize,
    limit: u32,
) -> Result<Taken<Vec<RawSwitchItem>>, Stop>
    requires within { from ≤ length source.now.tokens.now }
    requires few { length source.now.tokens.now < 2 ^ 32 }
    ensures bounds { IsBounded limit source.now.tokens.now from result }
    ensures parsed { ExactAnswers (SwitchRows source.now.names.now) switch_items_of limit
        source.now.tokens.now from result }
    ensures placed { IfOk result (λ taken.
        AreSwitchItemsBeside taken.tree.items (drop from source.now.tokens.now)) }
    ensures apt { IsAnswerApt Scope.Block source.now.tokens.now result }
{
    let mut list = Vec::new(alloc);
    let mut height: u32 = 0;
    let mut next = from;
    'items: while !is_punctuator(source, next, Punctuator::CloseBrace) {
        let taken = switch_item(alloc, source, next, limit)?;
        height = height.max(taken.height);
        next = taken.next;
        list.push(taken.tree)?;
    }
    Ok(Taken {
        tree: list,
        height,
        next: next + 1,
    })
}

/// Returns the item of a `switch` at an index: `case`, `default`, or an item that any block may have.
#[cycle(statement)]
fn switch_item(
    alloc: Global,
    source: &Source,
    from: usize,
    limit: u32,
) -> Result<Taken<RawSwitchItem>, Stop>
    requires within { from ≤ length source.now.tokens.now }
    requires few { length source.now.tokens.now < 2 ^ 32 }
    ensures bounds { IsBounded limit source.now.tokens.now from result }
    ensures parsed { Answers (SwitchParts source.now.names.now) switch_item_of limit
        source.now.tokens.now from result }
    ensures placed { IfOk result (TreeAt IsSwitchItemPlaced source.now.tokens.now from) }
    ensures apt { IsAnswerApt Scope.Block source.now.tokens.now result }
{
    if is_keyword(source, from, Keyword::Case) {
        return case(alloc, source, from, limit);
    }
    if is_keyword(source, from, Keyword::Default) {
        return default(source, from);
    }
    let inner = item(alloc, source, from, limit)?;
    Ok(Taken {
        tree: RawSwitchItem::Item(inner.tree),
        height: inner.height,
        next: inner.next,
    })
}

/// `case value :`, from an index on.
fn case(
    alloc: Global,
    source: &Source,
    from: usize,
    limit: u32,
) -> Result<Taken<RawSwitchItem>, Stop>
    requires within { from < length source.now.tokens.now }
    requires few { length source.now.tokens.now < 2 ^ 32 }
    requires stands { kind_or_end source.now.tokens.now from ≡ token.Keyword keyword.Case }
    ensures bounds { IsBounded limit source.now.tokens.now from result }
    ensures parsed { Answers (SwitchParts source.now.names.now) switch_item_of limit
        source.now.tokens.now from result }
    ensures placed { IfOk result (TreeAt IsSwitchItemPlaced source.now.tokens.now from) }
    ensures apt { IsAnswerApt Scope.Block source.now.tokens.now result }
{
    if limit == 0 {
        return Err(refuse_deep(from));
    }
    let value = closed(
        alloc,
        source,
        from + 1,
        limit,
        ExprLevel::Cond,
        Punctuator::Colon,
    )?;
    Ok(Taken {
        tree: RawSwitchItem::Case(place_at(source, from), value.tree),
        height: value.height,
        next: value.next,
    })
}

/// `default :`, from an index on, with height 0.
fn default(source: &Source, from: usize) -> Result<Taken<RawSwitchItem>, Stop>
    requires within { from < length source.now.tokens.now }
    requires few { length source.now.tokens.now < 2 ^ 32 }
    requires stands { kind_or_end source.now.tokens.now from ≡ token.Keyword keyword.Default }
    ensures bounds { IsBounded 0 source.now.tokens.now from result }
    ensures parsed { (limit : ℕ)
        → Answers (SwitchParts source.now.names.now) switch_item_of limit source.now.tokens.now
        from result }
    ensures placed { IfOk result (TreeAt IsSwitchItemPlaced source.now.tokens.now from) }
    ensures apt { IsAnswerApt Scope.Block source.now.tokens.now result }
{
    if !is_punctuator(source, from + 1, Punctuator::Colon) {
        return Err(refuse(source, from + 1, Scope::Block));
    }
    Ok(Taken {
        tree: RawSwitchItem::Default(place_at(source, from)),
        height: 0,
        next: from + 2,
    })
}
