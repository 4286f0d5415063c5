//! Statements (C11 6.8).
ghost use Rattle.std.specs.Prelude.{◌≡◌, ℕ, ◌≤◌, ◌<◌, ◌^◌, ◌+◌, length, drop, IfOk, IsTrue};
ghost use Rattle.cs_ast.specs.declared.token.TokenKind.TheVariants as token;
ghost use Rattle.cs_ast.specs.declared.token.Keyword.TheVariants as keyword;
ghost use Rattle.cs_ast.specs.RawStatementView.{sentence};
ghost use Rattle.cs_expr_parser.specs.Positions.{kind_or_end};
ghost use Rattle.cs_declarator_parser.specs.TreePlaces.{TreeAt};
ghost use Rattle.cs_decl_parser.specs.declared.form.Form.TheVariants as form;
ghost use Rattle.cs_declarator_parser.specs.Answers.{StatementAnswers};
ghost use Rattle.cs_declarator_parser.specs.Bounds.{IsBounded};
ghost use Rattle.cs_decl_parser.specs.Forms.{form_of, is_labelled, IsJump};
ghost use Rattle.cs_decl_parser.specs.FilePlaces.{ArePartsPlaced};
ghost use Rattle.cs_decl_parser.specs.Nodes.{IsNode};
ghost use Rattle.cs_decl_parser.specs.StatementPlaces.{HasStatementPlaces};
ghost use Rattle.cs_declarator_parser.specs.Aptness.{IsAnswerApt};

use crate::block::block;
use crate::branches::{if_statement, switch_statement};
use crate::form::{Form, form_at};
use crate::loops::{do_statement, for_statement, while_statement};
use crate::nodes::{label_node, node};
use cs_ast::Punctuator;
use cs_ast::raw::statement::{RawStmt, RawStmtKind};
use cs_declarator_parser::expression::{closed, closed_if_any};
use cs_declarator_parser::names::any_name_at;
use cs_declarator_parser::source::{Scope, Source, is_punctuator, place_at, refuse, refuse_deep};
use cs_declarator_parser::stop::{Stop, Taken};
use cs_expr_parser::ExprLevel;
use std::alloc::{AllocError, Global};

/// Returns the statement that begins at an index.
#[cycle(statement)]
pub fn statement(
    alloc: Global,
    source: &Source,
    from: usize,
    limit: u32,
) -> Result<Taken<RawStmt>, Stop>
    requires within { from ≤ length source.now.tokens.now }
    requires few { length source.now.tokens.now < 2 ^ 32 }
    ensures bounds { IsBounded limit source.now.tokens.now from result }
    ensures parsed { StatementAnswers source.now.names.now limit source.now.tokens.now from result }
    ensures placed { IfOk result (TreeAt HasStatementPlaces source.now.tokens.now from) }
    ensures apt { IsAnswerApt Scope.Block source.now.tokens.now result }
{
    let form = form_at(source, from);
    if limit < form.least_height() {
        return Err(refuse_deep(from));
    }
    match form {
        Form::Block => block(alloc, source, from, limit),
        Form::If => if_statement(alloc, source, from, limit),
        Form::While => while_statement(alloc, source, from, limit),
        Form::Do => do_statement(alloc, source, from, limit),
        Form::For => for_statement(alloc, source, from, limit),
        Form::Switch => switch_statement(alloc, source, from, limit),
        Form::Label => label(alloc, source, from, limit),
        Form::Unlabelled => Err(refuse(source, from + 1, Scope::Block)),
        Form::Run => run(alloc, source, from, limit),
        Form::Empty => Ok(leaf(alloc, source, from, from + 1, RawStmtKind::Empty)?),
        Form::Goto => goto(alloc, source, from),
        Form::Continue => jump(alloc, source, from, RawStmtKind::Continue),
        Form::Break => jump(alloc, source, from, RawStmtKind::Break),
        Form::Return => return_statement(alloc, source, from, limit),
    }
}

/// Returns a statement without parts, from one index up to another.
fn leaf(
    alloc: Global,
    source: &Source,
    from: usize,
    next: usize,
    kind: RawStmtKind,
) -> Result<Taken<RawStmt>, AllocError>
    requires within { from < length source.now.tokens.now }
    ensures node { IfOk result (IsNode (sentence kind) 1 next) }
    ensures placed { IfOk result (λ made.
        ArePartsPlaced kind (drop from source.now.tokens.now)
        → HasStatementPlaces made.tree (drop from source.now.tokens.now)) }
{
    Ok(node(alloc, place_at(source, from), kind, 1, next)?)
}

/// `name : body`, from an index on (C11 6.8.1).
#[cycle(statement)]
fn label(alloc: Global, source: &Source, from: usize, limit: u32) -> Result<Taken<RawStmt>, Stop>
    requires within { from + 2 ≤ length source.now.tokens.now }
    requires few { length source.now.tokens.now < 2 ^ 32 }
    requires enough { 2 ≤ limit }
    requires stands { IsTrue
        (is_labelled (kind_or_end source.now.tokens.now from)
        (kind_or_end source.now.tokens.now (from + 1))) }
    ensures bounds { IsBounded limit source.now.tokens.now from result }
    ensures parsed { StatementAnswers source.now.names.now limit source.now.tokens.now from result }
    ensures placed { IfOk result (TreeAt HasStatementPlaces source.now.tokens.now from) }
    ensures apt { IsAnswerApt Scope.Block source.now.tokens.now result }
{
    let Some(name) = any_name_at(source, from)? else {
        return Err(refuse(source, from, Scope::Block));
    };
    let body = statement(alloc, source, from + 2, limit - 1)?;
    let made = label_node(alloc, name, body)?;
    Ok(made)
}

/// Returns the expression statement, with its semicolon, from an index on (C11 6.8.3).
fn run(alloc: Global, source: &Source, from: usize, limit: u32) -> Result<Taken<RawStmt>, Stop>
    requires within { from ≤ length source.now.tokens.now }
    requires few { length source.now.tokens.now < 2 ^ 32 }
    requires stands { form_of source.now.names.now (kind_or_end source.now.tokens.now from)
        (kind_or_end source.now.tokens.now (from + 1)) ≡ form.Run }
    ensures bounds { IsBounded limit source.now.tokens.now from result }
    ensures parsed { StatementAnswers source.now.names.now limit source.now.tokens.now from result }
    ensures placed { IfOk result (TreeAt HasStatementPlaces source.now.tokens.now from) }
    ensures apt { IsAnswerApt Scope.Block source.now.tokens.now result }
{
    let (level, closing) = (ExprLevel::Expr, Punctuator::Semicolon);
    let value = closed(alloc, source, from, limit.saturating_sub(1), level, closing)?;
    let (height, next) = (value.height + 1, value.next);
    let kind = RawStmtKind::Run(value.tree);
    Ok(node(alloc, place_at(source, from), kind, height, next)?)
}

/// `goto name ;`, from an index on (C11 6.8.6.1).
fn goto(alloc: Global, source: &Source, from: usize) -> Result<Taken<RawStmt>, Stop>
    requires within { from < length source.now.tokens.now }
    requires few { length source.now.tokens.now < 2 ^ 32 }
    requires stands { kind_or_end source.now.tokens.now from ≡ token.Keyword keyword.Goto }
    ensures bounds { IsBounded 1 source.now.tokens.now from result }
    ensures parsed { (limit : ℕ) → 1 ≤ limit
        → StatementAnswers source.now.names.now limit source.now.tokens.now from result }
    ensures placed { IfOk result (TreeAt HasStatementPlaces source.now.tokens.now from) }
    ensures apt { IsAnswerApt Scope.Block source.now.tokens.now result }
{
    let Some(name) = any_name_at(source, from + 1)? else {
        return Err(refuse(source, from + 1, Scope::Block));
    };
    if !is_punctuator(source, from + 2, Punctuator::Semicolon) {
        return Err(refuse(source, from + 2, Scope::Block));
    }
    Ok(leaf(alloc, source, from, from + 3, RawStmtKind::Goto(name.name))?)
}

/// `continue ;` or `break ;`, from an index on (C11 6.8.6.2, 6.8.6.3).
fn jump(
    alloc: Global,
    source: &Source,
    from: usize,
    kind: RawStmtKind,
) -> Result<Taken<RawStmt>, Stop>
    requires within { from < length source.now.tokens.now }
    requires few { length source.now.tokens.now < 2 ^ 32 }
    requires stands { IsJump (kind_or_end source.now.tokens.now from) (sentence kind) }
    ensures bounds { IsBounded 1 source.now.tokens.now from result }
    ensures parsed { (limit : ℕ) → 1 ≤ limit
        → StatementAnswers source.now.names.now limit source.now.tokens.now from result }
    ensures placed { IfOk result (TreeAt HasStatementPlaces source.now.tokens.now from) }
    ensures apt { IsAnswerApt Scope.Block source.now.tokens.now result }
{
    if !is_punctuator(source, from + 1, Punctuator::Semicolon) {
        return Err(refuse(source, from + 1, Scope::Block));
    }
    Ok(leaf(alloc, source, from, from + 2, kind)?)
}

/// `return value ;` or `return ;`, from an index on (C11 6.8.6.4).
fn return_statement(
    alloc: Global,
    source: &Source,
    from: usize,
    limit: u32,
) -> Result<Taken<RawStmt>, Stop>
    requires within { from < length source.now.tokens.now }
    requires few { length source.now.tokens.now < 2 ^ 32 }
    requires some { 1 ≤ limit }
    requires stands { kind_or_end source.now.tokens.now from ≡ token.Keyword keyword.Return }
    ensures bounds { IsBounded limit source.now.tokens.now from result }
    ensures parsed { StatementAnswers source.now.names.now limit source.now.tokens.now from result }
    ensures placed { IfOk result (TreeAt HasStatementPlaces source.now.tokens.now from) }
    ensures apt { IsAnswerApt Scope.Block source.now.tokens.now result }
{
    let (level, closing) = (ExprLevel::Expr, Punctuator::Semicolon);
    let value = closed_if_any(alloc, source, from + 1, limit - 1, level, closing)?;
    let (height, next) = (value.height + 1, value.next);
    let kind = RawStmtKind::Return(value.tree);
    Ok(node(alloc, place_at(source, from), kind, height, next)?)
}
