//! Iteration statements (C11 6.8.5).
ghost use Rattle.std.specs.Prelude.{◌≡◌, ◌≤◌, ◌<◌, ◌+◌, ◌^◌, List, length, IfOk};
ghost use Rattle.cs_ast.specs.declared.token.Token.{Token as Lexed};
ghost use Rattle.cs_ast.specs.declared.token.TokenKind.TheVariants as token;
ghost use Rattle.cs_ast.specs.declared.token.Keyword.TheVariants as keyword;
ghost use Rattle.std.specs.Option.{option_map};
ghost use Rattle.cs_ast.specs.RawView.{written};
ghost use Rattle.cs_ast.specs.RawStatementView.{first_of};
ghost use Rattle.cs_grammar.specs.FileClasses.{Firsts};
ghost use Rattle.cs_expr_parser.specs.Positions.{kind_or_end};
ghost use Rattle.cs_declarator_parser.specs.TreePlaces.{TreeAt};
ghost use Rattle.cs_declarator_parser.specs.Answers.{StatementAnswers, ExactAnswers};
ghost use Rattle.cs_decl_parser.specs.Blocks.{Controls, control_of, first_if_any};
ghost use Rattle.cs_declarator_parser.specs.Bounds.{IsBounded};
ghost use Rattle.cs_declarator_parser.specs.DeclarationPlaces.{IsSomePlaced};
ghost use Rattle.cs_decl_parser.specs.FilePlaces.{IsFirstPlaced};
ghost use Rattle.cs_decl_parser.specs.StatementPlaces.{HasStatementPlaces, AreForPartsPlaced};
ghost use Rattle.cs_declarator_parser.specs.Aptness.{IsAnswerApt};

use crate::block::declaration;
use crate::nodes::{do_node, for_node, while_node};
use crate::statement::statement;
use cs_ast::raw::expression::RawExpr;
use cs_ast::raw::statement::{RawFirst, RawStmt};
use cs_ast::{Keyword, Punctuator};
use cs_declarator_parser::expression::{closed_if_any, parenthesised};
use cs_declarator_parser::source::{
    Scope, Source, begins_type, is_keyword, is_punctuator, place_at, refuse,
};
use cs_declarator_parser::stop::{Stop, Taken};
use cs_expr_parser::ExprLevel;
use std::alloc::Global;

/// `while ( test ) body`, from an index on.
#[cycle(statement)]
pub fn while_statement(
    alloc: Global,
    source: &Source,
    from: usize,
    limit: u32,
) -> Result<Taken<RawStmt>, Stop>
    requires within { from < length source.now.tokens.now }
    requires few { length source.now.tokens.now < 2 ^ 32 }
    requires enough { 2 ≤ limit }
    requires stands { kind_or_end source.now.tokens.now from ≡ token.Keyword keyword.While }
    ensures bounds { IsBounded limit source.now.tokens.now from result }
    ensures parsed { StatementAnswers source.now.names.now limit source.now.tokens.now from result }
    ensures placed { IfOk result (TreeAt HasStatementPlaces source.now.tokens.now from) }
    ensures apt { IsAnswerApt Scope.Block source.now.tokens.now result }
{
    let place = place_at(source, from);
    let test = parenthesised(alloc, source, from + 1, limit - 1)?;
    let body = statement(alloc, source, test.next, limit - 1)?;
    let made = while_node(alloc, place, test, body)?;
    Ok(made)
}

/// `do body while ( test ) ;`, from an index on.
#[cycle(statement)]
pub fn do_statement(
    alloc: Global,
    source: &Source,
    from: usize,
    limit: u32,
) -> Result<Taken<RawStmt>, Stop>
    requires within { from < length source.now.tokens.now }
    requires few { length source.now.tokens.now < 2 ^ 32 }
    requires enough { 2 ≤ limit }
    requires stands { kind_or_end source.now.tokens.now from ≡ token.Keyword keyword.Do }
    ensures bounds { IsBounded limit source.now.tokens.now from result }
    ensures parsed { StatementAnswers source.now.names.now limit source.now.tokens.now from result }
    ensures placed { IfOk result (TreeAt HasStatementPlaces source.now.tokens.now from) }
    ensures apt { IsAnswerApt Scope.Block source.now.tokens.now result }
{
    let place = place_at(source, from);
    let body = statement(alloc, source, from + 1, limit - 1)?;
    if !is_keyword(source, body.next, Keyword::While) {
        return Err(refuse(source, body.next, Scope::Block));
    }
    let test = parenthesised(alloc, source, body.next + 1, limit - 1)?;
    if !is_punctuator(source, test.next, Punctuator::Semicolon) {
        return Err(refuse(source, test.next, Scope::Block));
    }
    let next = test.next + 1;
    let made = do_node(alloc, place, body, test, next)?;
    Ok(made)
}

/// The parts between the parentheses of a `for`.
#[derive(Drop)]
pub struct ForParts {
    pub first: RawFirst,
    pub test: Option<RawExpr>,
    pub last: Option<RawExpr>,
}

/// `for ( first ; test ; last ) body`, from an index on.
#[cycle(statement)]
pub fn for_statement(
    alloc: Global,
    source: &Source,
    from: usize,
    limit: u32,
) -> Result<Taken<RawStmt>, Stop>
    requires within { from < length source.now.tokens.now }
    requires few { length source.now.tokens.now < 2 ^ 32 }
    requires enough { 2 ≤ limit }
    requires stands { kind_or_end source.now.tokens.now from ≡ token.Keyword keyword.For }
    ensures bounds { IsBounded limit source.now.tokens.now from result }
    ensures parsed { StatementAnswers source.now.names.now limit source.now.tokens.now from result }
    ensures placed { IfOk result (TreeAt HasStatementPlaces source.now.tokens.now from) }
    ensures apt { IsAnswerApt Scope.Block source.now.tokens.now result }
{
    let place = place_at(source, from);
    let control = control(alloc, source, from + 1, limit - 1)?;
    let body = statement(alloc, source, control.next, limit - 1)?;
    let made = for_node(alloc, place, control, body)?;
    Ok(made)
}

/// Returns the parts of a `for` between parentheses, the first of which has to be at an index. The height is that of
/// the highest part.
fn control(alloc: Global, source: &Source, from: usize, limit: u32) -> Result<Taken<ForParts>, Stop>
    requires within { from ≤ length source.now.tokens.now }
    requires few { length source.now.tokens.now < 2 ^ 32 }
    ensures bounds { IsBounded limit source.now.tokens.now from result }
    ensures parsed { ExactAnswers (Controls source.now.names.now) control_of limit
        source.now.tokens.now from result }
    ensures placed { IfOk result (TreeAt AreForPartsPlaced source.now.tokens.now (from + 1)) }
    ensures apt { IsAnswerApt Scope.Block source.now.tokens.now result }
{
    if !is_punctuator(source, from, Punctuator::OpenParenthesis) {
        return Err(refuse(source, from, Scope::Block));
    }
    let level = ExprLevel::Expr;
    let first = first_part(alloc, source, from + 1, limit)?;
    let test = closed_if_any(
        alloc,
        source,
        first.next,
        limit,
        level,
        Punctuator::Semicolon,
    )?;
    let last = closed_if_any(
        alloc,
        source,
        test.next,
        limit,
        level,
        Punctuator::CloseParenthesis,
    )?;
    Ok(Taken {
        tree: ForParts {
            first: first.tree,
            test: test.tree,
            last: last.tree,
        },
        height: first.height.max(test.height).max(last.height),
        next: last.next,
    })
}

/// Returns the first part of a `for`, with its semicolon.
fn first_part(
    alloc: Global,
    source: &Source,
    from: usize,
    limit: u32,
) -> Result<Taken<RawFirst>, Stop>
    requires within { from ≤ length source.now.tokens.now }
    requires few { length source.now.tokens.now < 2 ^ 32 }
    ensures bounds { IsBounded limit source.now.tokens.now from result }
    ensures parsed { ExactAnswers (Firsts source.now.names.now) first_of limit source.now.tokens.now
        from result }
    ensures placed { IfOk result (TreeAt IsFirstPlaced source.now.tokens.now from) }
    ensures apt { IsAnswerApt Scope.Block source.now.tokens.now result }
{
    if begins_type(source, from) {
        let declared = declaration(alloc, source, from, limit)?;
        return Ok(Taken {
            tree: RawFirst::Declare(declared.tree.specs, declared.tree.objects),
            height: declared.height,
            next: declared.next,
        });
    }
    let (level, closing) = (ExprLevel::Expr, Punctuator::Semicolon);
    let value = closed_if_any(alloc, source, from, limit, level, closing)?;
    Ok(Taken {
        tree: run_if_any(value.tree),
        height: value.height,
        next: value.next,
    })
}

/// Returns the first part of a `for` without a declaration.
fn run_if_any(value: Option<RawExpr>) -> RawFirst
    ensures tree { first_of result ≡ first_if_any (option_map written value) }
    ensures placed { (list : List Lexed) → IsSomePlaced value list → IsFirstPlaced result list }
{
    match value {
        Some(value) => RawFirst::Run(value),
        None => RawFirst::Empty,
    }
}
