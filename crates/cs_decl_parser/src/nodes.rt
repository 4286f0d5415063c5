//! Builds the nodes of statements from their parts: each is one higher than its highest part.
ghost use Rattle.std.specs.Prelude.{◌<◌, ◌^◌, ◌+◌, ◌-◌, max, IfOk};
ghost use Rattle.std.specs.Option.{option_map};
ghost use Rattle.cs_ast.specs.RawView.{written};
ghost use Rattle.cs_ast.specs.RawStatements.{If as IfNode, IfElse as IfElseNode, While as WhileNode, Do as DoNode, For as ForNode, Label as LabelNode};
ghost use Rattle.cs_ast.specs.RawStatementView.{first_of, sentence, statement_of};
ghost use Rattle.cs_decl_parser.specs.Nodes.{IsNode};
ghost use Rattle.cs_decl_parser.specs.StatementPlaces.{IsMadeOf, IsLabelOf, IsTestedOf, IsChoiceOf, IsDoneOf, IsLoopOf};

use crate::loops::ForParts;
use cs_ast::Place;
use cs_ast::raw::expression::RawExpr;
use cs_ast::raw::name::RawName;
use cs_ast::raw::statement::{RawStmt, RawStmtKind};
use cs_declarator_parser::stop::Taken;
use std::alloc::{AllocError, Global};

/// Returns the statement of a kind at its position, with this height, up to this token.
pub fn node(
    alloc: Global,
    place: Place,
    kind: RawStmtKind,
    height: u32,
    next: usize,
) -> Result<Taken<RawStmt>, AllocError>
    ensures node { IfOk result (IsNode (sentence kind) height next) }
    ensures placed { IfOk result (λ made. IsMadeOf place kind made.tree) }
{
    let kind = Box::new(alloc, kind)?;
    Ok(Taken {
        tree: RawStmt { place, kind },
        height,
        next,
    })
}

/// `name : body`
pub fn label_node(
    alloc: Global,
    name: RawName,
    body: Taken<RawStmt>,
) -> Result<Taken<RawStmt>, AllocError>
    requires low { body.height < 2 ^ 32 - 1 }
    ensures node { IfOk result
        (IsNode (LabelNode name.name (statement_of body.tree)) (body.height + 1) body.next) }
    ensures placed { IfOk result (λ made. IsLabelOf name.place body.tree made.tree) }
{
    let (height, next) = (body.height + 1, body.next);
    let kind = RawStmtKind::Label(name.name, body.tree);
    Ok(node(alloc, name.place, kind, height, next)?)
}

/// `if ( test ) body`
pub fn if_node(
    alloc: Global,
    place: Place,
    test: Taken<RawExpr>,
    body: Taken<RawStmt>,
) -> Result<Taken<RawStmt>, AllocError>
    requires low { (test.height < 2 ^ 32 - 1) × (body.height < 2 ^ 32 - 1) }
    ensures node { IfOk result
        (IsNode (IfNode (written test.tree) (statement_of body.tree))
        (max test.height body.height + 1) body.next) }
    ensures placed { IfOk result (λ made. IsTestedOf place test.tree body.tree made.tree) }
{
    let (height, next) = (test.height.max(body.height) + 1, body.next);
    let kind = RawStmtKind::If(test.tree, body.tree);
    Ok(node(alloc, place, kind, height, next)?)
}

/// `if ( test ) body else other`
pub fn if_else_node(
    alloc: Global,
    place: Place,
    test: Taken<RawExpr>,
    body: Taken<RawStmt>,
    other: Taken<RawStmt>,
) -> Result<Taken<RawStmt>, AllocError>
    requires low { (test.height < 2 ^ 32 - 1) × (body.height < 2 ^ 32 - 1)
        × (other.height < 2 ^ 32 - 1) }
    ensures node { IfOk result
        (IsNode (IfElseNode (written test.tree) (statement_of body.tree) (statement_of other.tree))
        (max (max test.height body.height) other.height + 1) other.next) }
    ensures placed { IfOk result (λ made.
        IsChoiceOf place test.tree body.tree other.tree made.tree) }
{
    let height = test.height.max(body.height).max(other.height) + 1;
    let next = other.next;
    let kind = RawStmtKind::IfElse(test.tree, body.tree, other.tree);
    Ok(node(alloc, place, kind, height, next)?)
}

/// `while ( test ) body`
pub fn while_node(
    alloc: Global,
    place: Place,
    test: Taken<RawExpr>,
    body: Taken<RawStmt>,
) -> Result<Taken<RawStmt>, AllocError>
    requires low { (test.height < 2 ^ 32 - 1) × (body.height < 2 ^ 32 - 1) }
    ensures node { IfOk result
        (IsNode (WhileNode (written test.tree) (statement_of body.tree))
        (max test.height body.height + 1) body.next) }
    ensures placed { IfOk result (λ made. IsTestedOf place test.tree body.tree made.tree) }
{
    let (height, next) = (test.height.max(body.height) + 1, body.next);
    let kind = RawStmtKind::While(test.tree, body.tree);
    Ok(node(alloc, place, kind, height, next)?)
}

/// `do body while ( test ) ;`, with the index of the token after its semicolon
pub fn do_node(
    alloc: Global,
    place: Place,
    body: Taken<RawStmt>,
    test: Taken<RawExpr>,
    next: usize,
) -> Result<Taken<RawStmt>, AllocError>
    requires low { (body.height < 2 ^ 32 - 1) × (test.height < 2 ^ 32 - 1) }
    ensures node { IfOk result
        (IsNode (DoNode (statement_of body.tree) (written test.tree))
        (max body.height test.height + 1) next) }
    ensures placed { IfOk result (λ made. IsDoneOf place body.tree test.tree made.tree) }
{
    let height = body.height.max(test.height) + 1;
    let kind = RawStmtKind::Do(body.tree, test.tree);
    Ok(node(alloc, place, kind, height, next)?)
}

/// `for ( first ; test ; last ) body`
pub fn for_node(
    alloc: Global,
    place: Place,
    parts: Taken<ForParts>,
    body: Taken<RawStmt>,
) -> Result<Taken<RawStmt>, AllocError>
    requires low { (parts.height < 2 ^ 32 - 1) × (body.height < 2 ^ 32 - 1) }
    ensures node { IfOk result
        (IsNode (ForNode (first_of parts.tree.first) (option_map written parts.tree.test)
        (option_map written parts.tree.last) (statement_of body.tree))
        (max parts.height body.height + 1) body.next) }
    ensures placed { IfOk result (λ made. IsLoopOf place parts.tree body.tree made.tree) }
{
    let (height, next) = (parts.height.max(body.height) + 1, body.next);
    let ForParts { first, test, last } = parts.tree;
    let kind = RawStmtKind::For(first, test, last, body.tree);
    Ok(node(alloc, place, kind, height, next)?)
}
