//! Blocks and their items (C11 6.8.2).
ghost use Rattle.std.specs.Prelude.{◌≡◌, ◌≤◌, ◌<◌, ◌^◌, length, drop, IfOk, IsTrue};
ghost use Rattle.cs_ast.specs.declared.token.TokenKind.TheVariants as token;
ghost use Rattle.cs_ast.specs.declared.token.Punctuator.TheVariants as punctuator;
ghost use Rattle.cs_ast.specs.RawStatementView.{item as item_of};
ghost use Rattle.cs_grammar.specs.FirstTokens.{begins_type as starts_type};
ghost use Rattle.cs_grammar.specs.FileClasses.{BlockItems};
ghost use Rattle.cs_expr_parser.specs.Positions.{kind_or_end};
ghost use Rattle.cs_declarator_parser.specs.TreePlaces.{TreeAt};
ghost use Rattle.cs_declarator_parser.specs.Answers.{Answers, StatementAnswers, ExactAnswers};
ghost use Rattle.cs_decl_parser.specs.Blocks.{Locals, local_of, ItemsAnswers};
ghost use Rattle.cs_declarator_parser.specs.Bounds.{IsBounded, IsRowBounded};
ghost use Rattle.cs_declarator_parser.specs.DeclarationPlaces.{IsDeclarationPlaced};
ghost use Rattle.cs_decl_parser.specs.FilePlaces.{IsItemPlaced};
ghost use Rattle.cs_decl_parser.specs.StatementPlaces.{HasStatementPlaces, AreItemsBeside};
ghost use Rattle.cs_declarator_parser.specs.Aptness.{IsAnswerApt};

use crate::form::is_label;
use crate::nodes::node;
use crate::statement::statement;
use cs_ast::Punctuator;
use cs_ast::raw::declaration::{RawInit, RawSpecs};
use cs_ast::raw::statement::{RawItem, RawStmt, RawStmtKind};
use cs_declarator_parser::block_specs::block_specs;
use cs_declarator_parser::objects::objects;
use cs_declarator_parser::source::{
    Scope, Source, begins_type, is_punctuator, place_at, refuse_deep,
};
use cs_declarator_parser::stop::{Stop, Taken};
use std::alloc::Global;

/// Returns the block whose opening brace is at an index.
#[cycle(statement)]
pub fn block(
    alloc: Global,
    source: &Source,
    from: usize,
    limit: u32,
) -> Result<Taken<RawStmt>, Stop>
    requires within { from < length source.now.tokens.now }
    requires few { length source.now.tokens.now < 2 ^ 32 }
    requires some { 1 ≤ limit }
    requires stands { kind_or_end source.now.tokens.now from
        ≡ token.Punctuator punctuator.OpenBrace }
    ensures bounds { IsBounded limit source.now.tokens.now from result }
    ensures parsed { StatementAnswers source.now.names.now limit source.now.tokens.now from result }
    ensures placed { IfOk result (TreeAt HasStatementPlaces source.now.tokens.now from) }
    ensures apt { IsAnswerApt Scope.Block source.now.tokens.now result }
{
    let items = items(alloc, source, from + 1, limit - 1)?;
    let kind = RawStmtKind::Block(items.tree);
    let (height, next) = (items.height + 1, items.next + 1);
    Ok(node(alloc, place_at(source, from), kind, height, next)?)
}

/// Returns the items of a block, from after its opening brace to the closing one, which isn't taken. The height is that
/// of the highest, 0 if there is none.
#[cycle(statement)]
pub fn items(
    alloc: Global,
    source: &Source,
    from: usize,
    limit: u32,
) -> Result<Taken<Vec<RawItem>>, Stop>
    requires within { from ≤ length source.now.tokens.now }
    requires few { length source.now.tokens.now < 2 ^ 32 }
    ensures bounds { IsRowBounded limit source.now.tokens.now from result }
    ensures parsed { ItemsAnswers source.now.names.now limit source.now.tokens.now from result }
    ensures placed { IfOk result (λ taken.
        AreItemsBeside taken.tree.items (drop from source.now.tokens.now)) }
    ensures closing { IfOk result (λ taken. taken.next < length source.now.tokens.now) }
    ensures apt { IsAnswerApt Scope.Block source.now.tokens.now result }
{
    let mut list = Vec::new(alloc);
    let mut height: u32 = 0;
    let mut next = from;
    'items: while !is_punctuator(source, next, Punctuator::CloseBrace) {
        let taken = item(alloc, source, next, limit)?;
        height = height.max(taken.height);
        next = taken.next;
        list.push(taken.tree)?;
    }
    Ok(Taken {
        tree: list,
        height,
        next,
    })
}

/// Returns the declaration or the statement that begins at an index.
#[cycle(statement)]
pub fn item(alloc: Global, source: &Source, from: usize, limit: u32) -> Result<Taken<RawItem>, Stop>
    requires within { from ≤ length source.now.tokens.now }
    requires few { length source.now.tokens.now < 2 ^ 32 }
    ensures bounds { IsBounded limit source.now.tokens.now from result }
    ensures parsed { Answers (BlockItems source.now.names.now) item_of limit source.now.tokens.now
        from result }
    ensures placed { IfOk result (TreeAt IsItemPlaced source.now.tokens.now from) }
    ensures apt { IsAnswerApt Scope.Block source.now.tokens.now result }
{
    if begins_type(source, from) && !is_label(source, from) {
        let declared = declaration(alloc, source, from, limit)?;
        return Ok(Taken {
            tree: RawItem::Declare(declared.tree.specs, declared.tree.objects),
            height: declared.height,
            next: declared.next,
        });
    }
    let taken = statement(alloc, source, from, limit)?;
    Ok(Taken {
        tree: RawItem::Run(taken.tree),
        height: taken.height,
        next: taken.next,
    })
}

/// The parts of a declaration of objects.
#[derive(Drop)]
pub struct DeclaredObjects {
    pub specs: RawSpecs,
    pub objects: Vec<RawInit>,
}

/// Returns the declaration of objects in a block, with its semicolon, if a type begins at an index.
pub fn declaration(
    alloc: Global,
    source: &Source,
    from: usize,
    limit: u32,
) -> Result<Taken<DeclaredObjects>, Stop>
    requires within { from ≤ length source.now.tokens.now }
    requires few { length source.now.tokens.now < 2 ^ 32 }
    requires typed { IsTrue
        (starts_type source.now.names.now (kind_or_end source.now.tokens.now from)) }
    ensures bounds { IsBounded limit source.now.tokens.now from result }
    ensures parsed { ExactAnswers (Locals source.now.names.now) local_of limit source.now.tokens.now
        from result }
    ensures placed { IfOk result (λ taken.
        IsDeclarationPlaced taken.tree.specs taken.tree.objects.items
        (drop from source.now.tokens.now)) }
    ensures apt { IsAnswerApt Scope.Block source.now.tokens.now result }
{
    if limit < 2 {
        return Err(refuse_deep(from));
    }
    let scope = Scope::Block;
    let specs = block_specs(alloc, source, from, limit - 1)?;
    let objects = objects(alloc, source, scope, specs.next, limit - 1)?;
    Ok(Taken {
        tree: DeclaredObjects {
            specs: specs.tree,
            objects: objects.tree,
        },
        height: specs.height.max(objects.height) + 1,
        next: objects.next,
    })
}
