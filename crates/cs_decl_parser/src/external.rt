//! External declarations: types, typedefs, objects and functions (C11 6.9).
ghost use Rattle.std.specs.Prelude.{◌≡◌, ℕ, ◌≤◌, ◌<◌, ◌^◌, ◌+◌, ◌-◌, length, IfOk};
ghost use Rattle.cs_ast.specs.declared.token.TokenKind.TheVariants as token;
ghost use Rattle.cs_ast.specs.declared.token.Keyword.TheVariants as keyword;
ghost use Rattle.cs_ast.specs.declared.token.Punctuator.TheVariants as punctuator;
ghost use Rattle.cs_ast.specs.RawDeclarationView.{head as head_of, parameters as parameters_of};
ghost use Rattle.cs_ast.specs.RawStatementView.{external as external_view, external_of};
ghost use Rattle.cs_grammar.specs.DeclarationClasses.{Externals};
ghost use Rattle.cs_expr_parser.specs.Positions.{kind_or_end};
ghost use Rattle.cs_declarator_parser.specs.TreePlaces.{TreeAt};
ghost use Rattle.cs_declarator_parser.specs.declared.declarator.Declares.TheVariants as declaring;
ghost use Rattle.cs_declarator_parser.specs.Answers.{ExactAnswers};
ghost use Rattle.cs_declarator_parser.specs.Bounds.{IsBounded, IsOf};
ghost use Rattle.cs_declarator_parser.specs.DeclarationAnswers.{IsPointed};
ghost use Rattle.cs_decl_parser.specs.FileAnswers.{IsHeadOf, IsTypeTaken, IsBodyApt};
ghost use Rattle.cs_decl_parser.specs.FilePlaces.{IsExternalInside, IsExternalPlaced};
ghost use Rattle.cs_decl_parser.specs.ExternalPlaces.{IsTypePlaced, IsPointedPlaced, IsHeadBuilt};
ghost use Rattle.cs_declarator_parser.specs.Aptness.{IsAnswerApt};

use crate::block::items;
use cs_ast::raw::declaration::{RawFunction, RawParameters, RawSpecs};
use cs_ast::raw::external::{RawBody, RawExternal, RawExternalKind};
use cs_ast::{Keyword, Punctuator};
use cs_declarator_parser::declarator::{Declares, Pointed, declarators, pointed_name, with_bounds};
use cs_declarator_parser::objects::{with_others, with_value};
use cs_declarator_parser::parameters::{are_named, parameters};
use cs_declarator_parser::source::{Scope, Source, is_keyword, is_punctuator, place_at, refuse};
use cs_declarator_parser::specs::specs;
use cs_declarator_parser::stop::{Stop, Taken};
use std::alloc::Global;

/// The limit of an external declaration's height.
const MOST: u32 = 200;

/// Returns the external declaration that begins at an index.
pub fn external(alloc: Global, source: &Source, from: usize) -> Result<Taken<RawExternal>, Stop>
    requires within { from < length source.now.tokens.now }
    requires few { length source.now.tokens.now < 2 ^ 32 }
    ensures bounds { IsBounded 200 source.now.tokens.now from result }
    ensures parsed { ExactAnswers (Externals source.now.names.now) external_view 200
        source.now.tokens.now from result }
    ensures placed { IfOk result (TreeAt IsExternalPlaced source.now.tokens.now from) }
    ensures apt { IsAnswerApt Scope.File source.now.tokens.now result }
    ensures inside { IsBodyApt source.now.names.now source.now.tokens.now from result }
{
    let taken = if is_keyword(source, from, Keyword::Typedef) {
        typedef(alloc, source, from)?
    } else {
        declared(alloc, source, from)?
    };
    Ok(Taken {
        tree: RawExternal {
            place: place_at(source, from),
            kind: taken.tree,
        },
        height: taken.height,
        next: taken.next,
    })
}

/// `typedef` and the names that it declares, from an index on (C11 6.7.8).
fn typedef(alloc: Global, source: &Source, from: usize) -> Result<Taken<RawExternalKind>, Stop>
    requires within { from < length source.now.tokens.now }
    requires few { length source.now.tokens.now < 2 ^ 32 }
    requires stands { kind_or_end source.now.tokens.now from ≡ token.Keyword keyword.Typedef }
    ensures bounds { IsBounded 200 source.now.tokens.now from result }
    ensures parsed { ExactAnswers (Externals source.now.names.now) external_of 200
        source.now.tokens.now from result }
    ensures placed { IfOk result (TreeAt IsExternalInside source.now.tokens.now from) }
    ensures apt { IsAnswerApt Scope.File source.now.tokens.now result }
    ensures inside { IsBodyApt source.now.names.now source.now.tokens.now from result }
{
    let specs = specs(alloc, source, from + 1, MOST - 1)?;
    let names = declarators(alloc, source, specs.next, MOST - 1, Declares::Names)?;
    Ok(Taken {
        tree: RawExternalKind::Typedef(specs.tree, names.tree),
        height: specs.height.max(names.height) + 1,
        next: names.next,
    })
}

/// Returns a declaration of only a type, of objects, or of a function, from an index on.
fn declared(alloc: Global, source: &Source, from: usize) -> Result<Taken<RawExternalKind>, Stop>
    requires within { from < length source.now.tokens.now }
    requires few { length source.now.tokens.now < 2 ^ 32 }
    requires other { kind_or_end source.now.tokens.now from ≡ token.Keyword keyword.Typedef
        → ⊥ }
    ensures bounds { IsBounded 200 source.now.tokens.now from result }
    ensures parsed { ExactAnswers (Externals source.now.names.now) external_of 200
        source.now.tokens.now from result }
    ensures placed { IfOk result (TreeAt IsExternalInside source.now.tokens.now from) }
    ensures apt { IsAnswerApt Scope.File source.now.tokens.now result }
    ensures inside { IsBodyApt source.now.names.now source.now.tokens.now from result }
{
    let scope = Scope::File;
    let specs = specs(alloc, source, from, MOST - 1)?;
    if is_punctuator(source, specs.next, Punctuator::Semicolon) {
        return Ok(Taken {
            tree: RawExternalKind::Type(specs.tree),
            height: specs.height + 1,
            next: specs.next + 1,
        });
    }
    let pointed = pointed_name(alloc, source, scope, specs.next, Declares::Names)?;
    if is_punctuator(source, pointed.next, Punctuator::OpenParenthesis) {
        return function(alloc, source, specs, pointed);
    }
    objects(alloc, source, specs, pointed)
}

/// Returns the objects, of which the first one's name was taken already, to after the semicolon.
fn objects(
    alloc: Global,
    source: &Source,
    specs: Taken<RawSpecs>,
    pointed: Taken<Pointed>,
) -> Result<Taken<RawExternalKind>, Stop>
    requires within { pointed.next ≤ length source.now.tokens.now }
    requires few { length source.now.tokens.now < 2 ^ 32 }
    requires low { specs.height ≤ 199 }
    requires stands { kind_or_end source.now.tokens.now pointed.next
        ≡ token.Punctuator punctuator.OpenParenthesis → ⊥ }
    ensures bounds { IsBounded 200 source.now.tokens.now pointed.next result }
    ensures parsed { (from : ℕ)
        → IsTypeTaken source.now.names.now source.now.tokens.now from specs
        → IsPointed declaring.Names source.now.names.now source.now.tokens.now specs.next pointed
        → ExactAnswers (Externals source.now.names.now) external_of 200 source.now.tokens.now from
        result }
    ensures placed { (from : ℕ)
        → IsTypePlaced source.now.names.now source.now.tokens.now from specs
        → IsPointedPlaced source.now.names.now source.now.tokens.now specs.next pointed
        → IfOk result (TreeAt IsExternalInside source.now.tokens.now from) }
    ensures apt { IsAnswerApt Scope.File source.now.tokens.now result }
    ensures inside { (from : ℕ)
        → IsTypeTaken source.now.names.now source.now.tokens.now from specs
        → IsPointed declaring.Names source.now.names.now source.now.tokens.now specs.next pointed
        → IsBodyApt source.now.names.now source.now.tokens.now from result }
{
    let scope = Scope::File;
    let declarator = with_bounds(alloc, source, pointed, MOST - 1, Declares::Names)?;
    let first = with_value(alloc, source, scope, declarator, MOST - 1)?;
    let objects = with_others(alloc, source, scope, first, MOST - 1)?;
    Ok(Taken {
        tree: RawExternalKind::Objects(specs.tree, objects.tree),
        height: specs.height.max(objects.height) + 1,
        next: objects.next,
    })
}

/// Returns the function, whose name was taken already, to after the semicolon or the body.
fn function(
    alloc: Global,
    source: &Source,
    specs: Taken<RawSpecs>,
    pointed: Taken<Pointed>,
) -> Result<Taken<RawExternalKind>, Stop>
    requires within { pointed.next < length source.now.tokens.now }
    requires few { length source.now.tokens.now < 2 ^ 32 }
    requires low { specs.height ≤ 199 }
    requires stands { kind_or_end source.now.tokens.now pointed.next
        ≡ token.Punctuator punctuator.OpenParenthesis }
    ensures bounds { IsBounded 200 source.now.tokens.now pointed.next result }
    ensures parsed { (from : ℕ)
        → IsTypeTaken source.now.names.now source.now.tokens.now from specs
        → IsPointed declaring.Names source.now.names.now source.now.tokens.now specs.next pointed
        → ExactAnswers (Externals source.now.names.now) external_of 200 source.now.tokens.now from
        result }
    ensures placed { (from : ℕ)
        → IsTypePlaced source.now.names.now source.now.tokens.now from specs
        → IsPointedPlaced source.now.names.now source.now.tokens.now specs.next pointed
        → IfOk result (TreeAt IsExternalInside source.now.tokens.now from) }
    ensures apt { IsAnswerApt Scope.File source.now.tokens.now result }
    ensures inside { (from : ℕ)
        → IsTypeTaken source.now.names.now source.now.tokens.now from specs
        → IsPointed declaring.Names source.now.names.now source.now.tokens.now specs.next pointed
        → IsBodyApt source.now.names.now source.now.tokens.now from result }
{
    let parameters = parameters(alloc, source, pointed.next + 1, MOST - 2)?;
    let head = head(pointed.tree, parameters);
    let height = specs.height.max(head.height);
    if is_punctuator(source, head.next, Punctuator::Semicolon) {
        return Ok(Taken {
            tree: RawExternalKind::Function(specs.tree, head.tree),
            height: height + 1,
            next: head.next + 1,
        });
    }
    if !is_punctuator(source, head.next, Punctuator::OpenBrace) {
        return Err(refuse(source, head.next, Scope::File));
    }
    if !are_named(&head.tree.parameters) {
        return Err(refuse(source, head.next, Scope::File));
    }
    let body = items(alloc, source, head.next + 1, MOST - 2)?;
    let written = RawBody {
        opening: place_at(source, head.next),
        items: body.tree,
        closing: place_at(source, body.next),
    };
    Ok(Taken {
        tree: RawExternalKind::Definition(specs.tree, head.tree, written),
        height: height.max(body.height + 1) + 1,
        next: body.next + 1,
    })
}

/// Returns a function's declarator: its name with its parameters.
fn head(pointed: Pointed, parameters: Taken<RawParameters>) -> Taken<RawFunction>
    requires low { parameters.height < 2 ^ 32 - 1 }
    ensures size { IsOf (parameters.height + 1) parameters.next result }
    ensures tree { IsHeadOf pointed (parameters_of parameters.tree) (head_of result.tree) }
    ensures placed { IsHeadBuilt pointed parameters.tree result.tree }
{
    Taken {
        tree: RawFunction {
            pointers: pointed.pointers,
            place: pointed.name.place,
            name: pointed.name.name,
            parameters: parameters.tree,
        },
        height: parameters.height + 1,
        next: parameters.next,
    }
}
