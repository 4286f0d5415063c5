//! Declaration specifiers inside blocks: words of types, without bodies (C11 6.7.2).
ghost use Rattle.std.specs.Prelude.{◌≡◌, ◌≤◌, ◌<◌, ◌^◌, length, false, IfOk};
ghost use Rattle.cs_expr_parser.specs.Positions.{kind_or_end};
ghost use Rattle.cs_declarator_parser.specs.TreePlaces.{TreeAt};
ghost use Rattle.cs_declarator_parser.specs.DeclarationPlaces.{HasSpecPlaces};
ghost use Rattle.cs_declarator_parser.specs.Bounds.{IsBounded, IsNextBounded, IsWordBounded};
ghost use Rattle.cs_declarator_parser.specs.DeclarationAnswers.{RefusesAfter};
ghost use Rattle.cs_declarator_parser.specs.SpecWords.{IsTagKeyword, BlockTagAnswer, BlockWordAnswer, BlockSpecsAnswer};
ghost use Rattle.cs_declarator_parser.specs.SpecPlaces.{IsWordPlaced, IsWordThere};
ghost use Rattle.cs_declarator_parser.specs.Aptness.{IsStopApt, IsAnswerApt};

use crate::names::any_name_at;
use crate::source::{Scope, Source, is_punctuator, refuse, refuse_but};
use crate::specs::{NextWord, begins_tagged, names_type, plain_word, without_body};
use crate::stop::{Stop, Taken};
use cs_ast::Punctuator;
use cs_ast::raw::declaration::RawSpecs;
use cs_grammar::{Reason, TypeSoFar};
use std::alloc::Global;

/// Returns the specifiers inside a block from an index on: the longest sequence of words that a type may have.
pub fn block_specs(
    alloc: Global,
    source: &Source,
    from: usize,
    limit: u32,
) -> Result<Taken<RawSpecs>, Stop>
    requires within { from ≤ length source.now.tokens.now }
    requires few { length source.now.tokens.now < 2 ^ 32 }
    requires some { 1 ≤ limit }
    ensures bounds { IsBounded limit source.now.tokens.now from result }
    ensures parsed { BlockSpecsAnswer source.now.names.now limit source.now.tokens.now from result }
    ensures placed { IfOk result (TreeAt HasSpecPlaces source.now.tokens.now from) }
    ensures apt { IsAnswerApt Scope.Block source.now.tokens.now result }
{
    // Usually there is one word.
    let mut words = Vec::with_capacity(alloc, 1)?;
    let mut tag = None;
    let mut next = from;
    let mut so_far = TypeSoFar::Nothing;
    'words: while let Some(found) = block_word_at(source, next, so_far)? {
        tag = tag.or(found.tag);
        next = found.next;
        so_far = found.so_far;
        words.push(found.word)?;
    }
    if !names_type(so_far) {
        return Err(refuse(source, next, Scope::Block));
    }
    Ok(Taken {
        tree: RawSpecs { words, tag },
        height: 1,
        next,
    })
}

/// Returns the word at an index, if there is one that can follow those before it.
fn block_word_at(source: &Source, at: usize, so_far: TypeSoFar) -> Result<Option<NextWord>, Stop>
    requires within { at ≤ length source.now.tokens.now }
    requires few { length source.now.tokens.now < 2 ^ 32 }
    ensures bounds { IsWordBounded 1 source.now.tokens.now at result }
    ensures word { BlockWordAnswer source.now.names.now source.now.tokens.now at so_far result }
    ensures placed { IfOk result (IsWordThere source.now.tokens.now at so_far) }
    ensures apt { IsAnswerApt Scope.Block source.now.tokens.now result }
{
    if !begins_tagged(source, at) {
        return plain_word(source, at, so_far);
    }
    if names_type(so_far) {
        return Ok(None);
    }
    let found = tag_at(source, at)?;
    Ok(Some(found))
}

/// Returns `struct` or `enum`, at an index, with the tag after it.
fn tag_at(source: &Source, at: usize) -> Result<NextWord, Stop>
    requires within { at < length source.now.tokens.now }
    requires few { length source.now.tokens.now < 2 ^ 32 }
    requires stands { IsTagKeyword (kind_or_end source.now.tokens.now at) }
    ensures bounds { IsNextBounded 1 source.now.tokens.now at result }
    ensures tag { BlockTagAnswer source.now.names.now source.now.tokens.now at result }
    ensures placed { IfOk result (IsWordPlaced source.now.tokens.now at) }
    ensures apt { IsAnswerApt Scope.Block source.now.tokens.now result }
{
    let Some(tag) = any_name_at(source, at + 1)? else {
        return Err(refuse_body(source, at + 1));
    };
    if is_punctuator(source, at + 2, Punctuator::OpenBrace) {
        return Err(Stop::Refused(at + 2, Reason::Unsupported));
    }
    Ok(without_body(source, at, tag))
}

/// Returns the refusal of the token at an index where bodies aren't supported.
fn refuse_body(source: &Source, at: usize) -> Stop
    ensures plain { RefusesAfter at false result }
    ensures apt { IsStopApt Scope.Block source.now.tokens.now result }
{
    refuse_but(source, at, Scope::Block, Punctuator::OpenBrace)
}
