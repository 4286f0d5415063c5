//! Declaration specifiers: words of types, and bodies (C11 6.7.2).
ghost use Rattle.std.specs.Prelude.{◌≡◌, ◌≤◌, ◌<◌, ◌^◌, ◌+◌, ◌-◌, List, length, drop, false, Some, None, IfOk, IsTrue};
ghost use Rattle.cs_ast.specs.declared.token.Token.{Token};
ghost use Rattle.cs_ast.specs.RawDeclarations.{StructBody};
ghost use Rattle.cs_ast.specs.RawDeclarationView.{constant as constant_of, members_list};
ghost use Rattle.cs_grammar.specs.FileText.{constant_text};
ghost use Rattle.cs_expr_parser.specs.Positions.{kind_or_end};
ghost use Rattle.cs_expr_parser.specs.Words.{names_some};
ghost use Rattle.cs_declarator_parser.specs.TreePlaces.{TreeAt};
ghost use Rattle.cs_declarator_parser.specs.Bounds.{IsBounded, IsNextBounded, IsWordBounded, IsWordOf};
ghost use Rattle.cs_declarator_parser.specs.DeclarationAnswers.{constant_row};
ghost use Rattle.cs_declarator_parser.specs.SpecWords.{begins_words, name_in, number_after, enum_of, IsTagKeyword, HasNoTag, IsTagged, IsOpened, IsSpecOf, IsStatic, PlainAnswer, ElementAnswer, SpecAnswer, SpecsAnswer};
ghost use Rattle.cs_declarator_parser.specs.DeclarationPlaces.{in_body, AreInRow, IsNamePlaced, IsSpecPlaced, IsConstantPlaced, HasSpecPlaces};
ghost use Rattle.cs_declarator_parser.specs.SpecPlaces.{place_in, IsWordPlaced, IsWordThere, AreGroupsPlaced};
ghost use Rattle.cs_declarator_parser.specs.Aptness.{IsAnswerApt};

use crate::constants::{ConstantList, constants};
use crate::members::members;
use crate::names::any_name_at;
use crate::source::{Scope, Source, begins_type, is_keyword, is_punctuator, refuse, refuse_deep};
use crate::stop::{Stop, Taken};
use crate::words::type_word_at;
use cs_ast::raw::declaration::{RawMember, RawSpecs, SpecWord};
use cs_ast::raw::name::RawName;
use cs_ast::raw::written_type::TypeWord;
use cs_ast::{Keyword, Place, Punctuator};
use cs_grammar::TypeSoFar;
use cs_names::Name;
use std::alloc::Global;

/// A specifier that can follow those before it.
#[derive(Drop)]
pub struct NextWord {
    pub word: SpecWord,
    /// The position of its tag, if it has one.
    pub tag: Option<Place>,
    pub height: u32,
    /// The index of the token after it.
    pub next: usize,
    /// The description of the words with this one.
    pub so_far: TypeSoFar,
}

/// Whether specifiers outside blocks may begin with the token at an index.
pub fn begins_specs(source: &Source, at: usize) -> bool
    ensures { result ≡ begins_words Scope.File source.now.names.now
        (kind_or_end source.now.tokens.now at) }
{
    begins_type(source, at) || is_keyword(source, at, Keyword::Static)
}

/// Returns the specifiers outside blocks from an index on: the longest sequence of words that a type may have.
#[cycle(specs)]
pub fn specs(
    alloc: Global,
    source: &Source,
    from: usize,
    limit: u32,
) -> Result<Taken<RawSpecs>, Stop>
    requires within { from ≤ length source.now.tokens.now }
    requires few { length source.now.tokens.now < 2 ^ 32 }
    requires some { 1 ≤ limit }
    ensures bounds { IsBounded limit source.now.tokens.now from result }
    ensures parsed { SpecsAnswer source.now.names.now limit source.now.tokens.now from result }
    ensures placed { IfOk result (TreeAt HasSpecPlaces source.now.tokens.now from) }
    ensures apt { IsAnswerApt Scope.File source.now.tokens.now result }
{
    // Usually there is one word.
    let mut words = Vec::with_capacity(alloc, 1)?;
    let mut tag = None;
    let mut height = 0;
    let mut next = from;
    let mut so_far = TypeSoFar::Nothing;
    'words: while let Some(found) = word_at(alloc, source, next, limit, so_far)? {
        tag = tag.or(found.tag);
        height = height.max(found.height);
        next = found.next;
        so_far = found.so_far;
        words.push(found.word)?;
    }
    if !names_type(so_far) {
        return Err(refuse(source, next, Scope::File));
    }
    Ok(Taken {
        tree: RawSpecs { words, tag },
        height,
        next,
    })
}

/// Whether `struct` or `enum` is at an index.
pub fn begins_tagged(source: &Source, at: usize) -> bool
    ensures tag { IsTrue result → IsTagKeyword (kind_or_end source.now.tokens.now at) }
    ensures none { result ≡ false → HasNoTag (kind_or_end source.now.tokens.now at) }
    ensures within { IsTrue result → at < length source.now.tokens.now }
{
    if is_keyword(source, at, Keyword::Struct) {
        return true;
    }
    is_keyword(source, at, Keyword::Enum)
}

/// Returns the word at an index, if there is one that can follow those before it.
#[cycle(specs)]
fn word_at(
    alloc: Global,
    source: &Source,
    at: usize,
    limit: u32,
    so_far: TypeSoFar,
) -> Result<Option<NextWord>, Stop>
    requires within { at ≤ length source.now.tokens.now }
    requires few { length source.now.tokens.now < 2 ^ 32 }
    requires some { 1 ≤ limit }
    ensures bounds { IsWordBounded limit source.now.tokens.now at result }
    ensures word { SpecAnswer source.now.names.now limit source.now.tokens.now at so_far result }
    ensures placed { IfOk result (IsWordThere source.now.tokens.now at so_far) }
    ensures apt { IsAnswerApt Scope.File source.now.tokens.now result }
{
    if is_keyword(source, at, Keyword::Static) {
        return Ok(Some(static_word(at, so_far)));
    }
    if !begins_tagged(source, at) {
        return plain_word(source, at, so_far);
    }
    if names_type(so_far) {
        return Ok(None);
    }
    let found = tagged(alloc, source, at, limit)?;
    Ok(Some(found))
}

/// Whether words name a type.
pub fn names_type(so_far: TypeSoFar) -> bool
    ensures { result ≡ names_some so_far }
{
    match so_far {
        TypeSoFar::Nothing => false,
        TypeSoFar::Integers(_) | TypeSoFar::Whole => true,
    }
}

/// Returns `static`, at an index, as a word.
fn static_word(at: usize, so_far: TypeSoFar) -> NextWord
    requires few { at < 2 ^ 32 }
    ensures word { IsStatic at so_far result }
    ensures tag { result.tag ≡ None }
{
    NextWord {
        word: SpecWord::Static,
        tag: None,
        height: 1,
        next: at + 1,
        so_far,
    }
}

/// Returns the word of one token at an index, if there is one that can follow those before it.
pub fn plain_word(source: &Source, at: usize, so_far: TypeSoFar) -> Result<Option<NextWord>, Stop>
    requires few { length source.now.tokens.now < 2 ^ 32 }
    ensures bounds { IsWordBounded 1 source.now.tokens.now at result }
    ensures word { PlainAnswer source.now.names.now source.now.tokens.now at so_far result }
    ensures placed { IfOk result (IsWordThere source.now.tokens.now at so_far) }
    ensures apt { IsAnswerApt Scope.Block source.now.tokens.now result }
{
    let Some(word) = type_word_at(source, at)? else {
        return Ok(None);
    };
    match so_far.with(&word) {
        None => Ok(None),
        Some(so_far) => Ok(Some(NextWord {
            word: SpecWord::Plain(word),
            tag: None,
            height: 1,
            next: at + 1,
            so_far,
        })),
    }
}

/// Returns `struct` or `enum`, at an index, with a tag, a body, or both.
#[cycle(specs)]
fn tagged(alloc: Global, source: &Source, at: usize, limit: u32) -> Result<NextWord, Stop>
    requires within { at < length source.now.tokens.now }
    requires few { length source.now.tokens.now < 2 ^ 32 }
    requires some { 1 ≤ limit }
    requires stands { IsTagKeyword (kind_or_end source.now.tokens.now at) }
    ensures bounds { IsNextBounded limit source.now.tokens.now at result }
    ensures element { ElementAnswer source.now.names.now limit source.now.tokens.now at result }
    ensures placed { IfOk result (IsWordPlaced source.now.tokens.now at) }
    ensures apt { IsAnswerApt Scope.File source.now.tokens.now result }
{
    let tag = any_name_at(source, at + 1)?;
    let following = after_tag(at, &tag);
    if is_punctuator(source, following, Punctuator::OpenBrace) {
        return with_body(alloc, source, at, tag, following, limit);
    }
    match tag {
        Some(tag) => Ok(without_body(source, at, tag)),
        None => Err(refuse(source, following, Scope::File)),
    }
}

/// Returns the index of the token after `struct` or `enum`, which is at `at`, and its tag, if it has one.
fn after_tag(at: usize, tag: &Option<RawName>) -> usize
    requires few { at < 2 ^ 32 }
    ensures { result ≡ number_after at (name_in tag.now) }
{
    match tag {
        Some(_) => at + 2,
        None => at + 1,
    }
}

/// Returns `struct` or `enum`, at an index, with the tag after it.
pub fn without_body(source: &Source, at: usize, tag: RawName) -> NextWord
    requires few { at < 2 ^ 32 }
    ensures bounds { IsWordOf 2 1 at result }
    ensures word { IsTagged (kind_or_end source.now.tokens.now at) tag.name result }
    ensures tag { result.tag ≡ Some tag.place }
{
    let word = if is_keyword(source, at, Keyword::Struct) {
        TypeWord::Struct(tag.name)
    } else {
        TypeWord::Enum(tag.name)
    };
    NextWord {
        word: SpecWord::Plain(word),
        tag: Some(tag.place),
        height: 1,
        next: at + 2,
        so_far: TypeSoFar::Whole,
    }
}

/// Returns `struct` or `enum`, at an index, with its tag, if it has one, and its body, whose opening brace is at
/// `brace`.
#[cycle(specs)]
fn with_body(
    alloc: Global,
    source: &Source,
    at: usize,
    tag: Option<RawName>,
    brace: usize,
    limit: u32,
) -> Result<NextWord, Stop>
    requires onward { at < brace }
    requires within { brace < length source.now.tokens.now }
    requires few { length source.now.tokens.now < 2 ^ 32 }
    requires some { 1 ≤ limit }
    requires opened { IsOpened source.now.tokens.now at brace (name_in tag) }
    ensures bounds { IsNextBounded limit source.now.tokens.now at result }
    ensures element { ElementAnswer source.now.names.now limit source.now.tokens.now at result }
    ensures placed { IsNamePlaced tag (drop (at + 1) source.now.tokens.now)
        → IfOk result (IsWordPlaced source.now.tokens.now at) }
    ensures apt { IsAnswerApt Scope.File source.now.tokens.now result }
{
    if is_keyword(source, at, Keyword::Struct) {
        let members = members(alloc, source, brace + 1, limit - 1)?;
        return Ok(structure(tag, members));
    }
    if limit < 2 {
        return Err(refuse_deep(brace));
    }
    let constants = constants(alloc, source, brace + 1, limit - 1)?;
    Ok(enumeration(tag, constants))
}

/// Returns the name and the position of a tag, if there is one.
fn split(tag: Option<RawName>) -> (Option<Name>, Option<Place>)
    ensures name { result.0 ≡ name_in tag }
    ensures place { result.1 ≡ place_in tag }
{
    match tag {
        Some(tag) => (Some(tag.name), Some(tag.place)),
        None => (None, None),
    }
}

/// Returns the word of a structure with its body.
fn structure(tag: Option<RawName>, members: Taken<Vec<RawMember>>) -> NextWord
    requires low { members.height < 2 ^ 32 - 1 }
    ensures bounds { IsWordOf 0 (members.height + 1) members.next result }
    ensures word { IsSpecOf (StructBody (name_in tag) (members_list members.tree.items)) result }
    ensures tag { result.tag ≡ place_in tag }
    ensures placed { (tokens : List Token)
        → AreGroupsPlaced members.tree.items (in_body (name_in tag) tokens)
        → IsSpecPlaced result.word tokens }
{
    let (name, place) = split(tag);
    NextWord {
        word: SpecWord::Struct(name, members.tree),
        tag: place,
        height: members.height + 1,
        next: members.next,
        so_far: TypeSoFar::Whole,
    }
}

/// Returns the word of an enumeration with its body.
fn enumeration(tag: Option<RawName>, constants: Taken<ConstantList>) -> NextWord
    requires low { constants.height < 2 ^ 32 - 1 }
    ensures bounds { IsWordOf 0 (constants.height + 1) constants.next result }
    ensures word { IsSpecOf (enum_of (name_in tag) (constant_row constants.tree)) result }
    ensures tag { result.tag ≡ place_in tag }
    ensures placed { (tokens : List Token)
        → AreInRow IsConstantPlaced (λ e. constant_text (constant_of e))
        constants.tree.list.items (in_body (name_in tag) tokens)
        → IsSpecPlaced result.word tokens }
{
    let (name, place) = split(tag);
    let ConstantList { list, comma } = constants.tree;
    NextWord {
        word: SpecWord::Enum(name, list, comma),
        tag: place,
        height: constants.height + 1,
        next: constants.next,
        so_far: TypeSoFar::Whole,
    }
}
