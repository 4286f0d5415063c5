//! Types between parentheses (C11 6.7.7).
ghost use Rattle.std.specs.Prelude.{◌≡◌, ◌≤◌, ◌<◌, ◌^◌, ◌+◌, None, List, length, IfOk, IsSome, drop};
ghost use Rattle.cs_expr_parser.specs.Places.{IsOkTypePlaced, IsTagPlaced, IsNextTagged, IsTagStanding, IsJoiningTagged};
ghost use Rattle.cs_ast.specs.declared.token.TokenKind.TheVariants as token;
ghost use Rattle.cs_ast.specs.declared.token.Keyword.TheVariants as keyword;
ghost use Rattle.cs_ast.specs.declared.raw.written_type.TypeWord.{TypeWord as WordOfType};
ghost use Rattle.cs_grammar.specs.TypesSoFar.{Describes};
ghost use Rattle.cs_expr_parser.specs.LastTokens.{IsStopReported};
ghost use Rattle.cs_expr_parser.specs.Parts.{IsTypeBounded, IsStopBounded, TypeAnswers};
ghost use Rattle.cs_expr_parser.specs.Words.{IsNextBounded, IsJoiningBounded, IsIntegerAt, IsPointerAt, names_some, word_of_tag, has_tag as is_tagged, WordsAnswer, WordAnswer, JoiningAnswer, TagAnswer, PointersAnswer};
ghost use Rattle.cs_expr_parser.specs.Positions.{kind_or_end};

use crate::lists::{bounds, is_last_word};
use crate::stop::Stop;
use crate::tokens::{is_punctuator, keyword_at, name_at, place_at, refuse, refuse_in_type};
use cs_ast::raw::expression::RawExpr;
use cs_ast::raw::written_type::{PointerWord, TypeWord, WrittenType};
use cs_ast::{Keyword, Place, Punctuator, Token};
use cs_grammar::{TypeSoFar, TypedefNames, integer_word};
use cs_names::Name;
use std::alloc::Global;

/// A type between parentheses, as a part of the parser returns it to another.
#[derive(Drop)]
pub struct TakenType {
    pub ty: WrittenType,
    pub bounds: Vec<RawExpr>,
    /// The height of the highest bound, 0 if there is none.
    pub height: u32,
    /// The index of the token after the closing parenthesis.
    pub next: usize,
}

/// The words of a type, and the index of the token after them.
#[derive(Drop)]
pub struct TypeWords {
    pub words: Vec<TypeWord>,
    pub tag: Option<Place>,
    /// Whether the last word is a tag.
    pub tagged: bool,
    pub next: usize,
}

/// The words of pointers, and the index of the token after them.
#[derive(Drop)]
pub struct PointerWords {
    pub words: Vec<PointerWord>,
    pub next: usize,
}

/// A word of a type, with the position of its tag, and the index of the token after it.
#[derive(Drop)]
pub struct NextWord {
    pub word: TypeWord,
    pub tag: Option<Place>,
    pub next: usize,
}

/// A word that continues those before it, and the description of the words with it.
#[derive(Drop)]
pub struct JoiningWord {
    pub found: NextWord,
    pub after: TypeSoFar,
}

/// Returns the type from after an opening parenthesis to after the closing one.
#[cycle(expression)]
pub fn parenthesised_type(
    alloc: Global,
    tokens: &[Token],
    names: &TypedefNames,
    from: usize,
    limit: u32,
) -> Result<TakenType, Stop>
    requires within { from ≤ length tokens.now }
    requires few { length tokens.now < 2 ^ 32 }
    requires least { 1 ≤ limit }
    ensures bounds { IsTypeBounded limit tokens.now from result }
    ensures parsed { TypeAnswers names.now limit tokens.now from result }
    ensures reported { IsStopReported names.now tokens.now from result }
    ensures placed { IsOkTypePlaced tokens.now from result }
{
    let words = type_words(alloc, tokens, names, from)?;
    let pointers = pointer_words(alloc, tokens, words.next)?;
    let after_tag = is_last_word(words.tagged, &pointers.words);
    let listed = bounds(alloc, tokens, names, pointers.next, limit, after_tag)?;
    Ok(TakenType {
        ty: WrittenType {
            words: words.words,
            tag: words.tag,
            pointers: pointers.words,
        },
        bounds: listed.trees,
        height: listed.height,
        next: listed.next,
    })
}

/// Returns the longest sequence of words of a type.
fn type_words(
    alloc: Global,
    tokens: &[Token],
    names: &TypedefNames,
    from: usize,
) -> Result<TypeWords, Stop>
    requires within { from ≤ length tokens.now }
    requires few { length tokens.now < 2 ^ 32 }
    ensures bounds { IfOk result (λ taken.
        (from ≤ taken.next) × (taken.next ≤ length tokens.now)) }
    ensures refused { IsStopBounded tokens.now from result }
    ensures words { WordsAnswer names.now tokens.now from result }
    ensures reported { IsStopReported names.now tokens.now from result }
    ensures placed { IfOk result (λ taken.
        IsTagPlaced taken.tag taken.words.items (drop from tokens.now)) }
{
    let mut words = Vec::new(alloc);
    let mut so_far = TypeSoFar::Nothing;
    let mut tag = None;
    let mut tagged = false;
    let mut next = from;
    'words: while let Some(joined) = joining_word_at(tokens, names, next, so_far)? {
        so_far = joined.after;
        tag = tag.or(joined.found.tag);
        tagged = has_tag(&joined.found.word);
        next = joined.found.next;
        words.push(joined.found.word)?;
    }
    if !names_type(so_far) {
        return Err(refuse(tokens, next, false));
    }
    Ok(TypeWords {
        words,
        tag,
        tagged,
        next,
    })
}

/// Returns the word of a type at an index, if there is one that continues the words so far.
fn joining_word_at(
    tokens: &[Token],
    names: &TypedefNames,
    at: usize,
    so_far: TypeSoFar,
) -> Result<Option<JoiningWord>, Stop>
    requires within { at ≤ length tokens.now }
    requires few { length tokens.now < 2 ^ 32 }
    ensures bounds { IsJoiningBounded tokens.now at result }
    ensures joining { (words : List WordOfType) → Describes names.now so_far words
        → JoiningAnswer names.now words tokens.now at result }
    ensures placed { IsJoiningTagged tokens.now at result }
{
    let Some(found) = word_at(tokens, names, at, so_far)? else {
        return Ok(None);
    };
    let Some(after) = so_far.with(&found.word) else {
        return Ok(None);
    };
    Ok(Some(JoiningWord { found, after }))
}

/// Returns the word of a type at an index, if there is one; `struct` and `enum` begin one only if no word so far names
/// a type.
fn word_at(
    tokens: &[Token],
    names: &TypedefNames,
    at: usize,
    so_far: TypeSoFar,
) -> Result<Option<NextWord>, Stop>
    requires within { at ≤ length tokens.now }
    requires few { length tokens.now < 2 ^ 32 }
    ensures bounds { IsNextBounded tokens.now at result }
    ensures word { WordAnswer names.now tokens.now at so_far result }
    ensures placed { IsNextTagged tokens.now at result }
{
    if let Some(name) = name_at(tokens, at) {
        if !names.contains(name) {
            return Ok(None);
        }
        let word = TypeWord::Typedef(name.copy()?);
        return Ok(Some(untagged(word, at)));
    }
    let Some(keyword) = keyword_at(tokens, at) else {
        return Ok(None);
    };
    match keyword {
        Keyword::Struct => tagged(tokens, at, true, so_far),
        Keyword::Enum => tagged(tokens, at, false, so_far),
        Keyword::Const => Ok(Some(untagged(TypeWord::Const, at))),
        Keyword::Void => Ok(Some(untagged(TypeWord::Void, at))),
        _ => Ok(integer_at(keyword, at)),
    }
}

fn integer_at(keyword: Keyword, at: usize) -> Option<NextWord>
    requires { at < 2 ^ 32 }
    ensures { IsIntegerAt keyword at result }
{
    let word = integer_word(keyword)?;
    Some(untagged(TypeWord::Integer(word), at))
}

/// Returns the word of the one token at an index.
fn untagged(word: TypeWord, at: usize) -> NextWord
    requires { at < 2 ^ 32 }
    ensures word { result.word ≡ word }
    ensures next { result.next ≡ at + 1 }
    ensures tag { result.tag ≡ None }
{
    NextWord {
        word,
        tag: None,
        next: at + 1,
    }
}

/// Returns `struct` or `enum`, at an index, with the tag after it.
fn tagged(
    tokens: &[Token],
    at: usize,
    is_struct: bool,
    so_far: TypeSoFar,
) -> Result<Option<NextWord>, Stop>
    requires within { at < length tokens.now }
    requires few { length tokens.now < 2 ^ 32 }
    ensures bounds { IsNextBounded tokens.now at result }
    ensures tagged { TagAnswer is_struct tokens.now at so_far result }
    ensures placed { IsTagStanding tokens.now at result }
{
    if names_type(so_far) {
        return Ok(None);
    }
    let Some(tag) = name_at(tokens, at + 1) else {
        return Err(refuse_in_type(tokens, at + 1, true));
    };
    let tag = tag.copy()?;
    let word = tag_word(tag, is_struct);
    Ok(Some(NextWord {
        word,
        tag: Some(place_at(tokens, at + 1)),
        next: at + 2,
    }))
}

/// Whether the word has a tag.
fn has_tag(word: &TypeWord) -> bool
    ensures { result ≡ is_tagged word.now }
{
    match word {
        TypeWord::Struct(_) | TypeWord::Enum(_) => true,
        TypeWord::Const | TypeWord::Integer(_) | TypeWord::Void | TypeWord::Typedef(_) => false,
    }
}

/// Whether the words so far name a type or are part of one.
fn names_type(so_far: TypeSoFar) -> bool
    ensures { result ≡ names_some so_far }
{
    match so_far {
        TypeSoFar::Nothing => false,
        TypeSoFar::Integers(_) => true,
        TypeSoFar::Whole => true,
    }
}

fn tag_word(tag: Name, is_struct: bool) -> TypeWord
    ensures { result ≡ word_of_tag is_struct tag }
{
    if is_struct {
        TypeWord::Struct(tag)
    } else {
        TypeWord::Enum(tag)
    }
}

/// Returns the stars with the `const`s after them.
fn pointer_words(alloc: Global, tokens: &[Token], from: usize) -> Result<PointerWords, Stop>
    requires within { from ≤ length tokens.now }
    requires few { length tokens.now < 2 ^ 32 }
    requires no_const { kind_or_end tokens.now from ≡ token.Keyword keyword.Const → ⊥ }
    ensures bounds { IfOk result (λ taken.
        (from ≤ taken.next) × (taken.next ≤ length tokens.now)) }
    ensures refused { IsStopBounded tokens.now from result }
    ensures pointers { PointersAnswer tokens.now from result }
{
    let mut words = Vec::new(alloc);
    let mut next = from;
    'stars: while let Some(word) = pointer_word_at(tokens, next) {
        words.push(word)?;
        next += 1;
    }
    Ok(PointerWords { words, next })
}

fn pointer_word_at(tokens: &[Token], at: usize) -> Option<PointerWord>
    ensures within { IsSome result → at < length tokens.now }
    ensures word { IsPointerAt (kind_or_end tokens.now at) result }
{
    if is_punctuator(tokens, at, Punctuator::Star) {
        return Some(PointerWord::Star);
    }
    match keyword_at(tokens, at) {
        Some(Keyword::Const) => Some(PointerWord::Const),
        _ => None,
    }
}
