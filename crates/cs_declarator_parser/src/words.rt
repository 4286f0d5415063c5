//! The words of pointers, and the words of types without a body (C11 6.7.2, 6.7.6.1).
ghost use Rattle.std.specs.Prelude.{◌≡◌, ◌≤◌, ◌<◌, ◌^◌, length, IfOk, IsSome};
ghost use Rattle.cs_expr_parser.specs.Positions.{kind_or_end};
ghost use Rattle.cs_declarator_parser.specs.DeclarationAnswers.{IsPointerWord, ArePointers};
ghost use Rattle.cs_declarator_parser.specs.SpecWords.{IsTypeWord, word_of_keyword};

use crate::source::{Source, begins_type, is_punctuator, keyword_at, name_at};
use crate::stop::Taken;
use cs_ast::raw::written_type::{PointerWord, TypeWord};
use cs_ast::{Keyword, Punctuator};
use cs_grammar::integer_word;
use std::alloc::{AllocError, Global};

/// Returns the stars from an index on, with the `const`s after them. Their height is 0.
pub fn stars(
    alloc: Global,
    source: &Source,
    from: usize,
) -> Result<Taken<Vec<PointerWord>>, AllocError>
    requires within { from ≤ length source.now.tokens.now }
    requires few { length source.now.tokens.now < 2 ^ 32 }
    ensures bounds { IfOk result (λ taken.
        (from ≤ taken.next) × (taken.next ≤ length source.now.tokens.now)) }
    ensures pointers { IfOk result (λ taken.
        ArePointers source.now.tokens.now from taken.next taken.tree.items) }
{
    let mut words = Vec::new(alloc);
    let mut next = from;
    'stars: while let Some(word) = pointer_word_at(source, next, next > from) {
        words.push(word)?;
        next += 1;
    }
    Ok(Taken {
        tree: words,
        height: 0,
        next,
    })
}

/// Returns the word of pointers at an index, if there is one. `const` is one only after a star.
fn pointer_word_at(source: &Source, at: usize, after_star: bool) -> Option<PointerWord>
    ensures within { IsSome result → at < length source.now.tokens.now }
    ensures word { IsPointerWord after_star (kind_or_end source.now.tokens.now at) result }
{
    if is_punctuator(source, at, Punctuator::Star) {
        return Some(PointerWord::Star);
    }
    match keyword_at(source, at) {
        Some(Keyword::Const) if after_star => Some(PointerWord::Const),
        _ => None,
    }
}

/// Returns the word of a type that the one token at an index is, if it is one.
pub fn type_word_at(source: &Source, at: usize) -> Result<Option<TypeWord>, AllocError>
    ensures within { IfOk result (λ word. IsSome word → at < length source.now.tokens.now) }
    ensures word { IfOk result
        (IsTypeWord source.now.names.now (kind_or_end source.now.tokens.now at)) }
{
    if let Some(name) = name_at(source, at) {
        if !begins_type(source, at) {
            return Ok(None);
        }
        return Ok(Some(TypeWord::Typedef(name.copy()?)));
    }
    match keyword_at(source, at) {
        Some(keyword) => Ok(type_word(keyword)),
        None => Ok(None),
    }
}

/// Returns the word of a type that consists of only this keyword.
fn type_word(keyword: Keyword) -> Option<TypeWord>
    ensures { result ≡ word_of_keyword keyword }
{
    match keyword {
        Keyword::Const => Some(TypeWord::Const),
        Keyword::Void => Some(TypeWord::Void),
        _ => Some(TypeWord::Integer(integer_word(keyword)?)),
    }
}
