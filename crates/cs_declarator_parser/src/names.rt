//! The names of tags, declarators and constants.
ghost use Rattle.std.specs.Prelude.{◌<◌, length, drop, IfOk, IsSome};
ghost use Rattle.cs_grammar.specs.FilePhrases.{IsFree};
ghost use Rattle.cs_expr_parser.specs.Positions.{kind_or_end};
ghost use Rattle.cs_declarator_parser.specs.DeclarationAnswers.{IsNameAt};
ghost use Rattle.cs_declarator_parser.specs.DeclarationPlaces.{IsNamePlaced};

use crate::source::{Source, begins_type, name_at, place_at};
use cs_ast::raw::name::RawName;
use std::alloc::AllocError;

/// Returns the name at an index, if there is one; it may be a typedef name.
pub fn any_name_at(source: &Source, at: usize) -> Result<Option<RawName>, AllocError>
    ensures within { IfOk result (λ name. IsSome name → at < length source.now.tokens.now) }
    ensures name { IfOk result
        (IsNameAt (λ name. Unit {0}) (kind_or_end source.now.tokens.now at)) }
    ensures placed { IfOk result (λ name. IsNamePlaced name (drop at source.now.tokens.now)) }
{
    let Some(name) = name_at(source, at) else {
        return Ok(None);
    };
    let name = name.copy()?;
    Ok(Some(RawName {
        place: place_at(source, at),
        name,
    }))
}

/// Returns the name at an index, if there is one that is no typedef name.
pub fn free_name_at(source: &Source, at: usize) -> Result<Option<RawName>, AllocError>
    ensures within { IfOk result (λ name. IsSome name → at < length source.now.tokens.now) }
    ensures name { IfOk result
        (IsNameAt (IsFree source.now.names.now) (kind_or_end source.now.tokens.now at)) }
    ensures placed { IfOk result (λ name. IsNamePlaced name (drop at source.now.tokens.now)) }
{
    if begins_type(source, at) {
        return Ok(None);
    }
    any_name_at(source, at)
}
