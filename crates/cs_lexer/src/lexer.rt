//! The tokens of a whole text.
ghost use Rattle.std.specs.Prelude.{◌≡◌, ◌≤◌, length, IfOk, IfErr};
ghost use Rattle.cs_lexer.specs.Lexing.{Lexes, IsRefused, tokens_of};

use crate::attributes::without_attributes;
use crate::cut::{End, cut};
use crate::refusal::LexRefusal;
use crate::texts::joined;
use cs_ast::{Place, Token};
use cs_limits::{MOST_BYTES, MOST_TOKENS};
use cs_names::Name;
use std::alloc::{AllocError, Global};

/// The tokens of a text in order, the names of its files by their numbers, and the position of its end.
#[derive(Drop)]
pub struct Lexed {
    pub list: Vec<Token>,
    pub files: Vec<Name>,
    pub end: Place,
}

// Returns the tokens of pieces: attributes are removed, and adjacent string literals joined.
fn listed(alloc: Global, pieces: Vec<Token>) -> Result<Vec<Token>, AllocError>
    ensures { IfOk result (λ list. list.items ≡ tokens_of pieces.items) }
{
    let kept = without_attributes(alloc, pieces)?;
    joined(alloc, kept)
}

/// Returns the tokens of a preprocessed text of at most `MOST_BYTES` bytes (C11 6.4) with their positions, or why it
/// has none.
pub fn tokens(alloc: Global, bytes: &[u8]) -> Result<Lexed, LexRefusal>
    requires { length bytes.now ≤ MOST_BYTES }
    ensures lexed { IfOk result (λ lexed. Lexes bytes.now lexed) }
    ensures refused { IfErr result (λ refusal. IsRefused bytes.now refusal) }
{
    let cutting = cut(alloc, bytes)?;
    let list = listed(alloc, cutting.tokens)?;
    if list.as_slice().len() > MOST_TOKENS {
        return Err(LexRefusal::TooManyTokens);
    }
    match cutting.end {
        End::Whole => Ok(Lexed {
            list,
            files: cutting.files.into_names(),
            end: cutting.place,
        }),
        End::Refused(fault) => {
            let file = cutting.files.name(cutting.place.file)?;
            Err(LexRefusal::of(fault, cutting.place, file))
        }
    }
}
