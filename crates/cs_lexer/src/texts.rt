//! Joins adjacent string literals.
ghost use Rattle.std.specs.Prelude.{◌≡◌, ◌≤◌, ◌∷◌, Some, is_some, reverse, length, IfOk};
ghost use Rattle.std.specs.List.{list_any};
ghost use Rattle.cs_lexer.specs.Texts as spec;
ghost use Rattle.cs_lexer.specs.Texts.{IsWholeKind, IsWholeText};

use crate::tail::{drop_last, last_text};
use cs_ast::{Token, TokenKind};
use cs_names::Bytes;
use std::alloc::{AllocError, Global};

// Returns the bytes of a string literal and of those directly after it, which are removed. The tokens after it are
// given in reverse order.
fn whole_text(alloc: Global, first: Bytes, left: &mut Vec<Token>) -> Result<Bytes, AllocError>
    ensures whole { IfOk result (λ bytes.
        IsWholeText first (reverse left.old.items) bytes (reverse left.new.items)) }
    ensures fewer { length left.new.items ≤ length left.old.items }
{
    let mut bytes = Vec::from_slice(alloc, first.as_bytes())?;
    while let Some(next) = last_text(left.as_slice()) {
        bytes.extend_from_slice(next.as_bytes())?;
        drop_last(left);
    }
    Ok(Bytes::from_vec(bytes))
}

// Returns the kind of a token, joined with the string literals directly after it if it is one.
fn whole_kind(
    alloc: Global,
    kind: TokenKind,
    left: &mut Vec<Token>,
) -> Result<TokenKind, AllocError>
    ensures whole { IfOk result (λ whole.
        IsWholeKind kind (reverse left.old.items) whole (reverse left.new.items)) }
    ensures fewer { length left.new.items ≤ length left.old.items }
{
    match kind {
        TokenKind::Text(first) => {
            let bytes = whole_text(alloc, first, left)?;
            Ok(TokenKind::Text(bytes))
        }
        other => Ok(other),
    }
}

// Returns a token, joined with the string literals directly after it if it is one.
fn whole_token(alloc: Global, token: Token, left: &mut Vec<Token>) -> Result<Token, AllocError>
    ensures whole { IfOk result (λ whole.
        spec.joined (token ∷ reverse left.old.items)
        ≡ whole ∷ spec.joined (reverse left.new.items)) }
    ensures fewer { length left.new.items ≤ length left.old.items }
{
    let Token { kind, place } = token;
    let kind = whole_kind(alloc, kind, left)?;
    Ok(Token { kind, place })
}

// Whether a token is a string literal.
fn is_text(token: &Token) -> bool
    ensures { result ≡ is_some (spec.text_of_kind token.now.kind) }
{
    matches!(token.kind, TokenKind::Text(_))
}

// Whether some token is a string literal.
fn has_text(tokens: &[Token]) -> bool
    ensures { result ≡ list_any (λ token. is_some (spec.text_of_kind token.kind)) tokens.now }
{
    tokens.iter().any(is_text)
}

/// Returns the tokens with adjacent string literals joined, at the position of the first. Without a string literal they
/// are returned unchanged.
#[tactic(auto, using(crate::proofs::Untouched::none_joined))]
pub fn joined(alloc: Global, tokens: Vec<Token>) -> Result<Vec<Token>, AllocError>
    ensures { IfOk result (λ made. made.items ≡ spec.joined tokens.items) }
{
    if !has_text(tokens.as_slice()) {
        return Ok(tokens);
    }
    gathered(alloc, tokens)
}

// The same, token by token.
fn gathered(alloc: Global, tokens: Vec<Token>) -> Result<Vec<Token>, AllocError>
    ensures { IfOk result (λ made. made.items ≡ spec.joined tokens.items) }
{
    let mut left = tokens;
    left.reverse();
    let mut made = Vec::new(alloc);
    while let Some(token) = left.pop() {
        let whole = whole_token(alloc, token, &mut left)?;
        made.push(whole)?;
    }
    Ok(made)
}
