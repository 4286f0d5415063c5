//! Removes attributes from tokens.
ghost use Rattle.std.specs.Prelude.{◌≡◌, ℕ, ◌≤◌, ◌<◌, ◌+◌, ◌^◌, false, List, length, reverse, take, slice_index, IfOk};
ghost use Rattle.std.specs.List.{list_any};
ghost use Rattle.cs_lexer.specs.Attributes as spec;
ghost use Rattle.cs_lexer.specs.Attributes.{IsClosings};

use crate::tail::drop_last;
use cs_ast::{Punctuator, Token, TokenKind};
use std::alloc::{AllocError, Global};

// Whether a token is the word `__attribute__`, or another that begins an attribute.
fn is_attribute(token: &Token) -> bool
    ensures { result ≡ spec.is_attribute token.now.kind }
{
    matches!(token.kind, TokenKind::Attribute)
}

// Whether a token is `(`.
fn opens(token: &Token) -> bool
    ensures { result ≡ spec.opens token.now.kind }
{
    matches!(
        token.kind,
        TokenKind::Punctuator(Punctuator::OpenParenthesis)
    )
}

// Whether a token is `)`.
fn closes(token: &Token) -> bool
    ensures { result ≡ spec.closes token.now.kind }
{
    matches!(
        token.kind,
        TokenKind::Punctuator(Punctuator::CloseParenthesis)
    )
}

// Returns the number of parentheses that are open after a token, from the number before it.
fn depth_after(token: &Token, depth: usize) -> usize
    requires { depth + 1 < 2 ^ 64 }
    ensures { result ≡ spec.depth_after token.now depth }
{
    if opens(token) {
        depth + 1
    } else if closes(token) {
        depth.saturating_sub(1)
    } else {
        depth
    }
}

// Returns how many parentheses a token and those after it close that were opened before it, from the same number for those
// after it.
fn surplus_before(token: &Token, surplus: usize) -> usize
    requires { surplus + 1 < 2 ^ 64 }
    ensures { result ≡ spec.surplus_before token.now surplus }
{
    if opens(token) {
        surplus.saturating_sub(1)
    } else if closes(token) {
        surplus + 1
    } else {
        surplus
    }
}

// Returns for each number of tokens at the end of a list whether they close a parenthesis that opens before them. The
// tokens are given in reverse order.
fn closings(alloc: Global, reversed: &[Token]) -> Result<Vec<bool>, AllocError>
    ensures { IfOk result (λ made. IsClosings reversed.now made.items) }
{
    let mut made = Vec::new(alloc);
    let mut surplus = 0;
    made.push(false)?;
    for token in reversed {
        surplus = surplus_before(token, surplus);
        made.push(surplus > 0)?;
    }
    Ok(made)
}

// Whether a token is the word of an attribute with a closed parenthesis after it. The tokens after it are given in
// reverse order.
fn has_group(token: &Token, reversed: &[Token], closings: &[bool]) -> bool
    requires { IsClosings reversed.now closings.now }
    ensures { result ≡ spec.has_group token.now (reverse reversed.now) }
{
    match reversed.split_last() {
        Some((next, inside)) => { is_attribute(token) && opens(next) && closings[inside.len()] }
        None => false,
    }
}

// Whether some token begins an attribute.
fn has_attribute(tokens: &[Token]) -> bool
    ensures { result ≡ list_any (λ token. spec.is_attribute token.kind) tokens.now }
{
    tokens.iter().any(is_attribute)
}

/// Returns the tokens without attributes. Most texts have none; then the tokens are returned unchanged.
#[tactic(auto, using(crate::proofs::Untouched::none_dropped))]
pub fn without_attributes(alloc: Global, tokens: Vec<Token>) -> Result<Vec<Token>, AllocError>
    ensures { IfOk result (λ kept. kept.items ≡ spec.without_attributes 0 tokens.items) }
{
    if !has_attribute(tokens.as_slice()) {
        return Ok(tokens);
    }
    sifted(alloc, tokens)
}

// The same, token by token.
fn sifted(alloc: Global, tokens: Vec<Token>) -> Result<Vec<Token>, AllocError>
    ensures { IfOk result (λ kept. kept.items ≡ spec.without_attributes 0 tokens.items) }
{
    let mut left = tokens;
    left.reverse();
    let closings = closings(alloc, left.as_slice())?;
    let mut kept = Vec::new(alloc);
    let mut depth = 0;
    while let Some(token) = left.pop() {
        if depth > 0 {
            depth = depth_after(&token, depth);
            drop(token);
        } else if has_group(&token, left.as_slice(), closings.as_slice()) {
            drop(token);
            drop_last(&mut left);
            depth = 1;
        } else {
            kept.push(token)?;
        }
    }
    Ok(kept)
}
