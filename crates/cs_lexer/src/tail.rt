//! The last token of a list.
ghost use Rattle.std.specs.Prelude.{◌≡◌, ◌-◌, Some, None, length, take, reverse, MatchOption};
ghost use Rattle.cs_lexer.specs.Texts.{first_text, text_of_kind};

use cs_ast::{Token, TokenKind};
use cs_names::Bytes;

/// Drops the last token.
pub fn drop_last(tokens: &mut Vec<Token>)
    ensures { tokens.new.items ≡ take (length tokens.old.items - 1) tokens.old.items }
{
    let last = tokens.pop();
    drop(last);
}

// Returns the bytes of a token, if it is a string literal.
fn text_of(token: &Token) -> Option<&Bytes>
    ensures { MatchOption result (text_of_kind token.now.kind ≡ None)
        (λ bytes. text_of_kind token.now.kind ≡ Some bytes.now) }
{
    match &token.kind {
        TokenKind::Text(bytes) => Some(bytes),
        _ => None,
    }
}

/// Returns the bytes of the last token, if it is a string literal.
pub fn last_text(tokens: &[Token]) -> Option<&Bytes>
    ensures { MatchOption result (first_text (reverse tokens.now) ≡ None)
        (λ bytes. first_text (reverse tokens.now) ≡ Some bytes.now) }
{
    match tokens.split_last() {
        Some((last, _)) => text_of(last),
        None => None,
    }
}
