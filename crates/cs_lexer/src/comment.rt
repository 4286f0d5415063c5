//! The ends of comments.
ghost use Rattle.std.specs.Prelude.{◌≡◌, ℕ, ◌<◌, ◌^◌, length, take, drop, MatchOption};
ghost use Rattle.std.specs.List.{take_while};
ghost use Rattle.cs_lexer.specs.Comments.{IsEnd, IsFirstEnd, CommentGives, is_inside};

use crate::lexeme::{Fault, Lexeme};
use crate::part::following;

/// Returns the number of bytes before the first line feed.
pub fn line_length(bytes: &[u8]) -> usize
    ensures { result ≡ length (take_while is_inside bytes.now) }
{
    bytes.iter().take_while(|byte| **byte != b'\n').count()
}

// Returns the number of bytes before the first `*/`.
fn comment_end(bytes: &[u8]) -> Option<usize>
    requires { length bytes.now < 2 ^ 32 }
    ensures { MatchOption result ((k : ℕ) → IsEnd bytes.now k
        → ⊥) (λ count. IsFirstEnd bytes.now count) }
{
    for i in 0..bytes.len() {
        if bytes[i] == b'*' && i + 1 < bytes.len() && bytes[i + 1] == b'/' {
            return Some(i);
        }
    }
    None
}

/// Returns the comment that bytes begin with; the first two are `/*`.
pub fn comment(bytes: &[u8]) -> Lexeme
    requires { length bytes.now < 2 ^ 32 }
    ensures { CommentGives (drop 2 bytes.now) result }
{
    match comment_end(following(bytes, 2)) {
        Some(count) => Lexeme::Gap(count + 4),
        None => Lexeme::Refused(Fault::Unclosed, 0),
    }
}
