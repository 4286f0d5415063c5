//! The punctuator that bytes begin with.
ghost use Rattle.std.specs.Prelude.{◌≡◌, length, MatchOption};
ghost use Rattle.cs_lexer.specs.Spellings.{punctuator_text};
ghost use Rattle.cs_lexer.specs.Punctuators.{NoPunctuator, IsLongestPunctuator, PunctuatorGives};

use crate::lexeme::{Fault, Lexeme};
use crate::part::front;
use crate::spelling::punctuator_spelled;
use cs_ast::{Punctuator, TokenKind};

// Returns the longest punctuator that bytes begin with.
fn longest_punctuator(bytes: &[u8]) -> Option<Punctuator>
    ensures { MatchOption result (NoPunctuator bytes.now)
        (λ punctuator. IsLongestPunctuator bytes.now punctuator) }
{
    if let Some(punctuator) = punctuator_spelled(front(bytes, 3)) {
        return Some(punctuator);
    }
    if let Some(punctuator) = punctuator_spelled(front(bytes, 2)) {
        return Some(punctuator);
    }
    punctuator_spelled(front(bytes, 1))
}

// Returns the number of bytes of a punctuator.
fn punctuator_length(punctuator: Punctuator) -> usize
    ensures { result ≡ length (punctuator_text punctuator) }
{
    match punctuator {
        Punctuator::ShiftLeftEqual | Punctuator::ShiftRightEqual | Punctuator::Ellipsis => 3,
        Punctuator::Arrow
        | Punctuator::Increment
        | Punctuator::Decrement
        | Punctuator::ShiftLeft
        | Punctuator::ShiftRight
        | Punctuator::AtMost
        | Punctuator::AtLeast
        | Punctuator::EqualEqual
        | Punctuator::Differs
        | Punctuator::AndAnd
        | Punctuator::BarBar
        | Punctuator::StarEqual
        | Punctuator::SlashEqual
        | Punctuator::PercentEqual
        | Punctuator::PlusEqual
        | Punctuator::MinusEqual
        | Punctuator::AmpersandEqual
        | Punctuator::CaretEqual
        | Punctuator::BarEqual => 2,
        _ => 1,
    }
}

/// Returns the punctuator that bytes begin with; a byte that begins no token is a fault.
pub fn punctuator(bytes: &[u8]) -> Lexeme
    ensures { PunctuatorGives bytes.now result }
{
    match longest_punctuator(bytes) {
        Some(punctuator) => Lexeme::Token(
            punctuator_length(punctuator),
            TokenKind::Punctuator(punctuator),
        ),
        None => Lexeme::Refused(Fault::BadByte, 0),
    }
}
