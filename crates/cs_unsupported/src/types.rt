//! Where types between parentheses are among the tokens of a file (C11 6.5.3.4, 6.5.4).
ghost use Rattle.std.specs.Prelude.{◌≡◌, ◌≤◌, ◌↔◌, false, length, IsTrue, IfOk, OnOk};
ghost use Rattle.cs_grammar.specs.FilePhrases.{BeginsFile};
ghost use Rattle.cs_grammar.specs.FileRefusals.{IsAfterType};
ghost use Rattle.cs_grammar.specs.FirstTokens.{keyword_begins_type};
ghost use Rattle.cs_unsupported.specs.Parentheses.{opening as after_opening, begun, word_after, closed as shut, closes as is_closing, punctuator_step, step as one_more, the_outside, run};
ghost use Rattle.cs_unsupported.specs.LastParts.{EndInPart};
ghost use Rattle.cs_unsupported.specs.Readings.{kinds, parens_of};

use cs_ast::{Keyword, Punctuator, Token, TokenKind};
use cs_grammar::TypedefNames;
use std::alloc::{AllocError, Global};

/// What the last token is.
#[derive(Clone, Copy)]
pub enum Following {
    /// An opening parenthesis that a type may follow.
    Opening,
    Name,
    For,
    Other,
}

/// The state after some tokens.
#[derive(Drop)]
pub struct Reading {
    following: Following,
    /// Whether the innermost open parenthesis holds a type.
    holds: bool,
    /// Whether those around it do, the innermost last.
    around: Vec<bool>,
    /// Whether the last token closes a type.
    closes: bool,
}

impl Following {
    /// Returns the state after an opening parenthesis. One after a name or `for` isn't that of a type in an expression.
    fn opening(self) -> Following
        ensures { result ≡ after_opening self }
    {
        match self {
            Following::Name | Following::For => Following::Other,
            _ => Following::Opening,
        }
    }

    fn of_word(keyword: Keyword) -> Following
        ensures { result ≡ word_after keyword }
    {
        match keyword {
            Keyword::For => Following::For,
            _ => Following::Other,
        }
    }

    /// Whether the parenthesis holds a type after one more word, if it did or didn't before.
    fn holds(self, begins: bool, holds: bool) -> bool
        ensures { result ≡ begun self begins holds }
    {
        match (self, begins) {
            (Following::Opening, true) => true,
            _ => holds,
        }
    }
}

impl Reading {
    /// Takes one more token.
    fn step(&mut self, names: &TypedefNames, kind: &TokenKind) -> Result<(), AllocError>
        ensures state { OnOk result
            (parens_of self.new ≡ one_more names.now kind.now (parens_of self.old)) }
        ensures closing { OnOk result (self.new.closes ≡ is_closing kind.now self.old.holds) }
    {
        self.closes = closes(kind, self.holds);
        match kind {
            TokenKind::Name(name) => {
                self.holds = self.following.holds(names.contains(name), self.holds);
                self.following = Following::Name;
                Ok(())
            }
            TokenKind::Keyword(keyword) => {
                self.holds = self.following.holds(begins_type(*keyword), self.holds);
                self.following = Following::of_word(*keyword);
                Ok(())
            }
            TokenKind::Punctuator(punctuator) => self.read_punctuator(*punctuator),
            _ => {
                self.following = Following::Other;
                Ok(())
            }
        }
    }

    fn read_punctuator(&mut self, punctuator: Punctuator) -> Result<(), AllocError>
        ensures state { OnOk result
            (parens_of self.new ≡ punctuator_step punctuator (parens_of self.old)) }
        ensures kept { OnOk result (self.new.closes ≡ self.old.closes) }
    {
        match punctuator {
            Punctuator::OpenParenthesis => {
                self.around.push(self.holds)?;
                self.holds = false;
                self.following = self.following.opening();
            }
            Punctuator::CloseParenthesis => {
                self.holds = self.around.pop().unwrap_or(false);
                self.following = Following::Other;
            }
            _ => self.following = Following::Other,
        }
        Ok(())
    }
}

/// Whether a token closes a type, if the innermost open parenthesis holds one or not.
fn closes(kind: &TokenKind, holds: bool) -> bool
    ensures { result ≡ is_closing kind.now holds }
{
    match kind {
        TokenKind::Punctuator(Punctuator::CloseParenthesis) => holds,
        _ => false,
    }
}

/// Whether a type may begin with a keyword.
fn begins_type(keyword: Keyword) -> bool
    ensures { result ≡ keyword_begins_type keyword }
{
    match keyword {
        Keyword::Const | Keyword::Void | Keyword::Struct | Keyword::Enum => true,
        Keyword::Char | Keyword::Short | Keyword::Int | Keyword::Long => true,
        Keyword::Signed | Keyword::Unsigned => true,
        _ => false,
    }
}

/// Whether the last of some tokens closes a type.
fn closes_last(alloc: Global, names: &TypedefNames, part: &[Token]) -> Result<bool, AllocError>
    ensures { IfOk result (λ closes. closes ≡ run names.now (kinds part.now) the_outside false) }
{
    let mut reading = Reading {
        following: Following::Other,
        holds: false,
        around: Vec::new(alloc),
        closes: false,
    };
    'tokens: for token in part {
        reading.step(names, &token.kind)?;
    }
    Ok(reading.closes)
}

/// Whether the last of these tokens closes a type between parentheses, if a file begins with them, and the external
/// declaration that they end in begins with the token at `from` and has these typedef names.
pub fn is_after_type(
    alloc: Global,
    names: &TypedefNames,
    before: &[Token],
    from: usize,
) -> Result<bool, AllocError>
    requires within { from ≤ length before.now }
    ensures { IfOk result (λ following.
        BeginsFile (kinds before.now) → EndInPart names.now (kinds before.now) from
        → (IsTrue following ↔ IsAfterType (kinds before.now))) }
{
    let closes = closes_last(alloc, names, &before[from..])?;
    Ok(closes)
}
