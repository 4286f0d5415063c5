//! Where the members of structures are among the tokens of a file (C11 6.7.2.1).
ghost use Rattle.std.specs.Prelude.{◌≡◌, ◌∷◌, ◌↔◌, IsTrue, IfOk, OnOk};
ghost use Rattle.cs_grammar.specs.FilePhrases.{BeginsFile};
ghost use Rattle.cs_grammar.specs.FileRefusals.{MayHave};
ghost use Rattle.cs_grammar.specs.Roles.{after_member};
ghost use Rattle.cs_unsupported.specs.Spots.{with_type as typed, with_name as named, with_word as worded, name_after as after_name, word_after as after_word, in_braces as braced, begun_anew as anew, going_on as onward, is_declared as declared, opened, closed as shut, punctuator_step, step as one_more};
ghost use Rattle.cs_unsupported.specs.Readings.{kinds, spot_of};

use cs_ast::{Keyword, Punctuator, Token, TokenKind};
use std::alloc::{AllocError, Global};

/// The state after the tokens since the innermost opening bracket.
#[derive(Clone, Copy)]
pub enum Phase {
    /// They aren't members of a structure.
    Outside,
    /// Specifiers of members, which name no type so far.
    Typing,
    /// A type of members, before a declarator's name.
    Typed,
    /// A member's declarator.
    Declared,
}

/// What the last tokens are, if they are a keyword with or without a tag.
#[derive(Clone, Copy)]
pub enum Last {
    Struct,
    StructTag,
    Enum,
    Other,
}

/// The state after some tokens.
#[derive(Drop)]
pub struct Reading {
    phase: Phase,
    following: Last,
    /// The states around each opening bracket, the innermost last.
    around: Vec<Phase>,
}

impl Phase {
    fn with_type(self) -> Phase
        ensures { result ≡ typed self }
    {
        match self {
            Phase::Typing => Phase::Typed,
            _ => self,
        }
    }

    fn with_name(self, following: Last) -> Phase
        ensures { result ≡ named self following }
    {
        match (self, following) {
            (Phase::Typing, _) => Phase::Typed,
            (Phase::Typed, Last::Other | Last::StructTag) => Phase::Declared,
            _ => self,
        }
    }

    fn with_word(self, keyword: Keyword) -> Phase
        ensures { result ≡ worded keyword self }
    {
        match keyword {
            Keyword::Char | Keyword::Short | Keyword::Int | Keyword::Long => self.with_type(),
            Keyword::Signed | Keyword::Unsigned | Keyword::Void => self.with_type(),
            Keyword::Struct | Keyword::Enum => self.with_type(),
            _ => self,
        }
    }

    fn begun_anew(self) -> Phase
        ensures { result ≡ anew self }
    {
        match self {
            Phase::Outside => Phase::Outside,
            _ => Phase::Typing,
        }
    }

    fn is_declared(self) -> bool
        ensures { result ≡ declared self }
    {
        matches!(self, Phase::Declared)
    }

    fn going_on(self) -> Phase
        ensures { result ≡ onward self }
    {
        match self {
            Phase::Declared => Phase::Typed,
            _ => self,
        }
    }
}

impl Last {
    fn with_name(self) -> Last
        ensures { result ≡ after_name self }
    {
        match self {
            Last::Struct => Last::StructTag,
            _ => Last::Other,
        }
    }

    fn of_word(keyword: Keyword) -> Last
        ensures { result ≡ after_word keyword }
    {
        match keyword {
            Keyword::Struct => Last::Struct,
            Keyword::Enum => Last::Enum,
            _ => Last::Other,
        }
    }

    fn in_braces(self) -> Phase
        ensures { result ≡ braced self }
    {
        match self {
            Last::Struct | Last::StructTag => Phase::Typing,
            _ => Phase::Outside,
        }
    }
}

impl Reading {
    /// Takes one more token.
    fn step(&mut self, kind: &TokenKind) -> Result<(), AllocError>
        ensures { OnOk result (spot_of self.new ≡ one_more kind.now (spot_of self.old)) }
    {
        match kind {
            TokenKind::Name(_) => {
                self.phase = self.phase.with_name(self.following);
                self.following = self.following.with_name();
                Ok(())
            }
            TokenKind::Keyword(keyword) => {
                self.phase = self.phase.with_word(*keyword);
                self.following = Last::of_word(*keyword);
                Ok(())
            }
            TokenKind::Punctuator(punctuator) => self.read_punctuator(*punctuator),
            _ => {
                self.following = Last::Other;
                Ok(())
            }
        }
    }

    fn read_punctuator(&mut self, punctuator: Punctuator) -> Result<(), AllocError>
        ensures { OnOk result (spot_of self.new ≡ punctuator_step punctuator (spot_of self.old)) }
    {
        match punctuator {
            Punctuator::OpenBrace => self.open(self.following.in_braces()),
            Punctuator::OpenParenthesis | Punctuator::OpenBracket => self.open(Phase::Outside),
            Punctuator::CloseBrace | Punctuator::CloseParenthesis | Punctuator::CloseBracket => {
                self.close();
                Ok(())
            }
            Punctuator::Semicolon => {
                self.phase = self.phase.begun_anew();
                self.following = Last::Other;
                Ok(())
            }
            Punctuator::Comma => {
                self.phase = self.phase.going_on();
                self.following = Last::Other;
                Ok(())
            }
            _ => {
                self.following = Last::Other;
                Ok(())
            }
        }
    }

    fn open(&mut self, inside: Phase) -> Result<(), AllocError>
        ensures { OnOk result (spot_of self.new ≡ opened inside (spot_of self.old)) }
    {
        self.around.push(self.phase)?;
        self.phase = inside;
        self.following = Last::Other;
        Ok(())
    }

    fn close(&mut self)
        ensures { spot_of self.new ≡ shut (spot_of self.old).around }
    {
        self.phase = self.around.pop().unwrap_or(Phase::Outside);
        self.following = Last::Other;
    }
}

/// Whether a token after these would directly follow a member's declarator, if a file begins with them.
pub fn is_after_member(alloc: Global, before: &[Token]) -> Result<bool, AllocError>
    ensures { IfOk result (λ following.
        BeginsFile (kinds before.now)
        → (IsTrue following ↔ MayHave (kinds before.now) after_member)) }
{
    let mut reading = Reading {
        phase: Phase::Outside,
        following: Last::Other,
        around: Vec::new(alloc),
    };
    'tokens: for token in before {
        reading.step(&token.kind)?;
    }
    Ok(reading.phase.is_declared())
}
