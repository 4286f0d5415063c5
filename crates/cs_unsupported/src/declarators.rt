//! Where the names of declarators may be among the tokens of a file (C11 6.7.6).
ghost use Rattle.std.specs.Prelude.{◌≡◌, ◌<◌, ◌^◌, [], ◌∷◌, ◌++◌, IfOk};
ghost use Rattle.cs_ast.specs.declared.token.TokenKind.TheVariants as token;
ghost use Rattle.cs_ast.specs.declared.token.Punctuator.TheVariants as punctuator;
ghost use Rattle.cs_grammar.specs.FilePhrases.{BeginsFile};
ghost use Rattle.cs_unsupported.specs.Declarators.{joint_after as after_token, ending, IsNew, IsNameWithin, AreNamesWithin, IsAskedFor};
ghost use Rattle.cs_unsupported.specs.declared.declarators.Joint.TheVariants as joints;
ghost use Rattle.cs_unsupported.specs.Readings.{kinds};

use cs_ast::{Keyword, Punctuator, Token, TokenKind};
use cs_names::Name;
use std::alloc::{AllocError, Global};

/// What the last token implies for a declarator after it.
#[derive(Clone, Copy)]
pub enum Joint {
    /// No declarator begins after a dot, an arrow, `goto`, `struct`, `enum` and an opening brace.
    Barred,
    /// After a comma one may begin, and so may an enumeration constant, which has no pointers.
    Listed,
    Open,
}

fn joint_after(kind: &TokenKind) -> Joint
    ensures { result ≡ after_token kind.now }
{
    match kind {
        TokenKind::Keyword(Keyword::Struct | Keyword::Enum | Keyword::Goto) => Joint::Barred,
        TokenKind::Punctuator(Punctuator::Dot | Punctuator::Arrow | Punctuator::OpenBrace) =>
            Joint::Barred,
        TokenKind::Punctuator(Punctuator::Comma) => Joint::Listed,
        _ => Joint::Open,
    }
}

/// Returns what the last of these tokens implies, if there is one.
fn last_joint(tokens: &[Token]) -> Joint
    ensures { result ≡ ending (kinds tokens.now) joints.Open }
{
    match tokens.last() {
        Some(token) => joint_after(&token.kind),
        None => Joint::Open,
    }
}

/// Returns the length of the longest name among these tokens, 0 if there is none.
fn longest_name(tokens: &[Token]) -> usize
    ensures within { AreNamesWithin result (kinds tokens.now) }
    ensures small { result < 2 ^ 63 }
{
    let mut longest = 0;
    'tokens: for token in tokens {
        longest = longest.max(name_length(&token.kind));
    }
    longest
}

/// Returns the length of a token that is a name, 0 for any other token.
fn name_length(kind: &TokenKind) -> usize
    ensures within { IsNameWithin result kind.now }
    ensures small { result < 2 ^ 63 }
{
    match kind {
        TokenKind::Name(name) => name.as_bytes().len(),
        _ => 0,
    }
}

/// Returns a name that is none of these tokens: one that is longer than each.
fn new_name(alloc: Global, tokens: &[Token]) -> Result<Name, AllocError>
    ensures { IfOk result (λ name. IsNew name (kinds tokens.now)) }
{
    let bytes = vec![in alloc; b'a'; longest_name(tokens) + 1]?;
    Ok(Name::from_vec(bytes))
}

/// Returns the token that decides whether a declarator's name may follow these tokens, if no file continues them with
/// an opening parenthesis: a name may follow exactly if a file continues with that token. If there is no such token, no
/// name may follow.
///
/// A new name is no typedef name, and if it is an expression or a label, a parenthesis might be in its place. So it is
/// that of a declarator, unless it is a tag, a member, a label after `goto`, or an enumeration constant. The token
/// before determines which, except for a comma. After a comma, a constant has no pointers, and a star that begins an
/// expression might be a parenthesis.
pub fn token_for_name(alloc: Global, before: &[Token]) -> Result<Option<TokenKind>, AllocError>
    ensures { IfOk result (λ asked.
        (BeginsFile (kinds before.now ++ token.Punctuator punctuator.OpenParenthesis ∷ [])
        → ⊥) → IsAskedFor (kinds before.now) asked) }
{
    match last_joint(before) {
        Joint::Barred => Ok(None),
        Joint::Listed => Ok(Some(TokenKind::Punctuator(Punctuator::Star))),
        Joint::Open => {
            let name = new_name(alloc, before)?;
            Ok(Some(TokenKind::Name(name)))
        }
    }
}
