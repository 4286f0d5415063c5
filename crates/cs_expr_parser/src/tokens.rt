//! Tokens by their indices.
ghost use Rattle.std.specs.Prelude.{◌≡◌, ◌<◌, ◌↔◌, IsTrue, IsSome, false, length, drop};
ghost use Rattle.std.specs.Option.{option_copied};
ghost use Rattle.cs_grammar.specs.FirstTokens.{begins_type as starts_type, keyword_begins_type};
ghost use Rattle.cs_grammar.specs.Places.{StandsAt};
ghost use Rattle.cs_ast.specs.declared.token.TokenKind.TheVariants as token;
ghost use Rattle.cs_ast.specs.RawView.{written};
ghost use Rattle.cs_expr_parser.specs.Reasons.{plain_reason, reason_of, ends_in_type};
ghost use Rattle.cs_expr_parser.specs.Positions.{kind_or_end, punctuator_of as punctuator_of_kind, keyword_of as keyword_of_kind, name_of as name_of_kind, is_unsupported as unsupported, is_brace as brace};

use crate::ends::ends_with_type;
use crate::stop::{Stop, Taken};
use cs_ast::{Keyword, Place, Punctuator, Token, TokenKind};
use cs_grammar::{Reason, TypedefNames};
use cs_names::Name;

/// Returns the punctuator at an index, if there is one.
#[tactic(auto, using(std::proofs::lemmas::Option::slice_get_within))]
pub fn punctuator_at(tokens: &[Token], at: usize) -> Option<Punctuator>
    ensures punctuator { result ≡ punctuator_of_kind (kind_or_end tokens.now at) }
    ensures within { IsSome result → at < length tokens.now }
{
    match tokens.get(at) {
        Some(token) => punctuator_of(&token.kind),
        None => None,
    }
}

fn punctuator_of(kind: &TokenKind) -> Option<Punctuator>
    ensures { result ≡ punctuator_of_kind kind.now }
{
    match kind {
        TokenKind::Punctuator(punctuator) => Some(*punctuator),
        _ => None,
    }
}

/// Whether this punctuator is at an index.
pub fn is_punctuator(tokens: &[Token], at: usize, punctuator: Punctuator) -> bool
    ensures punctuator { IsTrue result
        ↔ (kind_or_end tokens.now at ≡ token.Punctuator punctuator) }
    ensures within { IsTrue result → at < length tokens.now }
{
    punctuator_at(tokens, at) == Some(punctuator)
}

/// Returns the keyword at an index, if there is one.
#[tactic(auto, using(std::proofs::lemmas::Option::slice_get_within))]
pub fn keyword_at(tokens: &[Token], at: usize) -> Option<Keyword>
    ensures within { IsSome result → at < length tokens.now }
    ensures keyword { result ≡ keyword_of_kind (kind_or_end tokens.now at) }
{
    match tokens.get(at) {
        Some(token) => keyword_of(&token.kind),
        None => None,
    }
}

fn keyword_of(kind: &TokenKind) -> Option<Keyword>
    ensures { result ≡ keyword_of_kind kind.now }
{
    match kind {
        TokenKind::Keyword(keyword) => Some(*keyword),
        _ => None,
    }
}

/// Returns the name at an index, if there is one.
#[tactic(auto, using(std::proofs::lemmas::Option::slice_get_within))]
pub fn name_at(tokens: &[Token], at: usize) -> Option<&Name>
    ensures within { IsSome result → at < length tokens.now }
    ensures name { option_copied result ≡ name_of_kind (kind_or_end tokens.now at) }
{
    match tokens.get(at) {
        Some(token) => name_of(&token.kind),
        None => None,
    }
}

fn name_of(kind: &TokenKind) -> Option<&Name>
    ensures { option_copied result ≡ name_of_kind kind.now }
{
    match kind {
        TokenKind::Name(name) => Some(name),
        _ => None,
    }
}

/// Whether a type between parentheses may begin with the token at an index.
pub fn begins_type(tokens: &[Token], names: &TypedefNames, at: usize) -> bool
    ensures { result ≡ starts_type names.now (kind_or_end tokens.now at) }
{
    match tokens.get(at) {
        Some(token) => is_type_start(&token.kind, names),
        None => false,
    }
}

fn is_type_start(kind: &TokenKind, names: &TypedefNames) -> bool
    ensures { result ≡ starts_type names.now kind.now }
{
    match kind {
        TokenKind::Name(name) => names.contains(name),
        TokenKind::Keyword(keyword) => is_type_keyword(*keyword),
        _ => false,
    }
}

fn is_type_keyword(keyword: Keyword) -> bool
    ensures { result ≡ keyword_begins_type keyword }
{
    match keyword {
        Keyword::Const | Keyword::Void | Keyword::Struct | Keyword::Enum => true,
        Keyword::Char | Keyword::Short | Keyword::Int => true,
        Keyword::Long | Keyword::Signed | Keyword::Unsigned => true,
        _ => false,
    }
}

/// Whether the token at an index is unsupported everywhere in an expression.
fn is_unsupported(tokens: &[Token], at: usize) -> bool
    ensures { result ≡ unsupported (kind_or_end tokens.now at) }
{
    match tokens.get(at) {
        Some(token) => is_unsupported_kind(&token.kind),
        None => false,
    }
}

fn is_unsupported_kind(kind: &TokenKind) -> bool
    ensures { result ≡ unsupported kind.now }
{
    match kind {
        TokenKind::Unsupported(_) => true,
        TokenKind::Punctuator(Punctuator::Ellipsis) => true,
        TokenKind::Keyword(Keyword::Static) => true,
        TokenKind::Keyword(Keyword::Typedef) => true,
        _ => false,
    }
}

/// Whether an opening brace is at an index.
pub fn is_brace(tokens: &[Token], at: usize) -> bool
    ensures { result ≡ brace (kind_or_end tokens.now at) }
{
    match punctuator_at(tokens, at) {
        Some(Punctuator::OpenBrace) => true,
        _ => false,
    }
}

/// Returns why the token at an index is refused if no expression of any height continues with it; `after_type`: it
/// follows a type or a tag.
pub fn reason_at(tokens: &[Token], at: usize, after_type: bool) -> Reason
    ensures { result ≡ plain_reason (kind_or_end tokens.now at) after_type }
{
    if is_unsupported(tokens, at) || after_type && is_brace(tokens, at) {
        Reason::Unsupported
    } else {
        Reason::Syntax
    }
}

/// Returns the refusal of the token at an index, with which no expression within the limit continues.
pub fn refuse(tokens: &[Token], at: usize, deep: bool) -> Stop
    ensures { result ≡ Stop.Refused at (reason_of deep (kind_or_end tokens.now at) false) }
{
    if deep {
        Stop::Refused(at, Reason::TooDeep)
    } else {
        Stop::Refused(at, reason_at(tokens, at, false))
    }
}

/// The same for a token inside a type; `after_type`: it follows a type between parentheses or a tag.
pub fn refuse_in_type(tokens: &[Token], at: usize, after_type: bool) -> Stop
    ensures { result ≡ Stop.Refused at (plain_reason (kind_or_end tokens.now at) after_type) }
{
    Stop::Refused(at, reason_at(tokens, at, after_type))
}

/// Returns why the token after an expression is refused, if nothing else continues with it.
pub fn reason_after(tokens: &[Token], taken: &Taken) -> Reason
    ensures { result ≡ reason_of taken.now.deep (kind_or_end tokens.now taken.now.next)
        (ends_in_type (written taken.now.tree)) }
{
    if taken.deep {
        return Reason::TooDeep;
    }
    if is_brace(tokens, taken.next) {
        return reason_at(tokens, taken.next, ends_with_type(&taken.tree));
    }
    reason_at(tokens, taken.next, false)
}

/// Returns the refusal of the token after an expression.
pub fn refuse_after(tokens: &[Token], taken: &Taken) -> Stop
    ensures { result ≡ Stop.Refused taken.now.next
        (reason_of taken.now.deep (kind_or_end tokens.now taken.now.next)
        (ends_in_type (written taken.now.tree))) }
{
    Stop::Refused(taken.next, reason_after(tokens, taken))
}

/// Returns the position of the token at an index.
pub fn place_at(tokens: &[Token], at: usize) -> Place
    requires { at < length tokens.now }
    ensures { StandsAt result (drop at tokens.now) }
{
    let token = &tokens[at];
    token.place
}
