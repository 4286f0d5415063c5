//! Tokens by their indices, and why they are refused.
ghost use Rattle.std.specs.Prelude.{◌≡◌, ◌<◌, ◌↔◌, List, length, drop, false, IsSome, IsTrue};
ghost use Rattle.std.specs.Option.{option_copied};
ghost use Rattle.cs_ast.specs.declared.token.Token.{Token as Lexed};
ghost use Rattle.cs_ast.specs.declared.token.TokenKind.TheVariants as token;
ghost use Rattle.cs_grammar.specs.FirstTokens.{begins_type as starts_type};
ghost use Rattle.cs_grammar.specs.Places.{StandsAt};
ghost use Rattle.cs_expr_parser.specs.Positions.{kind_or_end, punctuator_of, keyword_of, name_of};
ghost use Rattle.cs_grammar.specs.declared.refusal.Reason.TheVariants.{TooDeep};
ghost use Rattle.cs_expr_parser.specs.declared.stop.Stop.TheVariants as stop;
ghost use Rattle.cs_declarator_parser.specs.Aptness.{may_be_out, IsApt, IsStopApt};
ghost use Rattle.cs_declarator_parser.specs.DeclarationAnswers.{RefusesAfter};
ghost use Rattle.cs_declarator_parser.specs.Reasons.{is_unsupported as unsupported, plain_reason, RefusesBut};

use crate::stop::Stop;
use cs_ast::{Keyword, Place, Punctuator, Token, TokenKind};
use cs_expr_parser as tokens;
use cs_grammar::{Reason, TypedefNames};
use cs_names::Name;

/// The input of a part of the parser: the tokens, and the typedef names declared so far.
#[derive(Clone, Copy)]
pub struct Source<'a> {
    pub tokens: &'a [Token],
    pub names: &'a TypedefNames,
}

/// Whether tokens are inside a block, where more words are unsupported.
#[derive(Clone, Copy, PartialEq, Eq)]
pub enum Scope {
    File,
    Block,
}

/// Returns the punctuator at an index, if there is one.
pub fn punctuator_at(source: &Source, at: usize) -> Option<Punctuator>
    ensures punctuator { result ≡ punctuator_of (kind_or_end source.now.tokens.now at) }
    ensures within { IsSome result → at < length source.now.tokens.now }
{
    tokens::punctuator_at(source.tokens, at)
}

/// Whether this punctuator is at an index.
pub fn is_punctuator(source: &Source, at: usize, punctuator: Punctuator) -> bool
    ensures punctuator { IsTrue result
        ↔ (kind_or_end source.now.tokens.now at ≡ token.Punctuator punctuator) }
    ensures within { IsTrue result → at < length source.now.tokens.now }
{
    tokens::is_punctuator(source.tokens, at, punctuator)
}

/// Returns the keyword at an index, if there is one.
pub fn keyword_at(source: &Source, at: usize) -> Option<Keyword>
    ensures keyword { result ≡ keyword_of (kind_or_end source.now.tokens.now at) }
    ensures within { IsSome result → at < length source.now.tokens.now }
{
    tokens::keyword_at(source.tokens, at)
}

/// Whether this keyword is at an index.
pub fn is_keyword(source: &Source, at: usize, keyword: Keyword) -> bool
    ensures keyword { IsTrue result
        ↔ (kind_or_end source.now.tokens.now at ≡ token.Keyword keyword) }
    ensures within { IsTrue result → at < length source.now.tokens.now }
{
    keyword_at(source, at) == Some(keyword)
}

/// Returns the name at an index, if there is one.
pub fn name_at<'a>(source: &Source<'a>, at: usize) -> Option<&'a Name>
    ensures name { option_copied result ≡ name_of (kind_or_end source.now.tokens.now at) }
    ensures within { IsSome result → at < length source.now.tokens.now }
{
    tokens::name_at(source.tokens, at)
}

/// Whether a type without `static` may begin with the token at an index.
pub fn begins_type(source: &Source, at: usize) -> bool
    ensures { result ≡ starts_type source.now.names.now (kind_or_end source.now.tokens.now at) }
{
    tokens::begins_type(source.tokens, source.names, at)
}

/// Whether the token at an index, outside expressions, is unsupported everywhere in this scope.
fn is_unsupported(source: &Source, at: usize, scope: Scope) -> bool
    ensures { result ≡ unsupported scope (kind_or_end source.now.tokens.now at) }
{
    match source.tokens.get(at) {
        Some(token) => is_unsupported_kind(&token.kind, scope),
        None => false,
    }
}

fn is_unsupported_kind(kind: &TokenKind, scope: Scope) -> bool
    ensures { result ≡ unsupported scope kind.now }
{
    match kind {
        TokenKind::Unsupported(_) => true,
        TokenKind::Punctuator(Punctuator::Ellipsis) => true,
        TokenKind::Keyword(Keyword::Static) => scope == Scope::Block,
        TokenKind::Keyword(Keyword::Typedef) => scope == Scope::Block,
        _ => false,
    }
}

/// Returns why the token at an index is refused if no tree of any height continues with it.
#[tactic(auto, using(crate::proofs::AptReasons::always_apt, crate::proofs::AptReasons::syntax_apt))]
pub fn reason_at(source: &Source, at: usize, scope: Scope) -> Reason
    ensures is { result ≡ plain_reason scope (kind_or_end source.now.tokens.now at) }
    ensures apt { IsApt scope (kind_or_end source.now.tokens.now at) result }
{
    if is_unsupported(source, at, scope) {
        Reason::Unsupported
    } else {
        Reason::Syntax
    }
}

/// Returns the refusal of the token at an index, with which no tree of any height continues.
pub fn refuse(source: &Source, at: usize, scope: Scope) -> Stop
    ensures is { result ≡ stop.Refused at
        (plain_reason scope (kind_or_end source.now.tokens.now at)) }
    ensures apt { IsStopApt scope source.now.tokens.now result }
{
    Stop::Refused(at, reason_at(source, at, scope))
}

/// The same where the given punctuator is unsupported as well.
#[tactic(auto, using(crate::proofs::AptReasons::left_apt))]
pub fn refuse_but(source: &Source, at: usize, scope: Scope, unsupported: Punctuator) -> Stop
    ensures reason { RefusesBut unsupported scope at (kind_or_end source.now.tokens.now at) result }
    ensures plain { RefusesAfter at false result }
    ensures apt { IsTrue (may_be_out (token.Punctuator unsupported))
        → IsStopApt scope source.now.tokens.now result }
{
    if is_punctuator(source, at, unsupported) {
        return Stop::Refused(at, Reason::Unsupported);
    }
    refuse(source, at, scope)
}

/// Returns the refusal of the token at an index, with which only trees above the limit continue.
#[tactic(auto, using(crate::proofs::AptReasons::deep_apt))]
pub fn refuse_deep(at: usize) -> Stop
    ensures is { result ≡ stop.Refused at TooDeep }
    ensures apt { (scope : Scope) (tokens : List Lexed) → IsStopApt scope tokens result }
{
    Stop::Refused(at, Reason::TooDeep)
}

/// Returns the position of the token at an index.
pub fn place_at(source: &Source, at: usize) -> Place
    requires { at < length source.now.tokens.now }
    ensures { StandsAt result (drop at source.now.tokens.now) }
{
    tokens::place_at(source.tokens, at)
}
