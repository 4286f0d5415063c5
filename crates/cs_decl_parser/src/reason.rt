//! Why a token of a file is refused. For some tokens, those before decide whether they are unsupported.
ghost use Rattle.std.specs.Prelude.{◌≡◌, ◌<◌, ◌≤◌, ◌+◌, ◌⊎◌, ◌^◌, ◌∷◌, [], ◌++◌, ◌↔◌, length, take, IfOk, IsTrue, true};
ghost use Rattle.cs_grammar.specs.FilePhrases.{BeginsFile, BeginsLowFile};
ghost use Rattle.cs_ast.specs.declared.token.TokenKind.TheVariants as token;
ghost use Rattle.cs_ast.specs.declared.token.Punctuator.TheVariants as punctuator;
ghost use Rattle.cs_grammar.specs.FileRefusals.{MayHave, IsUnsupportedOfFile};
ghost use Rattle.cs_expr_parser.specs.declared.stop.Stop.TheVariants as stop;
ghost use Rattle.cs_unsupported.specs.LastParts.{EndInPart};
ghost use Rattle.cs_decl_parser.specs.ReadParts.{StandsAmidst};
ghost use Rattle.cs_grammar.specs.Roles.{declared_name, opens_list};
ghost use Rattle.cs_expr_parser.specs.Parts.{is_deep};
ghost use Rattle.cs_expr_parser.specs.Positions.{kinds, kind_or_end};
ghost use Rattle.cs_declarator_parser.specs.DeclarationAnswers.{is_designator};
ghost use Rattle.cs_decl_parser.specs.FileStops.{is_file_word as file_word, unsupported_if as out_if, IsPartRefusedAt, IsTokenRefusedAt};

use crate::externals::Parts;
use cs_ast::{Keyword, Punctuator, Token, TokenKind};
use cs_declarator_parser::stop::Stop;
use cs_expr_parser::{is_punctuator, keyword_at, punctuator_at};
use cs_grammar::Reason;
use cs_unsupported::{
    awaits_list, is_after_member, is_after_type, is_inside, is_tag_inside, token_for_name,
};
use std::alloc::{AllocError, Global};

/// Returns why the token at an index is refused. The tokens before it decide whether a colon, `static`, `typedef`, a
/// dot, or an opening bracket, brace or parenthesis is unsupported.
pub fn reason_reported(
    alloc: Global,
    tokens: &[Token],
    at: usize,
    reason: Reason,
    parts: &Parts,
) -> Result<Reason, AllocError>
    requires few { length tokens.now < 2 ^ 32 }
    requires amidst { StandsAmidst tokens.now parts.now (stop.Refused at reason) }
    ensures { IfOk result (λ reported.
        IsPartRefusedAt tokens.now at reason → IsTokenRefusedAt tokens.now at reported) }
{
    if is_too_deep(reason) {
        return Ok(reason);
    }
    if is_punctuator(tokens, at, Punctuator::Colon) {
        let out = is_after_member(alloc, &tokens[..at])?;
        return Ok(unsupported_if(out));
    }
    if is_file_word(tokens, at) {
        let out = is_inside(alloc, &tokens[..at])?;
        return Ok(unsupported_if(out));
    }
    if begins_designator(tokens, at) {
        let out = may_open_list(alloc, tokens, at)?;
        return Ok(unsupported_if(out));
    }
    if is_punctuator(tokens, at, Punctuator::OpenBrace) {
        let out = is_brace_out(alloc, tokens, at, parts)?;
        return Ok(unsupported_if(out));
    }
    if is_punctuator(tokens, at, Punctuator::OpenParenthesis) {
        let out = may_name_declarator(alloc, tokens, at)?;
        return Ok(unsupported_if(out));
    }
    Ok(reason)
}

/// Whether a brace with this index is unsupported. The tokens before it end in the external declaration after these
/// parts.
fn is_brace_out(
    alloc: Global,
    tokens: &[Token],
    at: usize,
    parts: &Parts,
) -> Result<bool, AllocError>
    requires within { at < length tokens.now }
    requires onward { parts.now.next ≤ at }
    ensures { IfOk result (λ out.
        BeginsFile (kinds (take at tokens.now))
        → EndInPart parts.now.names (kinds (take at tokens.now)) parts.now.next
        → (IsTrue out ↔ IsUnsupportedOfFile (kinds (take at tokens.now))
        (token.Punctuator punctuator.OpenBrace))) }
{
    let before = &tokens[..at];
    if is_tag_inside(alloc, before)? {
        return Ok(true);
    }
    let following = is_after_type(alloc, &parts.names, before, parts.next)?;
    Ok(following)
}

/// Whether a dot or an opening bracket is at an index.
fn begins_designator(tokens: &[Token], at: usize) -> bool
    ensures begins { IsTrue result ↔ (is_designator (kind_or_end tokens.now at) ≡ true) }
    ensures within { IsTrue result → at < length tokens.now }
{
    matches!(
        punctuator_at(tokens, at),
        Some(Punctuator::Dot | Punctuator::OpenBracket)
    )
}

/// Whether a list of initializers may begin in place of the token with this index, if a file within the limit begins
/// with the tokens before it.
fn may_open_list(alloc: Global, tokens: &[Token], at: usize) -> Result<bool, AllocError>
    requires within { at < length tokens.now }
    requires few { length tokens.now < 2 ^ 32 }
    ensures { IfOk result (λ may.
        BeginsLowFile 200 (kinds (take at tokens.now))
        → (IsTrue may ↔ MayHave (kinds (take at tokens.now)) opens_list)) }
{
    let before = &tokens[..at];
    if !awaits_list(before) {
        return Ok(false);
    }
    let brace = Token {
        kind: TokenKind::Punctuator(Punctuator::OpenBrace),
        place: tokens[at].place,
    };
    let on = file_goes_on(alloc, before, brace)?;
    Ok(on)
}

/// Whether a declarator's name may be in place of the token with this index, if a file within the limit begins with the
/// tokens before it, and none of any height continues with an opening parenthesis.
fn may_name_declarator(alloc: Global, tokens: &[Token], at: usize) -> Result<bool, AllocError>
    requires within { at < length tokens.now }
    requires few { length tokens.now < 2 ^ 32 }
    ensures { IfOk result (λ may.
        BeginsLowFile 200 (kinds (take at tokens.now))
        → (BeginsFile (kinds (take at tokens.now) ++ token.Punctuator punctuator.OpenParenthesis
        ∷ []) → ⊥) → (IsTrue may ↔ MayHave (kinds (take at tokens.now)) declared_name)) }
{
    let before = &tokens[..at];
    let Some(kind) = token_for_name(alloc, before)? else {
        return Ok(false);
    };
    let asked = Token {
        kind,
        place: tokens[at].place,
    };
    let on = file_goes_on(alloc, before, asked)?;
    Ok(on)
}

/// Whether a file of any height begins with these tokens and one more, if a file within the limit begins with these.
/// The tokens are parsed with that one after them.
fn file_goes_on(alloc: Global, before: &[Token], next: Token) -> Result<bool, AllocError>
    requires few { length before.now + 1 < 2 ^ 32 }
    ensures { IfOk result (λ on.
        BeginsLowFile 200 (kinds before.now)
        → (IsTrue on ↔ BeginsFile (kinds before.now ++ next.kind ∷ []))) }
{
    let mut tokens = Vec::from_clones(alloc, before)?;
    tokens.push(next)?;
    match Parts::new(alloc).read(alloc, &tokens) {
        Ok(_) => Ok(true),
        Err(Stop::Refused(at, reason)) => Ok(is_deep_or_past(at, reason, before.len())),
        Err(Stop::Memory) => Err(AllocError),
    }
}

/// Whether the token at an index, which is refused, comes after the first `count` tokens, or is too deep.
fn is_deep_or_past(at: usize, reason: Reason, count: usize) -> bool
    ensures { IsTrue result ↔ ((count < at) ⊎ (is_deep reason ≡ true)) }
{
    count < at || is_too_deep(reason)
}

/// Whether `static` or `typedef` is at an index.
fn is_file_word(tokens: &[Token], at: usize) -> bool
    ensures word { result ≡ file_word (kind_or_end tokens.now at) }
    ensures within { IsTrue result → at < length tokens.now }
{
    matches!(
        keyword_at(tokens, at),
        Some(Keyword::Static | Keyword::Typedef)
    )
}

/// Returns the reason, if it is known whether a token is unsupported.
fn unsupported_if(out: bool) -> Reason
    ensures { result ≡ out_if out }
{
    if out {
        Reason::Unsupported
    } else {
        Reason::Syntax
    }
}

fn is_too_deep(reason: Reason) -> bool
    ensures { result ≡ is_deep reason }
{
    matches!(reason, Reason::TooDeep)
}
