//! The parser of expressions.
ghost use Rattle.std.specs.Prelude.{◌≡◌, ◌≤◌, ◌<◌, ◌^◌, length, IfOk};
ghost use Rattle.cs_expr_parser.specs.Places.{IsOkPlaced};
ghost use Rattle.std.specs.Result.{IfErr};
ghost use Rattle.cs_ast.specs.RawView.{written};
ghost use Rattle.cs_expr_parser.specs.Positions.{kind_or_end};
ghost use Rattle.cs_expr_parser.specs.LastTokens.{IsStopReported};
ghost use Rattle.cs_expr_parser.specs.Parts.{Answers};
ghost use Rattle.cs_expr_parser.specs.Reasons.{reason_of, ends_in_type};
ghost use Rattle.cs_expr_parser.specs.Expression.{level_asked, kind_at, reason_there, IsTaken, IsStopped, IsRefusal, IsRefusalFor, IsRefusalBy};

use crate::answer::{ExprLevel, Phrase};
use crate::loose::{assign, choice, comma};
use crate::stop::{Stop, Taken};
use crate::tokens::reason_after;
use cs_ast::{Place, Token};
use cs_grammar::{Reason, SyntaxRefusal, TypedefNames, unsupported_text};
use cs_names::Name;
use std::alloc::Global;

/// Returns the expression of a level, within the height limit, that begins at an index.
///
/// It takes tokens as long as some such expression begins with them, and refuses the next token if the tokens that it
/// took aren't one. `end` is the position of the end of input.
pub fn expression(
    alloc: Global,
    tokens: &[Token],
    end: Place,
    from: usize,
    names: &TypedefNames,
    limit: u32,
    level: ExprLevel,
) -> Result<Phrase, SyntaxRefusal>
    requires within { from ≤ length tokens.now }
    requires few { length tokens.now < 2 ^ 32 }
    ensures taken { IfOk result (IsTaken names.now (level_asked level) limit tokens.now from) }
    ensures refused { IfErr result
        (IsRefusal names.now (level_asked level) limit tokens.now end from) }
{
    match expression_at(alloc, tokens, names, from, limit, level) {
        Ok(phrase) => Ok(phrase),
        Err(Stop::Refused(at, reason)) => Err(refusal(alloc, tokens, end, at, reason)),
        Err(Stop::Memory) => Err(SyntaxRefusal::Memory),
    }
}

/// The same for parsers that continue: the refusal has the index of the token.
pub fn expression_at(
    alloc: Global,
    tokens: &[Token],
    names: &TypedefNames,
    from: usize,
    limit: u32,
    level: ExprLevel,
) -> Result<Phrase, Stop>
    requires within { from ≤ length tokens.now }
    requires few { length tokens.now < 2 ^ 32 }
    ensures taken { IfOk result (IsTaken names.now (level_asked level) limit tokens.now from) }
    ensures stopped { IfErr result (IsStopped names.now (level_asked level) limit tokens.now from) }
{
    let taken = part(alloc, tokens, names, from, limit, level)?;
    Ok(phrase(tokens, taken))
}

/// Returns the expression of a level, as a part of the parser returns it to another.
fn part(
    alloc: Global,
    tokens: &[Token],
    names: &TypedefNames,
    from: usize,
    limit: u32,
    level: ExprLevel,
) -> Result<Taken, Stop>
    requires within { from ≤ length tokens.now }
    requires few { length tokens.now < 2 ^ 32 }
    ensures parsed { Answers names.now (level_asked level) limit tokens.now from result }
    ensures reported { IsStopReported names.now tokens.now from result }
    ensures placed { IsOkPlaced tokens.now from result }
{
    match level {
        ExprLevel::Expr => comma(alloc, tokens, names, from, limit),
        ExprLevel::Assign => assign(alloc, tokens, names, from, limit),
        ExprLevel::Cond => choice(alloc, tokens, names, from, limit),
    }
}

/// Returns the expression that was taken, with the reason why the token after it is refused if nothing else continues
/// with it.
fn phrase(tokens: &[Token], taken: Taken) -> Phrase
    ensures tree { result.tree ≡ taken.tree }
    ensures height { result.height ≡ taken.height }
    ensures next { result.next ≡ taken.next }
    ensures otherwise { result.otherwise
        ≡ reason_of taken.deep (kind_or_end tokens.now taken.next)
        (ends_in_type (written taken.tree)) }
{
    let otherwise = reason_after(tokens, &taken);
    Phrase {
        tree: taken.tree,
        height: taken.height,
        next: taken.next,
        otherwise,
    }
}

/// Returns the refusal of the token with this index, or of the end of input, whose position is `end`.
pub fn refusal(
    alloc: Global,
    tokens: &[Token],
    end: Place,
    at: usize,
    reason: Reason,
) -> SyntaxRefusal
    ensures { IsRefusalFor tokens.now end at (reason_there (kind_at tokens.now at) reason) result }
{
    match tokens.get(at) {
        None => SyntaxRefusal::Syntax(end),
        Some(token) => refusal_of(alloc, token, reason),
    }
}

fn refusal_of(alloc: Global, token: &Token, reason: Reason) -> SyntaxRefusal
    ensures { IsRefusalBy token.now reason result }
{
    match reason {
        Reason::Syntax => SyntaxRefusal::Syntax(token.place),
        Reason::TooDeep => SyntaxRefusal::TooDeep(token.place),
        Reason::Unsupported => match Name::from_slice(alloc, unsupported_text(&token.kind)) {
            Ok(word) => SyntaxRefusal::Unsupported(token.place, word),
            Err(_) => SyntaxRefusal::Memory,
        },
    }
}
