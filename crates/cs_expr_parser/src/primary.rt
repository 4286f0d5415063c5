//! Primary expressions (C11 6.5.1).
ghost use Rattle.std.specs.Prelude.{◌≤◌, ◌<◌, ◌^◌, ◌+◌, ◌-◌, false, length, IfOk};
ghost use Rattle.cs_expr_parser.specs.Places.{IsOkPlaced, IsBuiltBefore};
ghost use Rattle.cs_ast.specs.RawTree.{Enclosed};
ghost use Rattle.cs_ast.specs.RawView.{written};
ghost use Rattle.cs_grammar.specs.Levels.{PRIMARY};
ghost use Rattle.cs_expr_parser.specs.LastTokens.{IsStopReported};
ghost use Rattle.cs_expr_parser.specs.Parts.{IsBounded, IsNode, Answers};

use crate::loose::comma;
use crate::nodes::{leaf_at, parenthesis};
use crate::stop::{Stop, Taken};
use crate::tokens::{is_punctuator, place_at, refuse, refuse_after};
use cs_ast::{Punctuator, Token};
use cs_grammar::TypedefNames;
use std::alloc::{AllocError, Global};

/// Returns the primary expression that begins at an index.
#[cycle(expression)]
pub fn primary(
    alloc: Global,
    tokens: &[Token],
    names: &TypedefNames,
    from: usize,
    limit: u32,
) -> Result<Taken, Stop>
    requires within { from ≤ length tokens.now }
    requires few { length tokens.now < 2 ^ 32 }
    ensures bounds { IsBounded limit tokens.now from result }
    ensures parsed { Answers names.now PRIMARY limit tokens.now from result }
    ensures reported { IsStopReported names.now tokens.now from result }
    ensures placed { IsOkPlaced tokens.now from result }
{
    if is_punctuator(tokens, from, Punctuator::OpenParenthesis) {
        if limit < 2 {
            return Err(refuse(tokens, from, true));
        }
        let inner = comma(alloc, tokens, names, from + 1, limit - 1)?;
        if !is_punctuator(tokens, inner.next, Punctuator::CloseParenthesis) {
            return Err(refuse_after(tokens, &inner));
        }
        return Ok(enclosed(alloc, tokens, from, inner)?);
    }
    let Some(tree) = leaf_at(alloc, tokens, names, from)? else {
        return Err(refuse(tokens, from, false));
    };
    if limit == 0 {
        return Err(refuse(tokens, from, true));
    }
    Ok(Taken {
        tree,
        height: 1,
        next: from + 1,
        deep: false,
    })
}

/// Returns the expression with parentheses around it; the first is at an index.
fn enclosed(alloc: Global, tokens: &[Token], from: usize, inner: Taken) -> Result<Taken, AllocError>
    requires within { from < length tokens.now }
    requires low { inner.height < 2 ^ 32 - 1 }
    requires few { inner.next < 2 ^ 32 }
    ensures node { IfOk result
        (IsNode (Enclosed (written inner.tree)) (inner.height + 1) (inner.next + 1) false) }
    ensures placed { IfOk result (IsBuiltBefore tokens.now from inner) }
{
    let tree = parenthesis(alloc, place_at(tokens, from), inner.tree)?;
    Ok(Taken {
        tree,
        height: inner.height + 1,
        next: inner.next + 1,
        deep: false,
    })
}
