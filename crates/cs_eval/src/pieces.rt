//! Constructors of pieces.
ghost use Rattle.std.specs.Prelude.{◌≡◌, ◌≤ℤ◌, [], ◌∷◌, ◌++◌, Some, IfOk, OnOk};
ghost use Rattle.cs_ranges.specs.Interval.{IsInside};
ghost use Rattle.cs_ranges.specs.RangeSet.{IsInhabited};
ghost use Rattle.cs_constraints.specs.Constraints.{AreInhabited, IsNarrowed};
ghost use Rattle.cs_events.specs.Operations.{truth_number};
ghost use Rattle.cs_eval.specs.Parts.{number_term, unguessed, unguessed_if};
ghost use Rattle.cs_eval.specs.Guesses.{IsGuessPiece, symbol_term};

use crate::halves::Halves;
use crate::operands::constant;
use crate::piece::{Guessed, Piece};
use crate::setting::Setting;
use cs_constraints::Constraints;
use cs_events::Label;
use cs_ranges::{Interval, RangeSet};
use cs_terms::{Lin, Sym};
use std::alloc::{AllocError, Global};

/// The label of a piece without a guess, and the number with which the operation continues.
#[derive(Clone, Copy)]
pub(crate) struct Shown {
    pub label: Label,
    pub answer: Lin,
}

/// Returns what a truth shows, with its number (C11 6.5.8, paragraph 6).
pub(crate) fn truth(holds: bool) -> Shown
    ensures label { result.label ≡ Label.Truth holds }
    ensures answer { result.answer ≡ number_term (truth_number holds) }
{
    Shown {
        label: Label::Truth(holds),
        answer: constant(i128::from(holds)),
    }
}

/// Returns the one piece of an operation that shows the same under every valuation.
pub(crate) fn one_piece(setting: &Setting, shown: Shown) -> Result<Vec<Piece>, AllocError>
    ensures piece { IfOk result (λ pieces. pieces.items
        ≡ unguessed shown.label shown.answer setting.now.constraints.now ∷ []) }
    ensures inhabited { IfOk result (λ pieces. AreInhabited setting.now.constraints.now) }
{
    let constraints = setting.constraints.copy()?;
    let mut pieces = Vec::with_capacity(setting.alloc, 1)?;
    pieces.push(exact_piece(constraints, shown))?;
    Ok(pieces)
}

/// Returns a piece for each half that isn't empty.
pub(crate) fn halves_pieces(
    alloc: Global,
    halves: Halves,
    yes: Shown,
    no: Shown,
) -> Result<Vec<Piece>, AllocError>
    ensures { IfOk result (λ pieces. pieces.items
        ≡ unguessed_if yes.label yes.answer halves.holds
        ++ unguessed_if no.label no.answer halves.fails) }
{
    let Halves { holds, fails } = halves;
    let mut pieces = Vec::with_capacity(alloc, 2)?;
    push_exact(&mut pieces, yes, holds)?;
    push_exact(&mut pieces, no, fails)?;
    Ok(pieces)
}

/// Adds the piece of a half, if this isn't empty.
pub(crate) fn push_exact(
    pieces: &mut Vec<Piece>,
    shown: Shown,
    constraints: Option<Constraints>,
) -> Result<(), AllocError>
    ensures { OnOk result (pieces.new.items
        ≡ pieces.old.items ++ unguessed_if shown.label shown.answer constraints) }
{
    if let Some(constraints) = constraints {
        pieces.push(exact_piece(constraints, shown))?;
    }
    Ok(())
}

/// Makes a piece without a guess.
pub(crate) fn exact_piece(constraints: Constraints, shown: Shown) -> Piece
    ensures { result ≡ unguessed shown.label shown.answer constraints }
{
    Piece {
        label: shown.label,
        constraints,
        answer: shown.answer,
        guessed: None,
    }
}

/// Makes the piece of a guess from an interval.
pub(crate) fn guessed_piece(
    setting: &Setting,
    mut constraints: Constraints,
    label: Label,
    numbers: Interval,
    guessed: Guessed,
) -> Result<Piece, AllocError>
    requires low { IsInside numbers.low }
    requires high { IsInside numbers.high }
    requires ordered { numbers.low ≤ℤ numbers.high }
    ensures piece { IfOk result (IsGuessPiece constraints setting.now.guess.0 label numbers) }
    ensures guessed { IfOk result (λ piece. piece.guessed ≡ Some guessed) }
{
    let numbers = RangeSet::of(setting.alloc, numbers.low, numbers.high)?;
    constraints.declare(setting.guess, numbers)?;
    Ok(Piece {
        label,
        constraints,
        answer: symbol_itself(setting.guess),
        guessed: Some(guessed),
    })
}

/// Returns the constraints with only these numbers for a symbol.
pub(crate) fn narrowed(
    constraints: &Constraints,
    sym: Sym,
    numbers: RangeSet,
) -> Result<Constraints, AllocError>
    requires { IsInhabited numbers }
    ensures narrowed { IfOk result (λ after.
        IsNarrowed constraints.now sym.0 numbers after) }
    ensures inhabited { IfOk result AreInhabited }
{
    let mut narrowed = constraints.copy()?;
    narrowed.declare(sym, numbers)?;
    Ok(narrowed)
}

// Returns a symbol as a term.
fn symbol_itself(sym: Sym) -> Lin
    ensures { result ≡ symbol_term sym }
{
    Lin {
        sym: Some(sym),
        slope: 1,
        at: 0,
        value: 0,
    }
}
