//! Sums and differences of pointers, by their offsets.
ghost use Rattle.std.specs.Prelude.{◌≡◌, pos, ◌*ℤ◌, ◌<ℤ◌, None, IfOk, OnOk, MatchOption};
ghost use Rattle.cs_terms.specs.Term.{IsTerm};
ghost use Rattle.cs_constraints.specs.Constraints.{set_of};
ghost use Rattle.cs_eval.specs.declared.question.Question.{Question};
ghost use Rattle.cs_eval.specs.Offsets.{AreElementsBetween, IsDividedTerm, IsMovedOffset, IsMultiple, IsTermOfBounds, IsTermOfOffsets, half_difference_of};
ghost use Rattle.cs_eval.specs.Operands.{HaveSymbol, IsReadyOperand};
ghost use Rattle.cs_eval.specs.Recorded.{AreRecordedAnswers};
ghost use Rattle.cs_eval.specs.Wraps.{IsWholeGuess};

use crate::checked::{check_between, check_scales};
use crate::guesses::Inexact;
use crate::integers::{added, difference};
use crate::operands::constant;
use crate::piece::Piece;
use crate::pieces::one_piece;
use crate::setting::Setting;
use crate::wraps::{unwrapped, wrap_guess};
use cs_state::Asks;
use cs_terms::{Lin, scale};
use cs_types::{DataModel, offset_bound};
use std::alloc::AllocError;

/// Moves an offset by a number of elements of a size. The preceding order tests keep it within the bounds of offsets.
pub(crate) fn pointer_sum(
    setting: &Setting,
    offset: Lin,
    amount: Lin,
    size: u64,
) -> Result<Vec<Piece>, AllocError>
    requires offset { IsReadyOperand setting.now.constraints.now offset }
    requires amount { IsReadyOperand setting.now.constraints.now amount }
    requires fresh { set_of setting.now.constraints.now setting.now.guess.0 ≡ None }
    ensures { IfOk result (λ pieces. AreRecordedAnswers setting.now.model
        setting.now.constraints.now setting.now.guess.0 (Question.Sum offset amount size)
        pieces.items) }
{
    let moved = moved_offset(offset, amount, size)?;
    match moved {
        Some(sum) => {
            check_bounds(setting, sum)?;
            one_piece(setting, unwrapped(sum))
        }
        None => {
            let inexact = Inexact::new(Asks::Sum, offset, amount);
            wrap_guess(setting, &inexact)
        }
    }
}

// Returns the moved offset as a term, or none if it is over two symbols.
fn moved_offset(offset: Lin, amount: Lin, size: u64) -> Result<Option<Lin>, AllocError>
    requires offset { IsTerm offset }
    requires amount { IsTerm amount }
    ensures { IfOk result (IsMovedOffset offset amount size) }
{
    let factor = i128::from(size);
    check_scales(amount, factor)?;
    let by = scale(amount, factor);
    added(offset, by)
}

// Checks that the values of a term are within the bounds of offsets.
fn check_bounds(setting: &Setting, term: Lin) -> Result<(), AllocError>
    ensures { OnOk result (IsTermOfBounds setting.now.model setting.now.constraints.now term) }
{
    let bound = offset_bound(setting.model);
    check_between(setting.constraints, term, -bound, bound)
}

/// Returns the number of elements of a size between two offsets.
pub(crate) fn pointer_difference(
    setting: &Setting,
    left: Lin,
    right: Lin,
    size: u64,
) -> Result<Vec<Piece>, AllocError>
    requires left { IsReadyOperand setting.now.constraints.now left }
    requires right { IsReadyOperand setting.now.constraints.now right }
    requires symbol { HaveSymbol left right }
    requires fresh { set_of setting.now.constraints.now setting.now.guess.0 ≡ None }
    ensures { IfOk result (λ pieces. AreRecordedAnswers setting.now.model
        setting.now.constraints.now setting.now.guess.0 (Question.Difference left right size)
        pieces.items) }
{
    let elements = elements_between(left, right, size)?;
    match elements {
        Some(number) => one_piece(setting, unwrapped(number)),
        None => {
            check_offset(setting, left)?;
            check_offset(setting, right)?;
            let inexact = Inexact::new(Asks::Difference, left, right);
            wrap_guess(setting, &inexact)
        }
    }
}

// Returns the number of elements as a term, if their size divides the bytes between the offsets; 0 if the size is 0.
fn elements_between(left: Lin, right: Lin, size: u64) -> Result<Option<Lin>, AllocError>
    requires left { IsTerm left }
    requires right { IsTerm right }
    ensures { IfOk result (AreElementsBetween left right size) }
{
    if size == 0 {
        return Ok(Some(constant(0)));
    }
    let between = difference(left, right)?;
    match between {
        Some(bytes) => {
            let elements = divided(bytes, i128::from(size));
            Ok(elements)
        }
        None => Ok(None),
    }
}

// Divides a term by a number, which has to divide its value and its slope, and so each value of the term.
fn divided(bytes: Lin, size: i128) -> Option<Lin>
    requires { pos 0 <ℤ size }
    ensures { MatchOption result (¬ (IsMultiple bytes.value size × IsMultiple bytes.slope size))
        (IsDividedTerm bytes size) }
{
    let value = multiple(bytes.value, size)?;
    let slope = multiple(bytes.slope, size)?;
    Some(Lin {
        slope,
        value,
        ..bytes
    })
}

// Returns the quotient of a number and a size that divides it.
fn multiple(number: i128, size: i128) -> Option<i128>
    requires { pos 0 <ℤ size }
    ensures { MatchOption result (¬ IsMultiple number size) (λ n. number ≡ n *ℤ size) }
{
    if number % size == 0 {
        Some(number / size)
    } else {
        None
    }
}

// Checks that the values of a term are so near to 0 that the difference of two is in the type of differences.
fn check_offset(setting: &Setting, term: Lin) -> Result<(), AllocError>
    ensures { OnOk result (IsTermOfOffsets setting.now.model setting.now.constraints.now term) }
{
    let half = half_difference(setting.model);
    check_between(setting.constraints, term, -half, half)
}

// Returns half of the greatest difference.
fn half_difference(model: DataModel) -> i128
    ensures { result ≡ pos (half_difference_of model) }
{
    match model {
        DataModel::Lp64 => 0x3fff_ffff_ffff_ffff,
        DataModel::Ilp32 => 0x3fff_ffff,
    }
}
