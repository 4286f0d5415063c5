//! Operators and conversions of integers that aren't all constants.
ghost use Rattle.std.specs.Prelude.{◌≡◌, ◌≢◌, ◌+ℤ◌, ◌-ℤ◌, pos, Some, None, IfOk};
ghost use Rattle.cs_terms.specs.Term.{value_of, IsTerm};
ghost use Rattle.cs_constraints.specs.Constraints.{set_of};
ghost use Rattle.cs_events.specs.Operations as operations;
ghost use Rattle.cs_eval.specs.declared.question.Question.{Question};
ghost use Rattle.cs_eval.specs.Followed.{AreAnswers};
ghost use Rattle.cs_eval.specs.Operands.{HaveSymbol, IsReadyOperand};
ghost use Rattle.cs_eval.specs.Ready.{IsBinary};
ghost use Rattle.cs_eval.specs.Recorded.{AreRecordedAnswers};
ghost use Rattle.cs_eval.specs.Wraps.{asked_of, AreOfProduct, AreSummed, IsExactOfOne, IsSumOf, IsWholeGuess};

use crate::checked::{
    check_adds, check_in_type, check_inside, check_integer, check_integers, check_scales, moved,
};
use crate::guesses::Inexact;
use crate::operands::{constant, number};
use crate::piece::Piece;
use crate::setting::Setting;
use crate::wraps::{converted, wrap_guess, wrap_split};
use cs_ast::typed::operator::{BinOp, UnOp};
use cs_state::Asks;
use cs_terms::{Lin, Lin2, add, diff, product_pieces, scale};
use cs_types::IntType;
use std::alloc::AllocError;

/// Applies an operator to two integers. Sums and differences over one symbol, products with a constant and
/// left shifts by a constant are followed; everything else is guessed.
pub(crate) fn binary(
    setting: &Setting,
    op: BinOp,
    ty: IntType,
    left: Lin,
    right: Lin,
) -> Result<Vec<Piece>, AllocError>
    requires left { IsReadyOperand setting.now.constraints.now left }
    requires right { IsReadyOperand setting.now.constraints.now right }
    requires symbol { HaveSymbol left right }
    requires fresh { set_of setting.now.constraints.now setting.now.guess.0 ≡ None }
    ensures { IfOk result (λ pieces. AreRecordedAnswers setting.now.model
        setting.now.constraints.now setting.now.guess.0 (Question.Binary op ty left right)
        pieces.items) }
{
    match op {
        BinOp::Add => plus(setting, ty, left, right),
        BinOp::Sub => minus(setting, ty, left, right),
        BinOp::Mul => times(setting, ty, left, right),
        BinOp::Shl => shifted(setting, ty, left, right),
        BinOp::Rem => remainder(setting, ty, left, right),
        BinOp::And => masked(setting, ty, left, right),
        BinOp::Div => guessed(setting, op, ty, left, right),
        BinOp::Shr => guessed(setting, op, ty, left, right),
        BinOp::Xor => guessed(setting, op, ty, left, right),
        BinOp::Or => guessed(setting, op, ty, left, right),
    }
}

fn plus(setting: &Setting, ty: IntType, left: Lin, right: Lin) -> Result<Vec<Piece>, AllocError>
    requires { IsBinary setting.now.constraints.now setting.now.guess.0 left right }
    ensures { IfOk result (λ pieces. AreRecordedAnswers setting.now.model
        setting.now.constraints.now setting.now.guess.0 (Question.Binary BinOp.Add ty left right)
        pieces.items) }
{
    let inexact = Inexact::new(Asks::Binary(BinOp::Add, ty), left, right);
    let exact = added(left, right)?;
    sum(setting, ty, exact, &inexact)
}

fn minus(setting: &Setting, ty: IntType, left: Lin, right: Lin) -> Result<Vec<Piece>, AllocError>
    requires { IsBinary setting.now.constraints.now setting.now.guess.0 left right }
    ensures { IfOk result (λ pieces. AreRecordedAnswers setting.now.model
        setting.now.constraints.now setting.now.guess.0 (Question.Binary BinOp.Sub ty left right)
        pieces.items) }
{
    let inexact = Inexact::new(Asks::Binary(BinOp::Sub, ty), left, right);
    let exact = difference(left, right)?;
    sum(setting, ty, exact, &inexact)
}

// A product, which is followed if a factor is a constant.
fn times(setting: &Setting, ty: IntType, left: Lin, right: Lin) -> Result<Vec<Piece>, AllocError>
    requires { IsBinary setting.now.constraints.now setting.now.guess.0 left right }
    ensures { IfOk result (λ pieces. AreRecordedAnswers setting.now.model
        setting.now.constraints.now setting.now.guess.0 (Question.Binary BinOp.Mul ty left right)
        pieces.items) }
{
    let inexact = Inexact::new(Asks::Binary(BinOp::Mul, ty), left, right);
    if let Some(factor) = number(right) {
        return product(setting, ty, left, factor, &inexact);
    }
    if let Some(factor) = number(left) {
        return product(setting, ty, right, factor, &inexact);
    }
    wrap_guess(setting, &inexact)
}

// A left shift, which is followed if the count is a constant: it is a product with a power of two.
fn shifted(setting: &Setting, ty: IntType, left: Lin, right: Lin) -> Result<Vec<Piece>, AllocError>
    requires { IsBinary setting.now.constraints.now setting.now.guess.0 left right }
    ensures { IfOk result (λ pieces. AreRecordedAnswers setting.now.model
        setting.now.constraints.now setting.now.guess.0 (Question.Binary BinOp.Shl ty left right)
        pieces.items) }
{
    let inexact = Inexact::new(Asks::Binary(BinOp::Shl, ty), left, right);
    let Some(count) = number(right) else {
        return wrap_guess(setting, &inexact);
    };
    let factor = power(count)?;
    product(setting, ty, left, factor, &inexact)
}

// A remainder, which is guessed. A constant divisor, which is in the type's range, bounds the guess.
fn remainder(
    setting: &Setting,
    ty: IntType,
    left: Lin,
    right: Lin,
) -> Result<Vec<Piece>, AllocError>
    requires { IsBinary setting.now.constraints.now setting.now.guess.0 left right }
    ensures { IfOk result (λ pieces. AreRecordedAnswers setting.now.model
        setting.now.constraints.now setting.now.guess.0 (Question.Binary BinOp.Rem ty left right)
        pieces.items) }
{
    check_in_type(setting, ty, left)?;
    check_in_type(setting, ty, right)?;
    guessed(setting, BinOp::Rem, ty, left, right)
}

// A bitwise AND, which is guessed. A constant mask, which is in the type's range, bounds the guess.
fn masked(setting: &Setting, ty: IntType, left: Lin, right: Lin) -> Result<Vec<Piece>, AllocError>
    requires { IsBinary setting.now.constraints.now setting.now.guess.0 left right }
    ensures { IfOk result (λ pieces. AreRecordedAnswers setting.now.model
        setting.now.constraints.now setting.now.guess.0 (Question.Binary BinOp.And ty left right)
        pieces.items) }
{
    check_in_type(setting, ty, left)?;
    check_in_type(setting, ty, right)?;
    guessed(setting, BinOp::And, ty, left, right)
}

// An operator that is guessed as a whole.
fn guessed(
    setting: &Setting,
    op: BinOp,
    ty: IntType,
    left: Lin,
    right: Lin,
) -> Result<Vec<Piece>, AllocError>
    ensures { IfOk result (λ pieces. IsWholeGuess setting.now.model setting.now.constraints.now
        setting.now.guess.0 (asked_of op ty left right) pieces.items) }
{
    let inexact = Inexact::new(Asks::Binary(op, ty), left, right);
    wrap_guess(setting, &inexact)
}

/// Applies an operator to one integer. It is always followed.
pub(crate) fn unary(
    setting: &Setting,
    op: UnOp,
    ty: IntType,
    term: Lin,
) -> Result<Vec<Piece>, AllocError>
    requires ready { IsReadyOperand setting.now.constraints.now term }
    requires fresh { set_of setting.now.constraints.now setting.now.guess.0 ≡ None }
    ensures { IfOk result (λ pieces. AreAnswers setting.now.model setting.now.constraints.now
        setting.now.guess.0 (Question.Unary op ty term) pieces.items) }
{
    let exact = exact_of_one(op, term)?;
    converted(setting, ty, exact, None)
}

// Returns the exact result of an operator of one integer, as a term.
fn exact_of_one(op: UnOp, term: Lin) -> Result<Lin, AllocError>
    requires { IsTerm term }
    ensures { IfOk result (IsExactOfOne op term) }
{
    check_scales(term, -1)?;
    let negative = scale(term, -1);
    match op {
        UnOp::Negate => Ok(negative),
        UnOp::Complement => moved(negative, -1),
    }
}

/// Converts a term to a type.
pub(crate) fn conversion(
    setting: &Setting,
    ty: IntType,
    term: Lin,
) -> Result<Vec<Piece>, AllocError>
    requires ready { IsReadyOperand setting.now.constraints.now term }
    requires symbol { term.sym ≢ None }
    requires fresh { set_of setting.now.constraints.now setting.now.guess.0 ≡ None }
    ensures { IfOk result (λ pieces. AreRecordedAnswers setting.now.model
        setting.now.constraints.now setting.now.guess.0 (Question.Convert ty term)
        pieces.items) }
{
    let inexact = Inexact::new(Asks::Convert(ty), term, constant(0));
    converted(setting, ty, term, Some(&inexact))
}

/// Returns the sum as a term, or none if the terms have two symbols.
pub(crate) fn added(left: Lin, right: Lin) -> Result<Option<Lin>, AllocError>
    requires left { IsTerm left }
    requires right { IsTerm right }
    ensures { IfOk result
        (IsSumOf left right (λ v. value_of v left +ℤ value_of v right)) }
{
    check_adds(left, right)?;
    Ok(add(left, right))
}

/// Returns the difference as a term, or none if the terms have two symbols.
pub(crate) fn difference(left: Lin, right: Lin) -> Result<Option<Lin>, AllocError>
    requires left { IsTerm left }
    requires right { IsTerm right }
    ensures { IfOk result
        (IsSumOf left right (λ v. value_of v left -ℤ value_of v right)) }
{
    check_inside(right.slope)?;
    check_inside(right.value)?;
    let Lin2 { first, second } = diff(left, right);
    check_adds(first, second)?;
    Ok(add(first, second))
}

// Returns two to the power of a shift count.
fn power(count: i128) -> Result<i128, AllocError>
    ensures { IfOk result (λ factor. factor ≡ pos (operations.power count)) }
{
    if 0 <= count && count < 64 {
        Ok(1 << count)
    } else {
        Err(AllocError)
    }
}

// A sum, which is guessed if it is over two symbols.
fn sum(
    setting: &Setting,
    ty: IntType,
    exact: Option<Lin>,
    inexact: &Inexact,
) -> Result<Vec<Piece>, AllocError>
    ensures { IfOk result (λ pieces. AreSummed setting.now.model setting.now.constraints.now
        setting.now.guess.0 ty exact inexact.now pieces.items) }
{
    match exact {
        Some(exact) => converted(setting, ty, exact, Some(inexact)),
        None => wrap_guess(setting, inexact),
    }
}

// The product of a term over a symbol and a constant.
fn product(
    setting: &Setting,
    ty: IntType,
    term: Lin,
    factor: i128,
    inexact: &Inexact,
) -> Result<Vec<Piece>, AllocError>
    ensures { IfOk result (λ pieces. AreOfProduct setting.now.model setting.now.constraints.now
        setting.now.guess.0 ty term factor (Some inexact.now) pieces.items) }
{
    check_integers(setting.constraints, term)?;
    check_integer(factor)?;
    let Some(sym) = term.sym else {
        return Err(AllocError);
    };
    let Some(range) = setting.constraints.range_of(sym) else {
        return Err(AllocError);
    };
    let parts = product_pieces(setting.alloc, setting.model, ty, term, factor, range)?;
    wrap_split(setting, sym, parts, Some(inexact))
}
