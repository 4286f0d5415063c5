//! Operations whose exact results wrap: sums, products, conversions.
ghost use Rattle.std.specs.Prelude.{◌≡◌, ◌↔◌, ℤ, pos, neg_ℤ, IsTrue, Some, None, IfOk, OnOk, MatchOption, option_copied};
ghost use Rattle.cs_ranges.specs.Interval.{IsInside};
ghost use Rattle.cs_ranges.specs.RangeSet.{contains, IsEmpty, IsInhabited};
ghost use Rattle.cs_types.specs.IntType.{modulus_of};
ghost use Rattle.cs_terms.specs.Pieces.{IsFar, AreProductPieces};
ghost use Rattle.cs_terms.specs.Term.{value_at, IsTerm};
ghost use Rattle.cs_constraints.specs.Constraints.{AreInhabited};
ghost use Rattle.cs_events.specs.Operations as operations;
ghost use Rattle.cs_eval.specs.Operands.{IsRaised};
ghost use Rattle.cs_eval.specs.Recorded.{RecordsInexact};
ghost use Rattle.cs_eval.specs.Wraps.{IsExtended, IsOfPart, IsOfFar, AreOfParts, IsWrapGuess, IsWholeGuess};
ghost use Rattle.cs_eval.specs.Wraps.{IsConvertedConstant, AreConverted, constant_pieces};

use crate::checked::{check_inside, check_wide, moved};
use crate::guesses::Inexact;
use crate::operands::constant;
use crate::piece::Piece;
use crate::pieces::{Shown, exact_piece, guessed_piece, narrowed, one_piece};
use crate::setting::Setting;
use cs_constraints::Constraints;
use cs_events::{Label, Wrap};
use cs_ranges::RangeSet;
use cs_terms::{
    Lin, Piece as Part, Pieces, ProductPieces as Parts, Sym, stays_within, wrap_pieces,
};
use cs_types::{DataModel, IntType, bytes, quotient, wrap};
use std::alloc::AllocError;

/// Converts an exact result, which is over at most one symbol, to a type.
pub(crate) fn converted(
    setting: &Setting,
    ty: IntType,
    exact: Lin,
    asked: Option<&Inexact>,
) -> Result<Vec<Piece>, AllocError>
    ensures { IfOk result (λ pieces. AreConverted setting.now.model setting.now.constraints.now
        setting.now.guess.0 ty exact (option_copied asked.entry) pieces.items) }
{
    let Some(sym) = exact.sym else {
        return constant_converted(setting, ty, exact.value, asked);
    };
    check_wide(setting.constraints, exact)?;
    let Some(range) = setting.constraints.range_of(sym) else {
        return Err(AllocError);
    };
    if stays_within(setting.model, ty, exact, range) {
        return one_piece(setting, unwrapped(exact));
    }
    let parts = converted_parts(setting, ty, exact, range)?;
    wrap_split(setting, sym, parts, asked)
}

/// Returns a piece for each wrap quotient of an exact result over a symbol. The numbers with a far quotient
/// are one piece with a guess.
pub(crate) fn wrap_split(
    setting: &Setting,
    sym: Sym,
    parts: Parts,
    asked: Option<&Inexact>,
) -> Result<Vec<Piece>, AllocError>
    ensures { IfOk result (λ pieces. AreOfParts setting.now.model setting.now.constraints.now
        setting.now.guess.0 sym parts (option_copied asked.entry) pieces.items) }
{
    let Parts {
        under,
        same,
        past,
        far,
    } = parts;
    let mut pieces = Vec::new(setting.alloc);
    push_part(setting, &mut pieces, sym, Wrap::Under, under)?;
    push_part(setting, &mut pieces, sym, Wrap::Same, same)?;
    push_part(setting, &mut pieces, sym, Wrap::Past, past)?;
    push_far(setting, &mut pieces, sym, far, asked)?;
    Ok(pieces)
}

/// Returns the one piece of an operation that is guessed as a whole.
pub(crate) fn wrap_guess(setting: &Setting, inexact: &Inexact) -> Result<Vec<Piece>, AllocError>
    ensures { IfOk result (λ pieces. IsWholeGuess setting.now.model setting.now.constraints.now
        setting.now.guess.0 inexact.now pieces.items) }
{
    let constraints = setting.constraints.copy()?;
    let piece = guess_of(setting, constraints, inexact)?;
    let mut pieces = Vec::with_capacity(setting.alloc, 1)?;
    pieces.push(piece)?;
    Ok(pieces)
}

// Returns the piece of a guess under constraints.
fn guess_of(
    setting: &Setting,
    constraints: Constraints,
    inexact: &Inexact,
) -> Result<Piece, AllocError>
    ensures piece { IfOk result (IsWrapGuess setting.now.model constraints setting.now.guess.0
        inexact.now) }
    ensures records { IfOk result (RecordsInexact setting.now.constraints.now inexact.now) }
{
    let numbers = inexact.numbers(setting.model)?;
    let guessed = inexact.guessed(setting.constraints);
    let label = Label::Wrap(Wrap::Guessed);
    guessed_piece(setting, constraints, label, numbers, guessed)
}

/// Returns what a result in the range of its type shows.
pub(crate) fn unwrapped(answer: Lin) -> Shown
    ensures label { result.label ≡ Label.Wrap Wrap.Same }
    ensures answer { result.answer ≡ answer }
{
    Shown {
        label: Label::Wrap(Wrap::Same),
        answer,
    }
}

// Returns what a wrap quotient shows.
fn wrap_of(quotient: i128) -> Wrap
    ensures { result ≡ operations.wrap_of quotient }
{
    match quotient {
        0 => Wrap::Same,
        1 => Wrap::Past,
        -1 => Wrap::Under,
        _ => Wrap::Far,
    }
}

// Converts a number to a type. With a far quotient it is guessed, if there is an operation to guess: its
// operands may have a symbol that their sum doesn't have.
fn constant_converted(
    setting: &Setting,
    ty: IntType,
    number: i128,
    asked: Option<&Inexact>,
) -> Result<Vec<Piece>, AllocError>
    ensures { IfOk result (λ pieces. IsConvertedConstant setting.now.model
        setting.now.constraints.now setting.now.guess.0 ty number
        (option_copied asked.entry) pieces.items) }
{
    check_inside(number)?;
    match asked {
        Some(inexact) => near_or_guessed(setting, ty, number, inexact),
        None => constant_piece(setting, ty, number),
    }
}

// Converts a number to a type. With a far quotient it is guessed.
fn near_or_guessed(
    setting: &Setting,
    ty: IntType,
    number: i128,
    inexact: &Inexact,
) -> Result<Vec<Piece>, AllocError>
    requires { IsInside number }
    ensures { IfOk result (λ pieces. IsConvertedConstant setting.now.model
        setting.now.constraints.now setting.now.guess.0 ty number (Some inexact.now)
        pieces.items) }
{
    if is_far(quotient(setting.model, ty, number)) {
        return wrap_guess(setting, inexact);
    }
    constant_piece(setting, ty, number)
}

// Returns the one piece of a number converted to a type.
fn constant_piece(setting: &Setting, ty: IntType, number: i128) -> Result<Vec<Piece>, AllocError>
    requires { IsInside number }
    ensures piece { IfOk result (λ pieces. pieces.items
        ≡ constant_pieces setting.now.model ty number setting.now.constraints.now) }
    ensures inhabited { IfOk result (λ pieces. AreInhabited setting.now.constraints.now) }
{
    let shown = wrap_of(quotient(setting.model, ty, number));
    one_piece(
        setting,
        Shown {
            label: Label::Wrap(shown),
            answer: constant(wrap(setting.model, ty, number)),
        },
    )
}

// Whether a wrap quotient isn't -1, 0 or 1.
fn is_far(quotient: i128) -> bool
    ensures { IsTrue result ↔ IsFar quotient }
{
    quotient != -1 && quotient != 0 && quotient != 1
}

// Returns the numbers of a symbol by the wrap quotient of an exact result over it.
fn converted_parts(
    setting: &Setting,
    ty: IntType,
    exact: Lin,
    range: &RangeSet,
) -> Result<Parts, AllocError>
    requires term { IsTerm exact }
    requires values { (x : ℤ) → IsTrue (contains range.now x) → IsInside (value_at exact x) }
    ensures { IfOk result (AreProductPieces setting.now.model ty exact (pos 1) range.now) }
{
    let Pieces {
        under,
        same,
        past,
        far,
    } = wrap_pieces(setting.alloc, setting.model, ty, exact, range)?;
    let modulus = modulus(setting.model, ty);
    let under = part(under, moved(exact, modulus)?);
    let past = part(past, moved_back(exact, modulus)?);
    Ok(Parts {
        under,
        same: part(same, exact),
        past,
        far,
    })
}

// Returns the term with a number subtracted from its values.
fn moved_back(term: Lin, by: i128) -> Result<Lin, AllocError>
    ensures { IfOk result (IsRaised term (neg_ℤ by)) }
{
    let value = term.value.checked_sub(by).ok_or(AllocError)?;
    Ok(Lin { value, ..term })
}

// Returns some numbers of a symbol with the wrapped result for them, or none if there are no numbers.
fn part(range: RangeSet, product: Lin) -> Option<Part>
    ensures { MatchOption result (IsEmpty range)
        (λ part. (part.range ≡ range) × (part.product ≡ product) × IsInhabited range) }
{
    if range.is_empty() {
        None
    } else {
        Some(Part { range, product })
    }
}

// Returns how many numbers a type has.
fn modulus(model: DataModel, ty: IntType) -> i128
    ensures { result ≡ pos (modulus_of model ty) }
{
    match bytes(model, ty) {
        1 => 1 << 8,
        2 => 1 << 16,
        4 => 1 << 32,
        _ => 1 << 64,
    }
}

// Adds the piece of one wrap quotient, if it has numbers.
fn push_part(
    setting: &Setting,
    pieces: &mut Vec<Piece>,
    sym: Sym,
    shown: Wrap,
    part: Option<Part>,
) -> Result<(), AllocError>
    ensures { OnOk result (IsExtended pieces.old.items
        (IsOfPart setting.now.constraints.now sym shown part) pieces.new.items) }
{
    let Some(Part { range, product }) = part else {
        return Ok(());
    };
    if range.is_empty() {
        return Ok(());
    }
    let constraints = narrowed(setting.constraints, sym, range)?;
    check_wide(&constraints, product)?;
    let answer = constraints.prepared(product);
    let shown = Shown {
        label: Label::Wrap(shown),
        answer,
    };
    pieces.push(exact_piece(constraints, shown))?;
    Ok(())
}

// Adds the piece of the far wrap quotients. Without an operation to guess there are no such numbers; if there
// were, they aren't dropped, but treated as running out of memory.
fn push_far(
    setting: &Setting,
    pieces: &mut Vec<Piece>,
    sym: Sym,
    far: RangeSet,
    asked: Option<&Inexact>,
) -> Result<(), AllocError>
    ensures { OnOk result (IsExtended pieces.old.items
        (IsOfFar setting.now.model setting.now.constraints.now setting.now.guess.0 sym far
        (option_copied asked.entry)) pieces.new.items) }
{
    if far.is_empty() {
        return Ok(());
    }
    let Some(inexact) = asked else {
        return Err(AllocError);
    };
    let constraints = narrowed(setting.constraints, sym, far)?;
    let piece = guess_of(setting, constraints, inexact)?;
    pieces.push(piece)?;
    Ok(())
}
