//! A range, split by the wrap quotients of a term's values times a factor, with the wrapped products.
ghost use Rattle.std.specs.Prelude.{◌≡◌, ℤ, ◌-ℤ◌, ◌*ℤ◌, IsTrue, IfOk, MatchOption, pos};
ghost use Rattle.cs_ranges.specs.RangeSet.{contains, IsEmpty, IsInhabited};
ghost use Rattle.cs_types.specs.IntType.{IsIntegerOfC};
ghost use Rattle.cs_terms.specs.Pieces.{AreProductPieces, IsProductOn, HasOneQuotient, product_quotient_of};
ghost use Rattle.cs_terms.specs.Term.{value_at, IsTerm};

use crate::near::Near;
use crate::pieces::{Pieces, cut};
use crate::term::Lin;
use cs_ranges::{RangeSet, affine_value};
use cs_types::{DataModel, IntType, multiply};
use std::alloc::{AllocError, Global};

/// A part of a range, and the wrapped product on it.
#[derive(Debug, Drop)]
pub struct Piece {
    pub range: RangeSet,
    pub product: Lin,
}

/// The parts of a range at which the wrap quotient of a product is -1, 0, 1 and any other number. Each of the
/// first three is `None` if it has no number.
#[derive(Debug, Drop)]
pub struct ProductPieces {
    pub under: Option<Piece>,
    pub same: Option<Piece>,
    pub past: Option<Piece>,
    pub far: RangeSet,
}

/// Splits the range of the term's symbol by the wrap quotient of the term's value times the factor. The
/// product itself has no bound.
pub fn product_pieces(
    alloc: Global,
    model: DataModel,
    ty: IntType,
    term: Lin,
    factor: i128,
    range: &RangeSet,
) -> Result<ProductPieces, AllocError>
    requires term { IsTerm term }
    requires factor { IsIntegerOfC factor }
    requires values { (x : ℤ) → IsTrue (contains range.now x)
        → IsIntegerOfC (value_at term x) }
    ensures { IfOk result (AreProductPieces model ty term factor range.now) }
{
    // Bounds of the product are divided by the factor, since the product may need more than 128 bits.
    let near = Near::of_type(model, ty).cofactors(factor);
    let Pieces {
        under,
        same,
        past,
        far,
    } = cut(alloc, &near, term, range)?;
    Ok(ProductPieces {
        under: product_on(model, ty, term, factor, under),
        same: product_on(model, ty, term, factor, same),
        past: product_on(model, ty, term, factor, past),
        far,
    })
}

// Returns the range with the wrapped product on it, or none if it is empty. The product has only one wrap
// quotient there.
fn product_on(
    model: DataModel,
    ty: IntType,
    term: Lin,
    factor: i128,
    range: RangeSet,
) -> Option<Piece>
    requires term { IsTerm term }
    requires factor { IsIntegerOfC factor }
    requires values { (x : ℤ) → IsTrue (contains range x) → IsIntegerOfC (value_at term x) }
    requires one_quotient { HasOneQuotient (product_quotient_of model ty term factor) range }
    ensures { MatchOption result (IsEmpty range)
        (λ piece. (piece.range ≡ range) × IsProductOn model ty term factor piece) }
{
    let at = range.least()?;
    let value = affine_value(term.slope, term.at, term.value, at);
    let slope = slope_on(model, ty, term, factor, &range);
    let product = Lin::affine(
        term.sym,
        slope,
        at,
        multiply(model, ty, value, factor).number,
    );
    Some(Piece { range, product })
}

// Returns the slope of the product on the range. For a range with one number any slope is right; with two
// numbers, the slope is at most the size of the type's range.
fn slope_on(model: DataModel, ty: IntType, term: Lin, factor: i128, range: &RangeSet) -> i128
    requires term { IsTerm term }
    requires inhabited { IsInhabited range.now }
    requires one_quotient { HasOneQuotient (product_quotient_of model ty term factor) range.now }
    ensures slope { (x y : ℤ) → IsTrue (contains range.now x) → IsTrue (contains range.now y)
        → result *ℤ (x -ℤ y) ≡ (term.slope *ℤ factor) *ℤ (x -ℤ y) }
    ensures constant { term.slope ≡ pos 0 → result ≡ pos 0 }
{
    match range.is_single() {
        Some(_) => 0,
        None => term.slope * factor,
    }
}
