//! A range, split by the wrap quotients of a term's values.
ghost use Rattle.std.specs.Prelude.{◌≡◌, ℤ, IsTrue, IfOk};
ghost use Rattle.cs_ranges.specs.Interval.{IsInside};
ghost use Rattle.cs_ranges.specs.RangeSet.{contains};
ghost use Rattle.cs_terms.specs.Near.{HasEndsInside, IsAtValues, IsCut};
ghost use Rattle.cs_terms.specs.Pieces.{ArePieces, quotient_of};
ghost use Rattle.cs_terms.specs.Term.{value_at, IsTerm};

use crate::near::Near;
use crate::term::Lin;
use cs_ranges::{Interval, RangeSet, affine_preimage};
use cs_types::{DataModel, IntType};
use std::alloc::{AllocError, Global};

/// The parts of a range at which a wrap quotient is -1, 0, 1 and any other number.
#[derive(Debug, Drop)]
pub struct Pieces {
    pub under: RangeSet,
    pub same: RangeSet,
    pub past: RangeSet,
    pub far: RangeSet,
}

/// Splits the range of the term's symbol by the wrap quotient of the term's value.
pub fn wrap_pieces(
    alloc: Global,
    model: DataModel,
    ty: IntType,
    term: Lin,
    range: &RangeSet,
) -> Result<Pieces, AllocError>
    requires term { IsTerm term }
    requires values { (x : ℤ) → IsTrue (contains range.now x) → IsInside (value_at term x) }
    ensures { IfOk result (λ pieces. ArePieces (quotient_of model ty term) range.now pieces) }
{
    cut(alloc, &Near::of_type(model, ty), term, range)
}

/// Splits the range by which of three intervals contains the term's value.
pub(crate) fn cut(
    alloc: Global,
    near: &Near,
    term: Lin,
    range: &RangeSet,
) -> Result<Pieces, AllocError>
    requires term { IsTerm term }
    requires under { HasEndsInside near.now.under }
    requires same { HasEndsInside near.now.same }
    requires past { HasEndsInside near.now.past }
    requires values { (x : ℤ) → IsTrue (contains range.now x) → IsInside (value_at term x) }
    ensures { IfOk result (λ pieces. IsCut near.now term range.now pieces) }
{
    let under = at_values(alloc, near.under, term, range)?;
    let same = at_values(alloc, near.same, term, range)?;
    let past = at_values(alloc, near.past, term, range)?;
    let far = range.minus(&under)?.minus(&same)?.minus(&past)?;
    Ok(Pieces {
        under,
        same,
        past,
        far,
    })
}

// Returns the numbers of the range at which the term has a value in the interval.
fn at_values(
    alloc: Global,
    values: Interval,
    term: Lin,
    range: &RangeSet,
) -> Result<RangeSet, AllocError>
    requires term { IsTerm term }
    requires ends { HasEndsInside values }
    requires values { (x : ℤ) → IsTrue (contains range.now x) → IsInside (value_at term x) }
    ensures { IfOk result (IsAtValues term range.now values) }
{
    let values = RangeSet::of(alloc, values.low, values.high)?;
    affine_preimage(alloc, term.slope, term.at, term.value, &values, range)
}
