//! The numbers that satisfy a comparison with 0, and all others.
ghost use Rattle.std.specs.Prelude.{◌≡◌, ℤ, pos, not, IfOk};
ghost use Rattle.cs_ranges.specs.Interval.{IsInside};
ghost use Rattle.cs_ranges.specs.RangeSet.{contains};
ghost use Rattle.cs_events.specs.Operations.{compares};
ghost use Rattle.cs_signs.specs.Signs.{opposite_of};

use cs_ast::typed::operator::CmpOp;
use cs_ranges::{GREATEST, LEAST, RangeSet};
use std::alloc::{AllocError, Global};

/// The numbers that satisfy a comparison with 0, and all others.
#[derive(Drop)]
pub struct BySign {
    pub with: RangeSet,
    pub without: RangeSet,
}

/// Splits all numbers that a set can have by a comparison with 0.
pub fn by_sign(alloc: Global, op: CmpOp) -> Result<BySign, AllocError>
    ensures with { IfOk result (λ sets. (x : ℤ) → IsInside x
        → contains sets.with x ≡ compares op x (pos 0)) }
    ensures without { IfOk result (λ sets. (x : ℤ) → IsInside x
        → contains sets.without x ≡ not (compares op x (pos 0))) }
{
    let with = numbers_with(alloc, op)?;
    let without = numbers_with(alloc, opposite(op))?;
    Ok(BySign { with, without })
}

// Returns the numbers that satisfy a comparison with 0.
fn numbers_with(alloc: Global, op: CmpOp) -> Result<RangeSet, AllocError>
    ensures { IfOk result (λ set. (x : ℤ) → IsInside x
        → contains set x ≡ compares op x (pos 0)) }
{
    match op {
        CmpOp::Less => RangeSet::of(alloc, LEAST, -1),
        CmpOp::AtMost => RangeSet::of(alloc, LEAST, 0),
        CmpOp::More => RangeSet::of(alloc, 1, GREATEST),
        CmpOp::AtLeast => RangeSet::of(alloc, 0, GREATEST),
        CmpOp::Equal => RangeSet::of(alloc, 0, 0),
        CmpOp::Differs => other_than_zero(alloc),
    }
}

// Returns the numbers below 0 and those above.
fn other_than_zero(alloc: Global) -> Result<RangeSet, AllocError>
    ensures { IfOk result (λ set. (x : ℤ) → IsInside x
        → contains set x ≡ compares CmpOp.Differs x (pos 0)) }
{
    let below = RangeSet::of(alloc, LEAST, -1)?;
    let above = RangeSet::of(alloc, 1, GREATEST)?;
    below.union(&above)
}

/// Returns the comparison that holds exactly if this one doesn't.
pub(crate) fn opposite(op: CmpOp) -> CmpOp
    ensures truth { (x y : ℤ) → compares result x y ≡ not (compares op x y) }
    ensures same { result ≡ opposite_of op }
{
    match op {
        CmpOp::Less => CmpOp::AtLeast,
        CmpOp::AtMost => CmpOp::More,
        CmpOp::More => CmpOp::AtMost,
        CmpOp::AtLeast => CmpOp::Less,
        CmpOp::Equal => CmpOp::Differs,
        CmpOp::Differs => CmpOp::Equal,
    }
}
