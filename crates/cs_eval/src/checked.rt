//! Checks of the values of terms before arithmetic on them. No state has a term that fails a check; such a
//! term would count as running out of memory.
ghost use Rattle.std.specs.Prelude.{◌≡◌, ◌↔◌, ℤ, pos, IsTrue, ◌+ℤ◌, ◌*ℤ◌, OnOk, IfOk, IfSome};
ghost use Rattle.cs_ranges.specs.Affine.{affine};
ghost use Rattle.cs_ranges.specs.Interval.{IsInside, IsProper};
ghost use Rattle.cs_ranges.specs.RangeSet.{contains};
ghost use Rattle.cs_types.specs.IntType.{IsIntegerOfC};
ghost use Rattle.cs_terms.specs.Conditions.{CanAdd, CanScale, FitTogether, HaveOneSymbol};
ghost use Rattle.cs_terms.specs.Term.{value_at, IsTerm};
ghost use Rattle.cs_constraints.specs.Prepared.{HasIntegers};
ghost use Rattle.cs_eval.specs.Forms.{IsFormOf};
ghost use Rattle.cs_eval.specs.Operands.{IsBetween, IsRaised, IsTermBetween, IsTermInside, IsTermInType, IsReadyOperand, IsSeveral, LOWEST, HIGHEST};

use crate::setting::Setting;
use cs_constraints::Constraints;
use cs_ranges::{GREATEST, Interval, LEAST, RangeSet};
use cs_terms::{Lin, Sym, greatest_of_type, least_of_type};
use cs_types::IntType;
use std::alloc::AllocError;

// 2^100.
const WIDEST: i128 = 0x10_0000_0000_0000_0000_0000_0000;

// The least and the greatest integer of C.
const LEAST_INTEGER: i128 = -0x8000_0000_0000_0000;

const GREATEST_INTEGER: i128 = 0xffff_ffff_ffff_ffff;

/// Returns an operand, a term with integers of C as values, in the form that arithmetic requires: a constant
/// if its symbol can only have one number.
pub(crate) fn ready(constraints: &Constraints, term: Lin) -> Result<Lin, AllocError>
    ensures ready { IfOk result (IsReadyOperand constraints.now) }
    ensures form { IfOk result (IsFormOf constraints.now term) }
{
    check_integers(constraints, term)?;
    let operand = constraints.prepared(term);
    check_integers(constraints, operand)?;
    Ok(operand)
}

/// Returns a part of an order test in the form that arithmetic requires: a constant if its symbol can only
/// have one number.
pub(crate) fn ready_part(constraints: &Constraints, term: Lin) -> Result<Lin, AllocError>
    ensures term { IfOk result (IsTermBetween constraints.now LOWEST HIGHEST) }
    ensures several { IfOk result (IsSeveral constraints.now) }
    ensures form { IfOk result (IsFormOf constraints.now term) }
{
    check_wide(constraints, term)?;
    let part = constraints.prepared(term);
    check_wide(constraints, part)?;
    Ok(part)
}

/// Checks that the values of a term are integers of C.
pub(crate) fn check_integers(constraints: &Constraints, term: Lin) -> Result<(), AllocError>
    ensures term { OnOk result (IsTerm term) }
    ensures integers { OnOk result (HasIntegers constraints.now term) }
{
    check_between(constraints, term, LEAST_INTEGER, GREATEST_INTEGER)
}

/// Checks that the values of a term are from -2^100 to 2^100.
pub(crate) fn check_wide(constraints: &Constraints, term: Lin) -> Result<(), AllocError>
    ensures { OnOk result (IsTermBetween constraints.now LOWEST HIGHEST term) }
{
    check_between(constraints, term, -WIDEST, WIDEST)
}

/// Checks that the values of a term are in the range of a type.
pub(crate) fn check_in_type(setting: &Setting, ty: IntType, term: Lin) -> Result<(), AllocError>
    ensures { OnOk result (IsTermInType setting.now.model setting.now.constraints.now ty term) }
{
    let low = least_of_type(setting.model, ty);
    let high = greatest_of_type(setting.model, ty);
    check_between(setting.constraints, term, low, high)
}

/// Checks that the values of a term are from -2^126 to 2^126, as those of sets are.
pub(crate) fn check_inside_values(constraints: &Constraints, term: Lin) -> Result<(), AllocError>
    ensures { OnOk result (IsTermInside constraints.now term) }
{
    check_between(constraints, term, LEAST, GREATEST)
}

/// Checks that the values of a term are within the bounds, and that its symbol, if it has one, is declared.
pub(crate) fn check_between(
    constraints: &Constraints,
    term: Lin,
    low: i128,
    high: i128,
) -> Result<(), AllocError>
    ensures { OnOk result (IsTermBetween constraints.now low high term) }
{
    let Some(sym) = term.sym else {
        return check_constant(term, low, high);
    };
    if term.slope == 0 {
        return Err(AllocError);
    }
    let Some(range) = constraints.range_of(sym) else {
        return Err(AllocError);
    };
    check_over(term, range, low, high)
}

// Checks that a constant is within the bounds.
fn check_constant(term: Lin, low: i128, high: i128) -> Result<(), AllocError>
    ensures slope { OnOk result (term.slope ≡ pos 0) }
    ensures value { OnOk result (IsBetween low high term.value) }
{
    if term.slope == 0 && is_between(low, high, term.value) {
        Ok(())
    } else {
        Err(AllocError)
    }
}

// Checks that the values of a term are within the bounds, at the ends of its symbol's numbers: the term is monotonic.
fn check_over(term: Lin, range: &RangeSet, low: i128, high: i128) -> Result<(), AllocError>
    requires { IsTerm term }
    ensures { OnOk result ((x : ℤ) → IsTrue (contains range.now x)
        → IsBetween low high (value_at term x)) }
{
    let (Some(least), Some(greatest)) = (range.least(), range.greatest()) else {
        return Err(AllocError);
    };
    let (Some(first), Some(last)) = (value_at(term, least), value_at(term, greatest)) else {
        return Err(AllocError);
    };
    if is_between(low, high, first) && is_between(low, high, last) {
        Ok(())
    } else {
        Err(AllocError)
    }
}

// Returns the value of a term at a number of its symbol.
fn value_at(term: Lin, number: i128) -> Option<i128>
    ensures { IfSome result (λ value.
        value ≡ affine term.slope term.at term.value number) }
{
    let steps = number.checked_sub(term.at)?;
    let rise = term.slope.checked_mul(steps)?;
    let value = term.value.checked_add(rise)?;
    Some(value)
}

fn is_between(low: i128, high: i128, number: i128) -> bool
    ensures { IsTrue result → IsBetween low high number }
{
    low <= number && number <= high
}

/// Checks that a set can contain a number.
pub(crate) fn check_inside(number: i128) -> Result<(), AllocError>
    ensures { OnOk result (IsInside number) }
{
    if LEAST <= number && number <= GREATEST {
        Ok(())
    } else {
        Err(AllocError)
    }
}

// Checks that a set can contain the sum of two numbers.
fn check_sum(left: i128, right: i128) -> Result<(), AllocError>
    ensures { OnOk result (IsInside (left +ℤ right)) }
{
    match left.checked_add(right) {
        Some(sum) => check_inside(sum),
        None => Err(AllocError),
    }
}

// Checks that a set can contain the product of two numbers.
fn check_product(left: i128, right: i128) -> Result<(), AllocError>
    ensures { OnOk result (IsInside (left *ℤ right)) }
{
    match left.checked_mul(right) {
        Some(product) => check_inside(product),
        None => Err(AllocError),
    }
}

/// Checks that two terms can be added.
pub(crate) fn check_adds(left: Lin, right: Lin) -> Result<(), AllocError>
    requires left { IsTerm left }
    requires right { IsTerm right }
    ensures { OnOk result (CanAdd left right) }
{
    check_inside(left.slope)?;
    check_inside(right.slope)?;
    check_sum(left.slope, right.slope)?;
    check_inside(left.value)?;
    check_inside(right.value)?;
    if have_one_symbol(left.sym, right.sym) {
        check_together(left, right)
    } else {
        check_sum(left.value, right.value)
    }
}

// Checks that two terms over one symbol can be added.
fn check_together(left: Lin, right: Lin) -> Result<(), AllocError>
    requires left { IsTerm left }
    requires right { IsTerm right }
    ensures { OnOk result (FitTogether left right) }
{
    let (Some(left_there), Some(right_there)) = (value_at(left, right.at), value_at(right, left.at))
    else {
        return Err(AllocError);
    };
    check_inside(left_there)?;
    check_inside(right_there)?;
    check_sum(left.value, right_there)?;
    check_sum(left_there, right.value)
}

fn have_one_symbol(left: Option<Sym>, right: Option<Sym>) -> bool
    ensures { IsTrue result ↔ HaveOneSymbol left right }
{
    match (left, right) {
        (Some(sym), Some(other)) => sym == other,
        (Some(_), None) => false,
        (None, _) => false,
    }
}

/// Checks that a term can be scaled by a factor.
pub(crate) fn check_scales(term: Lin, factor: i128) -> Result<(), AllocError>
    ensures { OnOk result (CanScale term factor) }
{
    check_inside(term.slope)?;
    check_product(term.slope, factor)?;
    check_inside(term.value)?;
    check_product(term.value, factor)
}

/// Checks that a number is an integer of C.
pub(crate) fn check_integer(number: i128) -> Result<(), AllocError>
    ensures { OnOk result (IsIntegerOfC number) }
{
    if LEAST_INTEGER <= number && number <= GREATEST_INTEGER {
        Ok(())
    } else {
        Err(AllocError)
    }
}

/// Checks that an interval isn't empty, and that a set can contain its numbers.
pub(crate) fn check_interval(numbers: Interval) -> Result<(), AllocError>
    ensures { OnOk result (IsProper numbers) }
{
    if LEAST <= numbers.low && numbers.low <= numbers.high && numbers.high <= GREATEST {
        Ok(())
    } else {
        Err(AllocError)
    }
}

/// Returns the term with a number added to its values.
pub(crate) fn moved(term: Lin, by: i128) -> Result<Lin, AllocError>
    ensures { IfOk result (IsRaised term by) }
{
    let value = term.value.checked_add(by).ok_or(AllocError)?;
    Ok(Lin { value, ..term })
}
