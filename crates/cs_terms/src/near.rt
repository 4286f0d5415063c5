//! The numbers with the wrap quotients -1, 0 and 1, as three intervals.
ghost use Rattle.std.specs.Prelude.{◌≡◌, ◌≤◌, ◌<ℤ◌, ◌≤ℤ◌, ◌*ℤ◌, ◌+ℤ◌, ◌^◌, pos, neg_ℤ, unsigned_abs, IsTrue, IfOk, ℤ};
ghost use Rattle.cs_ranges.specs.Interval.{IsInside, in_interval};
ghost use Rattle.cs_types.specs.IntType.{least_of, greatest_of, modulus_of, IsIntegerOfC};
ghost use Rattle.cs_types.specs.Wrap.{wrap_quotient};
ghost use Rattle.cs_terms.specs.Near.{HaveQuotients, HasQuotient, HasCofactors, HasEndsInside, IsNarrow};

use crate::type_range::{least_of_type, modulus};
use cs_ranges::{GREATEST, Interval, LEAST};
use cs_types::{DataModel, IntType};

/// The numbers whose quotient is -1, those whose quotient is 0 and those whose quotient is 1. The quotient is a
/// number's own, or that of its product with a factor.
#[derive(Clone, Copy, Debug)]
pub struct Near {
    pub under: Interval,
    pub same: Interval,
    pub past: Interval,
}

impl Near {
    /// Returns the intervals for the quotients of the numbers themselves.
    pub fn of_type(model: DataModel, ty: IntType) -> Near
        ensures quotients { HaveQuotients (wrap_quotient model ty) result }
        ensures under { IsNarrow result.under }
        ensures same { IsNarrow result.same }
        ensures past { IsNarrow result.past }
    {
        Near {
            under: with_quotient(model, ty, -1),
            same: with_quotient(model, ty, 0),
            past: with_quotient(model, ty, 1),
        }
    }

    /// Returns the intervals for the quotients of the products with the factor.
    pub fn cofactors(self, factor: i128) -> Near
        requires under { IsNarrow self.under }
        requires same { IsNarrow self.same }
        requires past { IsNarrow self.past }
        requires factor { IsIntegerOfC factor }
        ensures under { HasCofactors self.under factor result.under }
        ensures same { HasCofactors self.same factor result.same }
        ensures past { HasCofactors self.past factor result.past }
        ensures under_inside { HasEndsInside result.under }
        ensures same_inside { HasEndsInside result.same }
        ensures past_inside { HasEndsInside result.past }
    {
        Near {
            under: cofactors(self.under, factor),
            same: cofactors(self.same, factor),
            past: cofactors(self.past, factor),
        }
    }
}

// Returns the numbers with the quotient.
fn with_quotient(model: DataModel, ty: IntType, number: i128) -> Interval
    requires { unsigned_abs number ≤ 1 }
    ensures numbers { HasQuotient (wrap_quotient model ty) number result }
    ensures narrow { IsNarrow result }
{
    let modulus = modulus(model, ty);
    let least = least_of_type(model, ty);
    let low = least + number * modulus;
    Interval {
        low,
        high: low + modulus - 1,
    }
}

// Returns the numbers whose product with the factor is in the interval.
fn cofactors(products: Interval, factor: i128) -> Interval
    requires narrow { IsNarrow products }
    requires factor { IsIntegerOfC factor }
    ensures numbers { HasCofactors products factor result }
    ensures inside { HasEndsInside result }
{
    if factor == 0 {
        return zero_cofactors(products);
    }
    if factor < 0 {
        let negatives = Interval {
            low: -products.high,
            high: -products.low,
        };
        return positive_cofactors(negatives, -factor);
    }
    positive_cofactors(products, factor)
}

// Returns the numbers whose product with 0 is in the interval: all numbers that a range can have, or none.
fn zero_cofactors(products: Interval) -> Interval
    ensures numbers { (x : ℤ) → IsInside x
        → in_interval result x ≡ in_interval products (pos 0) }
    ensures inside { HasEndsInside result }
{
    if products.low <= 0 && 0 <= products.high {
        Interval {
            low: LEAST,
            high: GREATEST,
        }
    } else {
        Interval { low: 1, high: 0 }
    }
}

// Returns the numbers whose product with a positive factor is in the interval.
fn positive_cofactors(products: Interval, factor: i128) -> Interval
    requires narrow { IsNarrow products }
    requires positive { pos 0 <ℤ factor }
    ensures numbers { (x : ℤ) → in_interval result x ≡ in_interval products (x *ℤ factor) }
    ensures narrow { IsNarrow result }
{
    Interval {
        low: -(-products.low).div_euclid(factor),
        high: products.high.div_euclid(factor),
    }
}
