//! Conversion of numbers to an integer type: the range, the wrapped number and the wrap quotient.
ghost use Rattle.std.specs.Prelude.{◌≡◌, ◌↔◌, ◌≤◌, ◌-◌, ◌*◌, ◌^◌, ◌+ℤ◌, ◌*ℤ◌, ◌-ℤ◌, ◌≤ℤ◌, pos, IsTrue, FitsSigned, unsigned_abs};
ghost use Rattle.std.specs.Int.{w64, w128};
ghost use Rattle.cs_types.specs.IntType.{InRange, IsIntegerOfC, modulus_of, negatives_of};
ghost use Rattle.cs_types.specs.Wrap.{wrap_quotient, wrapped, near_quotient};

use crate::data_model::DataModel;
use crate::int_type::{IntType, bytes, greatest, least, modulus, negatives};

/// A product converted to an integer type.
#[derive(Clone, Copy, Debug, PartialEq, Eq)]
pub struct Product {
    /// The converted product.
    pub number: i128,
    /// The product's wrap quotient if that is -1, 0 or 1.
    pub quotient: Option<i128>,
}

/// Whether the number is in the range of the type.
pub fn in_range(model: DataModel, ty: IntType, number: i128) -> bool
    ensures { IsTrue result ↔ InRange model ty number }
{
    least(model, ty) <= number && number <= greatest(model, ty)
}

/// Returns how many times the type's modulus has to be subtracted from `number` to bring it into the type's range:
/// rounded down, so that it is -1 just below the range.
pub fn quotient(model: DataModel, ty: IntType, number: i128) -> i128
    requires { unsigned_abs number ≤ 2 ^ 126 }
    ensures value { result ≡ wrap_quotient model ty number }
    ensures comes_into_range { InRange model ty
        (number -ℤ result *ℤ pos (modulus_of model ty)) }
{
    turns(model, ty, number)
}

/// Returns the number converted to the type, modulo two to the power of its width, also for signed types (C11 6.3.1.3).
pub fn wrap(model: DataModel, ty: IntType, number: i128) -> i128
    requires { unsigned_abs number ≤ 2 ^ 126 }
    ensures value { result ≡ wrapped model ty number }
    ensures in_range { InRange model ty result }
{
    rest(model, ty, number)
}

/// Returns the product of two integers of C converted to the type, with its wrap quotient if that is -1, 0 or 1. The
/// exact product may need more than 128 bits, as 2^64-1 squared does.
pub fn multiply(model: DataModel, ty: IntType, left: i128, right: i128) -> Product
    requires left { IsIntegerOfC left }
    requires right { IsIntegerOfC right }
    ensures number { result.number ≡ wrapped model ty (left *ℤ right) }
    ensures quotient { result.quotient
        ≡ near_quotient (wrap_quotient model ty (left *ℤ right)) }
{
    if left <= i128::from(i64::MAX) {
        return folded_product(model, ty, left, right, 0);
    }
    let taken = turns_of_word(model, ty, right);
    folded_product(model, ty, left - (1 << 64), right, taken)
}

// Returns the converted product after `taken` was subtracted from its wrap quotient. The left factor fits `long long`,
// which keeps the product within 128 bits.
fn folded_product(model: DataModel, ty: IntType, left: i128, right: i128, taken: i128) -> Product
    requires left { FitsSigned w64 left }
    requires right { IsIntegerOfC right }
    requires taken { unsigned_abs taken ≤ 2 ^ 120 }
    ensures number { result.number ≡ wrapped model ty (left *ℤ right) }
    ensures quotient { result.quotient
        ≡ near_quotient (wrap_quotient model ty (left *ℤ right) +ℤ taken) }
{
    let product = near_product(left, right);
    Product {
        number: rest(model, ty, product),
        quotient: near(turns(model, ty, product) + taken),
    }
}

// Returns a product that is so small that the shift into a type's range doesn't overflow.
fn near_product(left: i128, right: i128) -> i128
    requires left { FitsSigned w64 left }
    requires right { IsIntegerOfC right }
    ensures value { result ≡ left *ℤ right }
    ensures above { (pos 0 -ℤ pos (2 ^ 127 - 2 ^ 63)) ≤ℤ result }
    ensures below { result ≤ℤ pos (2 ^ 127 - 2 ^ 64) }
{
    left * right
}

// Returns the wrap quotient of a number whose shift into the type's range doesn't overflow.
fn turns(model: DataModel, ty: IntType, number: i128) -> i128
    requires { FitsSigned w128 (number +ℤ pos (negatives_of model ty)) }
    ensures value { result ≡ wrap_quotient model ty number }
    ensures small { unsigned_abs result ≤ 2 ^ 119 }
{
    (number + negatives(model, ty)).div_euclid(modulus(model, ty))
}

// Returns the number converted to the type, if the same shift doesn't overflow.
fn rest(model: DataModel, ty: IntType, number: i128) -> i128
    requires { FitsSigned w128 (number +ℤ pos (negatives_of model ty)) }
    ensures value { result ≡ wrapped model ty number }
    ensures in_range { InRange model ty result }
{
    let below = negatives(model, ty);
    (number + below).rem_euclid(modulus(model, ty)) - below
}

// Returns by how much the wrap quotient of a product decreases if 2^64 is subtracted from the other factor. It is an
// integer, since 2^64 is a multiple of every type's modulus.
fn turns_of_word(model: DataModel, ty: IntType, factor: i128) -> i128
    requires { IsIntegerOfC factor }
    ensures value { result *ℤ pos (modulus_of model ty) ≡ pos (2 ^ 64) *ℤ factor }
    ensures small { unsigned_abs result ≤ 2 ^ 120 }
{
    match bytes(model, ty) {
        1 => factor * (1 << 56),
        2 => factor * (1 << 48),
        4 => factor * (1 << 32),
        _ => factor,
    }
}

// Returns the quotient if it is -1, 0 or 1.
fn near(quotient: i128) -> Option<i128>
    ensures { result ≡ near_quotient quotient }
{
    if -1 <= quotient && quotient <= 1 {
        Some(quotient)
    } else {
        None
    }
}
