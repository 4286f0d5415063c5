//! The range of an integer type: its least and its greatest number (C11 5.2.4.2.1).
ghost use Rattle.std.specs.Prelude.{◌≡◌, pos};
ghost use Rattle.cs_types.specs.IntType.{least_of, greatest_of, modulus_of, negatives_of};

use cs_types::{DataModel, IntType, bytes, is_signed};

/// Returns the least number of the type, as `INT_MIN` of C11 5.2.4.2.1.
pub fn least_of_type(model: DataModel, ty: IntType) -> i128
    ensures { result ≡ least_of model ty }
{
    -negatives(model, ty)
}

/// Returns the greatest number of the type, as `INT_MAX` of C11 5.2.4.2.1.
pub fn greatest_of_type(model: DataModel, ty: IntType) -> i128
    ensures { result ≡ greatest_of model ty }
{
    modulus(model, ty) - negatives(model, ty) - 1
}

/// Returns how many numbers the type has.
pub(crate) fn modulus(model: DataModel, ty: IntType) -> i128
    ensures { result ≡ pos (modulus_of model ty) }
{
    match bytes(model, ty) {
        1 => 1 << 8,
        2 => 1 << 16,
        4 => 1 << 32,
        _ => 1 << 64,
    }
}

// Returns how many numbers the type has below 0.
fn negatives(model: DataModel, ty: IntType) -> i128
    ensures { result ≡ pos (negatives_of model ty) }
{
    if is_signed(ty) {
        modulus(model, ty) / 2
    } else {
        0
    }
}
