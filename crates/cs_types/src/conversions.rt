//! Promotion and the usual arithmetic conversions (C11 6.3.1.1, 6.3.1.8).
ghost use Rattle.std.specs.Prelude.{◌≡◌};
ghost use Rattle.cs_types.specs.Conversions.{promoted, common_type, common_of_mixed, unsigned_of, holds_all_of};

use crate::data_model::DataModel;
use crate::int_type::{IntType, greatest, is_signed, least, rank};

/// Returns the type to which an operand of this type is promoted.
pub fn promote(model: DataModel, ty: IntType) -> IntType
    ensures { result ≡ promoted model ty }
{
    if rank(IntType::Int) <= rank(ty) {
        ty
    } else if holds_all_of(model, IntType::Int, ty) {
        IntType::Int
    } else {
        IntType::UInt
    }
}

/// Returns the type in which an operator on operands of these two types works.
pub fn usual(model: DataModel, left: IntType, right: IntType) -> IntType
    ensures { result ≡ common_type model left right }
{
    let left = promote(model, left);
    let right = promote(model, right);
    match (is_signed(left), is_signed(right)) {
        (true, false) => common_mixed(model, left, right),
        (false, true) => common_mixed(model, right, left),
        (true, true) | (false, false) if rank(left) < rank(right) => right,
        (true, true) | (false, false) => left,
    }
}

// Returns the common type of a signed and an unsigned type, both promoted.
fn common_mixed(model: DataModel, signed: IntType, unsigned: IntType) -> IntType
    ensures { result ≡ common_of_mixed model signed unsigned }
{
    if rank(signed) <= rank(unsigned) {
        unsigned
    } else if holds_all_of(model, signed, unsigned) {
        signed
    } else {
        unsigned_kin(signed)
    }
}

// Whether the first type can represent every number of the second.
fn holds_all_of(model: DataModel, wide: IntType, narrow: IntType) -> bool
    ensures { result ≡ holds_all_of model wide narrow }
{
    least(model, wide) <= least(model, narrow) && greatest(model, narrow) <= greatest(model, wide)
}

// Returns the unsigned type that corresponds to a type.
fn unsigned_kin(ty: IntType) -> IntType
    ensures { result ≡ unsigned_of ty }
{
    match ty {
        IntType::Char | IntType::SChar | IntType::UChar => IntType::UChar,
        IntType::Short | IntType::UShort => IntType::UShort,
        IntType::Int | IntType::UInt => IntType::UInt,
        IntType::Long | IntType::ULong => IntType::ULong,
        IntType::LLong | IntType::ULLong => IntType::ULLong,
    }
}
