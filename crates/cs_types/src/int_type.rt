//! The integer types: their sizes, signs, ranks and ranges (C11 6.2.5, 6.3.1.1).
ghost use Rattle.std.specs.Prelude.{◌≡◌, pos};
ghost use Rattle.cs_types.specs.IntType.{bytes_of, has_sign, rank_of, least_of, greatest_of, modulus_of, negatives_of};

use crate::data_model::DataModel;

/// An integer type. Plain `char` is signed, and is distinct from `signed char`.
#[derive(Clone, Copy, Debug, PartialEq, Eq)]
pub enum IntType {
    Char,
    SChar,
    UChar,
    Short,
    UShort,
    Int,
    UInt,
    Long,
    ULong,
    LLong,
    ULLong,
}

/// Returns the number of bytes of the type.
pub fn bytes(model: DataModel, ty: IntType) -> u64
    ensures { result ≡ bytes_of model ty }
{
    match (ty, model) {
        (IntType::Char | IntType::SChar | IntType::UChar, _) => 1,
        (IntType::Short | IntType::UShort, _) => 2,
        (IntType::Int | IntType::UInt, _) => 4,
        (IntType::Long | IntType::ULong, DataModel::Ilp32) => 4,
        (IntType::Long | IntType::ULong, DataModel::Lp64) => 8,
        (IntType::LLong | IntType::ULLong, _) => 8,
    }
}

/// Whether the type has numbers below 0.
pub fn is_signed(ty: IntType) -> bool
    ensures { result ≡ has_sign ty }
{
    match ty {
        IntType::Char | IntType::SChar | IntType::Short => true,
        IntType::Int | IntType::Long | IntType::LLong => true,
        IntType::UChar | IntType::UShort | IntType::UInt => false,
        IntType::ULong | IntType::ULLong => false,
    }
}

/// Returns the type's conversion rank: types of the same width may have different ranks.
pub fn rank(ty: IntType) -> u8
    ensures { result ≡ rank_of ty }
{
    match ty {
        IntType::Char | IntType::SChar | IntType::UChar => 1,
        IntType::Short | IntType::UShort => 2,
        IntType::Int | IntType::UInt => 3,
        IntType::Long | IntType::ULong => 4,
        IntType::LLong | IntType::ULLong => 5,
    }
}

/// Returns the number of values of the type: two to the power of its width.
pub fn modulus(model: DataModel, ty: IntType) -> i128
    ensures { result ≡ pos (modulus_of model ty) }
{
    match bytes(model, ty) {
        1 => 1 << 8,
        2 => 1 << 16,
        4 => 1 << 32,
        _ => 1 << 64,
    }
}

/// Returns the number of values of the type below 0.
pub fn negatives(model: DataModel, ty: IntType) -> i128
    ensures { result ≡ pos (negatives_of model ty) }
{
    if is_signed(ty) {
        modulus(model, ty) / 2
    } else {
        0
    }
}

/// Returns the least number of the type.
pub fn least(model: DataModel, ty: IntType) -> i128
    ensures { result ≡ least_of model ty }
{
    -negatives(model, ty)
}

/// Returns the greatest number of the type.
pub fn greatest(model: DataModel, ty: IntType) -> i128
    ensures { result ≡ greatest_of model ty }
{
    modulus(model, ty) - negatives(model, ty) - 1
}
