//! The numbers that may be guessed in place of an operation's own result.
ghost use Rattle.std.specs.Prelude.{◌≡◌, pos, neg_ℤ};
ghost use Rattle.cs_types.specs.DataModel.{offset_bound_of};
ghost use Rattle.cs_events.specs.Operations as operations;
ghost use Rattle.cs_events.specs.InputCells as inputs;

use crate::operation::Operation;
use cs_types::{DataModel, IntType, difference_type, offset_bound};

/// Returns the least and the greatest number that may be guessed for an operation, or `None` where guesses aren't allowed.
pub fn guess_range(model: DataModel, operation: Operation) -> Option<(i128, i128)>
    ensures { result ≡ operations.guess_range model operation }
{
    match operation {
        Operation::Binary(_, ty, _, _) => Some(numbers_of(model, ty)),
        Operation::Convert(ty, _) => Some(numbers_of(model, ty)),
        Operation::Compare(_, _, _) => Some((0, 1)),
        Operation::Order(_, _) => Some((0, 1)),
        Operation::Product(_, _) => Some((0, 1)),
        Operation::Sum(_, _, _) => Some(offsets(model)),
        Operation::Difference(_, _, _) => Some(numbers_of(model, difference_type(model))),
        Operation::Unary(_, _, _) => None,
        Operation::Show(_) => None,
    }
}

/// Whether a number is in a range, both ends included.
pub fn lies_in(range: (i128, i128), number: i128) -> bool
    ensures { result ≡ inputs.lies_in range number }
{
    range.0 <= number && number <= range.1
}

/// Returns the least and the greatest offset that a pointer may have.
pub fn offsets(model: DataModel) -> (i128, i128)
    ensures { result ≡ (neg_ℤ (pos (offset_bound_of model)), pos (offset_bound_of model)) }
{
    (-offset_bound(model), offset_bound(model))
}

/// Returns the least and the greatest number of a type (C11 5.2.4.2.1).
pub fn numbers_of(model: DataModel, ty: IntType) -> (i128, i128)
    ensures { result ≡ operations.numbers_of model ty }
{
    match (ty, model) {
        (IntType::Char | IntType::SChar, _) => (-0x80, 0x7f),
        (IntType::UChar, _) => (0, 0xff),
        (IntType::Short, _) => (-0x8000, 0x7fff),
        (IntType::UShort, _) => (0, 0xffff),
        (IntType::Int, _) => (-0x8000_0000, 0x7fff_ffff),
        (IntType::UInt, _) => (0, 0xffff_ffff),
        (IntType::Long, DataModel::Ilp32) => (-0x8000_0000, 0x7fff_ffff),
        (IntType::ULong, DataModel::Ilp32) => (0, 0xffff_ffff),
        (IntType::Long | IntType::LLong, _) => (-0x8000_0000_0000_0000, 0x7fff_ffff_ffff_ffff),
        (IntType::ULong | IntType::ULLong, _) => (0, 0xffff_ffff_ffff_ffff),
    }
}
