//! The two data models, and what else they determine about the target.
ghost use Rattle.std.specs.Prelude.{◌≡◌, ◌^◌, ◌≤◌, pos};
ghost use Rattle.cs_types.specs.IntType.{word_bytes};
ghost use Rattle.cs_types.specs.DataModel.{size_type_of, difference_type_of, offset_bound_of, product_bound_of, start_extent_of};

use crate::int_type::IntType;

/// The sizes of `long` and of pointers: 8 bytes in LP64, 4 in ILP32.
#[derive(Clone, Copy, Debug, PartialEq, Eq)]
pub enum DataModel {
    Lp64,
    Ilp32,
}

/// Returns the number of bytes of a pointer.
pub fn pointer_bytes(model: DataModel) -> u64
    ensures { result ≡ word_bytes model }
{
    match model {
        DataModel::Lp64 => 8,
        DataModel::Ilp32 => 4,
    }
}

/// Returns the type of `sizeof` (C11 6.5.3.4).
pub fn size_type(model: DataModel) -> IntType
    ensures { result ≡ size_type_of model }
{
    match model {
        DataModel::Lp64 => IntType::ULong,
        DataModel::Ilp32 => IntType::UInt,
    }
}

/// Returns the type of the difference of two pointers (C11 6.5.6).
pub fn difference_type(model: DataModel) -> IntType
    ensures { result ≡ difference_type_of model }
{
    match model {
        DataModel::Lp64 => IntType::Long,
        DataModel::Ilp32 => IntType::Int,
    }
}

/// Returns the greatest absolute value of a pointer's offset, in bytes from its object's start.
pub fn offset_bound(model: DataModel) -> i128
    ensures { result ≡ pos (offset_bound_of model) }
{
    match model {
        DataModel::Lp64 => 1 << 40,
        DataModel::Ilp32 => 1 << 29,
    }
}

/// Returns the greatest size in bytes that a call of `calloc` may request.
pub fn product_bound(model: DataModel) -> u64
    ensures { result ≡ product_bound_of model }
{
    match model {
        DataModel::Lp64 => u64::MAX,
        DataModel::Ilp32 => 0xffff_ffff,
    }
}

/// Returns the number of bytes of the block that an unknown pointer to a type of `size` bytes points to.
pub fn start_extent(model: DataModel, size: u64) -> u64
    requires { size ≤ 2 ^ 20 }
    ensures { result ≡ start_extent_of model size }
{
    let extent = size << 20;
    match model {
        DataModel::Ilp32 if extent > 1 << 28 => (1 << 28) / size * size,
        DataModel::Lp64 | DataModel::Ilp32 => extent,
    }
}
