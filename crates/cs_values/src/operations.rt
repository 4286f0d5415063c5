//! The operations that show, constructed from the values that they work on.
ghost use Rattle.std.specs.Prelude.{◌≡◌, ◌+ℤ◌, ◌-ℤ◌, ◌*ℤ◌, neg_ℤ, pos, IfOk};
ghost use Rattle.cs_types.specs.DataModel.{offset_bound_of};
ghost use Rattle.cs_meaning.specs.Initials.{number_in, directed};
ghost use Rattle.cs_values.specs.View.{cell_of};

use crate::objects::Cell;
use cs_ast::typed::operator::{BinOp, CmpOp, Direction};
use cs_events::Operation;
use cs_types::{DataModel, IntType, offset_bound};
use std::alloc::AllocError;

/// How far a pointer moves: an amount of elements of a size in bytes.
#[derive(Clone, Copy)]
pub struct Stride {
    pub amount: i128,
    pub size: u64,
}

/// Returns the stride of a number of elements of a size, in a direction.
pub fn stride_of(amount: &i128, direction: Direction, size: u64) -> Result<Stride, AllocError>
    ensures amount { IfOk result (λ made. made.amount ≡ directed direction amount.now) }
    ensures size { IfOk result (λ made. made.size ≡ size) }
{
    let amount = match direction {
        Direction::Forward => *amount,
        Direction::Back => amount.checked_neg().ok_or(AllocError)?,
    };
    Ok(Stride { amount, size })
}

/// Returns the operation of a binary integer operator.
pub fn binary_operation(operator: BinOp, ty: IntType, left: &i128, right: &i128) -> Operation
    ensures { result ≡ Operation.Binary operator ty left.now right.now }
{
    Operation::Binary(operator, ty, *left, *right)
}

/// Returns a conversion to an integer type.
pub fn conversion(to: IntType, number: &i128) -> Operation
    ensures { result ≡ Operation.Convert to number.now }
{
    Operation::Convert(to, *number)
}

/// Returns a comparison of two numbers.
pub fn comparison(operator: CmpOp, left: &i128, right: &i128) -> Operation
    ensures { result ≡ Operation.Compare operator left.now right.now }
{
    Operation::Compare(operator, *left, *right)
}

/// Returns a comparison of the numbers of two cells.
pub fn cell_comparison(operator: CmpOp, left: &Cell, right: &Cell) -> Operation
    ensures { result ≡ Operation.Compare operator (number_in (cell_of left.now))
        (number_in (cell_of right.now)) }
{
    Operation::Compare(operator, left.number(), right.number())
}

/// Returns a comparison of two offsets.
pub fn offset_comparison(operator: CmpOp, offsets: (i128, i128)) -> Operation
    ensures { result ≡ Operation.Compare operator offsets.0 offsets.1 }
{
    Operation::Compare(operator, offsets.0, offsets.1)
}

/// Returns the difference of two offsets, in elements of a size.
pub fn offset_difference(offsets: (i128, i128), size: u64) -> Operation
    ensures { result ≡ Operation.Difference offsets.0 offsets.1 size }
{
    Operation::Difference(offsets.0, offsets.1, size)
}

/// Returns the sum of an offset and a stride.
pub fn pointer_sum(offset: &i128, stride: Stride) -> Operation
    ensures { result ≡ Operation.Sum offset.now stride.amount stride.size }
{
    Operation::Sum(*offset, stride.amount, stride.size)
}

/// Returns the order test whether a moved pointer stays at or above the least offset.
pub fn stays_above(model: DataModel, offset: &i128, stride: Stride) -> Result<Operation, AllocError>
    ensures { IfOk result (λ test.
        test ≡ Operation.Order (offset.now +ℤ pos (offset_bound_of model))
        (stride.amount *ℤ pos stride.size)) }
{
    let room = offset.checked_add(offset_bound(model)).ok_or(AllocError)?;
    let by = stride
        .amount
        .checked_mul(i128::from(stride.size))
        .ok_or(AllocError)?;
    Ok(Operation::Order(room, by))
}

/// Returns the order test whether a moved pointer stays at or below the greatest offset.
pub fn stays_below(model: DataModel, offset: &i128, stride: Stride) -> Result<Operation, AllocError>
    ensures { IfOk result (λ test.
        test ≡ Operation.Order (pos (offset_bound_of model) -ℤ offset.now)
        (neg_ℤ (stride.amount *ℤ pos stride.size))) }
{
    let room = offset_bound(model).checked_sub(*offset).ok_or(AllocError)?;
    let by = stride
        .amount
        .checked_mul(i128::from(stride.size))
        .ok_or(AllocError)?;
    let back = by.checked_neg().ok_or(AllocError)?;
    Ok(Operation::Order(room, back))
}
