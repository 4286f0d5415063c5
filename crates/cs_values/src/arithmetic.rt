//! The own results of operations, and their wrap quotients.
ghost use Rattle.std.specs.Prelude.{◌≡◌, ◌+ℤ◌, ◌*ℤ◌, ℤ, pos, int_le, IsTrue, IfSome, IfOk};
ghost use Rattle.cs_types.specs.IntType.{IsIntegerOfC, bytes_of, modulus_of};
ghost use Rattle.cs_types.specs.DataModel.{product_bound_of};
ghost use Rattle.cs_types.specs.Wrap.{near_quotient, wrapped};
ghost use Rattle.cs_events.specs.Operations as operations;
ghost use Rattle.cs_values.specs.Results.{IsOwn, IsConverted};

use cs_ast::typed::operator::{BinOp, CmpOp, UnOp};
use cs_events::{Operation, Wrap, lies_in, offsets};
use cs_types::{DataModel, IntType, multiply, product_bound, quotient, wrap};
use std::alloc::AllocError;

/// The result of an operation, and the label of its wrap quotient.
#[derive(Clone, Copy)]
pub struct Computed {
    pub number: i128,
    pub wrap: Wrap,
}

/// Returns the own result of an operation; `None` if a number isn't one of C's, so that 128 bits may not suffice.
pub fn compute(model: DataModel, operation: Operation) -> Option<Computed>
    ensures { IfSome result (IsOwn model operation) }
{
    match operation {
        Operation::Binary(operator, ty, left, right) => binary(model, operator, ty, left, right),
        Operation::Unary(operator, ty, operand) => unary(model, operator, ty, operand),
        Operation::Convert(ty, number) => converted(model, ty, number),
        Operation::Compare(operator, left, right) => Some(truth(compares(operator, left, right))),
        Operation::Order(first, second) => Some(truth(order(first, second)?)),
        Operation::Product(count, size) => Some(truth(product_fits(model, count, size))),
        Operation::Sum(offset, amount, size) => Some(plain(moved(model, offset, amount, size)?)),
        Operation::Difference(left, right, size) => {
            Some(plain(elements_between(left, right, size)?))
        }
        Operation::Show(_) => Some(plain(0)),
    }
}

/// The same, where a number that 128 bits can't hold counts as out of memory.
pub fn own_result(model: DataModel, operation: Operation) -> Result<Computed, AllocError>
    ensures { IfOk result (IsOwn model operation) }
{
    compute(model, operation).ok_or(AllocError)
}

// Returns a truth value as a number, which is in its type.
fn truth(holds: bool) -> Computed
    ensures number { result.number ≡ operations.truth_number holds }
    ensures wrap { result.wrap ≡ Wrap.Same }
{
    plain(i128::from(holds))
}

// Returns a result that is in its type.
fn plain(number: i128) -> Computed
    ensures number { result.number ≡ number }
    ensures wrap { result.wrap ≡ Wrap.Same }
{
    Computed {
        number,
        wrap: Wrap::Same,
    }
}

// Computes a binary integer operator.
fn binary(
    model: DataModel,
    operator: BinOp,
    ty: IntType,
    left: i128,
    right: i128,
) -> Option<Computed>
    ensures { IfSome result (IsConverted model ty (operations.exact model operator ty left right)) }
{
    match operator {
        BinOp::Add => converted(model, ty, left.checked_add(right)?),
        BinOp::Sub => converted(model, ty, left.checked_sub(right)?),
        BinOp::Mul => product(model, ty, left, right),
        BinOp::Div => converted(model, ty, left.checked_div(right)?),
        BinOp::Rem => converted(model, ty, left.checked_rem(right)?),
        BinOp::Shl => product(model, ty, left, power(right)?),
        BinOp::Shr => converted(model, ty, left.checked_div_euclid(power(right)?)?),
        BinOp::And => bitwise(model, ty, bits(model, ty, left) & bits(model, ty, right)),
        BinOp::Xor => bitwise(model, ty, bits(model, ty, left) ^ bits(model, ty, right)),
        BinOp::Or => bitwise(model, ty, bits(model, ty, left) | bits(model, ty, right)),
    }
}

// Computes a unary integer operator.
fn unary(model: DataModel, operator: UnOp, ty: IntType, operand: i128) -> Option<Computed>
    ensures { IfSome result (IsConverted model ty (operations.exact_of_one operator operand)) }
{
    match operator {
        UnOp::Negate => converted(model, ty, operand.checked_neg()?),
        UnOp::Complement => converted(model, ty, (-1_i128).checked_sub(operand)?),
    }
}

// Returns two to the power of a number below 64.
fn power(exponent: i128) -> Option<i128>
    ensures { IfSome result (λ two_to. two_to ≡ pos (operations.power exponent)) }
{
    if 0 <= exponent && exponent < 64 {
        Some(1 << exponent)
    } else {
        None
    }
}

// Converts a number to a type.
fn converted(model: DataModel, ty: IntType, number: i128) -> Option<Computed>
    ensures { IfSome result (IsConverted model ty number) }
{
    if number.unsigned_abs() <= 1 << 126 {
        Some(Computed {
            number: wrap(model, ty, number),
            wrap: wrap_of(quotient(model, ty, number)),
        })
    } else {
        None
    }
}

// Returns the label of a wrap quotient.
fn wrap_of(quotient: i128) -> Wrap
    ensures { result ≡ operations.wrap_of quotient }
{
    match quotient {
        0 => Wrap::Same,
        1 => Wrap::Past,
        -1 => Wrap::Under,
        _ => Wrap::Far,
    }
}

// Returns a product converted to a type.
fn product(model: DataModel, ty: IntType, left: i128, right: i128) -> Option<Computed>
    ensures { IfSome result (IsConverted model ty (left *ℤ right)) }
{
    if !is_of_c(left) || !is_of_c(right) {
        return None;
    }
    let product = multiply(model, ty, left, right);
    Some(Computed {
        number: product.number,
        wrap: near_wrap(product.quotient),
    })
}

// Whether a number is in some integer type of C.
fn is_of_c(number: i128) -> bool
    ensures { IsTrue result → IsIntegerOfC number }
{
    i128::from(i64::MIN) <= number && number <= i128::from(u64::MAX)
}

// Returns the label of the wrap quotient of a product.
fn near_wrap(quotient: Option<i128>) -> Wrap
    ensures { (exact : ℤ) → quotient ≡ near_quotient exact
        → result ≡ operations.wrap_of exact }
{
    match quotient {
        Some(quotient) => wrap_of(quotient),
        None => Wrap::Far,
    }
}

// Returns the number of a type with some bits.
fn bitwise(model: DataModel, ty: IntType, bits: u64) -> Option<Computed>
    ensures { IfSome result (IsConverted model ty (wrapped model ty (pos bits))) }
{
    converted(model, ty, wrap(model, ty, i128::from(bits)))
}

// Returns the bits of a number in a type, read as an unsigned number.
fn bits(model: DataModel, ty: IntType, number: i128) -> u64
    ensures { result ≡ operations.bits_of model ty number }
{
    number.rem_euclid(modulus(model, ty)) as u64
}

// Returns how many numbers a type has.
fn modulus(model: DataModel, ty: IntType) -> i128
    ensures { result ≡ pos (modulus_of model ty) }
{
    match bytes(model, ty) {
        1 => 1 << 8,
        2 => 1 << 16,
        4 => 1 << 32,
        _ => 1 << 64,
    }
}

/// Returns the size in bytes of a type.
pub fn bytes(model: DataModel, ty: IntType) -> u32
    ensures { result ≡ bytes_of model ty }
{
    match (ty, model) {
        (IntType::Char | IntType::SChar | IntType::UChar, _) => 1,
        (IntType::Short | IntType::UShort, _) => 2,
        (IntType::Int | IntType::UInt, _) => 4,
        (IntType::Long | IntType::ULong, DataModel::Ilp32) => 4,
        (IntType::Long | IntType::ULong, DataModel::Lp64) => 8,
        (IntType::LLong | IntType::ULLong, _) => 8,
    }
}

// Whether a comparison of two numbers holds.
fn compares(operator: CmpOp, left: i128, right: i128) -> bool
    ensures { result ≡ operations.compares operator left right }
{
    match operator {
        CmpOp::Less => left < right,
        CmpOp::AtMost => left <= right,
        CmpOp::More => right < left,
        CmpOp::AtLeast => right <= left,
        CmpOp::Equal => left == right,
        CmpOp::Differs => left != right,
    }
}

// Whether the sum of two parts is at least 0.
fn order(first: i128, second: i128) -> Option<bool>
    ensures { IfSome result (λ holds. holds ≡ int_le (pos 0) (first +ℤ second)) }
{
    let sum = first.checked_add(second)?;
    Some(0 <= sum)
}

// Whether `count` elements of a size are at most the largest size of an allocation. A product that 128 bits don't hold is greater,
// unless it is negative.
fn product_fits(model: DataModel, count: i128, size: i128) -> bool
    ensures { result ≡ int_le (count *ℤ size) (pos (product_bound_of model)) }
{
    match count.checked_mul(size) {
        Some(product) => product <= i128::from(product_bound(model)),
        None => (count < 0) != (size < 0),
    }
}

// Returns the offset of a moved pointer; 0 if it is past the bounds.
fn moved(model: DataModel, offset: i128, amount: i128, size: u64) -> Option<i128>
    ensures { IfSome result (λ n.
        n ≡ operations.within_bound model (offset +ℤ amount *ℤ pos size)) }
{
    let by = amount.checked_mul(i128::from(size))?;
    let moved = offset.checked_add(by)?;
    Some(within_bound(model, moved))
}

// Returns a number if it is within the bounds of offsets, else 0.
fn within_bound(model: DataModel, moved: i128) -> i128
    ensures { result ≡ operations.within_bound model moved }
{
    if lies_in(offsets(model), moved) {
        moved
    } else {
        0
    }
}

/// Whether the number isn't 0.
pub fn is_true(number: i128) -> bool
    ensures { result ≡ operations.is_true number }
{
    number != 0
}

// Returns the number of elements between two offsets; 0 if elements have size 0.
fn elements_between(left: i128, right: i128, size: u64) -> Option<i128>
    ensures { IfSome result (λ n. n ≡ operations.elements_between left right size) }
{
    if size == 0 {
        return Some(0);
    }
    let between = left.checked_sub(right)?;
    between.checked_div(i128::from(size))
}
