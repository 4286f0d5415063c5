//! Grounds to guess: the table of `cs_findings`, computed.
ghost use Rattle.std.specs.Prelude.{◌≡◌, ◌≤◌, ◌^◌, ◌↔◌, IsTrue, IfSome, is_some, pos, ◌*ℤ◌, int_le, int_lt, unsigned_abs};
ghost use Rattle.cs_types.specs.IntType.{IsIntegerOfC};
ghost use Rattle.cs_types.specs.DataModel.{product_bound_of};
ghost use Rattle.cs_types.specs.Wrap.{wrap_quotient};
ghost use Rattle.cs_ast.specs.declared.typed.operator.BinOp.TheVariants.{Add, Sub, Mul, Shl};
ghost use Rattle.cs_events.specs.Operations as operations;
ghost use Rattle.cs_findings.specs.Grounds as grounds;
ghost use Rattle.cs_findings.specs.Operands as operands;
ghost use Rattle.cs_compared.specs.Wide.{IsSmall, AreSmall};
ghost use Rattle.cs_compared.specs.Computable.{IsComputable, IsShiftedBy};

use crate::extremes::{greatest_left, greatest_right, least_left, least_right, meets_zero};
use cs_ast::typed::operator::{BinOp, CmpOp};
use cs_compared::{
    are_spread, comparisons_differ, is_small, left_differs, operands, product_above,
    product_at_most, right_differs, tests_differ,
};
use cs_events::Operation;
use cs_findings::Others;
use cs_types::{DataModel, IntType, multiply, product_bound, quotient};

/// Whether two or three runs are a ground to guess an operation's result. Operands that occur in no run of a program may be refused.
pub fn has_ground(model: DataModel, operation: &Operation, others: Others<(i128, i128)>) -> bool
    ensures real { IsTrue result → IsTrue (grounds.has_ground model operation.now others) }
    ensures small { IsTrue result → AreSmall others }
    ensures found { IsComputable operation.now → IsSmall (operands.operands operation.now)
        → AreSmall others → IsTrue (grounds.has_ground model operation.now others) → IsTrue result }
{
    let mine = operands(operation);
    is_small(mine) && are_small(others) && gives_ground(model, operation, mine, others)
}

fn are_small(others: Others<(i128, i128)>) -> bool
    ensures { IsTrue result ↔ AreSmall others }
{
    match others {
        Others::One(first) => is_small(first),
        Others::Two(first, second) => is_small(first) && is_small(second),
    }
}

fn gives_ground(
    model: DataModel,
    operation: &Operation,
    mine: (i128, i128),
    others: Others<(i128, i128)>,
) -> bool
    requires mine { IsSmall mine }
    requires others { AreSmall others }
    requires operands { mine ≡ operands.operands operation.now }
    ensures real { IsTrue result → IsTrue (grounds.has_ground model operation.now others) }
    ensures found { IsComputable operation.now
        → IsTrue (grounds.has_ground model operation.now others) → IsTrue result }
{
    match *operation {
        Operation::Binary(operator, ty, _, _) => binary_ground(model, operator, ty, mine, others),
        Operation::Convert(ty, number) => {
            left_differs(mine, others) && is_far_number(model, ty, number)
        }
        Operation::Compare(operator, _, _) => comparison_ground(operator, mine, others),
        Operation::Order(_, _) => are_spread(mine, others) && tests_differ(mine, others),
        Operation::Product(_, _) => product_ground(model, mine, others),
        Operation::Sum(_, _, _) => are_spread(mine, others),
        Operation::Difference(_, _, _) => either_differs(mine, others),
        Operation::Unary(_, _, _) => false,
        Operation::Show(_) => false,
    }
}

fn binary_ground(
    model: DataModel,
    operator: BinOp,
    ty: IntType,
    mine: (i128, i128),
    others: Others<(i128, i128)>,
) -> bool
    requires mine { IsSmall mine }
    requires others { AreSmall others }
    ensures real { let far = grounds.is_far (wrap_quotient model ty
        (operations.exact model operator ty mine.0 mine.1)) in
        IsTrue result → IsTrue (grounds.binary_ground operator far mine others) }
    ensures found { let far = grounds.is_far (wrap_quotient model ty
        (operations.exact model operator ty mine.0 mine.1)) in
        IsIntegerOfC mine.0 → IsIntegerOfC mine.1 → IsShiftedBy operator mine.1
        → IsTrue (grounds.binary_ground operator far mine others) → IsTrue result }
{
    match operator {
        BinOp::Add => {
            are_spread(mine, others)
                || (either_differs(mine, others) && is_far_sum(model, ty, mine))
        }
        BinOp::Sub => {
            are_spread(mine, others)
                || (either_differs(mine, others) && is_far_difference(model, ty, mine))
        }
        BinOp::Mul => {
            (left_differs(mine, others) && right_differs(mine, others))
                || (either_differs(mine, others) && is_far_product(model, ty, mine.0, mine.1))
        }
        BinOp::Shl => {
            right_differs(mine, others)
                || (left_differs(mine, others) && is_far_shift(model, ty, mine.0, mine.1))
        }
        BinOp::Div => either_differs(mine, others),
        BinOp::Rem => either_differs(mine, others),
        BinOp::Shr => either_differs(mine, others),
        BinOp::And => either_differs(mine, others),
        BinOp::Xor => either_differs(mine, others),
        BinOp::Or => either_differs(mine, others),
    }
}

fn either_differs(mine: (i128, i128), others: Others<(i128, i128)>) -> bool
    ensures { result ≡ grounds.either_differs mine others }
{
    left_differs(mine, others) || right_differs(mine, others)
}

fn comparison_ground(operator: CmpOp, mine: (i128, i128), others: Others<(i128, i128)>) -> bool
    requires mine { IsSmall mine }
    requires others { AreSmall others }
    ensures { result ≡ grounds.comparison_ground operator mine others }
{
    match operator {
        CmpOp::Equal => are_spread(mine, others) && meets_zero(mine, others),
        CmpOp::Differs => are_spread(mine, others) && meets_zero(mine, others),
        CmpOp::Less => { are_spread(mine, others) && comparisons_differ(CmpOp::Less, mine, others) }
        CmpOp::AtMost => {
            are_spread(mine, others) && comparisons_differ(CmpOp::AtMost, mine, others)
        }
        CmpOp::More => { are_spread(mine, others) && comparisons_differ(CmpOp::More, mine, others) }
        CmpOp::AtLeast => {
            are_spread(mine, others) && comparisons_differ(CmpOp::AtLeast, mine, others)
        }
    }
}

fn product_ground(model: DataModel, mine: (i128, i128), others: Others<(i128, i128)>) -> bool
    requires mine { IsSmall mine }
    requires others { AreSmall others }
    ensures { result ≡ grounds.product_ground model mine others }
{
    left_differs(mine, others)
        && right_differs(mine, others)
        && may_be_met(model, mine, others)
        && may_be_failed(model, mine, others)
}

// Whether the product of the least numbers passes the order test of `calloc`.
fn may_be_met(model: DataModel, mine: (i128, i128), others: Others<(i128, i128)>) -> bool
    requires mine { IsSmall mine }
    requires others { AreSmall others }
    ensures { result ≡ int_le (grounds.least (λ pair. pair.0) mine others
        *ℤ grounds.least (λ pair. pair.1) mine others) (pos (product_bound_of model)) }
{
    let left = least_left(mine, others);
    let right = least_right(mine, others);
    product_at_most(left, right, product_bound(model))
}

// Whether the product of the greatest numbers fails it.
fn may_be_failed(model: DataModel, mine: (i128, i128), others: Others<(i128, i128)>) -> bool
    requires mine { IsSmall mine }
    requires others { AreSmall others }
    ensures { result ≡ int_lt (pos (product_bound_of model))
        (grounds.greatest (λ pair. pair.0) mine others
        *ℤ grounds.greatest (λ pair. pair.1) mine others) }
{
    let left = greatest_left(mine, others);
    let right = greatest_right(mine, others);
    product_above(left, right, product_bound(model))
}

// Whether the wrap quotient of a sum is none of -1, 0 and 1.
fn is_far_sum(model: DataModel, ty: IntType, pair: (i128, i128)) -> bool
    requires { IsSmall pair }
    ensures { result ≡ grounds.is_far (wrap_quotient model ty
        (operations.exact model Add ty pair.0 pair.1)) }
{
    is_far_number(model, ty, pair.0 + pair.1)
}

// The same for a difference.
fn is_far_difference(model: DataModel, ty: IntType, pair: (i128, i128)) -> bool
    requires { IsSmall pair }
    ensures { result ≡ grounds.is_far (wrap_quotient model ty
        (operations.exact model Sub ty pair.0 pair.1)) }
{
    is_far_number(model, ty, pair.0 - pair.1)
}

// Whether the wrap quotient of a number is none of -1, 0 and 1.
fn is_far_number(model: DataModel, ty: IntType, number: i128) -> bool
    requires { unsigned_abs number ≤ 2 ^ 126 }
    ensures { result ≡ grounds.is_far (wrap_quotient model ty number) }
{
    is_far(quotient(model, ty, number))
}

fn is_far(quotient: i128) -> bool
    ensures { result ≡ grounds.is_far quotient }
{
    quotient < -1 || 1 < quotient
}

// The same for a product of integers.
fn is_far_product(model: DataModel, ty: IntType, left: i128, right: i128) -> bool
    ensures real { IsTrue result → IsTrue (grounds.is_far (wrap_quotient model ty
        (operations.exact model Mul ty left right))) }
    ensures found { IsIntegerOfC left → IsIntegerOfC right → IsTrue (grounds.is_far
        (wrap_quotient model ty (operations.exact model Mul ty left right))) → IsTrue result }
{
    is_integer(left) && is_integer(right) && multiply(model, ty, left, right).quotient.is_none()
}

fn is_integer(number: i128) -> bool
    ensures { IsTrue result ↔ IsIntegerOfC number }
{
    -0x8000_0000_0000_0000 <= number && number <= 0xffff_ffff_ffff_ffff
}

// The same for a left shift.
fn is_far_shift(model: DataModel, ty: IntType, left: i128, count: i128) -> bool
    ensures real { IsTrue result → IsTrue (grounds.is_far (wrap_quotient model ty
        (operations.exact model Shl ty left count))) }
    ensures found { IsIntegerOfC left → IsShiftedBy Shl count → IsTrue (grounds.is_far
        (wrap_quotient model ty (operations.exact model Shl ty left count))) → IsTrue result }
{
    match power(count) {
        Some(factor) => is_far_product(model, ty, left, factor),
        None => false,
    }
}

// Returns 2 to the power of a number from 0 to 63.
fn power(exponent: i128) -> Option<i128>
    ensures value { IfSome result (λ two_to. two_to ≡ pos (operations.power exponent)) }
    ensures integer { IfSome result IsIntegerOfC }
    ensures found { IsShiftedBy Shl exponent → IsTrue (is_some result) }
{
    if 0 <= exponent && exponent < 64 {
        Some(1 << exponent)
    } else {
        None
    }
}
