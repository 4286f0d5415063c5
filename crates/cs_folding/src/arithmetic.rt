//! Exact arithmetic on the numbers of constant expressions (C11 6.6).
ghost use Rattle.std.specs.Prelude.{◌≡◌, ◌≤◌, ◌^◌, ◌*ℤ◌, ◌≤ℤ◌, ◌<ℤ◌, unsigned_abs, IfSome, pos};
ghost use Rattle.cs_types.specs.IntType.{IsIntegerOfC};
ghost use Rattle.cs_types.specs.Wrap.{wrapped};
ghost use Rattle.cs_ast.specs.declared.typed.operator.BinOp.TheVariants.{Div, Rem, Shl, Shr};
ghost use Rattle.cs_folding.specs.Folding.{without, given, is_count, bits_of, applied, turned_exactly, compared, kept, truth, is_zero};

use cs_ast::typed::operator::{BinOp, CmpOp, UnOp};
use cs_types::{DataModel, IntType, bytes, in_range, is_signed, multiply, quotient, wrap};

/// Returns the truth value of a test, as a number of `int`.
pub fn truth(test: bool) -> i128
    ensures value { result ≡ truth test }
    ensures small { IsIntegerOfC result }
{
    if test { 1 } else { 0 }
}

/// Returns the number of an operator without a result: none, or 0 in an operand that isn't evaluated.
pub fn without(needed: bool) -> Option<i128>
    ensures value { result ≡ without needed }
    ensures small { IfSome result IsIntegerOfC }
{
    if needed { None } else { Some(0) }
}

/// Returns the number of an operator in a type from its exact result.
#[tactic(auto, unfolding(crate::specs::Folding::given), using(crate::proofs::Numbers::in_c))]
pub fn given(model: DataModel, needed: bool, ty: IntType, exact: i128) -> Option<i128>
    requires { unsigned_abs exact ≤ 2 ^ 126 }
    ensures value { result ≡ given model needed ty exact }
    ensures small { IfSome result IsIntegerOfC }
{
    if is_signed(ty) && quotient(model, ty, exact) != 0 {
        without(needed)
    } else {
        Some(wrap(model, ty, exact))
    }
}

/// Whether there is a number, and it is 0.
pub fn is_zero(number: Option<i128>) -> bool
    ensures { result ≡ is_zero number }
{
    match number {
        Some(number) => number == 0,
        None => false,
    }
}

// The number of a product, whose exact value may need more than 128 bits.
#[tactic(auto, unfolding(crate::specs::Folding::given), using(crate::proofs::Numbers::products))]
fn product(model: DataModel, needed: bool, ty: IntType, left: i128, right: i128) -> Option<i128>
    requires left { IsIntegerOfC left }
    requires right { IsIntegerOfC right }
    ensures value { result ≡ given model needed ty (left *ℤ right) }
    ensures small { IfSome result IsIntegerOfC }
{
    let product = multiply(model, ty, left, right);
    if is_signed(ty) && !is_zero(product.quotient) {
        without(needed)
    } else {
        Some(product.number)
    }
}

// Whether a number of the type can be shifted by this number of bits.
fn is_count(model: DataModel, ty: IntType, count: i128) -> bool
    ensures { result ≡ is_count model ty count }
{
    0 <= count && count < i128::from(8 * bytes(model, ty))
}

// Two to the power of a count of bits.
fn power(count: i128) -> i128
    requires low { pos 0 ≤ℤ count }
    requires high { count <ℤ pos 64 }
    ensures value { result ≡ pos (2 ^ unsigned_abs count) }
    ensures small { IsIntegerOfC result }
{
    let bits = count as u32;
    1 << bits
}

// The bits of a number of a type, as an unsigned number.
fn bits(model: DataModel, ty: IntType, number: i128) -> u64
    requires { IsIntegerOfC number }
    ensures { result ≡ bits_of model ty number }
{
    if number < 0 {
        let modulus: i128 = 1 << (8 * bytes(model, ty));
        (number + modulus).max(0) as u64
    } else {
        number as u64
    }
}

// The number of a quotient, which truncates toward zero.
#[tactic(auto, unfolding(crate::specs::Folding::applied))]
fn divided(model: DataModel, needed: bool, ty: IntType, left: i128, right: i128) -> Option<i128>
    requires left { IsIntegerOfC left }
    requires right { IsIntegerOfC right }
    ensures value { result ≡ applied model needed Div ty left right }
    ensures small { IfSome result IsIntegerOfC }
{
    if right == 0 {
        without(needed)
    } else {
        given(model, needed, ty, left / right)
    }
}

// The number of a remainder.
#[tactic(auto, unfolding(crate::specs::Folding::applied))]
fn remainder(model: DataModel, needed: bool, ty: IntType, left: i128, right: i128) -> Option<i128>
    requires left { IsIntegerOfC left }
    requires right { IsIntegerOfC right }
    ensures value { result ≡ applied model needed Rem ty left right }
    ensures small { IfSome result IsIntegerOfC }
{
    if right == 0 {
        without(needed)
    } else {
        given(model, needed, ty, left % right)
    }
}

// The number of a shift to the left.
#[tactic(auto, unfolding(crate::specs::Folding::applied))]
fn shifted_left(
    model: DataModel,
    needed: bool,
    ty: IntType,
    left: i128,
    right: i128,
) -> Option<i128>
    requires left { IsIntegerOfC left }
    ensures value { result ≡ applied model needed Shl ty left right }
    ensures small { IfSome result IsIntegerOfC }
{
    if is_count(model, ty, right) {
        product(model, needed, ty, left, power(right))
    } else {
        without(needed)
    }
}

// The number of a shift to the right, which rounds down.
#[tactic(auto, unfolding(crate::specs::Folding::applied))]
fn shifted_right(
    model: DataModel,
    needed: bool,
    ty: IntType,
    left: i128,
    right: i128,
) -> Option<i128>
    requires left { IsIntegerOfC left }
    ensures value { result ≡ applied model needed Shr ty left right }
    ensures small { IfSome result IsIntegerOfC }
{
    if is_count(model, ty, right) {
        Some(left.div_euclid(power(right)))
    } else {
        without(needed)
    }
}

/// Returns the number of an operator on two numbers of a type; of a shift, the right one may have another type.
#[tactic(auto, unfolding(crate::specs::Folding::applied))]
pub fn applied(
    model: DataModel,
    needed: bool,
    operator: BinOp,
    ty: IntType,
    left: i128,
    right: i128,
) -> Option<i128>
    requires left { IsIntegerOfC left }
    requires right { IsIntegerOfC right }
    ensures value { result ≡ applied model needed operator ty left right }
    ensures small { IfSome result IsIntegerOfC }
{
    match operator {
        BinOp::Add => given(model, needed, ty, left + right),
        BinOp::Sub => given(model, needed, ty, left - right),
        BinOp::Mul => product(model, needed, ty, left, right),
        BinOp::Div => divided(model, needed, ty, left, right),
        BinOp::Rem => remainder(model, needed, ty, left, right),
        BinOp::Shl => shifted_left(model, needed, ty, left, right),
        BinOp::Shr => shifted_right(model, needed, ty, left, right),
        BinOp::And => Some(from_bits(model, ty, bits(model, ty, left) & bits(model, ty, right))),
        BinOp::Xor => Some(from_bits(model, ty, bits(model, ty, left) ^ bits(model, ty, right))),
        BinOp::Or => Some(from_bits(model, ty, bits(model, ty, left) | bits(model, ty, right))),
    }
}

// The number of a type with these bits.
#[tactic(auto, using(crate::proofs::Numbers::in_c))]
fn from_bits(model: DataModel, ty: IntType, bits: u64) -> i128
    ensures value { result ≡ wrapped model ty (pos bits) }
    ensures small { IsIntegerOfC result }
{
    wrap(model, ty, i128::from(bits))
}

/// Returns the number of an operator on one number.
pub fn turned(
    model: DataModel,
    needed: bool,
    operator: UnOp,
    ty: IntType,
    number: i128,
) -> Option<i128>
    requires { IsIntegerOfC number }
    ensures value { result ≡ given model needed ty (turned_exactly operator number) }
    ensures small { IfSome result IsIntegerOfC }
{
    match operator {
        UnOp::Negate => given(model, needed, ty, -number),
        UnOp::Complement => given(model, needed, ty, -number - 1),
    }
}

/// Returns the result of a comparison of two numbers.
pub fn compared(operator: CmpOp, left: i128, right: i128) -> bool
    ensures { result ≡ compared operator left right }
{
    match operator {
        CmpOp::Less => left < right,
        CmpOp::AtMost => left <= right,
        CmpOp::More => left > right,
        CmpOp::AtLeast => left >= right,
        CmpOp::Equal => left == right,
        CmpOp::Differs => left != right,
    }
}

/// Returns a number, if its type can represent it.
#[tactic(auto, unfolding(crate::specs::Folding::kept))]
pub fn kept(model: DataModel, ty: IntType, number: i128) -> Option<i128>
    ensures value { result ≡ kept model ty number }
    ensures small { IfSome result IsIntegerOfC }
{
    if in_range(model, ty, number) {
        Some(number)
    } else {
        None
    }
}
