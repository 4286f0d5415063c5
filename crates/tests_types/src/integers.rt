//! Results of integer arithmetic according to gcc and to the ranges of the types.

use crate::columns::{integer_type, model, number, number_if_any};
use cs_types::DataModel::{Ilp32, Lp64};
use cs_types::IntType::{Int, Long, UInt, ULong};
use cs_types::{
    DataModel, IntType, Product, difference_type, in_range, multiply, offset_bound, product_bound,
    promote, quotient, size_type, start_extent, usual, wrap,
};
use std::process::Abort;

// Data models and types, each with its least and its greatest number.
const ENDS: &str = "
Lp64 Char -128 127
Lp64 SChar -128 127
Lp64 UChar 0 255
Lp64 Short -32768 32767
Lp64 UShort 0 65535
Lp64 Int -2147483648 2147483647
Lp64 UInt 0 4294967295
Lp64 Long -9223372036854775808 9223372036854775807
Lp64 ULong 0 18446744073709551615
Lp64 LLong -9223372036854775808 9223372036854775807
Lp64 ULLong 0 18446744073709551615
Ilp32 Char -128 127
Ilp32 SChar -128 127
Ilp32 UChar 0 255
Ilp32 Short -32768 32767
Ilp32 UShort 0 65535
Ilp32 Int -2147483648 2147483647
Ilp32 UInt 0 4294967295
Ilp32 Long -2147483648 2147483647
Ilp32 ULong 0 4294967295
Ilp32 LLong -9223372036854775808 9223372036854775807
Ilp32 ULLong 0 18446744073709551615
";

// Tests that a number wraps to another, with this quotient.
fn assert_wraps(
    rt: &impl Abort,
    model: DataModel,
    ty: IntType,
    number: i128,
    wrapped: i128,
    turns: i128,
) {
    assert!(rt; number.unsigned_abs() <= 1 << 126);
    assert_eq!(rt;
        wrap(model, ty, number),
        wrapped,
        "{model:?} {ty:?} {number}"
    );
    assert_eq!(rt;
        quotient(model, ty, number),
        turns,
        "{model:?} {ty:?} {number}"
    );
}

// Tests a row of `ENDS`: the ends are numbers of the type, and the numbers next to them aren't, and wrap.
fn assert_ends(rt: &impl Abort, row: &str) {
    let mut words = row.split_ascii_whitespace();
    let model = model(rt, &mut words);
    let ty = integer_type(rt, &mut words);
    let least = number(rt, &mut words);
    let greatest = number(rt, &mut words);
    assert!(rt; -(1 << 64) <= least && greatest <= 1 << 64 && least <= greatest);
    let (below, above) = (least - 1, greatest + 1);
    assert!(rt;
        in_range(model, ty, least) && in_range(model, ty, greatest),
        "{row}"
    );
    assert!(rt;
        !in_range(model, ty, below) && !in_range(model, ty, above),
        "{row}"
    );
    assert_wraps(rt, model, ty, below, greatest, -1);
    assert_wraps(rt, model, ty, least, least, 0);
    assert_wraps(rt, model, ty, greatest, greatest, 0);
    assert_wraps(rt, model, ty, above, least, 1);
}

#[test]
fn wraps_past_the_ends_of_every_type(rt: HostRuntime) {
    for row in ENDS.trim().lines() {
        assert_ends(&rt, row);
    }
}

// Two factors with their product and its quotient if that is near: the extremes of each signed type with each other, the greatest of
// each unsigned one with itself, as gcc converts the products of `__int128`; then others.
const PRODUCTS: &str = "
Lp64 Char -128 -128 0 none
Lp64 Char -128 127 -128 none
Lp64 Char 127 127 1 none
Lp64 SChar -128 -128 0 none
Lp64 SChar -128 127 -128 none
Lp64 SChar 127 127 1 none
Lp64 UChar 255 255 1 none
Lp64 Short -32768 -32768 0 none
Lp64 Short -32768 32767 -32768 none
Lp64 Short 32767 32767 1 none
Lp64 UShort 65535 65535 1 none
Lp64 Int -2147483648 -2147483648 0 none
Lp64 Int -2147483648 2147483647 -2147483648 none
Lp64 Int 2147483647 2147483647 1 none
Lp64 UInt 4294967295 4294967295 1 none
Lp64 Long -9223372036854775808 -9223372036854775808 0 none
Lp64 Long -9223372036854775808 9223372036854775807 -9223372036854775808 none
Lp64 Long 9223372036854775807 9223372036854775807 1 none
Lp64 ULong 18446744073709551615 18446744073709551615 1 none
Lp64 LLong -9223372036854775808 -9223372036854775808 0 none
Lp64 LLong -9223372036854775808 9223372036854775807 -9223372036854775808 none
Lp64 LLong 9223372036854775807 9223372036854775807 1 none
Lp64 ULLong 18446744073709551615 18446744073709551615 1 none
Ilp32 Char -128 -128 0 none
Ilp32 Char -128 127 -128 none
Ilp32 Char 127 127 1 none
Ilp32 SChar -128 -128 0 none
Ilp32 SChar -128 127 -128 none
Ilp32 SChar 127 127 1 none
Ilp32 UChar 255 255 1 none
Ilp32 Short -32768 -32768 0 none
Ilp32 Short -32768 32767 -32768 none
Ilp32 Short 32767 32767 1 none
Ilp32 UShort 65535 65535 1 none
Ilp32 Int -2147483648 -2147483648 0 none
Ilp32 Int -2147483648 2147483647 -2147483648 none
Ilp32 Int 2147483647 2147483647 1 none
Ilp32 UInt 4294967295 4294967295 1 none
Ilp32 Long -2147483648 -2147483648 0 none
Ilp32 Long -2147483648 2147483647 -2147483648 none
Ilp32 Long 2147483647 2147483647 1 none
Ilp32 ULong 4294967295 4294967295 1 none
Ilp32 LLong -9223372036854775808 -9223372036854775808 0 none
Ilp32 LLong -9223372036854775808 9223372036854775807 -9223372036854775808 none
Ilp32 LLong 9223372036854775807 9223372036854775807 1 none
Ilp32 ULLong 18446744073709551615 18446744073709551615 1 none
Lp64 Char -128 -1 -128 1
Lp64 Int -2147483648 -1 -2147483648 1
Lp64 Int 65536 32768 -2147483648 1
Lp64 UInt 4294967295 -1 1 -1
Lp64 Long -9223372036854775808 -1 -9223372036854775808 1
Lp64 Long 9223372036854775807 2 -2 1
Lp64 ULong 18446744073709551615 1 18446744073709551615 0
Lp64 ULong 9223372036854775808 2 0 1
Lp64 ULLong -9223372036854775808 18446744073709551615 9223372036854775808 none
Ilp32 Long 2147483648 1 -2147483648 1
Ilp32 ULong 18446744073709551615 18446744073709551615 1 none
Ilp32 LLong -9223372036854775808 18446744073709551615 -9223372036854775808 none
";

fn assert_product(rt: &impl Abort, row: &str) {
    let mut words = row.split_ascii_whitespace();
    let model = model(rt, &mut words);
    let ty = integer_type(rt, &mut words);
    let left = number(rt, &mut words);
    let right = number(rt, &mut words);
    assert!(rt; -(1 << 63) <= left && left < 1 << 64 && -(1 << 63) <= right && right < 1 << 64);
    let product = multiply(model, ty, left, right);
    let number = number(rt, &mut words);
    let quotient = number_if_any(&mut words);
    assert_eq!(rt; product, Product { number, quotient }, "{row}");
}

#[test]
fn wraps_products_of_extremes(rt: HostRuntime) {
    for row in PRODUCTS.trim().lines() {
        assert_product(&rt, row);
    }
}

// Types with those that gcc's `_Generic` finds for `+a`, under -m64 and -m32 alike.
const PROMOTED: &str = "
Char Int
SChar Int
UChar Int
Short Int
UShort Int
Int Int
UInt UInt
Long Long
ULong ULong
LLong LLong
ULLong ULLong
";

// Pairs of types with those that it finds for `a + b` under -m64 and under -m32.
const COMMON: &str = "
Char UShort Int Int
UChar UInt UInt UInt
Int UInt UInt UInt
Int Long Long Long
Int ULong ULong ULong
Int LLong LLong LLong
Int ULLong ULLong ULLong
UInt Long Long ULong
UInt ULong ULong ULong
UInt LLong LLong LLong
UInt ULLong ULLong ULLong
Long ULong ULong ULong
Long LLong LLong LLong
Long ULLong ULLong ULLong
ULong LLong ULLong LLong
ULong ULLong ULLong ULLong
LLong ULLong ULLong ULLong
";

fn assert_promoted(rt: &impl Abort, row: &str) {
    let mut words = row.split_ascii_whitespace();
    let ty = integer_type(rt, &mut words);
    let promoted = integer_type(rt, &mut words);
    assert_eq!(rt; promote(Lp64, ty), promoted, "{row}");
    assert_eq!(rt; promote(Ilp32, ty), promoted, "{row}");
}

fn assert_common(rt: &impl Abort, row: &str) {
    let mut words = row.split_ascii_whitespace();
    let left = integer_type(rt, &mut words);
    let right = integer_type(rt, &mut words);
    let common = integer_type(rt, &mut words);
    let common_in_ilp32 = integer_type(rt, &mut words);
    assert_eq!(rt; usual(Lp64, left, right), common, "{row}");
    assert_eq!(rt; usual(Lp64, right, left), common, "{row}");
    assert_eq!(rt; usual(Ilp32, left, right), common_in_ilp32, "{row}");
    assert_eq!(rt; usual(Ilp32, right, left), common_in_ilp32, "{row}");
}

#[test]
fn converts_operands_as_gcc_does(rt: HostRuntime) {
    for row in PROMOTED.trim().lines() {
        assert_promoted(&rt, row);
    }
    for row in COMMON.trim().lines() {
        assert_common(&rt, row);
    }
}

#[test]
fn knows_the_data_models(rt: HostRuntime) {
    assert!(rt; size_type(Lp64) == ULong && difference_type(Lp64) == Long);
    assert!(rt; size_type(Ilp32) == UInt && difference_type(Ilp32) == Int);
    assert_eq!(rt; offset_bound(Lp64), 1_099_511_627_776);
    assert_eq!(rt; product_bound(Lp64), 18_446_744_073_709_551_615);
    assert_eq!(rt; offset_bound(Ilp32), 536_870_912);
    assert_eq!(rt; product_bound(Ilp32), 4_294_967_295);
}

// Sizes of elements, each with the extent of a block of them under both models.
const EXTENTS: &str = "
0 0 0
1 1048576 1048576
256 268435456 268435456
257 269484032 268435215
1048576 1099511627776 268435456
";

fn assert_extents(rt: &impl Abort, row: &str) {
    let mut words = row.split_ascii_whitespace();
    let size = u64::try_from(number(rt, &mut words)).unwrap_or(u64::MAX);
    assert!(rt; size <= 1 << 20);
    let extent = number(rt, &mut words);
    let extent_in_ilp32 = number(rt, &mut words);
    assert_eq!(rt; i128::from(start_extent(Lp64, size)), extent, "{row}");
    assert_eq!(rt;
        i128::from(start_extent(Ilp32, size)),
        extent_in_ilp32,
        "{row}"
    );
}

#[test]
fn extents_of_blocks_have_a_limit(rt: HostRuntime) {
    for row in EXTENTS.trim().lines() {
        assert_extents(&rt, row);
    }
}
