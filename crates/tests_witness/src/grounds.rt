//! Grounds of each kind of operation, with numbers at the ends of the types.
use cs_ast::typed::operator::{BinOp, CmpOp};
use cs_events::Operation;
use cs_findings::Others;
use cs_judge::{fits_right, has_ground, may_be_used};
use cs_types::{DataModel, IntType};
use std::process::Abort;
use std::test::Fail;

const LEAST: i128 = -0x8000_0000;

const GREATEST: i128 = 0x7fff_ffff;

const WORD: i128 = 0xffff_ffff_ffff_ffff;

// Tests whether two other runs are a ground, and whether the first of them is one by itself.
fn assert_grounds(
    rt: &impl Abort,
    operation: Operation,
    others: [(i128, i128); 2],
    both: bool,
    first: bool,
) {
    let two = has_ground(
        DataModel::Lp64,
        &operation,
        Others::Two(others[0], others[1]),
    );
    let one = has_ground(DataModel::Lp64, &operation, Others::One(others[0]));
    assert_eq!(rt; two, both);
    assert_eq!(rt; one, first);
}

#[test]
fn sums_need_three_runs_off_a_line(rt: HostRuntime) -> Result<(), Fail> {
    let sum = Operation::Binary(BinOp::Add, IntType::ULong, 0, 0);
    assert_grounds(&rt, sum, [(0, WORD), (WORD, 0)], true, false);
    assert_grounds(&rt, sum, [(1, 1), (WORD, WORD)], false, false);
    let far = Operation::Binary(BinOp::Sub, IntType::Char, 1000, 1);
    assert_grounds(&rt, far, [(1, 1), (2, 2)], true, true);
    let moved = Operation::Sum(0, 0, 4);
    assert_grounds(&rt, moved, [(8, 1), (16, 3)], true, false);
    assert_grounds(&rt, moved, [(8, 1), (16, 2)], false, false);
    Ok(())
}

#[test]
fn products_need_both_factors_or_a_far_quotient(rt: HostRuntime) -> Result<(), Fail> {
    let product = Operation::Binary(BinOp::Mul, IntType::Int, 1, 0);
    assert_grounds(&rt, product, [(LEAST, LEAST), (1, 1)], true, true);
    assert_grounds(&rt, product, [(5, 0), (6, 0)], false, false);
    let far = Operation::Binary(BinOp::Mul, IntType::Int, GREATEST, 4);
    assert_grounds(&rt, far, [(5, 4), (6, 4)], true, true);
    let shift = Operation::Binary(BinOp::Shl, IntType::Int, GREATEST, 8);
    assert_grounds(&rt, shift, [(5, 8), (6, 8)], true, true);
    let near = Operation::Binary(BinOp::Shl, IntType::Int, 1, 8);
    assert_grounds(&rt, near, [(5, 8), (6, 9)], true, false);
    Ok(())
}

#[test]
fn comparisons_and_order_tests_are_of_two_symbols(rt: HostRuntime) -> Result<(), Fail> {
    let less = Operation::Compare(CmpOp::Less, 0, 0);
    assert_grounds(&rt, less, [(LEAST, LEAST), (LEAST, GREATEST)], true, false);
    assert_grounds(
        &rt,
        less,
        [(LEAST, LEAST), (GREATEST, GREATEST)],
        false,
        false,
    );
    let equal = Operation::Compare(CmpOp::Equal, 1, 2);
    assert_grounds(&rt, equal, [(1, 0), (5, 2)], true, false);
    assert_grounds(&rt, equal, [(1, 3), (0, 4)], false, false);
    let order = Operation::Order(-4, 3);
    assert_grounds(&rt, order, [(-4, 8), (-8, 3)], true, false);
    assert_grounds(&rt, order, [(-9, 8), (-8, 3)], false, false);
    Ok(())
}

#[test]
fn calloc_of_two_free_counts_has_a_ground(rt: HostRuntime) -> Result<(), Fail> {
    assert_grounds(
        &rt,
        Operation::Product(0, 0),
        [(WORD, WORD), (1, 1)],
        true,
        true,
    );
    assert_grounds(
        &rt,
        Operation::Product(1, 1),
        [(2, 2), (3, 3)],
        false,
        false,
    );
    Ok(())
}

#[test]
fn other_operations(rt: HostRuntime) -> Result<(), Fail> {
    let convert = Operation::Convert(IntType::Char, 1000);
    assert_grounds(&rt, convert, [(5, 0), (6, 0)], true, true);
    let near = Operation::Convert(IntType::Char, 200);
    assert_grounds(&rt, near, [(5, 0), (6, 0)], false, false);
    let between = Operation::Difference(8, 4, 4);
    assert_grounds(&rt, between, [(8, 4), (8, 0)], true, false);
    let rest = Operation::Binary(BinOp::Rem, IntType::Int, 25, 10);
    assert_grounds(&rt, rest, [(25, 10), (26, 10)], true, false);
    Ok(())
}

#[test]
fn a_remainder_is_smaller_than_its_divisor(rt: HostRuntime) -> Result<(), Fail> {
    let rest = Operation::Binary(BinOp::Rem, IntType::Int, 25, 10);
    assert!(rt; fits_right(&rest, -9));
    assert!(rt; !fits_right(&rest, 10));
    assert!(rt; may_be_used(DataModel::Lp64, &rest, 10));
    assert!(rt; !may_be_used(DataModel::Lp64, &rest, GREATEST + 1));
    Ok(())
}
