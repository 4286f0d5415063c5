//! Comparisons, order tests, tests and cases.
use crate::text::{Row, assert_rows, constraints, number, text, x, y};
use cs_ast::typed::operator::CmpOp;
use cs_cfg::SwitchCase;
use cs_eval::{Question, Tested, select};
use std::test::Fail;

#[test]
fn comparisons_are_followed_over_one_symbol_or_by_ends(rt: HostRuntime) -> Result<(), Fail> {
    let rows = [
        Row {
            question: Question::Compare(CmpOp::Less, x(1, 0), number(5)),
            x: (0, 9),
            y: (0, 1),
            pieces: "Truth(true) x 0..4 y 0..1 gives 1\nTruth(false) x 5..9 y 0..1 gives 0\n",
        },
        Row {
            question: Question::Compare(CmpOp::Differs, x(1, 0), number(5)),
            x: (0, 9),
            y: (0, 1),
            pieces: "Truth(true) x 0..4 6..9 y 0..1 gives 1\nTruth(false) x 5..5 y 0..1 gives 0\n",
        },
        Row {
            question: Question::Compare(CmpOp::Equal, x(2, 0), number(5)),
            x: (0, 9),
            y: (0, 1),
            pieces: "Truth(false) x 0..9 y 0..1 gives 0\n",
        },
        Row {
            question: Question::Compare(CmpOp::AtMost, x(1, 0), x(1, 0)),
            x: (0, 9),
            y: (0, 1),
            pieces: "Truth(true) x 0..9 y 0..1 gives 1\n",
        },
        Row {
            question: Question::Compare(CmpOp::AtMost, x(1, 0), y(1, 0)),
            x: (0, 9),
            y: (9, 12),
            pieces: "Truth(true) x 0..9 y 9..12 gives 1\n",
        },
        Row {
            question: Question::Compare(CmpOp::More, x(1, 0), y(-1, 0)),
            x: (0, 9),
            y: (-12, -9),
            pieces: "Truth(false) x 0..9 y -12..-9 gives 0\n",
        },
        Row {
            question: Question::Compare(CmpOp::Less, x(1, 0), y(1, 0)),
            x: (0, 9),
            y: (9, 12),
            pieces: "Truth(true) x 0..9 y 9..12 guess 1..1 gives 1*guess+0 of 1*x+0 0..9 and 1*y+0 9..12 fact 1*x+0 + -1*y+0\nTruth(false) x 0..9 y 9..12 guess 0..0 gives 1*guess+0 of 1*x+0 0..9 and 1*y+0 9..12 fact 1*x+0 + -1*y+0\n",
        },
        Row {
            question: Question::Compare(CmpOp::Equal, x(1, 0), y(1, 0)),
            x: (0, 9),
            y: (10, 12),
            pieces: "Truth(false) x 0..9 y 10..12 gives 0\n",
        },
        Row {
            question: Question::Compare(CmpOp::Differs, x(1, 0), y(1, 0)),
            x: (0, 9),
            y: (9, 12),
            pieces: "Truth(true) x 0..9 y 9..12 guess 1..1 gives 1*guess+0 of 1*x+0 0..9 and 1*y+0 9..12 fact 1*x+0 + -1*y+0\nTruth(false) x 0..9 y 9..12 guess 0..0 gives 1*guess+0 of 1*x+0 0..9 and 1*y+0 9..12 fact 1*x+0 + -1*y+0\n",
        },
        Row {
            question: Question::Compare(CmpOp::Equal, number(3), number(3)),
            x: (0, 9),
            y: (0, 1),
            pieces: "Truth(true) x 0..9 y 0..1 gives 1\n",
        },
    ];
    assert_rows(&rt, rt.alloc(), &rows)?;
    Ok(())
}

#[test]
fn order_tests_are_followed_over_one_symbol_or_by_ends(rt: HostRuntime) -> Result<(), Fail> {
    let rows = [
        Row {
            question: Question::Order(x(1, 0), number(-4)),
            x: (0, 9),
            y: (0, 1),
            pieces: "Truth(true) x 4..9 y 0..1 gives 1\nTruth(false) x 0..3 y 0..1 gives 0\n",
        },
        Row {
            question: Question::Order(x(-1, -4), y(1, 0)),
            x: (0, 9),
            y: (13, 99),
            pieces: "Truth(true) x 0..9 y 13..99 gives 1\n",
        },
        Row {
            question: Question::Order(x(-1, -4), y(1, 0)),
            x: (0, 9),
            y: (12, 99),
            pieces: "Truth(true) x 0..9 y 12..99 guess 1..1 gives 1*guess+0 of -1*x+-4 0..9 and 1*y+0 12..99 fact -1*x+-4 + 1*y+0\nTruth(false) x 0..9 y 12..99 guess 0..0 gives 1*guess+0 of -1*x+-4 0..9 and 1*y+0 12..99 fact -1*x+-4 + 1*y+0\n",
        },
        Row {
            question: Question::Product(x(1, 0), number(4)),
            x: (0, 18446744073709551615),
            y: (0, 1),
            pieces: "Truth(true) x 0..4611686018427387903 y 0..1 gives 1\nTruth(false) x 4611686018427387904..18446744073709551615 y 0..1 gives 0\n",
        },
        Row {
            question: Question::Product(number(0), x(1, 0)),
            x: (0, 18446744073709551615),
            y: (0, 1),
            pieces: "Truth(true) x 0..18446744073709551615 y 0..1 gives 1\n",
        },
        Row {
            question: Question::Product(x(1, 0), x(1, 0)),
            x: (0, 4294967295),
            y: (0, 1),
            pieces: "Truth(true) x 0..4294967295 y 0..1 gives 1\n",
        },
        Row {
            question: Question::Product(x(1, 0), y(1, 0)),
            x: (4294967296, 4294967297),
            y: (4294967296, 18446744073709551615),
            pieces: "Truth(false) x 4294967296..4294967297 y 4294967296..18446744073709551615 gives 0\n",
        },
        Row {
            question: Question::Product(x(1, 0), y(1, 0)),
            x: (0, 4294967296),
            y: (1, 4294967296),
            pieces: "Truth(true) x 0..4294967296 y 1..4294967296 guess 1..1 gives 1*guess+0 of 1*x+0 0..4294967296 and 1*y+0 1..4294967296\nTruth(false) x 0..4294967296 y 1..4294967296 guess 0..0 gives 1*guess+0 of 1*x+0 0..4294967296 and 1*y+0 1..4294967296\n",
        },
    ];
    assert_rows(&rt, rt.alloc(), &rows)?;
    Ok(())
}

#[test]
fn tests_show_whether_a_number_is_not_0(rt: HostRuntime) -> Result<(), Fail> {
    let rows = [
        Row {
            question: Question::Test(Tested::Branch, x(1, 0)),
            x: (-1, 9),
            y: (0, 1),
            pieces: "Branch(true) x -1..-1 1..9 y 0..1 gives 0\nBranch(false) x 0..0 y 0..1 gives 0\n",
        },
        Row {
            question: Question::Test(Tested::Not, x(1, 0)),
            x: (0, 9),
            y: (0, 1),
            pieces: "Truth(true) x 0..0 y 0..1 gives 0\nTruth(false) x 1..9 y 0..1 gives 0\n",
        },
        Row {
            question: Question::Test(Tested::Look, number(1)),
            x: (0, 9),
            y: (0, 1),
            pieces: "Look(true) x 0..9 y 0..1 gives 0\n",
        },
        Row {
            question: Question::Test(Tested::Alloc, x(1, 0)),
            x: (0, 1),
            y: (0, 1),
            pieces: "Alloc(true) x 1..1 y 0..1 gives 0\nAlloc(false) x 0..0 y 0..1 gives 0\n",
        },
        Row {
            question: Question::Test(Tested::Truth, x(1, 0)),
            x: (1, 9),
            y: (0, 1),
            pieces: "Truth(true) x 1..9 y 0..1 gives 0\n",
        },
        Row {
            question: Question::Callee(7),
            x: (0, 9),
            y: (0, 1),
            pieces: "Callee(7) x 0..9 y 0..1 gives 0\n",
        },
    ];
    assert_rows(&rt, rt.alloc(), &rows)?;
    Ok(())
}

#[test]
fn each_case_that_is_taken_has_a_piece(rt: HostRuntime) -> Result<(), Fail> {
    let alloc = rt.alloc();
    let ranges = constraints(alloc, (0, 9), (0, 1))?;
    let mut cases = Vec::new(alloc);
    for value in [3, 20, 3, 5] {
        cases.push(SwitchCase { value, block: 0 })?;
    }
    let pieces = select(alloc, &ranges, x(1, 0), &cases)?;
    assert_eq!(rt;
        text(alloc, &pieces)?.as_str(),
        "Case(0) x 3..3 y 0..1 gives 0\nCase(3) x 5..5 y 0..1 gives 0\nCase(4) x 0..2 4..4 6..9 y 0..1 gives 0\n"
    );
    let none = select(alloc, &ranges, number(20), &cases)?;
    assert_eq!(rt;
        text(alloc, &none)?.as_str(),
        "Case(1) x 0..9 y 0..1 gives 0\n"
    );
    Ok(())
}
