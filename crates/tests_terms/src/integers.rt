//! Operators and conversions of integers.
use crate::text::{Row, assert_rows, number, x, y};
use cs_ast::typed::operator::{BinOp, UnOp};
use cs_eval::Question;
use cs_types::IntType;
use std::test::Fail;

const INT: (i128, i128) = (-2147483648, 2147483647);

#[test]
fn sums_are_followed_over_one_symbol(rt: HostRuntime) -> Result<(), Fail> {
    let rows = [
        Row {
            question: Question::Binary(BinOp::Add, IntType::Int, x(1, 0), number(1)),
            x: INT,
            y: (0, 1),
            pieces: "Wrap(Same) x -2147483648..2147483646 y 0..1 gives 1*x+1\nWrap(Past) x 2147483647..2147483647 y 0..1 gives -2147483648\n",
        },
        Row {
            question: Question::Binary(BinOp::Add, IntType::Int, x(1, 0), number(1)),
            x: (0, 9),
            y: (0, 1),
            pieces: "Wrap(Same) x 0..9 y 0..1 gives 1*x+1\n",
        },
        Row {
            question: Question::Binary(BinOp::Sub, IntType::Int, x(1, 0), x(1, 0)),
            x: (0, 9),
            y: (0, 1),
            pieces: "Wrap(Same) x 0..9 y 0..1 gives 0\n",
        },
        Row {
            question: Question::Binary(BinOp::Sub, IntType::Int, x(1, 0), y(1, 0)),
            x: (0, 9),
            y: (1, 1),
            pieces: "Wrap(Same) x 0..9 y 1..1 gives 1*x+-1\n",
        },
        Row {
            question: Question::Binary(BinOp::Sub, IntType::Int, x(1, 0), y(1, 0)),
            x: (0, 9),
            y: (0, 1),
            pieces: "Wrap(Guessed) x 0..9 y 0..1 guess -2147483648..2147483647 gives 1*guess+0 of 1*x+0 0..9 and 1*y+0 0..1\n",
        },
        Row {
            question: Question::Binary(BinOp::Add, IntType::Int, number(2147483647), number(1)),
            x: (0, 9),
            y: (0, 1),
            pieces: "Wrap(Past) x 0..9 y 0..1 gives -2147483648\n",
        },
        Row {
            question: Question::Binary(BinOp::Sub, IntType::UInt, x(1, 0), number(1)),
            x: (0, 4294967295),
            y: (0, 1),
            pieces: "Wrap(Under) x 0..0 y 0..1 gives 4294967295\nWrap(Same) x 1..4294967295 y 0..1 gives 1*x+-1\n",
        },
    ];
    assert_rows(&rt, rt.alloc(), &rows)?;
    Ok(())
}

#[test]
fn products_are_followed_with_a_constant(rt: HostRuntime) -> Result<(), Fail> {
    let rows = [
        Row {
            question: Question::Binary(BinOp::Mul, IntType::UChar, number(100), x(1, 0)),
            x: (0, 9),
            y: (0, 1),
            pieces: "Wrap(Same) x 0..2 y 0..1 gives 100*x+0\nWrap(Past) x 3..5 y 0..1 gives 100*x+-256\nWrap(Guessed) x 6..9 y 0..1 guess 0..255 gives 1*guess+0 of 100 0..0 and 1*x+0 0..9\n",
        },
        Row {
            question: Question::Binary(BinOp::Mul, IntType::Int, x(1, 0), x(1, 0)),
            x: (0, 9),
            y: (0, 1),
            pieces: "Wrap(Guessed) x 0..9 y 0..1 guess -2147483648..2147483647 gives 1*guess+0 of 1*x+0 0..9 and 1*x+0 0..9\n",
        },
        Row {
            question: Question::Binary(BinOp::Mul, IntType::Int, number(65536), number(65536)),
            x: (0, 9),
            y: (0, 1),
            pieces: "Wrap(Past) x 0..9 y 0..1 gives 0\n",
        },
        Row {
            question: Question::Binary(BinOp::Mul, IntType::Int, number(131072), number(65536)),
            x: (0, 9),
            y: (0, 1),
            pieces: "Wrap(Far) x 0..9 y 0..1 gives 0\n",
        },
        Row {
            question: Question::Binary(BinOp::Shl, IntType::Int, x(1, 0), number(30)),
            x: (-4, 4),
            y: (0, 1),
            pieces: "Wrap(Under) x -4..-3 y 0..1 gives 1073741824*x+4294967296\nWrap(Same) x -2..1 y 0..1 gives 1073741824*x+0\nWrap(Past) x 2..4 y 0..1 gives 1073741824*x+-4294967296\n",
        },
        Row {
            question: Question::Binary(BinOp::Shl, IntType::Int, number(1), x(1, 0)),
            x: (0, 31),
            y: (0, 1),
            pieces: "Wrap(Guessed) x 0..31 y 0..1 guess -2147483648..2147483647 gives 1*guess+0 of 1 0..0 and 1*x+0 0..31\n",
        },
    ];
    assert_rows(&rt, rt.alloc(), &rows)?;
    Ok(())
}

#[test]
fn remainders_and_masks_have_narrow_guesses(rt: HostRuntime) -> Result<(), Fail> {
    let rows = [
        Row {
            question: Question::Binary(BinOp::Rem, IntType::Int, x(1, 0), number(-8)),
            x: INT,
            y: (0, 1),
            pieces: "Wrap(Guessed) x -2147483648..2147483647 y 0..1 guess -7..7 gives 1*guess+0 of 1*x+0 -2147483648..2147483647 and -8 0..0\n",
        },
        Row {
            question: Question::Binary(BinOp::Rem, IntType::UInt, x(1, 0), number(1)),
            x: (0, 9),
            y: (0, 1),
            pieces: "Wrap(Guessed) x 0..9 y 0..1 guess 0..0 gives 1*guess+0 of 1*x+0 0..9 and 1 0..0\n",
        },
        Row {
            question: Question::Binary(BinOp::Rem, IntType::Int, number(7), x(1, 0)),
            x: (1, 9),
            y: (0, 1),
            pieces: "Wrap(Guessed) x 1..9 y 0..1 guess -2147483648..2147483647 gives 1*guess+0 of 7 0..0 and 1*x+0 1..9\n",
        },
        Row {
            question: Question::Binary(BinOp::And, IntType::Int, number(12), x(1, 0)),
            x: INT,
            y: (0, 1),
            pieces: "Wrap(Guessed) x -2147483648..2147483647 y 0..1 guess 0..12 gives 1*guess+0 of 12 0..0 and 1*x+0 -2147483648..2147483647\n",
        },
        Row {
            question: Question::Binary(BinOp::And, IntType::Int, x(1, 0), number(-2)),
            x: (0, 9),
            y: (0, 1),
            pieces: "Wrap(Guessed) x 0..9 y 0..1 guess -2147483648..2147483647 gives 1*guess+0 of 1*x+0 0..9 and -2 0..0\n",
        },
        Row {
            question: Question::Binary(BinOp::And, IntType::Int, number(-2), x(1, 0)),
            x: (5, 5),
            y: (0, 1),
            pieces: "Wrap(Same) x 5..5 y 0..1 gives 4\n",
        },
        Row {
            question: Question::Binary(BinOp::Div, IntType::Int, number(-2147483648), number(-1)),
            x: (0, 9),
            y: (0, 1),
            pieces: "Wrap(Past) x 0..9 y 0..1 gives -2147483648\n",
        },
        Row {
            question: Question::Binary(BinOp::Shr, IntType::Int, x(1, 0), number(1)),
            x: (0, 9),
            y: (0, 1),
            pieces: "Wrap(Guessed) x 0..9 y 0..1 guess -2147483648..2147483647 gives 1*guess+0 of 1*x+0 0..9 and 1 0..0\n",
        },
    ];
    assert_rows(&rt, rt.alloc(), &rows)?;
    Ok(())
}

#[test]
fn conversions_and_signs_are_followed(rt: HostRuntime) -> Result<(), Fail> {
    let rows = [
        Row {
            question: Question::Convert(IntType::SChar, x(1, 0)),
            x: (-129, 127),
            y: (0, 1),
            pieces: "Wrap(Under) x -129..-129 y 0..1 gives 127\nWrap(Same) x -128..127 y 0..1 gives 1*x+0\n",
        },
        Row {
            question: Question::Convert(IntType::UChar, x(1, 0)),
            x: (-300, 600),
            y: (0, 1),
            pieces: "Wrap(Under) x -256..-1 y 0..1 gives 1*x+256\nWrap(Same) x 0..255 y 0..1 gives 1*x+0\nWrap(Past) x 256..511 y 0..1 gives 1*x+-256\nWrap(Guessed) x -300..-257 512..600 y 0..1 guess 0..255 gives 1*guess+0 of 1*x+0 -300..600 and 0 0..0\n",
        },
        Row {
            question: Question::Convert(IntType::UChar, number(1000)),
            x: (0, 9),
            y: (0, 1),
            pieces: "Wrap(Far) x 0..9 y 0..1 gives 232\n",
        },
        Row {
            question: Question::Unary(UnOp::Negate, IntType::Int, x(1, 0)),
            x: INT,
            y: (0, 1),
            pieces: "Wrap(Same) x -2147483647..2147483647 y 0..1 gives -1*x+0\nWrap(Past) x -2147483648..-2147483648 y 0..1 gives -2147483648\n",
        },
        Row {
            question: Question::Unary(UnOp::Complement, IntType::UInt, x(1, 0)),
            x: (0, 9),
            y: (0, 1),
            pieces: "Wrap(Under) x 0..9 y 0..1 gives -1*x+4294967295\n",
        },
        Row {
            question: Question::Unary(UnOp::Complement, IntType::Int, x(1, 0)),
            x: (0, 9),
            y: (0, 1),
            pieces: "Wrap(Same) x 0..9 y 0..1 gives -1*x+-1\n",
        },
    ];
    assert_rows(&rt, rt.alloc(), &rows)?;
    Ok(())
}
