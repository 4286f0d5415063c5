//! Sums and differences of offsets.
use crate::text::{Row, assert_rows, number, x, y};
use cs_eval::Question;
use std::test::Fail;

#[test]
fn offsets_are_followed_over_one_symbol(rt: HostRuntime) -> Result<(), Fail> {
    let rows = [
        Row {
            question: Question::Sum(number(8), x(1, 0), 4),
            x: (0, 9),
            y: (0, 1),
            pieces: "Wrap(Same) x 0..9 y 0..1 gives 4*x+8\n",
        },
        Row {
            question: Question::Sum(x(4, 0), x(-1, 0), 4),
            x: (0, 9),
            y: (0, 1),
            pieces: "Wrap(Same) x 0..9 y 0..1 gives 0\n",
        },
        Row {
            question: Question::Sum(x(1, 0), y(1, 0), 1),
            x: (0, 9),
            y: (0, 1),
            pieces: "Wrap(Guessed) x 0..9 y 0..1 guess -1099511627776..1099511627776 gives 1*guess+0 of 1*x+0 0..9 and 1*y+0 0..1\n",
        },
        Row {
            question: Question::Difference(x(8, 16), number(8), 8),
            x: (0, 9),
            y: (0, 1),
            pieces: "Wrap(Same) x 0..9 y 0..1 gives 1*x+1\n",
        },
        Row {
            question: Question::Difference(x(8, 12), number(8), 8),
            x: (0, 9),
            y: (0, 1),
            pieces: "Wrap(Guessed) x 0..9 y 0..1 guess -9223372036854775808..9223372036854775807 gives 1*guess+0 of 8*x+12 0..9 and 8 0..0\n",
        },
        Row {
            question: Question::Difference(x(1, 3), x(1, 0), 2),
            x: (0, 9),
            y: (0, 1),
            pieces: "Wrap(Guessed) x 0..9 y 0..1 guess -9223372036854775808..9223372036854775807 gives 1*guess+0 of 1*x+3 0..9 and 1*x+0 0..9\n",
        },
        Row {
            question: Question::Difference(number(1), number(8), 4),
            x: (0, 9),
            y: (0, 1),
            pieces: "Wrap(Same) x 0..9 y 0..1 gives -1\n",
        },
        Row {
            question: Question::Difference(x(1, 0), y(1, 0), 0),
            x: (0, 9),
            y: (0, 1),
            pieces: "Wrap(Same) x 0..9 y 0..1 gives 0\n",
        },
        Row {
            question: Question::Difference(x(1, 0), y(1, 0), 1),
            x: (0, 9),
            y: (0, 1),
            pieces: "Wrap(Guessed) x 0..9 y 0..1 guess -9223372036854775808..9223372036854775807 gives 1*guess+0 of 1*x+0 0..9 and 1*y+0 0..1\n",
        },
    ];
    assert_rows(&rt, rt.alloc(), &rows)?;
    Ok(())
}
