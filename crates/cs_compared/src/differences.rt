//! Differences between the operands of two or three runs.
ghost use Rattle.std.specs.Prelude.{◌≡◌, ◌≤◌, ◌^◌, ℤ, pos, ◌+ℤ◌, not, int_le, unsigned_abs};
ghost use Rattle.std.specs.Ordering.{int_eq};
ghost use Rattle.cs_events.specs.Operations as operations;
ghost use Rattle.cs_findings.specs.Grounds as grounds;
ghost use Rattle.cs_compared.specs.Wide.{IsSmall, AreSmall};

use crate::lines::off_line;
use cs_ast::typed::operator::CmpOp;
use cs_findings::Others;

/// Whether the left operand differs between two of the runs.
pub fn left_differs(mine: (i128, i128), others: Others<(i128, i128)>) -> bool
    ensures { result ≡ grounds.left_differs mine others }
{
    match others {
        Others::One(first) => differ(first.0, mine.0),
        Others::Two(first, second) => differ(first.0, mine.0) || differ(second.0, mine.0),
    }
}

/// Whether the right operand differs between two of the runs.
pub fn right_differs(mine: (i128, i128), others: Others<(i128, i128)>) -> bool
    ensures { result ≡ grounds.right_differs mine others }
{
    match others {
        Others::One(first) => differ(first.1, mine.1),
        Others::Two(first, second) => differ(first.1, mine.1) || differ(second.1, mine.1),
    }
}

/// Whether each operand differs between two of the runs, and their pairs don't lie on one line.
pub fn are_spread(mine: (i128, i128), others: Others<(i128, i128)>) -> bool
    requires mine { IsSmall mine }
    requires others { AreSmall others }
    ensures { result ≡ grounds.are_spread mine others }
{
    left_differs(mine, others) && right_differs(mine, others) && are_off_line(mine, others)
}

fn are_off_line(mine: (i128, i128), others: Others<(i128, i128)>) -> bool
    requires mine { IsSmall mine }
    requires others { AreSmall others }
    ensures { result ≡ grounds.off_line mine others }
{
    match others {
        Others::One(_) => false,
        Others::Two(first, second) => off_line(mine, first, second),
    }
}

/// Whether the result of a comparison differs between two of the runs.
pub fn comparisons_differ(operator: CmpOp, mine: (i128, i128), others: Others<(i128, i128)>) -> bool
    ensures { result ≡ grounds.truth_differs
        (λ pair. operations.compares operator pair.0 pair.1) mine others }
{
    let here = compares(operator, mine.0, mine.1);
    match others {
        Others::One(first) => disagrees(compares(operator, first.0, first.1), here),
        Others::Two(first, second) => {
            disagrees(compares(operator, first.0, first.1), here)
                || disagrees(compares(operator, second.0, second.1), here)
        }
    }
}

/// Whether the result of an order test differs between two of the runs.
pub fn tests_differ(mine: (i128, i128), others: Others<(i128, i128)>) -> bool
    requires mine { IsSmall mine }
    requires others { AreSmall others }
    ensures { result ≡ grounds.truth_differs
        (λ pair. int_le (pos 0) (pair.0 +ℤ pair.1)) mine others }
{
    let here = is_met(mine);
    match others {
        Others::One(first) => disagrees(is_met(first), here),
        Others::Two(first, second) => {
            disagrees(is_met(first), here) || disagrees(is_met(second), here)
        }
    }
}

// Whether an order test holds.
fn is_met(pair: (i128, i128)) -> bool
    requires { IsSmall pair }
    ensures { result ≡ int_le (pos 0) (pair.0 +ℤ pair.1) }
{
    0 <= pair.0 + pair.1
}

fn compares(operator: CmpOp, left: i128, right: i128) -> bool
    ensures { result ≡ operations.compares operator left right }
{
    match operator {
        CmpOp::Less => left < right,
        CmpOp::AtMost => left <= right,
        CmpOp::More => right < left,
        CmpOp::AtLeast => right <= left,
        CmpOp::Equal => left == right,
        CmpOp::Differs => left != right,
    }
}

fn differ(one: i128, other: i128) -> bool
    ensures { result ≡ not (int_eq one other) }
{
    one != other
}

fn disagrees(one: bool, other: bool) -> bool
    ensures { result ≡ grounds.disagrees one other }
{
    one != other
}
