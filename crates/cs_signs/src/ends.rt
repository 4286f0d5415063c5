//! Whether the ends of an interval decide how its numbers compare with 0.
ghost use Rattle.std.specs.Prelude.{◌≡◌};
ghost use Rattle.cs_signs.specs.Signs as signs;
ghost use Rattle.cs_signs.specs.Signs.{IsSignBetween};

use crate::sets::opposite;
use cs_ast::typed::operator::CmpOp;
use cs_ranges::Interval;

/// Returns whether the comparison with 0 holds for all numbers between the ends, or for none of them; `None`
/// if the ends don't decide.
pub fn sign_between(op: CmpOp, ends: Interval) -> Option<bool>
    ensures { IsSignBetween op ends result }
{
    if holds_between(op, ends) {
        return Some(true);
    }
    if holds_between(opposite(op), ends) {
        return Some(false);
    }
    None
}

// Whether the ends show that the comparison with 0 holds for all numbers between them. For `==` they never do.
fn holds_between(op: CmpOp, ends: Interval) -> bool
    ensures { result ≡ signs.holds_between op ends }
{
    match op {
        CmpOp::Less => ends.high < 0,
        CmpOp::AtMost => ends.high <= 0,
        CmpOp::More => 0 < ends.low,
        CmpOp::AtLeast => 0 <= ends.low,
        CmpOp::Equal => false,
        CmpOp::Differs => 0 < ends.low || ends.high < 0,
    }
}
