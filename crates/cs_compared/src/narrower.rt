//! Numbers that may be guessed.
ghost use Rattle.std.specs.Prelude.{◌≡◌};
ghost use Rattle.cs_findings.specs.Narrower as narrower;

use cs_ast::typed::operator::BinOp;
use cs_events::{Operation, guess_range, lies_in};
use cs_types::DataModel;

/// Whether a run may use the number in place of the operation's own result.
pub fn may_be_used(model: DataModel, operation: &Operation, number: i128) -> bool
    ensures { result ≡ narrower.may_be_used model operation.now number }
{
    match guess_range(model, *operation) {
        None => false,
        Some(range) => lies_in(range, number),
    }
}

/// Whether a number could be the result with this left operand.
pub fn fits_left(operation: &Operation, number: i128) -> bool
    ensures { result ≡ narrower.fits_left operation.now number }
{
    match *operation {
        Operation::Binary(operator, _, left, _) => fits_left_of(operator, left, number),
        _ => true,
    }
}

/// Whether a number could be the result with this right operand.
pub fn fits_right(operation: &Operation, number: i128) -> bool
    ensures { result ≡ narrower.fits_right operation.now number }
{
    match *operation {
        Operation::Binary(operator, _, _, right) => fits_right_of(operator, right, number),
        _ => true,
    }
}

fn fits_left_of(operator: BinOp, left: i128, number: i128) -> bool
    ensures { result ≡ narrower.fits_left_of operator left number }
{
    match operator {
        BinOp::And => fits_mask(left, number),
        _ => true,
    }
}

fn fits_right_of(operator: BinOp, right: i128, number: i128) -> bool
    ensures { result ≡ narrower.fits_right_of operator right number }
{
    match operator {
        BinOp::And => fits_mask(right, number),
        BinOp::Rem => number.unsigned_abs() < right.unsigned_abs(),
        _ => true,
    }
}

// Whether a mask that isn't negative allows the number as a result: it is between 0 and the mask.
fn fits_mask(mask: i128, number: i128) -> bool
    ensures { result ≡ narrower.fits_mask mask number }
{
    mask < 0 || (0 <= number && number <= mask)
}
