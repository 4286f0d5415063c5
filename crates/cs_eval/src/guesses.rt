//! Operations that are guessed, and the numbers that may be guessed for them.
ghost use Rattle.std.specs.Prelude.{◌≡◌, None, IfOk, IfSome};
ghost use Rattle.cs_ranges.specs.Interval.{IsProper};
ghost use Rattle.cs_eval.specs.Guesses.{HasNumbers, AreNumbers, AreOfBinary, AreOfType, AreRemainders};
ghost use Rattle.cs_eval.specs.Recorded.{AreEndsOf, IsRecordOf};

use crate::checked::check_interval;
use crate::operands::number;
use crate::piece::Guessed;
use cs_ast::typed::operator::BinOp;
use cs_constraints::Constraints;
use cs_events::offsets;
use cs_ranges::Interval;
use cs_state::{Asks, Ends, Fact};
use cs_terms::{Lin, greatest_of_type, least_of_type};
use cs_types::{DataModel, IntType, difference_type, is_signed};
use std::alloc::AllocError;

/// An operation that may be guessed, with its operands.
#[derive(Clone, Copy)]
pub(crate) struct Inexact {
    pub asks: Asks,
    pub left: Lin,
    pub right: Lin,
    pub fact: Option<Fact>,
}

impl Inexact {
    /// Makes an operation without a fact.
    pub fn new(asks: Asks, left: Lin, right: Lin) -> Inexact
        ensures { result ≡ record { asks = asks; left = left; right = right; fact = None } }
    {
        Inexact {
            asks,
            left,
            right,
            fact: None,
        }
    }

    /// Returns what is recorded about the guess of this operation.
    pub fn guessed(&self, constraints: &Constraints) -> Guessed
        ensures { IsRecordOf constraints.now self.now result }
    {
        Guessed {
            asks: self.asks,
            left: self.left,
            right: self.right,
            ends: Ends {
                left: ends_of(constraints, self.left),
                right: ends_of(constraints, self.right),
            },
            fact: self.fact,
        }
    }

    /// Returns the numbers that may be guessed.
    pub fn numbers(&self, model: DataModel) -> Result<Interval, AllocError>
        ensures proper { IfOk result IsProper }
        ensures numbers { IfOk result (HasNumbers model self.now) }
    {
        let numbers = self.bounds(model).ok_or(AllocError)?;
        check_interval(numbers)?;
        Ok(numbers)
    }

    // Returns the least and the greatest number that may be guessed.
    fn bounds(&self, model: DataModel) -> Option<Interval>
        ensures { IfSome result (AreNumbers model self.now.asks self.now.left self.now.right) }
    {
        match self.asks {
            Asks::Binary(op, ty) => numbers_of_binary(model, op, ty, self.left, self.right),
            Asks::Convert(ty) => Some(numbers_of(model, ty)),
            Asks::Compare(_) | Asks::Order | Asks::Product => Some(Interval { low: 0, high: 1 }),
            Asks::Sum => {
                let (low, high) = offsets(model);
                Some(Interval { low, high })
            }
            Asks::Difference => Some(numbers_of(model, difference_type(model))),
        }
    }
}

// Returns the least and the greatest number of a term's symbol; both are 0 without a symbol.
fn ends_of(constraints: &Constraints, term: Lin) -> Interval
    ensures { AreEndsOf constraints.now term.sym result }
{
    let no_symbol = Interval { low: 0, high: 0 };
    let Some(sym) = term.sym else {
        return no_symbol;
    };
    let Some(range) = constraints.range_of(sym) else {
        return no_symbol;
    };
    match (range.least(), range.greatest()) {
        (Some(low), Some(high)) => Interval { low, high },
        _ => no_symbol,
    }
}

// Returns the numbers that may be guessed for an operator of two integers. A remainder is nearer to 0 than
// its divisor, and the result of `&` isn't above a mask that isn't negative.
fn numbers_of_binary(
    model: DataModel,
    op: BinOp,
    ty: IntType,
    left: Lin,
    right: Lin,
) -> Option<Interval>
    ensures { IfSome result (AreOfBinary model op ty left right) }
{
    match op {
        BinOp::Rem => match number(right) {
            Some(divisor) => remainders(ty, divisor),
            None => Some(numbers_of(model, ty)),
        },
        BinOp::And => match number(left).or(number(right)) {
            Some(mask) if 0 <= mask => Some(Interval { low: 0, high: mask }),
            _ => Some(numbers_of(model, ty)),
        },
        _ => Some(numbers_of(model, ty)),
    }
}

// Returns the remainders of divisions by a number.
fn remainders(ty: IntType, divisor: i128) -> Option<Interval>
    ensures { IfSome result (AreRemainders ty divisor) }
{
    let size = if divisor < 0 {
        divisor.checked_neg()?
    } else {
        divisor
    };
    let greatest = size.checked_sub(1)?;
    let low = if is_signed(ty) {
        greatest.checked_neg()?
    } else {
        0
    };
    Some(Interval {
        low,
        high: greatest,
    })
}

// Returns the numbers of a type.
fn numbers_of(model: DataModel, ty: IntType) -> Interval
    ensures { AreOfType model ty result }
{
    Interval {
        low: least_of_type(model, ty),
        high: greatest_of_type(model, ty),
    }
}
