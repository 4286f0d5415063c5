//! The operands of a question.
ghost use Rattle.std.specs.Prelude.{◌≡◌, IfOk, MatchOption};
ghost use Rattle.cs_eval.specs.Forms.{IsFormOf, IsFormOfQuestion, AreConstants, IsConstantOperation};
ghost use Rattle.cs_eval.specs.Operands.{IsReadyOperand, constant_of};
ghost use Rattle.cs_eval.specs.Parts.{number_term};
ghost use Rattle.cs_eval.specs.Ready.{HasReadyOperands};

use crate::checked::{ready, ready_part};
use crate::question::Question;
use cs_constraints::Constraints;
use cs_events::Operation;
use cs_terms::Lin;
use std::alloc::AllocError;

/// Returns the question with its operands in the form that arithmetic on terms requires: an operand whose
/// symbol can only have one number is a constant.
pub(crate) fn prepared(
    constraints: &Constraints,
    question: &Question,
) -> Result<Question, AllocError>
    ensures ready { IfOk result (HasReadyOperands constraints.now) }
    ensures form { IfOk result (IsFormOfQuestion constraints.now question.now) }
{
    match *question {
        Question::Binary(op, ty, left, right) => {
            let (left, right) = both(constraints, left, right)?;
            Ok(Question::Binary(op, ty, left, right))
        }
        Question::Unary(op, ty, term) => Ok(Question::Unary(op, ty, ready(constraints, term)?)),
        Question::Convert(ty, term) => Ok(Question::Convert(ty, ready(constraints, term)?)),
        Question::Compare(op, left, right) => {
            let (left, right) = both(constraints, left, right)?;
            Ok(Question::Compare(op, left, right))
        }
        Question::Order(first, second) => {
            let first = ready_part(constraints, first)?;
            let second = ready_part(constraints, second)?;
            Ok(Question::Order(first, second))
        }
        Question::Product(count, size) => {
            let (count, size) = both(constraints, count, size)?;
            Ok(Question::Product(count, size))
        }
        Question::Sum(offset, amount, size) => {
            let (offset, amount) = both(constraints, offset, amount)?;
            Ok(Question::Sum(offset, amount, size))
        }
        Question::Difference(left, right, size) => {
            let (left, right) = both(constraints, left, right)?;
            Ok(Question::Difference(left, right, size))
        }
        Question::Test(tested, term) => Ok(Question::Test(tested, ready(constraints, term)?)),
        Question::Callee(function) => Ok(Question::Callee(function)),
    }
}

// Returns both operands in that form.
fn both(constraints: &Constraints, left: Lin, right: Lin) -> Result<(Lin, Lin), AllocError>
    ensures ready { IfOk result (λ both. IsReadyOperand constraints.now both.0
        × IsReadyOperand constraints.now both.1) }
    ensures form { IfOk result (λ both. IsFormOf constraints.now left both.0
        × IsFormOf constraints.now right both.1) }
{
    let left = ready(constraints, left)?;
    let right = ready(constraints, right)?;
    Ok((left, right))
}

/// Returns the operation of a question whose operands are constants.
pub(crate) fn constant_operation(question: &Question) -> Option<Operation>
    ensures { MatchOption result (¬ AreConstants question.now) (IsConstantOperation question.now) }
{
    match *question {
        Question::Binary(op, ty, left, right) => Some(Operation::Binary(
            op,
            ty,
            number(left)?,
            number(right)?,
        )),
        Question::Unary(op, ty, term) => Some(Operation::Unary(op, ty, number(term)?)),
        Question::Convert(ty, term) => Some(Operation::Convert(ty, number(term)?)),
        Question::Compare(op, left, right) => Some(Operation::Compare(
            op,
            number(left)?,
            number(right)?,
        )),
        Question::Order(first, second) => Some(Operation::Order(number(first)?, number(second)?)),
        Question::Product(count, size) => Some(Operation::Product(number(count)?, number(size)?)),
        Question::Sum(offset, amount, size) => Some(Operation::Sum(
            number(offset)?,
            number(amount)?,
            size,
        )),
        Question::Difference(left, right, size) => Some(Operation::Difference(
            number(left)?,
            number(right)?,
            size,
        )),
        Question::Test(_, _) | Question::Callee(_) => None,
    }
}

/// Returns the number of a term that is a constant.
pub(crate) fn number(term: Lin) -> Option<i128>
    ensures { result ≡ constant_of term }
{
    match term.sym {
        Some(_) => None,
        None => Some(term.value),
    }
}

/// Returns a number as a term.
pub(crate) fn constant(number: i128) -> Lin
    ensures { result ≡ number_term number }
{
    Lin {
        sym: None,
        slope: 0,
        at: 0,
        value: number,
    }
}
