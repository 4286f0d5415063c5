//! The terms with which a run continues after an event.
ghost use Rattle.std.specs.Prelude.{◌≡◌, true, Some, IfOk, IfSome};
ghost use Rattle.cs_ranges.specs.Affine.{affine};
ghost use Rattle.cs_pieces.specs.Settled.{IsSettled, IsConstantAt};

use cs_constraints::Constraints;
use cs_explored::constant;
use cs_terms::{Lin, Sym};
use std::alloc::AllocError;

/// Returns the answer with which a run continues: a term over the symbol of the guess, or over one on which it depends before the
/// event; else its value as a constant.
pub(crate) fn settled(
    before: &Constraints,
    guess: Option<Sym>,
    answer: Lin,
) -> Result<Lin, AllocError>
    ensures { IfOk result (IsSettled before.now guess answer) }
{
    let Some(sym) = answer.sym else {
        return Ok(answer);
    };
    if is_guess(guess, sym) {
        return Ok(answer);
    }
    if answer.slope == 0 {
        return Ok(constant(answer.value));
    }
    let Some(range) = before.range_of(sym) else {
        return Err(AllocError);
    };
    match range.is_single() {
        Some(only) => settled_at(answer, only),
        None => Ok(answer),
    }
}

// The value of an answer as a constant, if its symbol has only this number.
fn settled_at(answer: Lin, only: i128) -> Result<Lin, AllocError>
    ensures { IfOk result (IsConstantAt answer only) }
{
    match value_at(answer, only) {
        Some(value) => Ok(constant(value)),
        None => Err(AllocError),
    }
}

// Whether a symbol is that of the guess.
fn is_guess(guess: Option<Sym>, sym: Sym) -> bool
    ensures { result ≡ true → guess ≡ Some sym }
{
    match guess {
        Some(found) => found.0 == sym.0,
        None => false,
    }
}

// The value of a term at a number of its symbol, unless it takes more than 128 bits, which no answer's value does.
fn value_at(term: Lin, number: i128) -> Option<i128>
    ensures { IfSome result (λ value.
        value ≡ affine term.slope term.at term.value number) }
{
    let steps = number.checked_sub(term.at)?;
    let rise = term.slope.checked_mul(steps)?;
    let value = term.value.checked_add(rise)?;
    Some(value)
}
