//! Terms of a state, and what is known about their values.
ghost use Rattle.std.specs.Prelude.{◌≡◌, ◌≢◌, ◌+ℤ◌, ◌*ℤ◌, true, ℤ, pos, None, IsTrue, IfOk, IfErr, IfSome};
ghost use Rattle.cs_ranges.specs.RangeSet.{contains};
ghost use Rattle.cs_terms.specs.Term.{Valuation, value_of, HasNoOtherSymbol};
ghost use Rattle.cs_checker.specs.Answers as terms;
ghost use Rattle.cs_eval.specs.Guesses.{symbol_term};
ghost use Rattle.cs_progress.specs.declared.pause.Pause.TheVariants as pause;
ghost use Rattle.cs_progress.specs.Known.{HaveOneValue, IsSameOver, IsSolution, IsTruthOfValue, function_at};

use crate::pause::Pause;
use cs_ranges::RangeSet;
use cs_state::State;
use cs_terms::{Lin, Sym};
use std::alloc::AllocError;

// The least and the greatest integer of C.
const LEAST: i128 = -0x8000_0000_0000_0000;

const GREATEST: i128 = 0xffff_ffff_ffff_ffff;

/// Returns the constant term with this value.
pub fn constant(value: i128) -> Lin
    ensures { result ≡ terms.constant value }
{
    Lin {
        sym: None,
        slope: 0,
        at: 0,
        value,
    }
}

/// Returns the term whose value is the number of a symbol.
pub fn own(sym: Sym) -> Lin
    ensures { result ≡ symbol_term sym }
{
    Lin {
        sym: Some(sym),
        slope: 1,
        at: 0,
        value: 0,
    }
}

/// Returns a term of the state in a normal form: a term with one value as a constant. It has to be over a symbol that is declared there,
/// with integers of C as its values. No other term occurs in a state; one would be reported as want of memory.
pub fn known(state: &State, term: Lin) -> Result<Lin, Pause>
    ensures value { IfOk result (HaveOneValue state.now.constraints term) }
    ensures symbol { IfOk result (λ other. HasNoOtherSymbol other.sym term.sym) }
    ensures memory { IfErr result (λ why. why ≡ pause.Memory) }
{
    let Some(sym) = term.sym else {
        return Ok(constant(integer(term.value)?));
    };
    let Some(range) = state.constraints.range_of(sym) else {
        return Err(Pause::Memory);
    };
    Ok(known_over(term, range)?)
}

// The same for a term over a symbol with these numbers.
fn known_over(term: Lin, range: &RangeSet) -> Result<Lin, AllocError>
    requires { term.sym ≢ None }
    ensures { IfOk result (IsSameOver range.now term) }
{
    let (Some(least), Some(greatest)) = (range.least(), range.greatest()) else {
        return Err(AllocError);
    };
    let (Some(first), Some(last)) = (value_at(term, least), value_at(term, greatest)) else {
        return Err(AllocError);
    };
    integer(first)?;
    integer(last)?;
    if least == greatest {
        return Ok(constant(first));
    }
    seen_from(term, least, first)
}

// The same function, given by its value at another number.
fn seen_from(term: Lin, at: i128, value: i128) -> Result<Lin, AllocError>
    requires { value ≡ function_at term at }
    ensures values { IfOk result (λ made.
        (number : ℤ) → function_at made number ≡ function_at term number) }
    ensures symbol { IfOk result (λ made. made.sym ≡ term.sym) }
{
    if term.slope == 0 {
        return Err(AllocError);
    }
    Ok(Lin { at, value, ..term })
}

/// Whether a term is 0; `None` if that depends on the valuation.
pub fn is_zero(state: &State, term: Lin) -> Result<Option<bool>, Pause>
    ensures truth { IfOk result (IsTruthOfValue state.now.constraints term (pos 0)) }
    ensures memory { IfErr result (λ why. why ≡ pause.Memory) }
{
    has_value(state, term, 0)
}

/// Whether a term has a value; `None` if that depends on the valuation.
pub fn has_value(state: &State, term: Lin, value: i128) -> Result<Option<bool>, Pause>
    ensures truth { IfOk result (IsTruthOfValue state.now.constraints term value) }
    ensures memory { IfErr result (λ why. why ≡ pause.Memory) }
{
    let term = known(state, term)?;
    let Some(sym) = term.sym else {
        return Ok(Some(term.value == value));
    };
    let Some(range) = state.constraints.range_of(sym) else {
        return Err(Pause::Memory);
    };
    if may_have(term, range, value)? {
        Ok(None)
    } else {
        Ok(Some(false))
    }
}

// Whether a term has a value at one of its symbol's numbers.
fn may_have(term: Lin, range: &RangeSet, value: i128) -> Result<bool, AllocError>
    ensures { IfOk result (λ may. (number : ℤ) → IsTrue (contains range.now number)
        → function_at term number ≡ value → may ≡ true) }
{
    match solution(term, value)? {
        Some(number) => Ok(range.contains(number)),
        None => Ok(false),
    }
}

// The number of a term's symbol at which the term has a value, if there is one.
fn solution(term: Lin, value: i128) -> Result<Option<i128>, AllocError>
    ensures { IfOk result (IsSolution term value) }
{
    let Some(away) = value.checked_sub(term.value) else {
        return Err(AllocError);
    };
    let Some(rest) = away.checked_rem(term.slope) else {
        return Err(AllocError);
    };
    let Some(steps) = away.checked_div(term.slope) else {
        return Err(AllocError);
    };
    if rest != 0 {
        return Ok(None);
    }
    let Some(number) = term.at.checked_add(steps) else {
        return Err(AllocError);
    };
    Ok(Some(number))
}

/// Returns a term plus a number.
pub fn shifted(term: Lin, by: i128) -> Result<Lin, Pause>
    ensures memory { IfErr result (λ why. why ≡ pause.Memory) }
    ensures value { IfOk result (λ moved. (valuation : Valuation)
        → value_of valuation moved ≡ value_of valuation term +ℤ by) }
{
    let Some(value) = term.value.checked_add(by) else {
        return Err(Pause::Memory);
    };
    Ok(Lin { value, ..term })
}

/// Returns a term times a number.
pub fn scaled(term: Lin, factor: i128) -> Result<Lin, Pause>
    ensures memory { IfErr result (λ why. why ≡ pause.Memory) }
    ensures value { IfOk result (λ made. (valuation : Valuation)
        → value_of valuation made ≡ value_of valuation term *ℤ factor) }
{
    if factor == 0 {
        return Ok(constant(0));
    }
    let Some(value) = term.value.checked_mul(factor) else {
        return Err(Pause::Memory);
    };
    let Some(slope) = term.slope.checked_mul(factor) else {
        return Err(Pause::Memory);
    };
    Ok(Lin {
        value,
        slope,
        ..term
    })
}

// The value of a term at a number of its symbol.
fn value_at(term: Lin, number: i128) -> Option<i128>
    ensures { IfSome result (λ value.
        value ≡ function_at term number) }
{
    let Some(steps) = number.checked_sub(term.at) else {
        return None;
    };
    let Some(rise) = term.slope.checked_mul(steps) else {
        return None;
    };
    let Some(sum) = term.value.checked_add(rise) else {
        return None;
    };
    Some(sum)
}

// Returns the number if it is an integer of C; any other number is an error.
fn integer(value: i128) -> Result<i128, AllocError>
    ensures { IfOk result (λ number. number ≡ value) }
{
    if LEAST <= value && value <= GREATEST {
        Ok(value)
    } else {
        Err(AllocError)
    }
}
