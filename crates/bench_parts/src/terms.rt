//! Times terms: a line names a call and how often it is made.

ghost use Rattle.cs_terms.specs.Conditions.{IsSmall};
ghost use Rattle.cs_terms.specs.Term.{IsTerm};
ghost use Rattle.bench_parts.specs.Digits.{AreDigits, HasSmallValues};

use cs_ranges::RangeSet;
use cs_terms::{Lin, Sym, add, stays_within, wrap_pieces};
use cs_types::{DataModel, IntType};
use std::alloc::{AllocError, Global};
use std::io;
use std::time::Instant;

const MODEL: DataModel = DataModel::Lp64;

// Returns a term over a digit: a different one for each number, so that the compiler can't know its parts.
fn term_of(number: u32) -> Lin
    ensures term { IsTerm result }
    ensures values { HasSmallValues result }
    ensures small { IsSmall result }
{
    Lin {
        sym: Some(Sym(0)),
        slope: i128::from(number % 8) + 1,
        at: i128::from(number % 16),
        value: i128::from(number),
    }
}

// Returns how many of the terms stay within `int`.
fn stays(digits: &RangeSet, count: u32) -> u64
    requires { AreDigits digits.now }
{
    let mut within = 0u64;
    for number in 0..count {
        if stays_within(MODEL, IntType::Int, term_of(number), digits) {
            within = within.wrapping_add(1);
        }
    }
    within
}

// Returns how many of the sums of a term with itself stay within `int`, as for `+` of C.
fn sums(digits: &RangeSet, count: u32) -> u64
    requires { AreDigits digits.now }
{
    let mut within = 0u64;
    for number in 0..count {
        let term = term_of(number);
        if let Some(sum) = add(term, term) {
            if stays_within(MODEL, IntType::Int, sum, digits) {
                within = within.wrapping_add(1);
            }
        }
    }
    within
}

// Returns how many of the terms are cut into pieces of which none is outside `int`.
fn pieces(alloc: Global, digits: &RangeSet, count: u32) -> Result<u64, AllocError>
    requires { AreDigits digits.now }
{
    let mut within = 0u64;
    for number in 0..count {
        let cut = wrap_pieces(alloc, MODEL, IntType::Int, term_of(number), digits)?;
        if cut.under.is_empty() && cut.past.is_empty() && cut.far.is_empty() {
            within = within.wrapping_add(1);
        }
    }
    Ok(within)
}

// Returns tenths of nanoseconds for each of this many calls.
fn tenths_each(nanoseconds: u128, count: u32) -> u128 {
    if count == 0 {
        return 0;
    }
    nanoseconds.wrapping_mul(10) / u128::from(count)
}

fn answer(alloc: Global, call: &str, count: u32) -> Result<u64, AllocError> {
    let digits = RangeSet::of(alloc, 0, 9)?;
    match call {
        "stays_within" => Ok(stays(&digits, count)),
        "add" => Ok(sums(&digits, count)),
        "wrap_pieces" => pieces(alloc, &digits, count),
        _ => Ok(0),
    }
}

/// Makes the calls that the words request, and prints their results, and the time of one call if `timed`.
pub fn run(rt: &HostRuntime, words: &str, timed: bool) -> io::Result<()> {
    let Some((call, count)) = words.split_once(' ') else {
        return Ok(());
    };
    let count = count.parse::<u32>().unwrap_or(0);
    let start = Instant::now(rt)?;
    let within = answer(rt.alloc(), call, count)?;
    let tenths = tenths_each(start.elapsed(rt)?.as_nanos(), count);
    println!(rt; "{call} {count} gives {within}")?;
    if timed {
        println!(rt; "{}.{} ns each", tenths / 10, tenths % 10)?;
    }
    Ok(())
}
