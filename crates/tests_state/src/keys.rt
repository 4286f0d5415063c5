//! Pairs of states: their keys are equal if their live parts are, and differ otherwise.
ghost use Rattle.std.specs.Prelude.{IfOk};
ghost use Rattle.cs_ranges.specs.RangeSet.{IsInhabited};

use cs_cfg::Spot;
use cs_constraints::Constraints;
use cs_keys::{Key, key};
use cs_model::Standing;
use cs_pmap::PMap;
use cs_ranges::{GREATEST, Interval, LEAST, RangeSet};
use cs_state::{
    Answers, Asked, Asks, Block, Callers, Counters, Ends, Frame, ReadCells, State, Temporaries,
    Temporary, TypeNumber, Visits,
};
use cs_store::{Fill, Store, Value};
use cs_terms::{Lin, Sym};
use cs_types::{DataModel, IntType};
use std::alloc::{AllocError, Global};
use std::process::Abort;
use std::str::SplitAsciiWhitespace;
use std::test::Fail;

// A constant.
const fn constant(value: i128) -> Lin {
    Lin {
        sym: None,
        slope: 0,
        at: 0,
        value,
    }
}

fn frame(alloc: Global, number: u64) -> Result<Frame, AllocError> {
    let visits = Visits::none(alloc, 2)?;
    Ok(Frame {
        number,
        spot: Spot {
            function: 0,
            block: 0,
            operation: 0,
        },
        temporaries: Temporaries::new(alloc),
        visits,
    })
}

// Returns a state in which nothing is known.
fn fresh(alloc: Global) -> Result<State, AllocError> {
    let frame = frame(alloc, 0)?;
    Ok(State {
        model: DataModel::Lp64,
        frame,
        callers: Callers::new(alloc),
        store: Store::new(alloc),
        blocks: PMap::new(alloc),
        read: ReadCells::new(alloc),
        constraints: Constraints::new(alloc),
        answers: Answers::new(alloc),
        counters: Counters {
            frames: 1,
            allocations: 0,
            calls: 0,
            events: 0,
        },
        asked: PMap::new(alloc),
        phase: 0,
        result: None,
    })
}

fn guessed(event: u64, sym: u64) -> Asked {
    let none = Interval { low: 0, high: 0 };
    Asked {
        event,
        guess: Sym(sym),
        asks: Asks::Convert(IntType::Int),
        left: constant(1),
        right: constant(2),
        ends: Ends {
            left: none,
            right: none,
        },
        fact: None,
    }
}

fn block(sym: u64, extent: i128) -> Block {
    Block {
        extent: constant(extent),
        standing: Standing::Live,
        element: TypeNumber(0),
        sym: Sym(sym),
        made_by: 0,
    }
}

// Returns the numbers from one to another. There are some, and they lie inside the bounds of sets.
fn numbers(alloc: Global, low: i128, high: i128) -> Result<RangeSet, AllocError>
    ensures { IfOk result (λ set. IsInhabited set) }
{
    if low < LEAST || high > GREATEST || low > high {
        return Err(AllocError);
    }
    RangeSet::of(alloc, low, high)
}

fn count(words: &mut SplitAsciiWhitespace) -> Result<u64, AllocError> {
    match words.next() {
        Some(word) => word.parse::<u64>().map_err(|_| AllocError),
        None => Err(AllocError),
    }
}

fn small(words: &mut SplitAsciiWhitespace) -> Result<u32, AllocError> {
    u32::try_from(count(words)?).map_err(|_| AllocError)
}

fn whole(word: &str) -> Result<i128, AllocError> {
    word.parse::<i128>().map_err(|_| AllocError)
}

fn number(words: &mut SplitAsciiWhitespace) -> Result<i128, AllocError> {
    whole(words.next().unwrap_or(""))
}

// Parses a constant, or `SYMBOL/SLOPE/AT/VALUE`: an affine function of a symbol, which has VALUE where the symbol is AT. `-` means no symbol.
fn term(word: &str) -> Result<Lin, AllocError> {
    let Some((sym, rest)) = word.split_once('/') else {
        return Ok(constant(whole(word)?));
    };
    let (slope, rest) = rest.split_once('/').unwrap_or(("", ""));
    let (at, value) = rest.split_once('/').unwrap_or(("", ""));
    let sym = match sym.parse::<u64>() {
        Ok(sym) => Some(Sym(sym)),
        Err(_) => None,
    };
    Ok(Lin {
        sym,
        slope: whole(slope)?,
        at: whole(at)?,
        value: whole(value)?,
    })
}

// Parses a pair of numbers with a colon between them.
fn pair(text: &str) -> Result<(u64, u64), AllocError> {
    let (first, second) = text.split_once(':').unwrap_or(("", ""));
    match (first.parse::<u64>(), second.parse::<u64>()) {
        (Ok(first), Ok(second)) => Ok((first, second)),
        _ => Err(AllocError),
    }
}

// Parses a value: `null`, `unset`, `start:BLOCK:OFFSET`, `at:BLOCK:TERM`, or a term.
fn value(words: &mut SplitAsciiWhitespace) -> Result<Value, AllocError> {
    let word = words.next().unwrap_or("");
    if let Some(rest) = word.strip_prefix("start:") {
        let (base, offset) = pair(rest)?;
        return Ok(Value::Start(base, offset));
    }
    if let Some(rest) = word.strip_prefix("at:") {
        let (base, at) = rest.split_once(':').unwrap_or(("", ""));
        let base = base.parse::<u64>().map_err(|_| AllocError)?;
        return Ok(Value::At(base, term(at)?));
    }
    match word {
        "null" => Ok(Value::Null),
        "unset" => Ok(Value::Unset),
        other => Ok(Value::Number(term(other)?)),
    }
}

fn fill(words: &mut SplitAsciiWhitespace) -> Result<Fill, AllocError> {
    match words.next().unwrap_or("") {
        "zero" => Ok(Fill::Zero),
        "unset" => Ok(Fill::Unset),
        other => {
            let (call, argument) = pair(other.strip_prefix("wrote:").unwrap_or(""))?;
            Ok(Fill::Wrote(call, argument))
        }
    }
}

// Makes a change of a state, given by its name and its arguments.
fn make(state: &mut State, alloc: Global, change: &str) -> Result<(), AllocError> {
    let mut words = change.split_ascii_whitespace();
    let name = words.next().unwrap_or("");
    match name {
        "declare" => declare(state, alloc, &mut words),
        "push" => state.push(Temporary::Scalar(value(&mut words)?)),
        "push-nothing" => state.push(Temporary::Nothing),
        "pop" => {
            let _newest = state.pop();
            Ok(())
        }
        _ => change_place(state, alloc, name, &mut words),
    }
}

fn declare(
    state: &mut State,
    alloc: Global,
    words: &mut SplitAsciiWhitespace,
) -> Result<(), AllocError> {
    let sym = Sym(count(words)?);
    let low = number(words)?;
    let high = number(words)?;
    let set = numbers(alloc, low, high)?;
    state.constraints.declare(sym, set)
}

fn change_place(
    state: &mut State,
    alloc: Global,
    name: &str,
    words: &mut SplitAsciiWhitespace,
) -> Result<(), AllocError> {
    match name {
        "go-to" => {
            state.go_to(Spot {
                function: 0,
                block: 0,
                operation: small(words)?,
            });
            Ok(())
        }
        "visit" => {
            let point = small(words)? as usize;
            state.count_visit(alloc, point, small(words)?)
        }
        "enter" => {
            let frame = frame(alloc, count(words)?)?;
            state.enter(alloc, frame)
        }
        "leave" => {
            let _left = state.leave()?;
            Ok(())
        }
        "answer" => state.answer(term(words.next().unwrap_or(""))?),
        _ => change_memory(state, name, words),
    }
}

fn change_memory(
    state: &mut State,
    name: &str,
    words: &mut SplitAsciiWhitespace,
) -> Result<(), AllocError> {
    let first = count(words)?;
    match name {
        "bind" => {
            let offset = count(words)?;
            state.bind(first, offset, value(words)?)
        }
        "fill" => state.fill(first, fill(words)?),
        "unbind" => state.unbind([first].as_slice()),
        "block" => {
            let sym = count(words)?;
            state.set_block(first, block(sym, number(words)?))
        }
        "release" => state.release(first),
        "read" => {
            let offset = count(words)?;
            state.read_cell(first, offset, Sym(count(words)?))
        }
        "guess" => state.guess(guessed(first, count(words)?)),
        _ => change_rest(state, name, first),
    }
}

fn change_rest(state: &mut State, name: &str, number: u64) -> Result<(), AllocError> {
    match name {
        "events" => {
            state.set_counters(Counters {
                events: number,
                ..state.counters
            });
            Ok(())
        }
        "phase" => {
            state.set_phase(u32::try_from(number).map_err(|_| AllocError)?);
            Ok(())
        }
        "return-symbol" => {
            state.set_result(Some(Value::Number(Lin {
                sym: Some(Sym(number)),
                slope: 1,
                at: 0,
                value: 0,
            })));
            Ok(())
        }
        _ => Err(AllocError),
    }
}

fn after(alloc: Global, changes: &str) -> Result<State, AllocError> {
    let mut state = fresh(alloc)?;
    for change in changes.split(';') {
        if !change.trim().is_empty() {
            make(&mut state, alloc, change)?;
        }
    }
    Ok(state)
}

fn key_after(alloc: Global, changes: &str) -> Result<Key, AllocError> {
    let state = after(alloc, changes)?;
    key(alloc, &state)
}

// Whether the states after two lists of changes have equal keys.
fn are_merged(alloc: Global, row: &str) -> Result<bool, AllocError> {
    let Some((one, other)) = row.split_once('|') else {
        return Err(AllocError);
    };
    let first = key_after(alloc, one)?;
    let second = key_after(alloc, other)?;
    Ok(first == second)
}

// Tests that the states of each row have one key, or that they have two. A line `#` states what the rows after it are about.
fn assert_rows(
    rt: &impl Abort,
    alloc: Global,
    table: &str,
    is_merged: bool,
) -> Result<(), AllocError> {
    for row in table.lines() {
        if !row.starts_with('#') {
            assert!(rt; are_merged(alloc, row)? == is_merged, "{row}");
        }
    }
    Ok(())
}

// Equal live parts: the states of each pair differ in one part, or in how it was written.
const SAME: &str = " | 
# ranges of symbols that nothing mentions
declare 0 0 9 | declare 0 1 9; declare 1 0 1
declare 0 0 9; push 0/1/0/0; pop | 
declare 0 0 9; bind 1 0 0/1/0/0; unbind 1 | 
# guesses
guess 3 0 | 
# the same function of a symbol, seen from another number
declare 0 0 9; push 0/3/0/7 | declare 0 0 9; push 0/3/2/13
declare 0 0 9; push 0/18446744073709551616/-4611686018427387904/0 | declare 0 0 9; push 0/18446744073709551616/0/85070591730234615865843651857942052864
# a function whose value at 0 can't be computed in 128 bits
declare 0 0 9; push 0/18446744073709551616/9223372036854775808/0 | declare 0 0 9; push 0/18446744073709551616/9223372036854775808/0; push 1; pop
# a constant that was a symbol's only number
push 1 | push -/0/5/1
# bound in another order
bind 2 0 1; bind 1 8 1; bind 1 0 null | bind 1 0 null; bind 1 8 null; bind 2 0 1; bind 1 8 1
# written and gone
fill 1 zero; fill 1 unset | 
declare 0 0 9; read 1 0 0; bind 1 0 1 | bind 1 0 1
enter 1; leave | ";

const DIFFERENT: &str = "# ranges of symbols that are mentioned
declare 0 0 9; push 0/1/0/0 | declare 0 1 9; push 0/1/0/0
declare 0 0 9; bind 1 0 0/1/0/0 | declare 0 0 8; bind 1 0 0/1/0/0
declare 0 0 9; answer 0/1/0/0 | declare 0 0 8; answer 0/1/0/0
declare 0 0 1; block 1 0 4 | declare 0 1 1; block 1 0 4
declare 0 0 9; read 1 0 0 | declare 0 0 8; read 1 0 0
declare 0 0 9; return-symbol 0 | declare 0 0 8; return-symbol 0
declare 0 0 9; push 0/1/0/0; enter 1 | declare 0 0 8; push 0/1/0/0; enter 1
# terms
declare 0 0 9; push 0/3/0/7 | declare 0 0 9; push 0/3/2/12
declare 0 0 9; declare 1 0 9; push 0/1/0/0 | declare 0 0 9; declare 1 0 9; push 1/1/0/0
push -1 | push 1
push 0 | push 18446744073709551616
# functions whose values at 0 differ by 2^128
declare 0 0 9; push 0/18446744073709551616/9223372036854775808/0 | declare 0 0 9; push 0/18446744073709551616/-9223372036854775808/0
declare 0 0 9; bind 1 0 0/18446744073709551616/9223372036854775808/0 | declare 0 0 9; bind 1 0 0/18446744073709551616/-9223372036854775808/0
# the same function of a symbol, seen from another number, whose value at 0 can't be computed in 128 bits from one of them
declare 0 18446744073709551614 18446744073709551615; push 0/-18446744073709551615/18446744073709551614/5 | declare 0 18446744073709551614 18446744073709551615; push 0/-18446744073709551615/18446744073709551615/-18446744073709551610
declare 0 0 9; push 0/18446744073709551616/9223372036854775808/0 | declare 0 0 9; push 0/18446744073709551616/0/-170141183460469231731687303715884105728
# values and temporaries
push null | push unset
push null | push-nothing
push start:1:0 | push at:1:0
push 1; push null | push null; push 1
# memory
bind 1 0 1 | bind 1 4 1
bind 1 0 1 | bind 2 0 1
fill 1 wrote:1:0 | fill 1 wrote:1:1
block 1 0 4 | block 1 0 4; release 1
# where the run stands
go-to 1 | go-to 2
visit 0 1 | visit 1 1
enter 1 | enter 2
events 1 | events 2
phase 1 | phase 0";

#[test]
fn states_with_equal_live_parts_have_one_key(rt: HostRuntime) -> Result<(), Fail> {
    assert_rows(&rt, rt.alloc(), SAME, true)?;
    Ok(())
}

#[test]
fn states_that_differ_in_their_live_parts_have_two_keys(rt: HostRuntime) -> Result<(), Fail> {
    assert_rows(&rt, rt.alloc(), DIFFERENT, false)?;
    Ok(())
}
