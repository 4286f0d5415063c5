//! Times keys and copies of states: a line names a call, how many cells of a table are bound, and how often the call is made.

use cs_cfg::Spot;
use cs_constraints::Constraints;
use cs_keys::key;
use cs_pmap::PMap;
use cs_ranges::RangeSet;
use cs_state::{Answers, Callers, Counters, Frame, ReadCells, State, Temporaries, Visits};
use cs_store::{Store, Value};
use cs_terms::{Lin, Sym};
use cs_types::DataModel;
use std::alloc::{AllocError, Global};
use std::io;
use std::time::Instant;

fn first_frame(alloc: Global) -> Result<Frame, AllocError> {
    let visits = Visits::none(alloc, 2)?;
    Ok(Frame {
        number: 0,
        spot: Spot {
            function: 0,
            block: 0,
            operation: 0,
        },
        temporaries: Temporaries::new(alloc),
        visits,
    })
}

// Returns a state in which nothing is known.
fn fresh(alloc: Global) -> Result<State, AllocError> {
    let frame = first_frame(alloc)?;
    Ok(State {
        model: DataModel::Lp64,
        frame,
        callers: Callers::new(alloc),
        store: Store::new(alloc),
        blocks: PMap::new(alloc),
        read: ReadCells::new(alloc),
        constraints: Constraints::new(alloc),
        answers: Answers::new(alloc),
        counters: Counters {
            frames: 1,
            allocations: 0,
            calls: 0,
            events: 0,
        },
        asked: PMap::new(alloc),
        phase: 0,
        result: None,
    })
}

// Returns the number of a cell, as its offset and its value.
fn numbered(number: u32) -> (u64, Value) {
    let value = Lin {
        sym: None,
        slope: 0,
        at: 0,
        value: i128::from(number),
    };
    (u64::from(number), Value::Number(value))
}

// Returns a state with a table in which this many cells are bound to numbers.
fn with_table(alloc: Global, cells: u32) -> Result<State, AllocError> {
    let mut state = fresh(alloc)?;
    for number in 0..cells {
        let (offset, value) = numbered(number);
        state.store.bind(1, offset, value)?;
    }
    Ok(state)
}

// Makes this many keys, and returns how many.
fn keys(alloc: Global, state: &State, count: u32) -> Result<usize, AllocError> {
    let mut made = 0usize;
    for _ in 0..count {
        let _key = key(alloc, state)?;
        made = made.wrapping_add(1);
    }
    Ok(made)
}

// Makes this many copies, and returns how many visit counts their frames have.
fn copies(state: &State, count: u32) -> Result<usize, AllocError> {
    let mut visits = 0usize;
    for _ in 0..count {
        visits = visits.wrapping_add(state.copy()?.frame.visits.as_slice().len());
    }
    Ok(visits)
}

// Returns the scalars of this many cells, with their offsets.
fn leaves(alloc: Global, cells: u32) -> Result<Vec<(u64, Value)>, AllocError> {
    let mut leaves = Vec::with_capacity(alloc, cells as usize)?;
    for number in 0..cells {
        leaves.push(numbered(number))?;
    }
    Ok(leaves)
}

// Binds the cells of the table in another base region, in this many copies of the state.
fn bindings(alloc: Global, state: &State, cells: u32, count: u32) -> Result<usize, AllocError> {
    let leaves = leaves(alloc, cells)?;
    let mut bound = 0usize;
    for _ in 0..count {
        let mut copy = state.copy()?;
        copy.bind_all(2, &leaves)?;
        bound = bound.wrapping_add(leaves.len());
    }
    Ok(bound)
}

// Reads cells from inputs in a copy of the state.
fn read_by_copy(
    alloc: Global,
    state: &State,
    syms: &[Sym],
    read: &[(u64, Sym)],
) -> Result<(), AllocError> {
    let numbers = RangeSet::of(alloc, 0, 255)?;
    let mut copy = state.copy()?;
    copy.declare_all(syms, &numbers)?;
    copy.read_cells(2, read)
}

// Reads as many cells from inputs as the table has, in this many copies of the state.
fn reads(alloc: Global, state: &State, cells: u32, count: u32) -> Result<usize, AllocError> {
    let mut syms = Vec::with_capacity(alloc, cells as usize)?;
    let mut read = Vec::with_capacity(alloc, cells as usize)?;
    for number in 0..cells {
        let sym = Sym(u64::from(number));
        syms.push(sym)?;
        read.push((u64::from(number), sym))?;
    }
    let mut declared = 0usize;
    for _ in 0..count {
        read_by_copy(alloc, state, &syms, &read)?;
        declared = declared.wrapping_add(syms.len());
    }
    Ok(declared)
}

// Returns the nanoseconds for each of this many calls.
fn each(nanoseconds: u128, count: u32) -> u128 {
    if count == 0 {
        return 0;
    }
    nanoseconds / u128::from(count)
}

fn answer(
    alloc: Global,
    call: &str,
    state: &State,
    cells: u32,
    count: u32,
) -> Result<usize, AllocError> {
    match call {
        "bind" => bindings(alloc, state, cells, count),
        "read" => reads(alloc, state, cells, count),
        "key" => keys(alloc, state, count),
        "copy" => copies(state, count),
        _ => Ok(0),
    }
}

/// Makes the calls that the words request, and prints their results, and the time of one call if `timed`.
pub fn run(rt: &HostRuntime, words: &str, timed: bool) -> io::Result<()> {
    let Some((call, numbers)) = words.split_once(' ') else {
        return Ok(());
    };
    let Some((cells, count)) = numbers.split_once(' ') else {
        return Ok(());
    };
    let cells = cells.parse::<u32>().unwrap_or(0);
    let count = count.parse::<u32>().unwrap_or(0);
    let state = with_table(rt.alloc(), cells)?;
    let start = Instant::now(rt)?;
    let sum = answer(rt.alloc(), call, &state, cells, count)?;
    let nanoseconds = each(start.elapsed(rt)?.as_nanos(), count);
    println!(rt; "{call} {cells} {count} gives {sum}")?;
    if timed {
        println!(rt; "{nanoseconds} ns each")?;
    }
    Ok(())
}
