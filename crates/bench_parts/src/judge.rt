//! Times the judge: a line has how many guesses the first run of a pool has, and how many events there are for each.

use cs_ast::Place;
use cs_ast::typed::operator::CmpOp;
use cs_events::{Event, Guess, Label, Operation};
use cs_findings::{Others, Run};
use cs_inputs::Inputs;
use cs_judge::{Kept, Partners, Replay, are_real};
use cs_types::DataModel;
use std::alloc::{AllocError, Global};
use std::io;

fn place() -> Place {
    Place {
        file: 0,
        line: 1,
        column: 1,
    }
}

fn test(pair: (i128, i128)) -> Kept {
    let operation = Operation::Compare(CmpOp::Less, pair.0, pair.1);
    Kept::Operates(place(), operation)
}

// Returns a run that guesses this many comparisons of 0 with 0, `apart` events apart, and then reaches one with these operands.
// The corners of the guess with number n are the runs 2*n+1 and 2*n+2.
fn replay(
    alloc: Global,
    guesses: u64,
    apart: u64,
    pair: (i128, i128),
) -> Result<Replay, AllocError> {
    let event = Event {
        place: place(),
        label: Label::Truth(true),
    };
    let mut run = Run {
        inputs: Inputs::new(alloc),
        guesses: Vec::new(alloc),
    };
    let mut events = Vec::new(alloc);
    let mut kept = Vec::new(alloc);
    let mut partners = Vec::new(alloc);
    for number in 0..guesses {
        stretch(&mut events, &mut kept, event, apart)?;
        kept.push(test((0, 0)))?;
        events.push(event)?;
        run.guesses.push(Guess {
            event: events.len() as u64,
            number: 1,
        })?;
        partners.push(named(number as usize))?;
    }
    stretch(&mut events, &mut kept, event, apart)?;
    kept.push(test(pair))?;
    Ok(Replay {
        run,
        events,
        kept,
        partners,
    })
}

fn stretch(
    events: &mut Vec<Event>,
    kept: &mut Vec<Kept>,
    event: Event,
    count: u64,
) -> Result<(), AllocError> {
    for _ in 1..count {
        events.push(event)?;
        kept.push(Kept::Other)?;
    }
    Ok(())
}

fn named(number: usize) -> Partners {
    let first = number.saturating_mul(2).saturating_add(1);
    Partners {
        others: Others::Two(first, first.saturating_add(1)),
        left: None,
        right: None,
    }
}

fn pool(alloc: Global, guesses: u64, apart: u64) -> Result<Vec<Replay>, AllocError> {
    let mut pool = Vec::new(alloc);
    pool.push(replay(alloc, guesses, apart, (0, 0))?)?;
    for number in 0..guesses {
        pool.push(replay(alloc, number, apart, (5, 1))?)?;
        pool.push(replay(alloc, number, apart, (1, 5))?)?;
    }
    Ok(pool)
}

/// Makes the pool that the words request, and prints how many runs it has and whether the judge accepts it.
pub fn run(rt: &HostRuntime, words: &str) -> io::Result<()> {
    let alloc = rt.alloc();
    let Some((guesses, apart)) = words.split_once(' ') else {
        return Ok(());
    };
    let guesses = guesses.parse::<u64>().unwrap_or(0);
    let apart = apart.parse::<u64>().unwrap_or(0);
    let pool = pool(alloc, guesses, apart)?;
    let real = are_real(alloc, DataModel::Lp64, pool.as_slice())?;
    println!(rt; "{} runs: {real}", pool.len())
}
