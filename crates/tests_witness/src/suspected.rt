//! Suspects as lines of text: a kind or a budget, a position, how many events are passed, inputs, and guesses.
//!
//! A guess is `guess EVENT NUMBER LEFT RIGHT`. Each side is `SYMBOL=LEAST..GREATEST`, where the symbol is a path, or `#EVENT` for the guess
//! at an event; or `-` if the operand is a constant.

use cs_ast::Place;
use cs_events::{Budget, Guess, Outcome};
use cs_inputs::{Inputs, parse};
use cs_model::Kind;
use cs_suspect_types::{OperandRange, Suspect, SuspectedGuess};
use cs_terms::SymName;
use std::alloc::{AllocError, Global};
use std::str::SplitAsciiWhitespace;

const KINDS: [Kind; 11] = [
    Kind::Null,
    Kind::Divide,
    Kind::Unset,
    Kind::Bounds,
    Kind::DoubleFree,
    Kind::Freed,
    Kind::BadFree,
    Kind::DeadLocal,
    Kind::Shift,
    Kind::Unrelated,
    Kind::ConstWrite,
];

const BUDGETS: [Budget; 3] = [Budget::Visits, Budget::Depth, Budget::Events];

/// Returns the suspect that a line describes, if it describes one.
pub fn suspect(alloc: Global, line: &str) -> Result<Option<Suspect>, AllocError> {
    let mut parts = line.split(" guess ");
    let mut words = parts.next().unwrap_or("").split_ascii_whitespace();
    let Some(what) = outcome(&mut words) else {
        return Ok(None);
    };
    let mut suspect = Suspect {
        what,
        events: count(words.next()),
        inputs: Inputs::new(alloc),
        guesses: Vec::new(alloc),
    };
    for word in words {
        add_input(alloc, &mut suspect.inputs, word)?;
    }
    for part in parts {
        suspect.guesses.push(guess(alloc, part)?)?;
    }
    Ok(Some(suspect))
}

fn outcome(words: &mut SplitAsciiWhitespace) -> Option<Outcome> {
    let name = words.next()?;
    let at = place(words.next()?);
    for kind in KINDS {
        if kind.name() == name {
            return Some(Outcome::Fault(kind, at));
        }
    }
    for budget in BUDGETS {
        if budget.name() == name {
            return Some(Outcome::Over(budget, at));
        }
    }
    None
}

fn place(word: &str) -> Place {
    let (line, column) = word.split_once(':').unwrap_or(("0", "0"));
    Place {
        file: 0,
        line: line.parse::<u32>().unwrap_or(0),
        column: column.parse::<u32>().unwrap_or(0),
    }
}

fn number(word: Option<&str>) -> i128 {
    word.unwrap_or("0").parse::<i128>().unwrap_or(0)
}

fn count(word: Option<&str>) -> u64 {
    word.unwrap_or("0").parse::<u64>().unwrap_or(0)
}

fn add_input(alloc: Global, inputs: &mut Inputs, word: &str) -> Result<(), AllocError> {
    if let Ok((path, number)) = parse(alloc, word.as_bytes()) {
        inputs.set(path, number)?;
    }
    Ok(())
}

fn guess(alloc: Global, text: &str) -> Result<SuspectedGuess, AllocError> {
    let mut words = text.split_ascii_whitespace();
    let guess = Guess {
        event: count(words.next()),
        number: number(words.next()),
    };
    let left = range(alloc, words.next().unwrap_or("-"));
    let right = range(alloc, words.next().unwrap_or("-"));
    Ok(SuspectedGuess { guess, left, right })
}

fn range(alloc: Global, word: &str) -> Option<OperandRange> {
    let (least, greatest) = word.split_once("..")?;
    let greatest = number(Some(greatest));
    if let Some(named) = least.strip_prefix('#') {
        let (event, least) = named.split_once('=')?;
        return Some(OperandRange {
            symbol: SymName::Guess(count(Some(event))),
            least: number(Some(least)),
            greatest,
        });
    }
    match parse(alloc, least.as_bytes()) {
        Ok((path, least)) => Some(OperandRange {
            symbol: SymName::Input(path),
            least,
            greatest,
        }),
        Err(_) => None,
    }
}
