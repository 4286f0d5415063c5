//! Pieces as text.
ghost use Rattle.std.specs.Prelude.{IfOk};
ghost use Rattle.cs_ranges.specs.RangeSet.{IsInhabited};

use cs_constraints::Constraints;
use cs_eval::{Guessed, Piece, Question, answers};
use cs_ranges::{GREATEST, Interval, LEAST, RangeSet};
use cs_terms::{Lin, Sym};
use cs_types::DataModel;
use std::alloc::{AllocError, Global};
use std::process::Abort;

/// A question over the symbols x and y, which may have the numbers from the first to the second.
#[derive(Clone, Copy)]
pub struct Row<'a> {
    pub question: Question,
    pub x: (i128, i128),
    pub y: (i128, i128),
    /// A line for each piece.
    pub pieces: &'a str,
}

/// Returns a constant term.
pub fn number(value: i128) -> Lin {
    Lin {
        sym: None,
        slope: 0,
        at: 0,
        value,
    }
}

/// Returns the symbol x times a factor, plus a number.
pub fn x(slope: i128, value: i128) -> Lin {
    Lin {
        sym: Some(Sym(0)),
        slope,
        at: 0,
        value,
    }
}

/// Returns the symbol y times a factor, plus a number.
pub fn y(slope: i128, value: i128) -> Lin {
    Lin {
        sym: Some(Sym(1)),
        slope,
        at: 0,
        value,
    }
}

fn assert_row(rt: &impl Abort, alloc: Global, row: &Row, place: usize) -> Result<(), AllocError> {
    let constraints = constraints(alloc, row.x, row.y)?;
    let pieces = answers(alloc, DataModel::Lp64, &constraints, &row.question, Sym(2))?;
    let found = text(alloc, &pieces)?;
    assert_eq!(rt; found.as_str(), row.pieces, "row {place}");
    Ok(())
}

/// Tests that each row has the stated pieces.
pub fn assert_rows(rt: &impl Abort, alloc: Global, rows: &[Row]) -> Result<(), AllocError> {
    for (place, row) in rows.iter().enumerate() {
        assert_row(rt, alloc, row, place)?;
    }
    Ok(())
}

/// Returns constraints in which each symbol may have the numbers from the first to the second.
pub fn constraints(
    alloc: Global,
    x: (i128, i128),
    y: (i128, i128),
) -> Result<Constraints, AllocError> {
    let mut constraints = Constraints::new(alloc);
    constraints.declare(Sym(0), numbers(alloc, x.0, x.1)?)?;
    constraints.declare(Sym(1), numbers(alloc, y.0, y.1)?)?;
    Ok(constraints)
}

/// Returns the numbers from one to another. There are some, and they lie inside the bounds of sets.
fn numbers(alloc: Global, low: i128, high: i128) -> Result<RangeSet, AllocError>
    ensures { IfOk result (λ set. IsInhabited set) }
{
    if low < LEAST || high > GREATEST || low > high {
        return Err(AllocError);
    }
    RangeSet::of(alloc, low, high)
}

/// Returns a line for each piece.
pub fn text(alloc: Global, pieces: &[Piece]) -> Result<String, AllocError> {
    let mut text = String::new(alloc);
    for piece in pieces {
        write!(text, "{:?}", piece.label)?;
        push_ranges(&mut text, &piece.constraints)?;
        text.push_str(" gives ")?;
        push_term(&mut text, piece.answer)?;
        if let Some(guessed) = &piece.guessed {
            push_guessed(&mut text, guessed)?;
        }
        text.push_str("\n")?;
    }
    Ok(text)
}

fn push_ranges(text: &mut String, constraints: &Constraints) -> Result<(), AllocError> {
    for (sym, name) in [(Sym(0), " x"), (Sym(1), " y"), (Sym(2), " guess")] {
        if let Some(range) = constraints.range_of(sym) {
            text.push_str(name)?;
            push_intervals(text, range.intervals())?;
        }
    }
    Ok(())
}

fn push_intervals(text: &mut String, intervals: &[Interval]) -> Result<(), AllocError> {
    for interval in intervals {
        write!(text, " {}..{}", interval.low, interval.high)?;
    }
    Ok(())
}

fn push_term(text: &mut String, term: Lin) -> Result<(), AllocError> {
    let name = match term.sym {
        None => "",
        Some(Sym(0)) => "*x",
        Some(Sym(1)) => "*y",
        Some(_) => "*guess",
    };
    let moved = term.slope.checked_mul(term.at).ok_or(AllocError)?;
    let at_zero = term.value.checked_sub(moved).ok_or(AllocError)?;
    match term.sym {
        None => write!(text, "{}", term.value),
        Some(_) => write!(text, "{}{name}+{at_zero}", term.slope),
    }
}

fn push_guessed(text: &mut String, guessed: &Guessed) -> Result<(), AllocError> {
    text.push_str(" of ")?;
    push_term(text, guessed.left)?;
    push_intervals(text, &[guessed.ends.left])?;
    text.push_str(" and ")?;
    push_term(text, guessed.right)?;
    push_intervals(text, &[guessed.ends.right])?;
    if let Some(fact) = &guessed.fact {
        text.push_str(" fact ")?;
        push_term(text, fact.term.first)?;
        text.push_str(" + ")?;
        push_term(text, fact.term.second)?;
    }
    Ok(())
}
