//! The case of a `switch` that a number takes.
ghost use Rattle.std.specs.Prelude.{◌≡◌, pos, IfOk};
ghost use Rattle.cs_eval.specs.Cases.{AreCases, IsCasePushed};
ghost use Rattle.cs_eval.specs.Operands.{IsTermBetween, LOWEST, HIGHEST};
ghost use Rattle.cs_eval.specs.Parts.{number_term};

use crate::checked::{check_inside, check_wide};
use crate::operands::constant;
use crate::piece::Piece;
use crate::pieces::{Shown, push_exact};
use cs_cfg::SwitchCase;
use cs_constraints::Constraints;
use cs_events::Label;
use cs_ranges::{GREATEST, LEAST, RangeSet};
use cs_terms::Lin;
use std::alloc::{AllocError, Global};

/// Returns a piece for each case of a `switch` that a number may take (the first of equal ones), and one for none.
pub fn select(
    alloc: Global,
    constraints: &Constraints,
    term: Lin,
    cases: &[SwitchCase],
) -> Result<Vec<Piece>, AllocError>
    ensures { IfOk result (λ pieces. AreCases constraints.now term cases.now pieces.items) }
{
    check_wide(constraints, term)?;
    let mut pieces = Vec::new(alloc);
    let mut left = RangeSet::of(alloc, LEAST, GREATEST)?;
    for (number, case) in cases.iter().enumerate() {
        left = push_case(constraints, term, number, case.value, left, &mut pieces)?;
    }
    let kept = constraints.assume(term, &left)?;
    push_exact(&mut pieces, case_shown(cases.len())?, kept)?;
    Ok(pieces)
}

// Adds the piece of a case, if a number that takes no earlier case may take it. Returns the numbers that take
// none of these cases.
fn push_case(
    constraints: &Constraints,
    term: Lin,
    number: usize,
    value: i128,
    left: RangeSet,
    pieces: &mut Vec<Piece>,
) -> Result<RangeSet, AllocError>
    requires { IsTermBetween constraints.now LOWEST HIGHEST term }
    ensures { IfOk result (λ rest. IsCasePushed constraints.now term number value left rest
        pieces.old.items pieces.new.items) }
{
    if !left.contains(value) {
        return Ok(left);
    }
    check_inside(value)?;
    let taken = RangeSet::of(*pieces.allocator(), value, value)?;
    let rest = left.minus(&taken)?;
    let kept = constraints.assume(term, &taken)?;
    push_exact(pieces, case_shown(number)?, kept)?;
    Ok(rest)
}

// Returns what a case shows. The operation continues without a number, so the answer is 0.
fn case_shown(number: usize) -> Result<Shown, AllocError>
    ensures label { IfOk result (λ shown. shown.label ≡ Label.Case number) }
    ensures answer { IfOk result (λ shown. shown.answer ≡ number_term (pos 0)) }
{
    let Ok(number) = u32::try_from(number) else {
        return Err(AllocError);
    };
    Ok(Shown {
        label: Label::Case(number),
        answer: constant(0),
    })
}
