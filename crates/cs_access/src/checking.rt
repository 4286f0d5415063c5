//! The checks of an operation that is about to be done.
ghost use Rattle.std.specs.Prelude.{◌≡◌, ◌⊎◌, ℤ, ◌&&◌, not, map, length, IfOk, OnOk, OnErr};
ghost use Rattle.cs_ranges.specs.RangeSet.{contains};
ghost use Rattle.cs_access.specs.Checks.{IsKnown, CanCheck, AreFaults, IsRest, HaveCounted, IsTakenOut, IsRestIn};
ghost use Rattle.cs_access.specs.Kinds.{AreFaultyKinds, IsListed, HaveFaultyValues, kinds_of};

use crate::faulty::{deciding_term, faulty_values};
use cs_checker::{Answer, Checker, Subject};
use cs_model::Kind;
use cs_ranges::{GREATEST, LEAST, RangeSet};
use cs_state::State;
use cs_terms::Lin;
use std::alloc::{AllocError, Global};

/// A part of a state: the valuations under which a subject is faulty for a kind.
#[derive(Drop)]
pub struct FaultyPart {
    pub kind: Kind,
    pub state: State,
}

/// The rest of a state: the valuations under which a subject isn't faulty.
#[derive(Drop)]
pub enum Rest {
    /// All valuations: the state doesn't change.
    Whole,
    /// Some valuations.
    Part(Box<State>),
    /// No valuation.
    Nothing,
}

/// The result of the checks of a state.
#[derive(Drop)]
pub struct Checked {
    /// The faulty parts, in the order of the checkers.
    pub faults: Vec<FaultyPart>,
    pub rest: Rest,
}

/// A kind of faults, and the values of the deciding term at which an operation has such a fault.
#[derive(Drop)]
pub struct FaultyKind {
    pub kind: Kind,
    pub values: RangeSet,
}

/// Queries each checker once about what is about to be done, and splits the state into faulty parts and the rest.
pub fn check(
    alloc: Global,
    state: &State,
    subject: &Subject,
    checkers: &mut Vec<Box<dyn Checker>>,
) -> Result<Checked, AllocError>
    requires { CanCheck state.now.constraints subject.now }
    ensures faults { IfOk result (λ checked.
        AreFaults state.now subject.now (map (λ b. kind_of b) checkers.old.items)
        checked.faults.items) }
    ensures rest { IfOk result (λ checked.
        IsRest state.now subject.now (map (λ b. kind_of b) checkers.old.items) checked.rest) }
    ensures asked { OnOk result
        (HaveCounted (λ b. count_of b) checkers.old.items checkers.new.items) }
    ensures err { OnErr result ((checkers.new.items ≡ checkers.old.items)
        ⊎ HaveCounted (λ b. count_of b) checkers.old.items checkers.new.items) }
    ensures kinds { map (λ b. kind_of b) checkers.new.items
        ≡ map (λ b. kind_of b) checkers.old.items }
{
    let found = faulty_kinds(alloc, checkers, subject)?;
    if found.is_empty() {
        return Ok(Checked {
            faults: Vec::new(alloc),
            rest: Rest::Whole,
        });
    }
    split(alloc, state, subject, &found)
}

// Queries each checker once, also if memory runs out; returns the kinds of those that have a condition, in order.
fn faulty_kinds(
    alloc: Global,
    checkers: &mut Vec<Box<dyn Checker>>,
    subject: &Subject,
) -> Result<Vec<FaultyKind>, AllocError>
    ensures found { IfOk result (λ found.
        AreFaultyKinds subject.now (map (λ b. kind_of b) checkers.old.items) found.items) }
    ensures asked { HaveCounted (λ b. count_of b) checkers.old.items checkers.new.items }
    ensures kinds { map (λ b. kind_of b) checkers.new.items
        ≡ map (λ b. kind_of b) checkers.old.items }
{
    let mut found = Vec::new(alloc);
    let mut complete = true;
    for checker in checkers.iter_mut() {
        // An answer is large. Most have no condition, and aren't moved from where they were written.
        let added = match checker.examine(subject) {
            Answer {
                conds: [None, None],
            } => Ok(()),
            answer => list_kind(alloc, checker.kind(), &answer, &mut found),
        };
        complete = complete && added.is_ok();
    }
    if complete { Ok(found) } else { Err(AllocError) }
}

// Adds a kind with the values of its conditions.
#[inline(never)]
fn list_kind(
    alloc: Global,
    kind: Kind,
    answer: &Answer,
    found: &mut Vec<FaultyKind>,
) -> Result<(), AllocError>
    ensures { OnOk result (IsListed kind answer.now.conds found.old.items found.new.items) }
{
    let values = faulty_values(alloc, &answer.conds)?;
    found.push(FaultyKind { kind, values })?;
    Ok(())
}

// Splits a state by the values of the deciding term: those that are faulty for each kind, and those that are faulty for none.
#[inline(never)]
fn split(
    alloc: Global,
    state: &State,
    subject: &Subject,
    found: &[FaultyKind],
) -> Result<Checked, AllocError>
    requires can { CanCheck state.now.constraints subject.now }
    requires values { HaveFaultyValues subject.now found.now }
    ensures faults { IfOk result (λ checked.
        AreFaults state.now subject.now (kinds_of found.now) checked.faults.items) }
    ensures rest { IfOk result (λ checked.
        IsRest state.now subject.now (kinds_of found.now) checked.rest) }
{
    let term = deciding_term(subject);
    let mut faults = Vec::with_capacity(alloc, found.len())?;
    let mut good = RangeSet::of(alloc, LEAST, GREATEST)?;
    for place in 0..found.len() {
        let FaultyKind { kind, values } = &found[place];
        take_out(state, term, *kind, values, &mut faults)?;
        good = without(good, values)?;
    }
    let rest = rest_of(alloc, state, term, &good, faults.is_empty())?;
    Ok(Checked { faults, rest })
}

// Adds the part of a state in which a term has a bad value, if there is one.
fn take_out(
    state: &State,
    term: Lin,
    kind: Kind,
    bad: &RangeSet,
    faults: &mut Vec<FaultyPart>,
) -> Result<(), AllocError>
    requires { IsKnown state.now.constraints term }
    ensures { OnOk result (IsTakenOut state.now term kind bad.now faults.old.items
        faults.new.items) }
{
    if bad.is_empty() {
        return Ok(());
    }
    match state.narrowed(term, bad)? {
        Some(state) => {
            faults.push(FaultyPart { kind, state })?;
            Ok(())
        }
        None => Ok(()),
    }
}

// Removes the bad values from a set.
fn without(good: RangeSet, bad: &RangeSet) -> Result<RangeSet, AllocError>
    ensures { IfOk result (λ left.
        (x : ℤ) → contains left x ≡ (contains good x && not (contains bad.now x))) }
{
    if bad.is_empty() {
        Ok(good)
    } else {
        good.minus(bad)
    }
}

// The part of a state in which a term has a good value; all of it if all values are good.
fn rest_of(
    alloc: Global,
    state: &State,
    term: Lin,
    good: &RangeSet,
    all: bool,
) -> Result<Rest, AllocError>
    requires { IsKnown state.now.constraints term }
    ensures { IfOk result (λ rest. IsRestIn state.now term good.now all rest) }
{
    if all {
        return Ok(Rest::Whole);
    }
    match state.narrowed(term, good)? {
        Some(state) => Ok(Rest::Part(Box::new(alloc, state)?)),
        None => Ok(Rest::Nothing),
    }
}
