//! The runs of `int f(int x,int y){if(x<y){if(y<x)return 1/0;}return 0;}` with which both tests are guessed, and pools in which one part is
//! wrong.
use cs_ast::Place;
use cs_ast::typed::operator::CmpOp;
use cs_events::{Event, Guess, Label, Operation};
use cs_findings::{Others, Run};
use cs_inputs::Inputs;
use cs_judge::{Kept, Partners, Replay, are_real, partners};
use cs_types::DataModel;
use std::alloc::{AllocError, Global};
use std::process::Abort;
use std::test::Fail;

const LEAST: i128 = -0x8000_0000;

const GREATEST: i128 = 0x7fff_ffff;

// The parts of a pool of which a test makes one wrong.
#[derive(Clone, Copy)]
struct Parts {
    // Of the shown run: the number of its first guess, the event of its second guess, and the partners of the first.
    number: i128,
    event: u64,
    others: Others<usize>,
    // Of the first partner of the second guess: the branch that its second event shows, the event and the partners of its own guess.
    branch: bool,
    listed: u64,
    partners: Others<usize>,
    // Of the second partner: the operator and the column of its second test.
    operator: CmpOp,
    column: u32,
}

fn right() -> Parts {
    Parts {
        number: 1,
        event: 3,
        others: Others::Two(1, 2),
        branch: true,
        listed: 1,
        partners: Others::Two(2, 3),
        operator: CmpOp::Less,
        column: 32,
    }
}

fn at(column: u32) -> Place {
    Place {
        file: 0,
        line: 1,
        column,
    }
}

fn test(column: u32, operator: CmpOp, left: i128, right: i128) -> Kept {
    Kept::Operates(at(column), Operation::Compare(operator, left, right))
}

// The events of the shown run, in which both tests hold.
fn events(branch: bool) -> [Event; 4] {
    [
        Event {
            place: at(24),
            label: Label::Truth(true),
        },
        Event {
            place: at(20),
            label: Label::Branch(branch),
        },
        Event {
            place: at(32),
            label: Label::Truth(true),
        },
        Event {
            place: at(28),
            label: Label::Branch(true),
        },
    ]
}

fn named(others: Others<usize>) -> Partners {
    Partners {
        others,
        left: None,
        right: None,
    }
}

// Returns a replay with these parts and without inputs.
fn replay(
    alloc: Global,
    guesses: &[Guess],
    events: &[Event],
    kept: &[Kept],
    partners: &[Partners],
) -> Result<Replay, AllocError> {
    Ok(Replay {
        run: Run {
            inputs: Inputs::new(alloc),
            guesses: Vec::from_slice(alloc, guesses)?,
        },
        events: Vec::from_slice(alloc, events)?,
        kept: Vec::from_slice(alloc, kept)?,
        partners: Vec::from_slice(alloc, partners)?,
    })
}

// Returns a replay of a corner of both ranges, up to the first test.
fn corner(alloc: Global, x: i128, y: i128) -> Result<Replay, AllocError> {
    replay(alloc, &[], &[], &[test(24, CmpOp::Less, x, y)], &[])
}

fn shown(alloc: Global, parts: &Parts) -> Result<Replay, AllocError> {
    let first = Guess {
        event: 1,
        number: parts.number,
    };
    let second = Guess {
        event: parts.event,
        number: 1,
    };
    replay(
        alloc,
        &[first, second],
        events(true).as_slice(),
        &[
            test(24, CmpOp::Less, 0, 0),
            Kept::Other,
            test(32, CmpOp::Less, 0, 0),
            Kept::Other,
        ],
        &[named(parts.others), named(Others::Two(4, 5))],
    )
}

// Returns a replay of a corner up to the second test.
fn least(alloc: Global, parts: &Parts) -> Result<Replay, AllocError> {
    let guess = Guess {
        event: parts.listed,
        number: 1,
    };
    let passed = events(parts.branch);
    replay(
        alloc,
        &[guess],
        &[passed[0], passed[1]],
        &[
            test(24, CmpOp::Less, LEAST, LEAST),
            Kept::Other,
            test(32, CmpOp::Less, LEAST, LEAST),
        ],
        &[named(parts.partners)],
    )
}

fn greatest(alloc: Global, parts: &Parts) -> Result<Replay, AllocError> {
    let guess = Guess {
        event: 1,
        number: 1,
    };
    let passed = events(true);
    replay(
        alloc,
        &[guess],
        &[passed[0], passed[1]],
        &[
            test(24, CmpOp::Less, GREATEST, LEAST),
            Kept::Other,
            test(parts.column, parts.operator, LEAST, GREATEST),
        ],
        &[named(Others::Two(1, 2))],
    )
}

fn pool(alloc: Global, parts: &Parts) -> Result<Vec<Replay>, AllocError> {
    let mut pool = Vec::new(alloc);
    pool.push(shown(alloc, parts)?)?;
    pool.push(corner(alloc, LEAST, LEAST)?)?;
    pool.push(corner(alloc, LEAST, GREATEST)?)?;
    pool.push(corner(alloc, GREATEST, LEAST)?)?;
    pool.push(least(alloc, parts)?)?;
    pool.push(greatest(alloc, parts)?)?;
    pool.push(corner(alloc, GREATEST, GREATEST)?)?;
    Ok(pool)
}

fn judged(alloc: Global, parts: &Parts) -> Result<bool, AllocError> {
    let pool = pool(alloc, parts)?;
    are_real(alloc, DataModel::Lp64, pool.as_slice())
}

fn assert_refused(rt: &impl Abort, alloc: Global, parts: Parts) -> Result<(), Fail> {
    let real = judged(alloc, &parts)?;
    assert!(rt; !real);
    Ok(())
}

#[test]
fn both_tests_are_guessed(rt: HostRuntime) -> Result<(), Fail> {
    let real = judged(rt.alloc(), &right())?;
    assert!(rt; real);
    Ok(())
}

#[test]
fn another_guess_is_refused(rt: HostRuntime) -> Result<(), Fail> {
    let mut parts = right();
    parts.number = 2;
    assert_refused(&rt, rt.alloc(), parts)?;
    let mut parts = right();
    parts.event = 2;
    assert_refused(&rt, rt.alloc(), parts)
}

#[test]
fn a_ground_that_does_not_hold_is_refused(rt: HostRuntime) -> Result<(), Fail> {
    let mut parts = right();
    parts.others = Others::Two(1, 6);
    assert_refused(&rt, rt.alloc(), parts)?;
    parts.others = Others::One(2);
    assert_refused(&rt, rt.alloc(), parts)?;
    parts.others = Others::Two(1, 99);
    assert_refused(&rt, rt.alloc(), parts)
}

#[test]
fn a_partner_that_disagrees_earlier_is_refused(rt: HostRuntime) -> Result<(), Fail> {
    let mut parts = right();
    parts.branch = false;
    assert_refused(&rt, rt.alloc(), parts)?;
    let mut parts = right();
    parts.listed = 2;
    assert_refused(&rt, rt.alloc(), parts)
}

#[test]
fn a_partner_whose_own_guess_is_not_real_is_refused(rt: HostRuntime) -> Result<(), Fail> {
    let mut parts = right();
    parts.partners = Others::Two(1, 6);
    assert_refused(&rt, rt.alloc(), parts)
}

#[test]
fn another_operation_is_refused(rt: HostRuntime) -> Result<(), Fail> {
    let mut parts = right();
    parts.operator = CmpOp::AtMost;
    assert_refused(&rt, rt.alloc(), parts)?;
    let mut parts = right();
    parts.column = 33;
    assert_refused(&rt, rt.alloc(), parts)
}

#[test]
fn partners_are_found(rt: HostRuntime) -> Result<(), Fail> {
    let alloc = rt.alloc();
    let mut parts = right();
    parts.others = Others::One(0);
    parts.partners = Others::One(0);
    let mut pool = pool(alloc, &parts)?;
    let found = partners(alloc, DataModel::Lp64, pool.as_slice())?;
    for (replay, partners) in pool.iter_mut().zip(found) {
        replay.partners = partners;
    }
    let real = are_real(alloc, DataModel::Lp64, pool.as_slice())?;
    assert!(rt; real);
    Ok(())
}
