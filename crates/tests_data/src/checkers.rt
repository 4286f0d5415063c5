//! The eleven checkers in one list, in the order of their kinds.
use cs_checker::{Answer, Checker, Subject, add, ask_each};
use cs_checks::{
    BadFreeChecker, BoundsChecker, ConstWriteChecker, DeadLocalChecker, DivideChecker,
    DoubleFreeChecker, FreedChecker, NullChecker, ShiftChecker, UnrelatedChecker, UnsetChecker,
};
use cs_terms::Lin;
use std::alloc::{AllocError, Global};
use std::process::Abort;
use std::test::Fail;

fn assert_asked(rt: &impl Abort, checkers: &[Box<dyn Checker>], answers: &[Answer]) {
    let mut number = 0u8;
    for (checker, answer) in checkers.iter().zip(answers) {
        number = number.saturating_add(1);
        assert_eq!(rt; checker.kind().number(), number);
        assert_eq!(rt; checker.examined(), 1);
        assert_eq!(rt; answer.conds[0].is_some(), number == 2);
    }
    assert_eq!(rt; number, 11);
}

fn add_first(alloc: Global, checkers: &mut Vec<Box<dyn Checker>>) -> Result<(), AllocError> {
    add(checkers, Box::new(alloc, NullChecker::new())?)?;
    add(checkers, Box::new(alloc, DivideChecker::new())?)?;
    add(checkers, Box::new(alloc, UnsetChecker::new())?)?;
    add(checkers, Box::new(alloc, BoundsChecker::new())?)?;
    add(checkers, Box::new(alloc, DoubleFreeChecker::new())?)?;
    add(checkers, Box::new(alloc, FreedChecker::new())?)
}

fn add_others(alloc: Global, checkers: &mut Vec<Box<dyn Checker>>) -> Result<(), AllocError> {
    add(checkers, Box::new(alloc, BadFreeChecker::new())?)?;
    add(checkers, Box::new(alloc, DeadLocalChecker::new())?)?;
    add(checkers, Box::new(alloc, ShiftChecker::new())?)?;
    add(checkers, Box::new(alloc, UnrelatedChecker::new())?)?;
    add(checkers, Box::new(alloc, ConstWriteChecker::new())?)
}

#[test]
fn each_kind_is_asked_once(rt: HostRuntime) -> Result<(), Fail> {
    let mut checkers: Vec<Box<dyn Checker>> = Vec::new(rt.alloc());
    add_first(rt.alloc(), &mut checkers)?;
    add_others(rt.alloc(), &mut checkers)?;
    let term = Lin {
        sym: None,
        slope: 0,
        at: 0,
        value: 0,
    };
    let answers = ask_each(rt.alloc(), &mut checkers, &Subject::Divisor { term })?;
    assert_asked(&rt, &checkers, &answers);
    Ok(())
}
