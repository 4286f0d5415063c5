//! `csa`: finds faults in preprocessed C, read from standard input.
#![tactic(auto)]

use cs_app::{Status, csa};
use cs_checker::{Checker, add};
use cs_checks::{
    BadFreeChecker, BoundsChecker, ConstWriteChecker, DeadLocalChecker, DivideChecker,
    DoubleFreeChecker, FreedChecker, NullChecker, ShiftChecker, UnrelatedChecker, UnsetChecker,
};
use cs_io::{StdSink, StdSource};
use std::alloc::AllocError;
use std::env;
use std::process::ExitCode;

fn main(rt: HostRuntime) -> ExitCode {
    ExitCode::from(run(&rt).code())
}

/// Analyzes standard input according to the command line, and writes to standard output.
fn run(rt: &HostRuntime) -> Status {
    let Ok(arguments) = env::args(rt) else {
        return Status::Memory;
    };
    let Ok(words) = arguments.skip(1).collect::<Vec<String>>(rt.alloc()) else {
        return Status::Memory;
    };
    match checked(rt, words.as_slice()) {
        Ok(status) => status,
        Err(_) => Status::Memory,
    }
}

/// Runs the program with the eleven checkers, in the order of their kinds.
fn checked(rt: &HostRuntime, words: &[String]) -> Result<Status, AllocError> {
    let alloc = rt.alloc();
    let mut list: Vec<Box<dyn Checker>> = Vec::new(alloc);
    add(&mut list, Box::new(alloc, NullChecker::new())?)?;
    add(&mut list, Box::new(alloc, DivideChecker::new())?)?;
    add(&mut list, Box::new(alloc, UnsetChecker::new())?)?;
    add(&mut list, Box::new(alloc, BoundsChecker::new())?)?;
    add(&mut list, Box::new(alloc, DoubleFreeChecker::new())?)?;
    add(&mut list, Box::new(alloc, FreedChecker::new())?)?;
    add(&mut list, Box::new(alloc, BadFreeChecker::new())?)?;
    add(&mut list, Box::new(alloc, DeadLocalChecker::new())?)?;
    add(&mut list, Box::new(alloc, ShiftChecker::new())?)?;
    add(&mut list, Box::new(alloc, UnrelatedChecker::new())?)?;
    add(&mut list, Box::new(alloc, ConstWriteChecker::new())?)?;
    let mut source = StdSource::new(rt.stdin());
    let mut sink = StdSink::new(rt.stdout());
    Ok(csa(alloc, words, &mut source, &mut sink, &mut list))
}
