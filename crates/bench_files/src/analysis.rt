//! Times analyses, and counts what they drop: takes the words of `csa analyze` with a C file, or those of `csa generate`, and prints how
//! many functions were explored, how many rows their graphs have, how many findings are shown, and how many suspects were dropped because
//! their runs don't have the suspected outcome.

ghost use Rattle.cs_analysis.specs.Integers.{KeepsToIntegers};
ghost use Rattle.cs_ast.specs.TypedProgram.{HasLayouts, typed_program};
ghost use Rattle.cs_cfg.specs.GraphView as view;
ghost use Rattle.cs_cfg.specs.Lowered.{IsLowered};
ghost use Rattle.cs_objects.specs.Prepared.{IsPrepared};
ghost use Rattle.cs_well_formed.specs.Programs.{IsWellFormed};
ghost use Rattle.std.specs.Prelude.{◌≤◌};

use crate::counts::Counts;
use cs_analysis::analyze;
use cs_ast::typed::program::Program;
use cs_cfg::Code;
use cs_checker::{Checker, add};
use cs_checks::{
    BadFreeChecker, BoundsChecker, ConstWriteChecker, DeadLocalChecker, DivideChecker,
    DoubleFreeChecker, FreedChecker, NullChecker, ShiftChecker, UnrelatedChecker, UnsetChecker,
};
use cs_generate::generate_text;
use cs_io::{StdSource, read_all};
use cs_lower::lower;
use cs_objects::prepared::Prepared;
use cs_program::program_of;
use cs_results::Budgets;
use cs_types::DataModel;
use cs_witness::Entry;
use cs_words::{AnalyzeWords, Command, GenerateWords, words_of};
use std::alloc::{AllocError, Global};
use std::io;

// The budgets of `csa generate`, and of `csa analyze` without options.
const BUDGETS: Budgets = Budgets {
    visits: 4,
    depth: 5,
    events: 20_000,
    nodes: 150_000,
    splits: 64,
};

/// Does what the words of `csa` request.
pub fn run(rt: &HostRuntime, words: &[String]) -> io::Result<()> {
    match words_of(rt.alloc(), words) {
        Ok(Command::Analyze(words)) => analyzed(rt, &words),
        Ok(Command::Generate(words)) => generated(rt, &words),
        _ => println!(rt; "no words of analyze or generate"),
    }
}

/// Analyzes a file as `csa analyze` does without options.
pub fn with_defaults(rt: &HostRuntime, file: &[u8]) -> io::Result<()> {
    with_file(rt, DataModel::Lp64, BUDGETS, file)
}

// Analyzes standard input.
fn analyzed(rt: &HostRuntime, words: &AnalyzeWords) -> io::Result<()> {
    let mut source = StdSource::new(rt.stdin());
    match read_all(rt.alloc(), &mut source) {
        Ok(file) => with_file(rt, words.model, words.budgets, &file),
        Err(_) => println!(rt; "not read"),
    }
}

// Analyzes a generated file.
fn generated(rt: &HostRuntime, words: &GenerateWords) -> io::Result<()> {
    match generate_text(rt.alloc(), u64::from(words.seed), u64::from(words.size)) {
        Ok(file) => with_file(rt, DataModel::Lp64, BUDGETS, &file),
        Err(_) => println!(rt; "memory"),
    }
}

fn with_file(rt: &HostRuntime, model: DataModel, budgets: Budgets, file: &[u8]) -> io::Result<()> {
    match program_of(rt.alloc(), model, file) {
        Ok(found) => match counted(rt.alloc(), budgets, &found.program) {
            Ok(counts) => counts.print(rt),
            Err(_) => println!(rt; "memory"),
        },
        Err(_) => println!(rt; "no program"),
    }
}

// Analyzes each function of a program that has a body.
fn counted(alloc: Global, budgets: Budgets, program: &Program) -> Result<Counts, AllocError>
    requires { IsWellFormed (typed_program program.now) }
{
    if budgets.nodes > 200_000 {
        return Err(AllocError);
    }
    let code = lower(alloc, program)?;
    match Prepared::new(alloc, program) {
        Ok(prepared) => checked(alloc, budgets, program, &prepared, &code),
        Err(_) => Err(AllocError),
    }
}

// The same with the eleven checkers, in the order of their kinds.
fn checked(
    alloc: Global,
    budgets: Budgets,
    program: &Program,
    prepared: &Prepared,
    code: &Code,
) -> Result<Counts, AllocError>
    requires laid_out { HasLayouts program.now }
    requires prepared { IsPrepared prepared.now program.now }
    requires lowered { IsLowered (view.code code.now) (typed_program program.now) }
    requires integers { KeepsToIntegers (view.code code.now) (typed_program program.now) }
    requires nodes { budgets.nodes ≤ 200000 }
{
    let mut list: Vec<Box<dyn Checker>> = Vec::new(alloc);
    add(&mut list, Box::new(alloc, NullChecker::new())?)?;
    add(&mut list, Box::new(alloc, DivideChecker::new())?)?;
    add(&mut list, Box::new(alloc, UnsetChecker::new())?)?;
    add(&mut list, Box::new(alloc, BoundsChecker::new())?)?;
    add(&mut list, Box::new(alloc, DoubleFreeChecker::new())?)?;
    add(&mut list, Box::new(alloc, FreedChecker::new())?)?;
    add(&mut list, Box::new(alloc, BadFreeChecker::new())?)?;
    add(&mut list, Box::new(alloc, DeadLocalChecker::new())?)?;
    add(&mut list, Box::new(alloc, ShiftChecker::new())?)?;
    add(&mut list, Box::new(alloc, UnrelatedChecker::new())?)?;
    add(&mut list, Box::new(alloc, ConstWriteChecker::new())?)?;
    counts_of(alloc, budgets, program, prepared, code, &mut list)
}

fn counts_of(
    alloc: Global,
    budgets: Budgets,
    program: &Program,
    prepared: &Prepared,
    code: &Code,
    checkers: &mut Vec<Box<dyn Checker>>,
) -> Result<Counts, AllocError>
    requires laid_out { HasLayouts program.now }
    requires prepared { IsPrepared prepared.now program.now }
    requires lowered { IsLowered (view.code code.now) (typed_program program.now) }
    requires integers { KeepsToIntegers (view.code code.now) (typed_program program.now) }
    requires nodes { budgets.nodes ≤ 200000 }
{
    let mut counts = Counts::default();
    for (number, function) in program.functions.iter().enumerate() {
        if function.body.is_some() {
            let entry = Entry {
                program,
                prepared,
                code,
                function: u32::try_from(number).map_err(|_| AllocError)?,
                budgets,
            };
            let analysis = analyze(alloc, &entry, checkers)?;
            counts.add(&analysis);
        }
    }
    Ok(counts)
}
