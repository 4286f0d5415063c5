//! Times replays: lowers a C file and prepares its runs once, and replays its last function as many times as the first word states, 10 times
//! without a word. Prints how many events the replays passed.

ghost use Rattle.cs_ast.specs.TypedProgram.{HasLayouts, typed_program};
ghost use Rattle.cs_cfg.specs.GraphView as view;
ghost use Rattle.cs_cfg.specs.Lowered.{IsLowered};
ghost use Rattle.cs_objects.specs.Prepared.{IsPrepared, IsReady};
ghost use Rattle.cs_well_formed.specs.Programs.{IsWellFormed};

use cs_ast::typed::program::Program;
use cs_cfg::Code;
use cs_events::RunBudgets;
use cs_inputs::Inputs;
use cs_io::{StdSource, read_all};
use cs_lower::lower;
use cs_objects::Setting;
use cs_objects::prepared::Prepared;
use cs_program::program_of;
use cs_replay::replay;
use cs_types::DataModel;
use std::alloc::Global;
use std::io;

// The budgets of each replay.
const BUDGETS: RunBudgets = RunBudgets {
    visits: 100_000,
    depth: 1_000,
    events: 100_000_000,
};

/// How many replays there are without a word.
pub const REPLAYS: u64 = 10;

/// Replays the last function of standard input, as many times as the first word states.
pub fn run(rt: &HostRuntime, words: &[String]) -> io::Result<()> {
    let mut source = StdSource::new(rt.stdin());
    let Ok(file) = read_all(rt.alloc(), &mut source) else {
        return println!(rt; "not read");
    };
    timed(rt, file.as_slice(), count_of(words))
}

// Returns the count that the first word states.
fn count_of(words: &[String]) -> u64 {
    match words.first() {
        Some(word) => word.as_str().parse().unwrap_or(REPLAYS),
        None => REPLAYS,
    }
}

/// Replays the last function of a file.
pub fn timed(rt: &HostRuntime, file: &[u8], count: u64) -> io::Result<()> {
    match program_of(rt.alloc(), DataModel::Lp64, file) {
        Ok(found) => lowered(rt, &found.program, count),
        Err(_) => println!(rt; "no program"),
    }
}

// Lowers a program, and replays its last function.
fn lowered(rt: &HostRuntime, program: &Program, count: u64) -> io::Result<()>
    requires { IsWellFormed (typed_program program.now) }
{
    match lower(rt.alloc(), program) {
        Ok(code) => match events(rt.alloc(), program, &code, count) {
            Some(events) => println!(rt; "{count} replays, {events} events"),
            None => println!(rt; "no replay"),
        },
        Err(_) => println!(rt; "memory"),
    }
}

// Returns how many events this many replays of a program's last function pass. None if it has no body or memory runs out.
fn events(alloc: Global, program: &Program, code: &Code, count: u64) -> Option<u64>
    requires well_formed { IsWellFormed (typed_program program.now) }
    requires lowered { IsLowered (view.code code.now) (typed_program program.now) }
{
    let last = program.functions.len().checked_sub(1)?;
    let entry = u32::try_from(last).ok()?;
    match Prepared::new(alloc, program) {
        Ok(prepared) => with_prepared(alloc, program, &prepared, code, entry, count),
        Err(_) => None,
    }
}

// The same for a function, with the data that the program's runs share.
fn with_prepared(
    alloc: Global,
    program: &Program,
    prepared: &Prepared,
    code: &Code,
    entry: u32,
    count: u64,
) -> Option<u64>
    requires laid_out { HasLayouts program.now }
    requires prepared { IsPrepared prepared.now program.now }
    requires lowered { IsLowered (view.code code.now) (typed_program program.now) }
{
    let inputs = Inputs::new(alloc);
    let setting = Setting {
        program,
        prepared,
        inputs: &inputs,
        guesses: &[],
        budgets: BUDGETS,
    };
    replayed(alloc, &setting, code, entry, count)
}

// The same for a function with a setting.
fn replayed(alloc: Global, setting: &Setting, code: &Code, entry: u32, count: u64) -> Option<u64>
    requires ready { IsReady setting.now }
    requires lowered { IsLowered (view.code code.now) (typed_program setting.now.program.now) }
{
    let mut events = 0u64;
    for _ in 0..count {
        let replayed = replay(alloc, setting, code, entry).ok()?;
        events = events.checked_add(replayed.log.events.len() as u64)?;
    }
    Some(events)
}
