//! Results of operations in progress, and contents of memory, with enough memory.
use cs_ast::Place;
use cs_ast::typed::operator::BinOp;
use cs_ast::typed::program::Program;
use cs_events::{Event, Guess, Outcome, RunBudgets};
use cs_inputs::Inputs;
use cs_memory::memory::Memory;
use cs_model::Standing;
use cs_objects::Setting;
use cs_objects::blocks::{Block, BlockType, Change, Fill};
use cs_objects::prepared::Prepared;
use cs_run_log::{Log, Stop};
use cs_types::{DataModel, IntType, StructTable, Structs};
use cs_values::Object;
use std::alloc::{AllocError, Global};
use std::process::Abort;
use std::test::Fail;

const HERE: Place = Place {
    file: 0,
    line: 1,
    column: 1,
};

fn program(alloc: Global) -> Program {
    Program {
        model: DataModel::Lp64,
        files: Vec::new(alloc),
        table: StructTable {
            list: Structs::new(alloc),
        },
        globals: Vec::new(alloc),
        literals: Vec::new(alloc),
        functions: Vec::new(alloc),
        constants: Vec::new(alloc),
    }
}

// Returns the data that the runs of that program share.
fn prepared<'a>(alloc: Global) -> Prepared<'a> {
    Prepared {
        globals: Vec::new(alloc),
        literals: Vec::new(alloc),
        offsets: Vec::new(alloc),
    }
}

// Returns the result of an operator of two `int` at its event, and the log after it.
fn answered(
    alloc: Global,
    guesses: &[Guess],
    events: u64,
    operator: BinOp,
    left: i128,
    right: i128,
) -> (Result<i128, Stop>, Log) {
    let program = program(alloc);
    let prepared = prepared(alloc);
    let budgets = RunBudgets {
        visits: 1,
        depth: 1,
        events,
    };
    let operands = (left, right);
    answered_in(
        alloc, &program, &prepared, guesses, budgets, operator, operands,
    )
}

// The same in a program, with the data that its runs share.
fn answered_in(
    alloc: Global,
    program: &Program,
    prepared: &Prepared,
    guesses: &[Guess],
    budgets: RunBudgets,
    operator: BinOp,
    operands: (i128, i128),
) -> (Result<i128, Stop>, Log) {
    let inputs = Inputs::new(alloc);
    let setting = Setting {
        program,
        prepared,
        inputs: &inputs,
        guesses,
        budgets,
    };
    let mut log = Log::new(alloc);
    let (left, right) = operands;
    let answer = log.operate(&setting, HERE, operator, IntType::Int, &left, &right);
    (answer, log)
}

/// An operator of two `int`, its operands, the number of events, and a guess: the event and the number. Then the operator's result, and the
/// label that its event shows; or the run's outcome.
const OPERATIONS: &str = "+ 2147483647 1 1 => Ok(-2147483648) Wrap(Past)
- -2147483648 1 1 => Ok(2147483647) Wrap(Under)
* 65536 1048576 1 => Ok(0) Wrap(Far)
/ -7 2 1 => Ok(-3) Wrap(Same)
% -7 2 1 => Ok(-1) Wrap(Same)
/ -2147483648 -1 1 => Ok(-2147483648) Wrap(Past)
>> -7 1 1 => Ok(-4) Wrap(Same)
& -2 7 1 => Ok(6) Wrap(Same)
^ -2 7 1 => Ok(-7) Wrap(Same)
/ 7 0 1 => fault divide 0:1:1
<< 1 32 1 => fault shift 0:1:1
+ 1 1 1 1 9 => Ok(9) Wrap(Guessed)
+ 1 1 1 1 2147483648 => Ok(2) Wrap(Same)
+ 1 1 1 2 9 => Ok(2) Wrap(Same)
+ 1 1 0 1 9 => over events 0:1:1";

fn operator(word: Option<&str>) -> BinOp {
    match word.unwrap_or("") {
        "-" => BinOp::Sub,
        "*" => BinOp::Mul,
        "/" => BinOp::Div,
        "%" => BinOp::Rem,
        ">>" => BinOp::Shr,
        "<<" => BinOp::Shl,
        "&" => BinOp::And,
        "^" => BinOp::Xor,
        _ => BinOp::Add,
    }
}

fn number(word: Option<&str>) -> i128 {
    word.unwrap_or("").parse::<i128>().unwrap_or(0)
}

fn count(word: Option<&str>) -> u64 {
    word.unwrap_or("").parse::<u64>().unwrap_or(0)
}

// Appends the result of an operation, or the run's outcome.
fn answer_text(out: &mut String, answer: Result<i128, Stop>) -> Result<(), AllocError> {
    match answer {
        Err(Stop::Outcome(Outcome::Fault(kind, at))) => {
            write!(
                out,
                "fault {} {}:{}:{}",
                kind.name(),
                at.file,
                at.line,
                at.column
            )
        }
        Err(Stop::Outcome(Outcome::Over(budget, at))) => {
            write!(
                out,
                "over {} {}:{}:{}",
                budget.name(),
                at.file,
                at.line,
                at.column
            )
        }
        other => write!(out, "{other:?}"),
    }
}

// The same with the labels of the events, each of which is at the position of the operation.
fn said(alloc: Global, answer: Result<i128, Stop>, events: &[Event]) -> Result<String, AllocError> {
    let mut out = String::new(alloc);
    answer_text(&mut out, answer)?;
    for event in events {
        let label = event.label;
        let elsewhere = if event.place == HERE {
            ""
        } else {
            " elsewhere"
        };
        write!(out, " {label:?}{elsewhere}")?;
    }
    Ok(out)
}

fn assert_operation(rt: &impl Abort, alloc: Global, row: &str) -> Result<(), AllocError> {
    let (operation, wanted) = row.split_once(" => ").unwrap_or((row, ""));
    let mut words = operation.split_ascii_whitespace();
    let operator = operator(words.next());
    let (left, right) = (number(words.next()), number(words.next()));
    let events = count(words.next());
    let guess = Guess {
        event: count(words.next()),
        number: number(words.next()),
    };
    let (answer, log) = answered(alloc, &[guess], events, operator, left, right);
    let said = said(alloc, answer, log.events.as_slice())?;
    assert_eq!(rt; said.as_str(), wanted, "{operation}");
    Ok(())
}

/// No event has the number 0, so a row with this number has no guess.
#[test]
fn an_operator_gives_what_it_gives_in_c(rt: HostRuntime) -> Result<(), Fail> {
    for row in OPERATIONS.lines() {
        assert_operation(&rt, rt.alloc(), row)?;
    }
    Ok(())
}

/// An allocated block is live, once freed it remains so, and its number isn't used again.
#[test]
fn memory_keeps_what_was_freed(rt: HostRuntime) -> Result<(), Fail> {
    let alloc = rt.alloc();
    let prepared = prepared(alloc);
    frees_for_good(&rt, alloc, &prepared)
}

// Returns a block of this many bytes.
fn bytes<'a>(alloc: Global, extent: u64, fill: Fill<'a>) -> Block<'a> {
    Block::new(alloc, BlockType::Integer(IntType::UChar), extent, fill)
}

fn fill_and_free(memory: &mut Memory<'_>, alloc: Global) -> Result<(), AllocError> {
    memory.allocate(bytes(alloc, 4, Fill::Unset))?;
    memory.allocate_none()?;
    memory.allocate(bytes(alloc, 8, Fill::Zero))?;
    memory.change(&Object::Heap(1), Change::Stand(Standing::Freed))
}

fn assert_block(
    rt: &impl Abort,
    memory: &Memory<'_>,
    number: u64,
    wanted: Option<(u64, Standing)>,
) {
    let found = memory.block(&Object::Heap(number));
    let found = found.map(|block| (block.extent, block.standing));
    assert!(rt; found == wanted, "block {number}");
}

// The same with the data that the runs of a program share.
fn frees_for_good(rt: &impl Abort, alloc: Global, prepared: &Prepared) -> Result<(), Fail> {
    let mut memory = Memory::new(alloc, prepared);
    fill_and_free(&mut memory, alloc)?;
    assert_block(rt, &memory, 0, None);
    assert_block(rt, &memory, 1, Some((4, Standing::Freed)));
    assert_block(rt, &memory, 2, None);
    assert_block(rt, &memory, 3, Some((8, Standing::Live)));
    assert_block(rt, &memory, 4, None);
    Ok(())
}
