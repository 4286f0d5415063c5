//! Command lines that are valid, each with what it means, and invalid ones, with the number of the refused word, with enough memory.
use cs_types::DataModel;
use cs_words::{AnalyzeWords, Command, ReplayWords, WordsRefusal, words_of};
use std::alloc::{AllocError, Global};
use std::str;
use std::test::Fail;

// Returns the words of a line, split at its spaces.
fn words_in(alloc: Global, line: &str) -> Result<Vec<String>, AllocError> {
    let mut words = Vec::new(alloc);
    for word in line.split(' ') {
        words.push(String::from_str(alloc, word)?)?;
    }
    Ok(words)
}

fn model_name(model: DataModel) -> &'static str {
    match model {
        DataModel::Lp64 => "lp64",
        DataModel::Ilp32 => "ilp32",
    }
}

// Appends the budgets of visits, depth, events, nodes and splits, the data model, the format, the entry and the kinds.
fn analysis_text(out: &mut String, read: &AnalyzeWords) -> Result<(), AllocError> {
    let budgets = read.budgets;
    let (visits, depth, events) = (budgets.visits, budgets.depth, budgets.events);
    let (nodes, splits) = (budgets.nodes, budgets.splits);
    let form = if read.json { "json" } else { "text" };
    let model = model_name(read.model);
    write!(
        out,
        "analyze {visits} {depth} {events} {nodes} {splits} {model} {form} "
    )?;
    match &read.entry {
        Some(name) => out.push_str(str::from_utf8(name.as_bytes()).unwrap_or("?"))?,
        None => out.push_str("every entry")?,
    }
    for kind in read.kinds.as_slice() {
        out.push(' ')?;
        out.push_str(kind.name())?;
    }
    Ok(())
}

// Appends the budgets of visits, depth and events, the data model, the entry and the numbers of the inputs, in the order of their paths.
fn replay_text(out: &mut String, read: &ReplayWords) -> Result<(), AllocError> {
    let budgets = read.budgets;
    let (visits, depth, events) = (budgets.visits, budgets.depth, budgets.events);
    let model = model_name(read.model);
    let entry = str::from_utf8(read.entry.as_bytes()).unwrap_or("?");
    write!(out, "replay {visits} {depth} {events} {model} {entry}")?;
    for (_path, number) in read.inputs.list() {
        write!(out, " {number}")?;
    }
    Ok(())
}

fn command_text(out: &mut String, command: &Command) -> Result<(), AllocError> {
    match command {
        Command::Analyze(read) => analysis_text(out, read),
        Command::Flow(read) => write!(out, "flow {}", model_name(read.model)),
        Command::Replay(read) => replay_text(out, read),
        Command::Generate(read) => write!(out, "generate {} {}", read.seed, read.size),
    }
}

// Appends what words mean, or the number of the refused one.
fn said_text(out: &mut String, words: &[String], alloc: Global) -> Result<(), AllocError> {
    match words_of(alloc, words) {
        Ok(command) => command_text(out, &command),
        Err(WordsRefusal::Words(number)) => write!(out, "{number}"),
        Err(WordsRefusal::Memory) => Err(AllocError),
    }
}

fn said(alloc: Global, line: &str) -> Result<String, AllocError> {
    let words = words_in(alloc, line)?;
    let mut out = String::new(alloc);
    said_text(&mut out, &words, alloc)?;
    Ok(out)
}

// Returns those lines of a table of lines and what they mean, or which word is refused, for which this differs, with the actual result.
fn read_otherwise(alloc: Global, table: &str) -> Result<String, AllocError> {
    let mut found = String::new(alloc);
    for row in table.lines() {
        let (line, expected) = row.split_once(" => ").unwrap_or((row, ""));
        let said = said(alloc, line)?;
        if said.as_str() != expected {
            let reported = format!(in alloc; "{line} is {said}\n")?;
            found.push_str(reported.as_str())?;
        }
    }
    Ok(found)
}

/// Words of `analyze` with what they mean: the five budgets, the data model, the output format, the entry, and the kinds.
const ANALYSES: &str =
    "analyze => analyze 4 5 20000 150000 64 lp64 text every entry null divide unset bounds double-free freed bad-free dead-local shift unrelated const-write
analyze --model ilp32 => analyze 4 5 20000 150000 64 ilp32 text every entry null divide unset bounds double-free freed bad-free dead-local shift unrelated const-write
analyze --visits 1 --depth=64 --events 1000000 --nodes=200000 --splits 4096 => analyze 1 64 1000000 200000 4096 lp64 text every entry null divide unset bounds double-free freed bad-free dead-local shift unrelated const-write
analyze --nodes 1 --splits=1 => analyze 4 5 20000 1 1 lp64 text every entry null divide unset bounds double-free freed bad-free dead-local shift unrelated const-write
analyze --kinds null,divide => analyze 4 5 20000 150000 64 lp64 text every entry null divide
analyze --kinds=const-write,const-write --entry kinds => analyze 4 5 20000 150000 64 lp64 text kinds const-write const-write
analyze --entry=_f1 --format=text => analyze 4 5 20000 150000 64 lp64 text _f1 null divide unset bounds double-free freed bad-free dead-local shift unrelated const-write
analyze --format json --model=lp64 => analyze 4 5 20000 150000 64 lp64 json every entry null divide unset bounds double-free freed bad-free dead-local shift unrelated const-write
analyze --model=ilp32 --format=json --kinds bad-free --splits 7 --entry while --visits 9 => analyze 9 5 20000 150000 7 ilp32 json while bad-free";

#[test]
fn reads_words_of_analyze(rt: HostRuntime) -> Result<(), Fail> {
    let found = read_otherwise(rt.alloc(), ANALYSES)?;
    assert_eq!(rt; found.as_str(), "");
    Ok(())
}

/// Words of `generate` with the seed and the size.
const GENERATED: &str = "generate 0 6 => generate 0 6
generate 999999999 4000 => generate 999999999 4000
generate 000000007 0000 => generate 7 0";

#[test]
fn reads_words_of_generate(rt: HostRuntime) -> Result<(), Fail> {
    let found = read_otherwise(rt.alloc(), GENERATED)?;
    assert_eq!(rt; found.as_str(), "");
    Ok(())
}

/// Words of `flow` with the data model.
const FLOWS: &str = "flow => flow lp64
flow --model ilp32 => flow ilp32";

#[test]
fn reads_words_of_flow(rt: HostRuntime) -> Result<(), Fail> {
    let found = read_otherwise(rt.alloc(), FLOWS)?;
    assert_eq!(rt; found.as_str(), "");
    Ok(())
}

/// Words of `replay` with what they mean: the budgets of visits, depth and events, the data model, the entry, and the inputs.
const REPLAYS: &str = "replay f => replay 4 5 20000 lp64 f
replay f x=3 => replay 4 5 20000 lp64 f 3
replay int int=3 $g@0=-1 int=4 => replay 4 5 20000 lp64 int 4 -1
replay --model=ilp32 _f1 => replay 4 5 20000 ilp32 _f1
replay --visits 1 f => replay 1 5 20000 lp64 f
replay --visits=000001000 f => replay 1000 5 20000 lp64 f
replay --depth 6 f n=5 => replay 4 6 20000 lp64 f 5
replay --depth=64 f => replay 4 64 20000 lp64 f
replay --events 1000000 f => replay 4 5 1000000 lp64 f
replay --events=1 --model ilp32 --depth 1 --visits=7 f => replay 7 1 1 ilp32 f";

#[test]
fn reads_words_of_replay(rt: HostRuntime) -> Result<(), Fail> {
    let found = read_otherwise(rt.alloc(), REPLAYS)?;
    assert_eq!(rt; found.as_str(), "");
    Ok(())
}

/// Inputs of which one is given three times.
const REPEATED: &str = "replay f y=1 x=2 x=-3 x=007 => replay 4 5 20000 lp64 f 7 1";

#[test]
fn the_last_of_one_path_holds(rt: HostRuntime) -> Result<(), Fail> {
    let found = read_otherwise(rt.alloc(), REPEATED)?;
    assert_eq!(rt; found.as_str(), "");
    Ok(())
}

/// Words that don't begin a command, or that a command doesn't take.
const COMMANDS: &str = " => 1
Analyze => 1
analyze  => 2
analyze f => 2
analyze --visits 0 => 3
analyze --model => 3
analyze --model lp32 => 3
analyze --model= => 2
analyze --model lp64 lp64 => 4
analyze --model lp64 --model=lp64 => 4
flow f => 2
flow --visits 1 => 2
replay --nodes 1 f => 2";

#[test]
fn refuses_commands(rt: HostRuntime) -> Result<(), Fail> {
    let found = read_otherwise(rt.alloc(), COMMANDS)?;
    assert_eq!(rt; found.as_str(), "");
    let none = words_of(rt.alloc(), &[]).err();
    assert!(rt; none == Some(WordsRefusal::Words(1)));
    Ok(())
}

/// Budgets that are out of range, incomplete, or given twice.
const SETTINGS: &str = "replay --visits 0 => 3
replay --visits 0 f => 3
replay --visits 1001 f => 3
replay --visits=1001 f => 2
replay --visits 0000000001 f => 3
replay --visits +1 f => 3
replay --visits --depth 1 f => 3
replay --visits => 3
replay --visits 1 => 4
replay --visits 1 --visits 1 f => 4
replay --visits 1 --visits=x f => 4
replay --depth 65 f => 3
replay --depth 0 f => 3
replay --events 1000001 f => 3
replay --events=0 f => 2
replay --event 1 f => 2
replay -visits 1 f => 2";

#[test]
fn refuses_settings(rt: HostRuntime) -> Result<(), Fail> {
    let found = read_otherwise(rt.alloc(), SETTINGS)?;
    assert_eq!(rt; found.as_str(), "");
    Ok(())
}

/// Options of `analyze` with invalid values, and generated files without their numbers.
const ANALYSES_AND_FILES: &str = "analyze --nodes 0 => 3
analyze --nodes 200001 => 3
analyze --nodes=200001 => 2
analyze --splits 4097 => 3
analyze --splits => 3
analyze --kinds nul => 3
analyze --kinds= => 2
analyze --kinds null, => 3
analyze --kinds ,null => 3
analyze --kinds null,,divide => 3
analyze --kinds null, divide => 3
analyze --kinds Null => 3
analyze --kinds null --kinds null => 4
analyze --entry 1f => 3
analyze --entry f --format xml => 5
analyze --format JSON => 3
analyze --entry => 3
generate => 2
generate 0 => 3
generate 1000000000 0 => 2
generate x 0 => 2
generate 0 4001 => 3
generate 0 6 6 => 4
generate --model lp64 0 6 => 2";

#[test]
fn refuses_analyses_and_files(rt: HostRuntime) -> Result<(), Fail> {
    let found = read_otherwise(rt.alloc(), ANALYSES_AND_FILES)?;
    assert_eq!(rt; found.as_str(), "");
    Ok(())
}

/// Replays without a function, and invalid inputs.
const ENTRIES: &str = "replay => 2
replay 1f => 2
replay f@0=1 => 2
replay f x= => 3
replay f x=1 y => 4
replay f x=1 --depth 6 => 4
replay f x=18446744073709551616 => 3";

#[test]
fn refuses_entries_and_inputs(rt: HostRuntime) -> Result<(), Fail> {
    let found = read_otherwise(rt.alloc(), ENTRIES)?;
    assert_eq!(rt; found.as_str(), "");
    Ok(())
}
