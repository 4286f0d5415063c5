//! Programs and results that are made by hand.

use cs_ast::Place;
use cs_ast::typed::program::{Function, Program};
use cs_events::{Budget, Event, Guess, Label, Outcome};
use cs_inputs::{Inputs, parse};
use cs_model::Kind;
use cs_names::Name;
use cs_results::{Cut, EntryResult, Finding, Ground, Others, Run, Verdict};
use cs_types::{CType, DataModel, IntType, StructTable, Structs};
use std::alloc::{AllocError, Global};
use std::test::Fail;

/// A position in the file on standard input.
pub const fn at(line: u32, column: u32) -> Place {
    Place {
        file: 0,
        line,
        column,
    }
}

fn one_file(alloc: Global) -> Result<Vec<Name>, AllocError> {
    Ok(vec![in alloc; Name::from_slice(alloc, b"<input>".as_slice())?]?)
}

fn functions_of(alloc: Global, names: &[&str]) -> Result<Vec<Function>, AllocError> {
    let mut functions = Vec::new(alloc);
    for name in names {
        functions.push(function(alloc, name)?)?;
    }
    Ok(functions)
}

/// A program with functions of these names, whose one file is standard input.
pub fn program(alloc: Global, names: &[&str]) -> Result<Program, AllocError> {
    let files = one_file(alloc)?;
    let functions = functions_of(alloc, names)?;
    Ok(Program {
        model: DataModel::Lp64,
        files,
        table: StructTable {
            list: Structs::new(alloc),
        },
        globals: Vec::new(alloc),
        literals: Vec::new(alloc),
        functions,
        constants: Vec::new(alloc),
    })
}

fn function(alloc: Global, name: &str) -> Result<Function, AllocError> {
    Ok(Function {
        name: Name::from_slice(alloc, name.as_bytes())?,
        place: at(1, 5),
        result: CType::Int(IntType::Int),
        parameters: 0,
        locals: Vec::new(alloc),
        body: None,
        end: at(1, 5),
        written: Vec::new(alloc),
    })
}

/// Parses inputs as `x=3`, with spaces between them.
fn inputs(alloc: Global, texts: &str) -> Result<Inputs, Fail> {
    let mut inputs = Inputs::new(alloc);
    for text in texts.split_ascii_whitespace() {
        let (path, number) = parse(alloc, text.as_bytes())?;
        inputs.set(path, number)?;
    }
    Ok(inputs)
}

/// A run with these inputs and guesses.
fn run(alloc: Global, texts: &str, guesses: &[Guess]) -> Result<Run, Fail> {
    let inputs = inputs(alloc, texts)?;
    let guesses = guesses.to_vec(alloc)?;
    Ok(Run { inputs, guesses })
}

const fn guess(event: u64, number: i128) -> Guess {
    Guess { event, number }
}

/// An event on line 1.
const fn event(column: u32, label: Label) -> Event {
    Event {
        place: at(1, column),
        label,
    }
}

const fn branch(column: u32, truth: bool) -> Event {
    event(column, Label::Branch(truth))
}

/// Returns a finding of a run with grounds.
fn finding(
    alloc: Global,
    what: Outcome,
    run: Run,
    grounds: Vec<Ground>,
    events: &[Event],
) -> Result<Finding, AllocError> {
    Ok(Finding {
        what,
        run,
        grounds,
        events: events.to_vec(alloc)?,
    })
}

/// Returns a finding of a run without guesses.
fn confirmed(alloc: Global, what: Outcome, texts: &str, events: &[Event]) -> Result<Finding, Fail> {
    let run = run(alloc, texts, &[])?;
    Ok(finding(alloc, what, run, Vec::new(alloc), events)?)
}

/// A fault on line 1.
const fn fault(kind: Kind, column: u32) -> Outcome {
    Outcome::Fault(kind, at(1, column))
}

/// The result for an entry whose findings are reports.
fn reported(alloc: Global, entry: u32, verdict: Verdict, reports: Vec<Finding>) -> EntryResult {
    EntryResult {
        entry,
        verdict,
        reports,
        overs: Vec::new(alloc),
        cuts: Vec::new(alloc),
    }
}

/// The result for an entry with one report.
fn one_report(
    alloc: Global,
    entry: u32,
    verdict: Verdict,
    report: Finding,
) -> Result<EntryResult, AllocError> {
    let reports = vec![in alloc; report]?;
    Ok(reported(alloc, entry, verdict, reports))
}

/// A result that is made by hand.
#[derive(Clone, Copy)]
pub enum Made {
    Division,
    ShortArray,
    LongArray,
    Contradiction,
    ManyOffsets,
    TwoNodes,
    EveryStep,
}

impl Made {
    pub fn result(self, alloc: Global) -> Result<EntryResult, Fail> {
        match self {
            Made::Division => division(alloc),
            Made::ShortArray => short_array(alloc),
            Made::LongArray => long_array(alloc),
            Made::Contradiction => contradiction(alloc),
            Made::ManyOffsets => many_offsets(alloc),
            Made::TwoNodes => two_nodes(alloc),
            Made::EveryStep => every_step(alloc),
        }
    }
}

/// Returns the result for `int f(int x){return 10/x;}`.
fn division(alloc: Global) -> Result<EntryResult, Fail> {
    let report = confirmed(alloc, fault(Kind::Divide, 23), "x=0", &[])?;
    Ok(one_report(alloc, 0, Verdict::Complete, report)?)
}

/// Returns a finding of an access past the end in `int f(int n){int a[3];int i;for(i=0;i<n;i++)a[i]=0;return a[0];}`.
fn past_the_end(alloc: Global) -> Result<Finding, Fail> {
    let events = [
        event(34, Label::Truth(true)),
        branch(29, true),
        event(46, Label::Offset(0)),
        branch(29, true),
        branch(29, true),
        branch(29, true),
    ];
    confirmed(alloc, fault(Kind::Bounds, 46), "n=4", &events)
}

/// Returns the result for that function.
fn short_array(alloc: Global) -> Result<EntryResult, Fail> {
    let mut reports = Vec::new(alloc);
    reports.push(past_the_end(alloc)?)?;
    let events = [event(34, Label::Truth(false)), branch(29, false)];
    reports.push(confirmed(alloc, fault(Kind::Unset, 60), "n=0", &events)?)?;
    Ok(reported(alloc, 0, Verdict::Complete, reports))
}

/// The same with nine elements, so that the budget of visits is exceeded.
fn long_array(alloc: Global) -> Result<EntryResult, Fail> {
    let over = Outcome::Over(Budget::Visits, at(1, 29));
    let over = confirmed(alloc, over, "n=4", &[branch(29, true); 4])?;
    let mut overs = Vec::new(alloc);
    overs.push(over)?;
    let unset = confirmed(alloc, fault(Kind::Unset, 60), "n=0", &[branch(29, false)])?;
    Ok(EntryResult {
        entry: 0,
        verdict: Verdict::Bounded,
        reports: vec![in alloc; unset]?,
        overs,
        cuts: Vec::new(alloc),
    })
}

/// Returns the ground of a guess with two other runs, which have these inputs.
fn ground(
    alloc: Global,
    guess: Guess,
    column: u32,
    texts: (&str, &str),
    guesses: &[Guess],
) -> Result<Ground, Fail> {
    let first = run(alloc, texts.0, guesses)?;
    let second = run(alloc, texts.1, guesses)?;
    Ok(Ground {
        guess,
        place: at(1, column),
        others: Others::Two(first, second),
    })
}

/// Returns the grounds of two guesses, whose other runs are at corners of both ranges.
fn two_grounds(alloc: Global) -> Result<Vec<Ground>, Fail> {
    let least = "x=-2147483648 y=-2147483648";
    let upper = "x=-2147483648 y=2147483647";
    let right = "x=2147483647 y=-2147483648";
    let mut grounds = Vec::new(alloc);
    grounds.push(ground(alloc, guess(1, 1), 24, (least, upper), &[])?)?;
    grounds.push(ground(alloc, guess(3, 1), 32, (least, right), &[guess(1, 1)])?)?;
    Ok(grounds)
}

/// Returns the result for `int f(int x,int y){if(x<y){if(y<x)return 1/0;}return 0;}`.
fn contradiction(alloc: Global) -> Result<EntryResult, Fail> {
    let events = [
        event(24, Label::Truth(true)),
        branch(20, true),
        event(32, Label::Truth(true)),
        branch(28, true),
    ];
    let grounds = two_grounds(alloc)?;
    let run = run(alloc, "x=0 y=0", &[guess(1, 1), guess(3, 1)])?;
    let report = finding(alloc, fault(Kind::Divide, 43), run, grounds, &events)?;
    Ok(one_report(alloc, 0, Verdict::Complete, report)?)
}

/// Returns the result for `int t[1000];int f(int i){return t[i];}`.
fn many_offsets(alloc: Global) -> Result<EntryResult, Fail> {
    let cuts = vec![in alloc; Cut::Splits(at(1, 34), 1000)]?;
    let report = confirmed(alloc, fault(Kind::Bounds, 34), "i=-1", &[])?;
    Ok(EntryResult {
        entry: 0,
        verdict: Verdict::Cut,
        reports: vec![in alloc; report]?,
        overs: Vec::new(alloc),
        cuts,
    })
}

/// Returns a result with a cut of two nodes.
fn two_nodes(alloc: Global) -> Result<EntryResult, Fail> {
    Ok(EntryResult {
        entry: 0,
        verdict: Verdict::Cut,
        reports: Vec::new(alloc),
        overs: Vec::new(alloc),
        cuts: vec![in alloc; Cut::Nodes(2)]?,
    })
}

/// Returns the ground of a guess with one other run.
fn one_ground(alloc: Global) -> Result<Ground, Fail> {
    Ok(Ground {
        guess: guess(2, -3),
        place: at(1, 9),
        others: Others::One(run(alloc, "n=7 malloc#1=1", &[])?),
    })
}

/// Returns the result for a run whose steps show a case, a call and the result of an allocation, with an input of each kind.
fn every_step(alloc: Global) -> Result<EntryResult, Fail> {
    let events = [
        event(10, Label::Case(2)),
        event(12, Label::Look(true)),
        event(14, Label::Callee(1)),
        event(16, Label::Alloc(true)),
        event(18, Label::Alloc(false)),
    ];
    let grounds = vec![in alloc; one_ground(alloc)?]?;
    let inputs = "malloc#1=1 call#1.0@4=5 $g@8=-6 n=7 p@8=0 call#2=18446744073709551615";
    let run = run(alloc, inputs, &[guess(2, -3)])?;
    let what = Outcome::Fault(Kind::DoubleFree, at(2, 7));
    let report = finding(alloc, what, run, grounds, &events)?;
    Ok(one_report(alloc, 1, Verdict::Complete, report)?)
}
