//! Whole texts of results as JSON.

use crate::made::{Made, program};
use cs_model::Kind;
use cs_report::json;
use cs_results::{EntryResult, every_kind};
use std::alloc::{AllocError, Global};
use std::process::Abort;
use std::test::Fail;

const DIVISION: &str =
    r#"{"entries":[{"cuts":[],"entry":"f","overs":[],"reports":[{"at":"<input>:1:23","confirmed":true,"guesses":[],"inputs":[["x",0]],"kind":"divide","steps":[]}],"verdict":"complete"}]}
"#;

const LONG_ARRAY: &str =
    r#"{"entries":[{"cuts":[],"entry":"f","overs":[{"at":"<input>:1:29","budget":"visits","confirmed":true,"guesses":[],"inputs":[["n",4]],"steps":[["<input>:1:29","branch true"],["<input>:1:29","branch true"],["<input>:1:29","branch true"],["<input>:1:29","branch true"]]}],"reports":[{"at":"<input>:1:60","confirmed":true,"guesses":[],"inputs":[["n",0]],"kind":"unset","steps":[["<input>:1:29","branch false"]]}],"verdict":"bounded"}]}
"#;

const CONTRADICTION: &str =
    r#"{"entries":[{"cuts":[],"entry":"f","overs":[],"reports":[{"at":"<input>:1:43","confirmed":false,"guesses":[{"at":"<input>:1:24","event":1,"number":1,"others":[{"guesses":[],"inputs":[["x",-2147483648],["y",-2147483648]]},{"guesses":[],"inputs":[["x",-2147483648],["y",2147483647]]}]},{"at":"<input>:1:32","event":3,"number":1,"others":[{"guesses":[[1,1]],"inputs":[["x",-2147483648],["y",-2147483648]]},{"guesses":[[1,1]],"inputs":[["x",2147483647],["y",-2147483648]]}]}],"inputs":[["x",0],["y",0]],"kind":"divide","steps":[["<input>:1:20","branch true"],["<input>:1:28","branch true"]]}],"verdict":"complete"}]}
"#;

const MANY_OFFSETS: &str =
    r#"{"entries":[{"cuts":[{"at":"<input>:1:34","splits":1000}],"entry":"f","overs":[],"reports":[{"at":"<input>:1:34","confirmed":true,"guesses":[],"inputs":[["i",-1]],"kind":"bounds","steps":[]}],"verdict":"cut"}]}
"#;

const TWO_NODES: &str =
    r#"{"entries":[{"cuts":[{"nodes":2}],"entry":"f","overs":[],"reports":[],"verdict":"cut"}]}
"#;

const EVERY_STEP: &str =
    r#"{"entries":[{"cuts":[],"entry":"g","overs":[],"reports":[{"at":"<input>:2:7","confirmed":false,"guesses":[{"at":"<input>:1:9","event":2,"number":-3,"others":[{"guesses":[],"inputs":[["n",7],["malloc#1",1]]}]}],"inputs":[["n",7],["p@8",0],["$g@8",-6],["call#2",18446744073709551615],["call#1.0@4",5],["malloc#1",1]],"kind":"double-free","steps":[["<input>:1:10","case 2"],["<input>:1:14","call g"],["<input>:1:16","allocation gives a block"],["<input>:1:18","allocation gives null"]]}],"verdict":"complete"}]}
"#;

fn assert_printed(
    rt: &impl Abort,
    alloc: Global,
    results: &[EntryResult],
    kinds: &[Kind],
    wanted: &str,
) -> Result<(), AllocError> {
    let program = program(alloc, &["f", "g"])?;
    let printed = json(alloc, results, &program, kinds)?;
    assert!(rt; printed.as_slice() == wanted.as_bytes(), "{wanted}");
    Ok(())
}

fn assert_form(
    rt: &impl Abort,
    alloc: Global,
    made: Made,
    kinds: &[Kind],
    wanted: &str,
) -> Result<(), Fail> {
    let results = [made.result(alloc)?];
    Ok(assert_printed(rt, alloc, &results, kinds, wanted)?)
}

/// One object on a line, with the keys of each object in order.
#[test]
fn results_are_one_object(rt: HostRuntime) -> Result<(), Fail> {
    for (made, wanted) in [
        (Made::Division, DIVISION),
        (Made::LongArray, LONG_ARRAY),
        (Made::Contradiction, CONTRADICTION),
        (Made::ManyOffsets, MANY_OFFSETS),
        (Made::TwoNodes, TWO_NODES),
        (Made::EveryStep, EVERY_STEP),
    ] {
        assert_form(&rt, rt.alloc(), made, every_kind().as_slice(), wanted)?;
    }
    Ok(())
}

const NO_REPORTS: &str =
    r#"{"entries":[{"cuts":[],"entry":"f","overs":[],"reports":[],"verdict":"complete"}]}
"#;

/// Reports of other kinds are omitted, and no results are an object without entries.
#[test]
fn other_kinds_are_left_out_of_the_object(rt: HostRuntime) -> Result<(), Fail> {
    let kinds = [Kind::Null, Kind::Divide];
    assert_form(&rt, rt.alloc(), Made::ShortArray, &kinds, NO_REPORTS)?;
    assert_printed(&rt, rt.alloc(), &[], &kinds, "{\"entries\":[]}\n")?;
    Ok(())
}
