//! Whole texts of results.

use crate::made::{Made, program};
use cs_model::Kind;
use cs_report::text;
use cs_results::{EntryResult, every_kind};
use std::alloc::{AllocError, Global};
use std::process::Abort;
use std::test::Fail;

const DIVISION: &str = "entry f complete
report divide <input>:1:23 confirmed
  input x = 0
";

const SHORT_ARRAY: &str = "entry f complete
report bounds <input>:1:46 confirmed
  input n = 4
  step <input>:1:29 branch true
  step <input>:1:29 branch true
  step <input>:1:29 branch true
  step <input>:1:29 branch true
report unset <input>:1:60 confirmed
  input n = 0
  step <input>:1:29 branch false
";

const LONG_ARRAY: &str = "entry f bounded
report unset <input>:1:60 confirmed
  input n = 0
  step <input>:1:29 branch false
over visits <input>:1:29 confirmed
  input n = 4
  step <input>:1:29 branch true
  step <input>:1:29 branch true
  step <input>:1:29 branch true
  step <input>:1:29 branch true
";

const CONTRADICTION: &str = "entry f complete
report divide <input>:1:43 assumed
  input x = 0
  input y = 0
  guess 1 = 1 at <input>:1:24
    other 1 x = -2147483648
    other 1 y = -2147483648
    other 2 x = -2147483648
    other 2 y = 2147483647
  guess 3 = 1 at <input>:1:32
    other 1 x = -2147483648
    other 1 y = -2147483648
    other 1 guess 1 = 1
    other 2 x = 2147483647
    other 2 y = -2147483648
    other 2 guess 1 = 1
  step <input>:1:20 branch true
  step <input>:1:28 branch true
";

const MANY_OFFSETS: &str = "entry f cut
report bounds <input>:1:34 confirmed
  input i = -1
cut splits <input>:1:34 1000
";

const TWO_NODES: &str = "entry f cut
cut nodes 2
";

const EVERY_STEP: &str = "entry g complete
report double-free <input>:2:7 assumed
  input n = 7
  input p@8 = 0
  input $g@8 = -6
  input call#2 = 18446744073709551615
  input call#1.0@4 = 5
  input malloc#1 = 1
  guess 2 = -3 at <input>:1:9
    other 1 n = 7
    other 1 malloc#1 = 1
  step <input>:1:10 case 2
  step <input>:1:14 call g
  step <input>:1:16 allocation gives a block
  step <input>:1:18 allocation gives null
";

fn assert_printed(
    rt: &impl Abort,
    alloc: Global,
    results: &[EntryResult],
    names: &[&str],
    kinds: &[Kind],
    wanted: &str,
) -> Result<(), AllocError> {
    let program = program(alloc, names)?;
    let printed = text(alloc, results, &program, kinds)?;
    assert!(rt; printed.as_slice() == wanted.as_bytes(), "{wanted}");
    Ok(())
}

fn assert_text(
    rt: &impl Abort,
    alloc: Global,
    made: Made,
    kinds: &[Kind],
    wanted: &str,
) -> Result<(), Fail> {
    let results = [made.result(alloc)?];
    Ok(assert_printed(rt, alloc, &results, &["f", "g"], kinds, wanted)?)
}

/// The verdict, reports, met budgets and cuts of each entry are printed, with the evidence of each finding.
#[test]
fn results_are_printed_line_by_line(rt: HostRuntime) -> Result<(), Fail> {
    for (made, wanted) in [
        (Made::Division, DIVISION),
        (Made::ShortArray, SHORT_ARRAY),
        (Made::LongArray, LONG_ARRAY),
        (Made::Contradiction, CONTRADICTION),
        (Made::ManyOffsets, MANY_OFFSETS),
        (Made::TwoNodes, TWO_NODES),
        (Made::EveryStep, EVERY_STEP),
    ] {
        assert_text(&rt, rt.alloc(), made, every_kind().as_slice(), wanted)?;
    }
    Ok(())
}

const UNSET: &str = "entry f complete
report unset <input>:1:60 confirmed
  input n = 0
  step <input>:1:29 branch false
";

const CUT: &str = "entry f cut
cut splits <input>:1:34 1000
";

/// Only reports of the requested kinds are printed. Verdicts, met budgets and cuts always are.
#[test]
fn other_kinds_are_left_out(rt: HostRuntime) -> Result<(), Fail> {
    for (made, kinds, wanted) in [
        (
            Made::ShortArray,
            [Kind::Null, Kind::Divide],
            "entry f complete\n",
        ),
        (Made::ShortArray, [Kind::Unset, Kind::Unset], UNSET),
        (Made::ManyOffsets, [Kind::Null, Kind::Unset], CUT),
    ] {
        assert_text(&rt, rt.alloc(), made, &kinds, wanted)?;
    }
    Ok(())
}

const IN_ORDER: &str = "entry f cut
cut nodes 2
entry f complete
report divide <input>:1:23 confirmed
  input x = 0
";

const NAMELESS: &str = "entry  cut
cut nodes 2
entry  complete
report divide <input>:1:23 confirmed
  input x = 0
";

/// Results are printed in order, and a function that the program doesn't have has no name.
#[test]
fn results_are_printed_in_order(rt: HostRuntime) -> Result<(), Fail> {
    let mut results = Vec::new(rt.alloc());
    results.push(Made::TwoNodes.result(rt.alloc())?)?;
    results.push(Made::Division.result(rt.alloc())?)?;
    let kinds = every_kind();
    assert_printed(&rt, rt.alloc(), &results, &["f", "g"], &kinds, IN_ORDER)?;
    assert_printed(&rt, rt.alloc(), &results, &["", "g"], &kinds, NAMELESS)?;
    Ok(())
}
