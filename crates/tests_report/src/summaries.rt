//! Whole summaries.

use crate::made::Made;
use cs_report::summary;
use cs_results::EntryResult;
use std::alloc::{AllocError, Global};
use std::process::Abort;
use std::test::Fail;

fn five(alloc: Global) -> Result<Vec<EntryResult>, Fail> {
    let mut results = Vec::new(alloc);
    for made in [
        Made::Division,
        Made::ShortArray,
        Made::LongArray,
        Made::TwoNodes,
        Made::Contradiction,
    ] {
        results.push(made.result(alloc)?)?;
    }
    Ok(results)
}

fn assert_summary(
    rt: &impl Abort,
    alloc: Global,
    bytes: usize,
    results: &[EntryResult],
    wanted: &str,
) -> Result<(), AllocError> {
    let printed = summary(alloc, bytes, results)?;
    assert!(rt; printed.as_slice() == wanted.as_bytes(), "{wanted}");
    Ok(())
}

const NONE: &str = "bytes 0
entries 0
complete 0
bounded 0
cut 0
";

const FIVE: &str = "bytes 310
entries 5
complete 3
bounded 1
cut 1
report divide 2
report unset 2
report bounds 1
";

/// Counts of entries by verdict, and of reports by kind.
#[test]
fn results_are_counted(rt: HostRuntime) -> Result<(), Fail> {
    let results = five(rt.alloc())?;
    assert_summary(&rt, rt.alloc(), 0, &[], NONE)?;
    assert_summary(&rt, rt.alloc(), 310, &results, FIVE)?;
    Ok(())
}
