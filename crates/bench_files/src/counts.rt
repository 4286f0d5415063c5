//! The counts of analyses.

use cs_analysis::Analysis;
use std::io;

/// Counts over the functions of a program. They don't exceed the greatest `u64`.
#[derive(Default, Drop)]
pub struct Counts {
    functions: u64,
    rows: u64,
    findings: u64,
    dropped: u64,
}

impl Counts {
    /// Counts one more function.
    pub fn add(&mut self, analysis: &Analysis) {
        let shown = analysis.witnessed.result.reports.len() as u64;
        self.functions = self.functions.saturating_add(1);
        self.rows = self.rows.saturating_add(analysis.rows);
        self.findings = self.findings.saturating_add(shown);
        self.dropped = self.dropped.saturating_add(analysis.witnessed.dropped);
    }

    /// Prints the counts, one on each line.
    pub fn print(&self, rt: &HostRuntime) -> io::Result<()> {
        println!(rt; "functions {}", self.functions)?;
        println!(rt; "rows {}", self.rows)?;
        println!(rt; "findings {}", self.findings)?;
        println!(rt; "dropped {}", self.dropped)
    }
}
