//! Commands: what a command line requests.

use crate::kinds::Kinds;
use cs_events::RunBudgets;
use cs_inputs::Inputs;
use cs_names::Name;
use cs_results::Budgets;
use cs_types::DataModel;

/// A command.
#[derive(Debug, Drop)]
pub enum Command {
    /// Analyze the file on standard input.
    Analyze(AnalyzeWords),
    /// Print the control points of the functions of the file on standard input.
    Flow(FlowWords),
    /// Replay one run of the file on standard input.
    Replay(ReplayWords),
    /// Analyze a generated file.
    Generate(GenerateWords),
}

/// The settings of an analysis.
#[derive(Debug, Drop)]
pub struct AnalyzeWords {
    /// The budgets of the analysis.
    pub budgets: Budgets,
    /// The kinds whose reports are printed.
    pub kinds: Kinds,
    /// The function that is analyzed, or None for each one with a body.
    pub entry: Option<Name>,
    /// Whether the output is JSON.
    pub json: bool,
    /// The sizes of `long` and of pointers.
    pub model: DataModel,
}

/// The settings of the output of control points.
#[derive(Debug, Drop)]
pub struct FlowWords {
    /// The sizes of `long` and of pointers.
    pub model: DataModel,
}

/// The settings of a replay.
#[derive(Debug, Drop)]
pub struct ReplayWords {
    /// The budgets of the run.
    pub budgets: RunBudgets,
    /// The function that the run begins in.
    pub entry: Name,
    /// The numbers of the unknown cells.
    pub inputs: Inputs,
    /// The sizes of `long` and of pointers.
    pub model: DataModel,
}

/// The settings of a generated file.
#[derive(Debug, Drop)]
pub struct GenerateWords {
    /// The number that determines the file's functions.
    pub seed: u32,
    /// How many functions the file has.
    pub size: u32,
}
