//! The analysis of an entry.
ghost use Rattle.std.specs.Prelude.{◌≡◌, ◌≤◌, map, length, IfOk};
ghost use Rattle.cs_ast.specs.TypedProgram.{typed_program};
ghost use Rattle.cs_objects.specs.Prepared.{IsReady};
ghost use Rattle.cs_cfg.specs.GraphView as view;
ghost use Rattle.cs_coverage.specs.IntegerEntries.{IsIntegerEntry};
ghost use Rattle.cs_coverage.specs.Positions.{CoversPositions};
ghost use Rattle.cs_findings.specs.EveryRun.{MissesNothing};
ghost use Rattle.cs_findings.specs.GoodEntries.{IsGoodEntry};
ghost use Rattle.cs_findings.specs.OutOfNodes.{HasReasons};
ghost use Rattle.cs_findings.specs.Runs.{run_budgets};
ghost use Rattle.cs_operators.specs.Asking.{HasEveryKind};
ghost use Rattle.cs_analysis.specs.Cuts.{AreCutForNodes};
ghost use Rattle.cs_analysis.specs.Integers.{KeepsToIntegers};
ghost use Rattle.cs_completeness.specs.Ends.{HasExactEndsOnIntegers};
ghost use Rattle.cs_witness.specs.Entries.{CanRun};

use cs_checker::Checker;
use cs_engine::{Exploration, explore, have_each_once};
use cs_explored::Explored;
use cs_inputs::Inputs;
use cs_objects::Setting;
use cs_progress::Context;
use cs_suspects::{listed, suspects};
use cs_witness::{Entry, Witnessed, result};
use std::alloc::{AllocError, Global};

/// The analysis of an entry.
#[derive(Drop)]
pub struct Analysis {
    pub witnessed: Witnessed,
    /// How many rows the graph has.
    pub rows: u64,
}

/// Explores the runs of an entry, and returns what is shown of their ends. Each end that the exploration finds is replayed and judged,
/// so the findings are true whatever the exploration does.
///
/// For an integer function, no run is missed. The exploration covers its runs, since its code is integer code, and each end that is a
/// fault or a met budget is shown, since the corners of its guesses show that these are real.
pub fn analyze(
    alloc: Global,
    entry: &Entry,
    checkers: &mut Vec<Box<dyn Checker>>,
) -> Result<Analysis, AllocError>
    requires runs { CanRun entry.now }
    requires integers { KeepsToIntegers (view.code entry.now.code.now)
        (typed_program entry.now.program.now) }
    requires nodes { entry.now.budgets.nodes ≤ 200000 }
    ensures good { IfOk result (λ analysis. IsGoodEntry
        (typed_program entry.now.program.now) entry.now.budgets analysis.witnessed.result) }
    ensures complete { IfOk result (λ analysis.
        HasEveryKind (λ b. kind_of b) checkers.old.items → MissesNothing
        (typed_program entry.now.program.now) entry.now.budgets analysis.witnessed.result) }
    ensures reasons { IfOk result (λ analysis.
        HasEveryKind (λ b. kind_of b) checkers.old.items → HasReasons
        (typed_program entry.now.program.now) entry.now.budgets analysis.witnessed.result) }
    ensures entry { IfOk result (λ analysis.
        analysis.witnessed.result.entry ≡ entry.now.function) }
    ensures rows { IfOk result (λ analysis. analysis.rows ≤ entry.now.budgets.nodes) }
    ensures kinds { map (λ b. kind_of b) checkers.new.items
        ≡ map (λ b. kind_of b) checkers.old.items }
{
    let explored = explored(alloc, entry, checkers)?;
    have_each_once(&explored.tables);
    let found = suspects(alloc, &explored)?;
    let cuts = listed(alloc, &explored.cuts)?;
    let rows = explored.rows.len() as u64;
    let witnessed = result(alloc, entry, &found, cuts)?;
    Ok(Analysis { witnessed, rows })
}

// Returns what an exploration of the entry finds. No inputs are given, so all of them are unknown.
fn explored(
    alloc: Global,
    entry: &Entry,
    checkers: &mut Vec<Box<dyn Checker>>,
) -> Result<Explored, AllocError>
    requires runs { CanRun entry.now }
    requires nodes { entry.now.budgets.nodes ≤ 200000 }
    ensures covers { IfOk result (λ explored.
        HasEveryKind (λ b. kind_of b) checkers.old.items
        → IsIntegerEntry (view.code entry.now.code.now) (typed_program entry.now.program.now)
        entry.now.function → CoversPositions (view.code entry.now.code.now)
        (typed_program entry.now.program.now) entry.now.function
        (run_budgets entry.now.budgets) explored) }
    ensures ends { IfOk result (λ explored. HasEveryKind (λ b. kind_of b) checkers.old.items
        → HasExactEndsOnIntegers (view.code entry.now.code.now)
        (typed_program entry.now.program.now) entry.now.function entry.now.budgets explored) }
    ensures cuts { IfOk result (λ explored. HasEveryKind (λ b. kind_of b) checkers.old.items
        → AreCutForNodes (view.code entry.now.code.now) (typed_program entry.now.program.now)
        entry.now.function entry.now.budgets explored) }
    ensures rows { IfOk result (λ explored.
        length explored.rows.items ≤ entry.now.budgets.nodes) }
    ensures kinds { map (λ b. kind_of b) checkers.new.items
        ≡ map (λ b. kind_of b) checkers.old.items }
{
    let inputs = Inputs::new(alloc);
    let setting = Setting {
        program: entry.program,
        prepared: entry.prepared,
        inputs: &inputs,
        guesses: &[],
        budgets: entry.budgets.of_runs(),
    };
    explored_in(alloc, entry, &setting, checkers)
}

fn explored_in(
    alloc: Global,
    entry: &Entry,
    setting: &Setting,
    checkers: &mut Vec<Box<dyn Checker>>,
) -> Result<Explored, AllocError>
    requires ready { IsReady setting.now }
    requires program { setting.now.program.now ≡ entry.now.program.now }
    requires budgets { setting.now.budgets ≡ run_budgets entry.now.budgets }
    requires nodes { entry.now.budgets.nodes ≤ 200000 }
    ensures covers { IfOk result (λ explored.
        HasEveryKind (λ b. kind_of b) checkers.old.items
        → IsIntegerEntry (view.code entry.now.code.now) (typed_program entry.now.program.now)
        entry.now.function → CoversPositions (view.code entry.now.code.now)
        (typed_program entry.now.program.now) entry.now.function
        (run_budgets entry.now.budgets) explored) }
    ensures ends { IfOk result (λ explored. HasEveryKind (λ b. kind_of b) checkers.old.items
        → HasExactEndsOnIntegers (view.code entry.now.code.now)
        (typed_program entry.now.program.now) entry.now.function entry.now.budgets explored) }
    ensures cuts { IfOk result (λ explored. HasEveryKind (λ b. kind_of b) checkers.old.items
        → AreCutForNodes (view.code entry.now.code.now) (typed_program entry.now.program.now)
        entry.now.function entry.now.budgets explored) }
    ensures rows { IfOk result (λ explored.
        length explored.rows.items ≤ entry.now.budgets.nodes) }
    ensures kinds { map (λ b. kind_of b) checkers.new.items
        ≡ map (λ b. kind_of b) checkers.old.items }
{
    let context = Context {
        alloc,
        code: entry.code,
        setting,
    };
    let exploration = Exploration {
        context: &context,
        budgets: entry.budgets,
        rules: &[],
    };
    explore(&exploration, entry.function, checkers)
}
