//! The exploration of an entry, row by row.
ghost use Rattle.std.specs.Prelude.{◌≡◌, ◌≤◌, ℕ, map, length, IfOk, OnOk};
ghost use Rattle.cs_objects.specs.Prepared.{IsReady};
ghost use Rattle.cs_explored.specs.Found.{IsSound, Grows, AreLinked, AreOfRows};
ghost use Rattle.cs_operators.specs.Asking.{HasEveryKind};
ghost use Rattle.cs_coverage.specs.Closing.{Waits, IsOpen};
ghost use Rattle.cs_invariants.specs.Exploring.{ExploresIntegers, IsKept, IsDone, LeadsOn};
ghost use Rattle.cs_invariants.specs.Exploring.{CoversIntegers, CoversOwnOnIntegers, CoversLiveOnIntegers};
ghost use Rattle.cs_invariants.specs.Exploring.{IsExactOnIntegers};
ghost use Rattle.cs_invariants.specs.Exploring.{HasOwnOnIntegers, HasReasonsOnIntegers, HasGuessesOnIntegers};

use crate::entry::start;
use crate::numbering::have_each_once;
use cs_checker::Checker;
use cs_children::Children;
use cs_explored::{Explored, Findings};
use cs_keys::laws::keys_are_exact;
use cs_successors::Exploration;
use std::alloc::AllocError;

/// Explores all runs of an entry, and returns the rows, the ends and the cuts.
pub fn explore(
    exploration: &Exploration,
    entry: u32,
    checkers: &mut Vec<Box<dyn Checker>>,
) -> Result<Explored, AllocError>
    requires ready { IsReady exploration.now.context.now.setting.now }
    requires nodes { exploration.now.budgets.nodes ≤ 200000 }
    ensures few { IfOk result (λ explored.
        length explored.rows.items ≤ exploration.now.budgets.nodes) }
    ensures linked { IfOk result (λ explored. AreLinked explored.rows.items) }
    ensures ends { IfOk result (λ explored.
        AreOfRows explored.rows.items explored.ends.items) }
    ensures covers { IfOk result (λ explored.
        HasEveryKind (λ b. kind_of b) checkers.old.items
        → CoversIntegers exploration.now entry explored) }
    ensures agrees { IfOk result (λ explored.
        HasEveryKind (λ b. kind_of b) checkers.old.items
        → CoversOwnOnIntegers exploration.now entry explored) }
    ensures live { IfOk result (λ explored.
        HasEveryKind (λ b. kind_of b) checkers.old.items
        → CoversLiveOnIntegers exploration.now entry explored) }
    ensures exact { IfOk result (λ explored.
        HasEveryKind (λ b. kind_of b) checkers.old.items
        → IsExactOnIntegers exploration.now entry explored) }
    ensures own { IfOk result (λ explored.
        HasEveryKind (λ b. kind_of b) checkers.old.items
        → HasOwnOnIntegers exploration.now entry explored) }
    ensures cuts { IfOk result (λ explored.
        HasEveryKind (λ b. kind_of b) checkers.old.items
        → HasReasonsOnIntegers exploration.now entry explored) }
    ensures guesses { IfOk result (λ explored.
        HasEveryKind (λ b. kind_of b) checkers.old.items
        → HasGuessesOnIntegers exploration.now entry explored) }
    ensures kinds { map (λ b. kind_of b) checkers.new.items
        ≡ map (λ b. kind_of b) checkers.old.items }
{
    let mut findings = begin(exploration, entry)?;
    expand_all(exploration, &mut findings, checkers)?;
    have_each_once(&findings.tables);
    Ok(findings.explored())
}

// The findings with the row in which the entry begins, if the budget of nodes allows one.
fn begin(exploration: &Exploration, entry: u32) -> Result<Findings, AllocError>
    requires ready { IsReady exploration.now.context.now.setting.now }
    requires nodes { exploration.now.budgets.nodes ≤ 200000 }
    ensures sound { IfOk result (λ findings. IsSound findings) }
    ensures nodes { IfOk result (λ findings.
        findings.nodes ≡ exploration.now.budgets.nodes) }
    ensures begins { IfOk result (λ findings.
        ExploresIntegers exploration.now entry
        → IsKept exploration.now entry Waits findings) }
{
    let alloc = exploration.context.alloc;
    let mut findings = Findings::new(alloc, exploration.budgets.nodes);
    let state = start(exploration.context, entry, &mut findings.tables)?;
    have_each_once(&findings.tables);
    let state = Box::new(alloc, state)?;
    findings.add_first(alloc, state)?;
    Ok(findings)
}

// Finds the children and ends of each row, until no row waits or the graph is full.
fn expand_all(
    exploration: &Exploration,
    findings: &mut Findings,
    checkers: &mut Vec<Box<dyn Checker>>,
) -> Result<(), AllocError>
    requires { IsReady exploration.now.context.now.setting.now }
    ensures grows { OnOk result (Grows findings.old findings.new) }
    ensures done { OnOk result (HasEveryKind (λ b. kind_of b) checkers.old.items
        → (entry : ℕ) → ExploresIntegers exploration.now entry
        → IsKept exploration.now entry Waits findings.old
        → IsDone exploration.now entry findings.new) }
    ensures kinds { map (λ b. kind_of b) checkers.new.items
        ≡ map (λ b. kind_of b) checkers.old.items }
{
    for _ in 0..u64::MAX {
        let Some(row) = findings.graph.next() else {
            return Ok(());
        };
        if !expand(exploration, findings, row, checkers)? {
            return Ok(());
        }
    }
    Err(AllocError)
}

// Finds the successors of a row: its ends and cuts first, then its children. False if the graph is full.
fn expand(
    exploration: &Exploration,
    findings: &mut Findings,
    row: u32,
    checkers: &mut Vec<Box<dyn Checker>>,
) -> Result<bool, AllocError>
    requires { IsReady exploration.now.context.now.setting.now }
    ensures grows { OnOk result (Grows findings.old findings.new) }
    ensures expands { IfOk result (λ added. HasEveryKind (λ b. kind_of b) checkers.old.items
        → (entry : ℕ) → ExploresIntegers exploration.now entry
        → ¬ Waits findings.old.graph.work row
        → IsKept exploration.now entry (IsOpen row) findings.old
        → LeadsOn exploration.now entry added findings.new) }
    ensures kinds { map (λ b. kind_of b) checkers.new.items
        ≡ map (λ b. kind_of b) checkers.old.items }
{
    keys_are_exact();
    let alloc = exploration.context.alloc;
    let Some(from) = findings.graph.rows().get(row as usize) else {
        return Err(AllocError);
    };
    let state = Box::new(alloc, from.state.copy()?)?;
    let mut children = Children::new(alloc);
    children.find(exploration, state, &mut findings.tables, checkers)?;
    have_each_once(&findings.tables);
    let Children { made, ends, cuts } = children;
    findings.add_ends(row, ends)?;
    findings.add_cuts(&cuts)?;
    let added = findings.add_all(alloc, row, made)?;
    Ok(added)
}
