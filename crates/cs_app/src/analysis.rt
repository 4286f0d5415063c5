//! The answers to analyses of a program's functions.
ghost use Rattle.std.specs.Prelude.{◌≡◌, ◌≤◌, [], ◌∷◌, ◌++◌, if◌then◌else◌, is_some, length, map, Some, IfOk, OnOk};
ghost use Rattle.cs_ast.specs.TypedProgram.{HasLayouts, routine, typed_program};
ghost use Rattle.cs_cfg.specs.GraphView as view;
ghost use Rattle.cs_cfg.specs.Lowered.{IsLowered};
ghost use Rattle.cs_objects.specs.Prepared.{IsPrepared};
ghost use Rattle.cs_generate.specs.GeneratedFile.{generated_file};
ghost use Rattle.cs_well_formed.specs.Programs.{IsWellFormed};
ghost use Rattle.cs_analysis.specs.Integers.{KeepsToIntegers};
ghost use Rattle.cs_app.specs.Analyses as analyses;
ghost use Rattle.cs_app.specs.Analyses.{AreGoodResults, IsAnalysis, IsAnalysisAnswer, IsSummary};

use cs_analysis::analyze;
use cs_answers::Answer;
use cs_ast::typed::program::{Function, Program};
use cs_cfg::Code;
use cs_checker::Checker;
use cs_commands::{refused_entry, results_answer, results_status};
use cs_entries::{entry_of, number_of};
use cs_lower::lower;
use cs_objects::prepared::Prepared;
use cs_report::summary;
use cs_results::{Budgets, EntryResult, every_kind};
use cs_witness::Entry;
use cs_words::{AnalyzeWords, GenerateWords};
use std::alloc::{AllocError, Global};
use std::mem::forget;

/// The most states that an exploration can number. The command line allows no more nodes.
const MOST_NODES: u64 = 200_000;

/// Returns the analysis of the function that the command line names, or of each function with a body.
pub fn analysis(
    alloc: Global,
    words: &AnalyzeWords,
    program: &Program,
    checkers: &mut Vec<Box<dyn Checker>>,
) -> Result<Answer, AllocError>
    requires { IsWellFormed (typed_program program.now) }
    ensures answer { IfOk result (λ answer.
        IsAnalysisAnswer (map (λ b. kind_of b) checkers.old.items) words.now
        (typed_program program.now) answer.status answer.text.items) }
    ensures kinds { map (λ b. kind_of b) checkers.new.items
        ≡ map (λ b. kind_of b) checkers.old.items }
{
    let Some(name) = &words.entry else {
        let entries = bodies(alloc, program)?;
        let answer = analysis_of(alloc, words, program, &entries, checkers)?;
        return Ok(answer);
    };
    match entry_of(&program.functions, name) {
        Some(entry) => {
            let answer = analysis_of(alloc, words, program, &[entry], checkers)?;
            Ok(answer)
        }
        None => {
            let answer = refused_entry(alloc, name)?;
            Ok(answer)
        }
    }
}

/// Returns the analysis of these functions, with the settings of the command line.
fn analysis_of(
    alloc: Global,
    words: &AnalyzeWords,
    program: &Program,
    entries: &[usize],
    checkers: &mut Vec<Box<dyn Checker>>,
) -> Result<Answer, AllocError>
    requires { IsWellFormed (typed_program program.now) }
    ensures answer { IfOk result (λ answer. (analyses.entries_named words.now.entry
        (typed_program program.now) ≡ Some entries.now)
        → IsAnalysis (map (λ b. kind_of b) checkers.old.items) words.now
        (typed_program program.now) answer.status answer.text.items) }
    ensures kinds { map (λ b. kind_of b) checkers.new.items
        ≡ map (λ b. kind_of b) checkers.old.items }
{
    let results = results_of(alloc, program, words.budgets, entries, checkers)?;
    let kinds = words.kinds.as_slice();
    results_answer(alloc, program, &results, kinds, words.json)
}

/// Returns the summary of the analysis of each function with a body, under the default budgets. The program is that of the file, which the
/// command line generates.
pub fn summarized(
    alloc: Global,
    words: &GenerateWords,
    file: &[u8],
    program: &Program,
    checkers: &mut Vec<Box<dyn Checker>>,
) -> Result<Answer, AllocError>
    requires well_formed { IsWellFormed (typed_program program.now) }
    requires file { file.now ≡ generated_file words.now.seed words.now.size }
    ensures answer { IfOk result (λ answer. IsSummary (map (λ b. kind_of b) checkers.old.items)
        (length (generated_file words.now.seed words.now.size)) (typed_program program.now)
        answer.status answer.text.items) }
    ensures kinds { map (λ b. kind_of b) checkers.new.items
        ≡ map (λ b. kind_of b) checkers.old.items }
{
    let budgets = Budgets {
        visits: 4,
        depth: 5,
        events: 20_000,
        nodes: 150_000,
        splits: 64,
    };
    let entries = bodies(alloc, program)?;
    let results = results_of(alloc, program, budgets, &entries, checkers)?;
    let text = summary(alloc, file.len(), &results)?;
    let kinds = every_kind();
    Ok(Answer {
        status: results_status(&results, &kinds),
        text,
    })
}

/// Returns the numbers of the functions of a program that have a body.
#[tactic(auto, using(crate::proofs::AnalysisLemmas::all_bodies))]
fn bodies(alloc: Global, program: &Program) -> Result<Vec<usize>, AllocError>
    ensures { IfOk result (λ list. list.items ≡ analyses.bodies (typed_program program.now)) }
{
    let mut list = Vec::new(alloc);
    for (number, function) in program.functions.iter().enumerate() {
        add_body(&mut list, number, function)?;
    }
    Ok(list)
}

/// Adds the number of a function, if it has a body.
fn add_body(list: &mut Vec<usize>, number: usize, function: &Function) -> Result<(), AllocError>
    ensures { OnOk result (list.new.items
        ≡ list.old.items ++ (if is_some (routine function.now).body then number ∷ [] else [])) }
{
    if function.body.is_some() {
        list.push(number)?;
    }
    Ok(())
}

/// Returns the results of these functions, in order.
fn results_of(
    alloc: Global,
    program: &Program,
    budgets: Budgets,
    entries: &[usize],
    checkers: &mut Vec<Box<dyn Checker>>,
) -> Result<Vec<EntryResult>, AllocError>
    requires { IsWellFormed (typed_program program.now) }
    ensures good { IfOk result (λ results.
        AreGoodResults (map (λ b. kind_of b) checkers.old.items) (typed_program program.now)
        budgets entries.now results.items) }
    ensures kinds { map (λ b. kind_of b) checkers.new.items
        ≡ map (λ b. kind_of b) checkers.old.items }
{
    if budgets.nodes > MOST_NODES {
        return Err(AllocError);
    }
    let code = lower(alloc, program)?;
    match Prepared::new(alloc, program) {
        Ok(prepared) => {
            let results = results_with(
                alloc, program, &prepared, &code, budgets, entries, checkers,
            )?;
            // The program ends after this, so the code needn't be freed piece by piece.
            forget(code);
            Ok(results)
        }
        Err(_) => Err(AllocError),
    }
}

/// The same for a program that is lowered already, and for whose runs the shared data is prepared.
fn results_with(
    alloc: Global,
    program: &Program,
    prepared: &Prepared,
    code: &Code,
    budgets: Budgets,
    entries: &[usize],
    checkers: &mut Vec<Box<dyn Checker>>,
) -> Result<Vec<EntryResult>, AllocError>
    requires laid_out { HasLayouts program.now }
    requires prepared { IsPrepared prepared.now program.now }
    requires lowered { IsLowered (view.code code.now) (typed_program program.now) }
    requires integers { KeepsToIntegers (view.code code.now) (typed_program program.now) }
    requires nodes { budgets.nodes ≤ 200000 }
    ensures good { IfOk result (λ results.
        AreGoodResults (map (λ b. kind_of b) checkers.old.items) (typed_program program.now)
        budgets entries.now results.items) }
    ensures kinds { map (λ b. kind_of b) checkers.new.items
        ≡ map (λ b. kind_of b) checkers.old.items }
{
    let mut results = Vec::new(alloc);
    for number in entries {
        let entry = Entry {
            program,
            prepared,
            code,
            function: number_of(*number)?,
            budgets,
        };
        let analysis = analyze(alloc, &entry, checkers)?;
        results.push(analysis.witnessed.result)?;
    }
    Ok(results)
}
