//! The answers to the results of an analysis, wherever they come from.
ghost use Rattle.std.specs.Prelude.{◌≡◌, IfOk};
ghost use Rattle.cs_ast.specs.TypedProgram.{typed_program};
ghost use Rattle.cs_commands.specs.Results.{results_text, results_status, IsResultsAnswer};

use cs_answers::{Answer, Status};
use cs_ast::typed::program::Program;
use cs_model::Kind;
use cs_report::{json, text};
use cs_results::{EntryResult, lists_report};
use std::alloc::{AllocError, Global};

/// Returns the answer to results of a program's functions, with the reports of these kinds, as JSON or as lines.
pub fn results_answer(
    alloc: Global,
    program: &Program,
    results: &[EntryResult],
    kinds: &[Kind],
    as_json: bool,
) -> Result<Answer, AllocError>
    ensures { IfOk result (λ answer. IsResultsAnswer as_json (typed_program program.now) kinds.now
        results.now answer.status answer.text.items) }
{
    let text = results_text(alloc, program, results, kinds, as_json)?;
    Ok(Answer {
        status: results_status(results, kinds),
        text,
    })
}

/// Returns the text of results, as JSON or as lines.
fn results_text(
    alloc: Global,
    program: &Program,
    results: &[EntryResult],
    kinds: &[Kind],
    as_json: bool,
) -> Result<Vec<u8>, AllocError>
    ensures { IfOk result (λ text. text.items
        ≡ results_text as_json (typed_program program.now) kinds.now results.now) }
{
    if as_json {
        json(alloc, results, program, kinds)
    } else {
        text(alloc, results, program, kinds)
    }
}

/// Returns `Found` if a report of these kinds is listed.
pub fn results_status(results: &[EntryResult], kinds: &[Kind]) -> Status
    ensures { result ≡ results_status kinds.now results.now }
{
    if lists_report(results, kinds) {
        Status::Found
    } else {
        Status::Clean
    }
}
