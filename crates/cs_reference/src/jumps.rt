//! Jumps (C11 6.8.6): the things to do at the targets of `break`, `continue` and `goto`.
ghost use Rattle.cs_ast.specs.TypedProgram.{routine};
ghost use Rattle.cs_ast.specs.TypedView.{statement};
ghost use Rattle.cs_meaning.specs.Machine as machine;
ghost use Rattle.cs_meaning.specs.Jumps as jumps;
ghost use Rattle.cs_meaning.specs.Statements as statements;
ghost use Rattle.cs_meaning.specs.Steps as steps;
ghost use Rattle.cs_runner.specs.RunnerView.{program_of, budgets_of, state_in, Performs};

use cs_ast::typed::program::Function;
use cs_ast::typed::statement::Stmt;
use cs_events::PointKind;
use cs_frames::landing::{function_of, seek, set_todo};
use cs_frames::lists::put_first;
use cs_objects::blocks::BlockType;
use cs_run_log::Stop;
use cs_run_state::items::Item;
use cs_runner::runner::Runner;

/// Jumps to a label of the current function, which is reached; if there is no such label, continues with the next statement.
pub fn go_to(run: &mut Runner, label: u32) -> Result<(), Stop>
    ensures { Performs run.old run.new result
        (statements.go_to (program_of run.old) (budgets_of run.old) label
        (steps.at_end (machine.routine_of (program_of run.old)
        (state_in run.old).frame.function)) (state_in run.old)) }
{
    let number = function_of(&run.machine) as usize;
    match run.setting.program.functions.get(number) {
        Some(function) => match &function.body {
            Some(body) => go_to_in(run, label, function, body),
            None => Ok(()),
        },
        None => Ok(()),
    }
}

// The same, given the body of the current function.
fn go_to_in<'a>(
    run: &mut Runner<'a>,
    label: u32,
    function: &'a Function,
    body: &'a Stmt,
) -> Result<(), Stop>
    ensures { Performs run.old run.new result
        (statements.lands (budgets_of run.old)
        (jumps.landing label (statement body.now) 0 (steps.at_end (routine function.now)))
        (state_in run.old)) }
{
    let mut todo = Vec::new(*run.machine.frame.todo.allocator());
    put_first(
        &mut todo,
        Item::End(function.end, BlockType::Of(&function.result)),
    )?;
    match seek(label, body, 0, &mut todo)? {
        Some(landing) => {
            set_todo(&mut run.machine, todo);
            run.reach_counted_point(landing.place, PointKind::Label, landing.counted_point)
        }
        None => Ok(()),
    }
}
