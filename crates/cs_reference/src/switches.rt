//! The branches of a `switch` (C11 6.8.4.2).
ghost use Rattle.cs_ast.specs.TypedView.{statement_list};
ghost use Rattle.cs_meaning.specs.Initials.{number_in};
ghost use Rattle.cs_meaning.specs.Machine as machine;
ghost use Rattle.cs_meaning.specs.Statements as meaning;
ghost use Rattle.cs_runner.specs.RunnerView.{state_in, Performs};

use cs_ast::Place;
use cs_ast::typed::statement::{Case, Stmt};
use cs_events::{Label, PointKind};
use cs_frames::cases::{chosen_case, put_from};
use cs_run_log::{Stop, Touch};
use cs_runner::runner::Runner;

/// Selects the case of a `switch` by the newest value: the case shows, and the statements from it on are scheduled.
pub fn decide_switch<'a>(
    run: &mut Runner<'a>,
    place: Place,
    cases: &[Case],
    statements: &'a [Stmt],
    counted_point: u64,
) -> Result<(), Stop>
    ensures { Performs run.old run.new result
        (meaning.switch_to place (statement_list statements.now) counted_point
        (meaning.chosen_case cases.now (statement_list statements.now)
        (meaning.case_of cases.now (number_in (machine.cell_at (state_in run.old) 0)) 0))
        (machine.pop (state_in run.old))) }
{
    let number = run.machine.pop_cell().number();
    let chosen = chosen_case(cases, statements, number)?;
    run.log.touch(Touch::Meets(PointKind::Switch, place))?;
    run.log
        .show(run.setting, place, Label::Case(chosen.number))?;
    put_from(&mut run.machine, statements, chosen.item, counted_point)?;
    Ok(())
}
