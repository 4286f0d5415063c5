//! Visits of counted points, within the budget.
ghost use Rattle.cs_meaning.specs.CountedPoints as meaning;
ghost use Rattle.cs_runner.specs.RunnerView.{budgets_of, state_in, Performs};

use crate::runner::Runner;
use cs_ast::Place;
use cs_events::{Budget, Outcome, PointKind};
use cs_run_log::{Stop, Touch};

impl<'a> Runner<'a> {
    /// Reaches a counted point, unless the budget of visits is used up; one without a count exceeds it.
    pub fn reach_counted_point(
        &mut self,
        place: Place,
        kind: PointKind,
        counted_point: u64,
    ) -> Result<(), Stop>
        ensures { Performs self.old self.new result
            (meaning.reach_counted_point (budgets_of self.old) place kind counted_point
            (state_in self.old)) }
    {
        let limit = self.setting.budgets.visits;
        if self.machine.count_visit(counted_point, limit) {
            self.log.touch(Touch::Meets(kind, place))?;
            Ok(())
        } else {
            Err(Stop::Outcome(Outcome::Over(Budget::Visits, place)))
        }
    }
}
