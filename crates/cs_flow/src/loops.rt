//! The control points of loops (C11 6.8.5).
ghost use Rattle.std.specs.Prelude.{◌≡◌, ◌++◌, IfOk, OnOk};
ghost use Rattle.cs_ast.specs.TypedTree.{While, Do, For};
ghost use Rattle.cs_ast.specs.TypedView.{typed, some_typed, statement, statement_list};
ghost use Rattle.cs_cfg.specs.ControlPoints as cfg;
ghost use Rattle.cs_flow.specs.PointView.{next_of, points_of};
ghost use Rattle.cs_flow.specs.TargetView.{targets_of};

use crate::point::{Next, meets};
use crate::points::Points;
use crate::targets::Targets;
use cs_ast::Place;
use cs_ast::typed::expression::Expr;
use cs_ast::typed::statement::Stmt;
use cs_events::PointKind;
use std::alloc::AllocError;

impl Points {
    /// Puts the control points of a `while` before the others, given what is reached after it; returns what is reached first (C11 6.8.5.1).
    #[cycle(statement)]
    pub(crate) fn while_loop(
        &mut self,
        place: Place,
        test: &Expr,
        body: &Stmt,
        to: Targets<'_>,
        following: Next,
    ) -> Result<Next, AllocError>
        ensures points { OnOk result
            (points_of self.new ≡ cfg.flows (targets_of to.entry)
            (While place (typed test.now) (statement body.now)) (next_of following)
            ++ points_of self.old) }
        ensures first { IfOk result (λ first.
            next_of first ≡ cfg.starts (targets_of to.entry)
            (While place (typed test.now) (statement body.now)) (next_of following)) }
    {
        let head = meets(PointKind::Head, place);
        let one = self.statement(body, to.in_loop(following, head), head)?;
        let first = self.decision(place, test, one, following)?;
        self.put_passed(PointKind::Head, place, first)?;
        Ok(head)
    }

    /// The same for a `do` (C11 6.8.5.2).
    #[cycle(statement)]
    pub(crate) fn do_loop(
        &mut self,
        place: Place,
        body: &Stmt,
        test: &Expr,
        to: Targets<'_>,
        following: Next,
    ) -> Result<Next, AllocError>
        ensures points { OnOk result
            (points_of self.new ≡ cfg.flows (targets_of to.entry)
            (Do place (statement body.now) (typed test.now)) (next_of following)
            ++ points_of self.old) }
        ensures first { IfOk result (λ first.
            next_of first ≡ cfg.starts (targets_of to.entry)
            (Do place (statement body.now) (typed test.now)) (next_of following)) }
    {
        let head = meets(PointKind::Head, place);
        let again = self.expression(test, meets(PointKind::Branch, place))?;
        let first = self.statement(body, to.in_loop(following, again), again)?;
        self.put_tested(place, head, following)?;
        self.put_passed(PointKind::Head, place, first)?;
        Ok(head)
    }

    /// The same for a `for` (C11 6.8.5.3). A `break` in its first part leads to the end of the loop too. The points of its body come after those of
    /// its last part, but the body is reached first.
    #[cycle(statement)]
    pub(crate) fn for_loop(
        &mut self,
        place: Place,
        first: &[Stmt],
        test: &Option<Expr>,
        last: &Option<Expr>,
        body: &Stmt,
        to: Targets<'_>,
        following: Next,
    ) -> Result<Next, AllocError>
        ensures points { OnOk result
            (points_of self.new ≡ cfg.flows (targets_of to.entry)
            (For place (statement_list first.now) (some_typed test.now) (some_typed last.now)
            (statement body.now)) (next_of following) ++ points_of self.old) }
        ensures first { IfOk result (λ first_met.
            next_of first_met ≡ cfg.starts (targets_of to.entry)
            (For place (statement_list first.now) (some_typed test.now) (some_typed last.now)
            (statement body.now)) (next_of following)) }
    {
        let head = meets(PointKind::Head, place);
        let mut last_points = Points::new(*self.list.allocator());
        let again = last_points.optional(last, head)?;
        let one = self.statement(body, to.in_loop(following, again), again)?;
        self.put_all(last_points)?;
        let next = self.for_test(place, test, one)?;
        let start = self.statements(first, to.in_switch(following), head)?;
        if test.is_some() {
            self.put_tested(place, one, following)?;
        }
        self.put_passed(PointKind::Head, place, next)?;
        Ok(start)
    }

    /// Puts the control points in the test of a `for`, if there is one, before the others; returns what is reached after the head: without a test
    /// the beginning of the body.
    fn for_test(
        &mut self,
        place: Place,
        test: &Option<Expr>,
        body: Next,
    ) -> Result<Next, AllocError>
        ensures points { OnOk result
            (points_of self.new ≡ cfg.for_points place (some_typed test.now)
            ++ points_of self.old) }
        ensures first { IfOk result (λ first.
            next_of first ≡ cfg.for_test place (some_typed test.now) (next_of body)) }
    {
        match test {
            Some(test) => self.expression(test, meets(PointKind::Branch, place)),
            None => Ok(body),
        }
    }
}
