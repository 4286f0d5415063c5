//! The control points of statements (C11 6.8).
ghost use Rattle.std.specs.Prelude.{◌≡◌, ◌++◌, ◌∷◌, IfOk, OnOk};
ghost use Rattle.cs_ast.specs.TypedView.{typed, some_typed, statement, statement_list};
ghost use Rattle.cs_events.specs.declared.point.PointKind.TheVariants as kinds;
ghost use Rattle.cs_cfg.specs.ControlPoints as cfg;
ghost use Rattle.cs_flow.specs.PointView.{next_of, points_of};
ghost use Rattle.cs_flow.specs.TargetView.{targets_of};

use crate::point::{Next, meets};
use crate::points::Points;
use crate::targets::Targets;
use cs_ast::Place;
use cs_ast::typed::expression::Expr;
use cs_ast::typed::statement::{Stmt, StmtKind};
use cs_events::PointKind;
use std::alloc::AllocError;

impl Points {
    /// Puts the control points of a statement before the others, given what is reached after it; returns what is reached first.
    #[cycle(statement)]
    pub(crate) fn statement(
        &mut self,
        s: &Stmt,
        to: Targets<'_>,
        following: Next,
    ) -> Result<Next, AllocError>
        ensures points { OnOk result
            (points_of self.new ≡ cfg.flows (targets_of to.entry) (statement s.now)
            (next_of following) ++ points_of self.old) }
        ensures first { IfOk result (λ first.
            next_of first ≡ cfg.starts (targets_of to.entry) (statement s.now)
            (next_of following)) }
    {
        let place = s.place;
        match &*s.kind {
            StmtKind::Block(list) => self.statements(list, to, following),
            StmtKind::Declare(_, Some(initial)) => self.initial(initial, following),
            StmtKind::Declare(_, None) => Ok(following),
            StmtKind::Run(e) => self.expression(e, following),
            StmtKind::If(test, body) => {
                let one = self.statement(body, to, following)?;
                self.decision(place, test, one, following)
            }
            StmtKind::IfElse(test, body, other) => {
                let other = self.statement(other, to, following)?;
                let one = self.statement(body, to, following)?;
                self.decision(place, test, one, other)
            }
            StmtKind::While(test, body) => self.while_loop(place, test, body, to, following),
            StmtKind::Do(body, test) => self.do_loop(place, body, test, to, following),
            StmtKind::For(first, test, last, body) => {
                self.for_loop(place, first, test, last, body, to, following)
            }
            StmtKind::Switch(value, cases, list) => {
                self.switch(place, list, cases, value, to, following)
            }
            StmtKind::Goto(label) => Ok(to.labels.next(*label).or(following)),
            StmtKind::Label(_, body) => self.label(place, body, to, following),
            StmtKind::Break => Ok(to.out),
            StmtKind::Continue => Ok(to.again),
            StmtKind::Return(value) => self.leave(place, value),
        }
    }

    /// The same for a label and the statement after it (C11 6.8.1).
    #[cycle(statement)]
    fn label(
        &mut self,
        place: Place,
        body: &Stmt,
        to: Targets<'_>,
        following: Next,
    ) -> Result<Next, AllocError>
        ensures points { OnOk result
            (points_of self.new ≡ cfg.passed kinds.Label place
            (cfg.starts (targets_of to.entry) (statement body.now) (next_of following))
            ∷ (cfg.flows (targets_of to.entry) (statement body.now) (next_of following)
            ++ points_of self.old)) }
        ensures first { IfOk result (λ first. next_of first ≡ cfg.met kinds.Label place) }
    {
        let first = self.statement(body, to, following)?;
        self.put_passed(PointKind::Label, place, first)?;
        Ok(meets(PointKind::Label, place))
    }

    /// The same for consecutive statements.
    #[cycle(statement)]
    pub(crate) fn statements(
        &mut self,
        list: &[Stmt],
        to: Targets<'_>,
        following: Next,
    ) -> Result<Next, AllocError>
        ensures points { OnOk result
            (points_of self.new ≡ cfg.flows_in (targets_of to.entry) (statement_list list.now)
            (next_of following) ++ points_of self.old) }
        ensures first { IfOk result (λ first.
            next_of first ≡ cfg.starts_in (targets_of to.entry) (statement_list list.now)
            (next_of following)) }
    {
        let mut next = following;
        for s in list.iter().rev() {
            next = self.statement(s, to, next)?;
        }
        Ok(next)
    }

    /// The same for the test at the source position of a statement, given what is reached if it is true, and if it is false. Its ways come before
    /// the control points in the test.
    pub(crate) fn decision(
        &mut self,
        place: Place,
        test: &Expr,
        one: Next,
        other: Next,
    ) -> Result<Next, AllocError>
        ensures points { OnOk result
            (points_of self.new ≡ cfg.tested place (next_of one) (next_of other)
            ∷ (cfg.points (typed test.now) (cfg.met kinds.Branch place) ++ points_of self.old)) }
        ensures first { IfOk result (λ first.
            next_of first ≡ cfg.first (typed test.now) (cfg.met kinds.Branch place)) }
    {
        let first = self.expression(test, meets(PointKind::Branch, place))?;
        self.put_tested(place, one, other)?;
        Ok(first)
    }

    /// The same for a `return` (C11 6.8.6.4), after which no other point of the function is reached.
    fn leave(&mut self, place: Place, value: &Option<Expr>) -> Result<Next, AllocError>
        ensures points { OnOk result
            (points_of self.new ≡ cfg.last_point kinds.Return place
            ∷ (cfg.points_some (some_typed value.now) (cfg.met kinds.Return place)
            ++ points_of self.old)) }
        ensures first { IfOk result (λ first.
            next_of first ≡ cfg.first_some (some_typed value.now) (cfg.met kinds.Return place)) }
    {
        let first = self.optional(value, meets(PointKind::Return, place))?;
        self.put_last(PointKind::Return, place)?;
        Ok(first)
    }
}
