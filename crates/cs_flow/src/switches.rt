//! The control points of `switch` (C11 6.8.4.2).
ghost use Rattle.std.specs.Prelude.{◌≡◌, ◌++◌, map, IfOk, OnOk};
ghost use Rattle.cs_ast.specs.TypedTree.{Switch};
ghost use Rattle.cs_ast.specs.TypedView.{typed, statement, statement_list};
ghost use Rattle.cs_meaning.specs.Statements as meaning;
ghost use Rattle.cs_cfg.specs.ControlPoints as cfg;
ghost use Rattle.cs_flow.specs.PointView.{next_of, way_of, points_of};
ghost use Rattle.cs_flow.specs.SwitchView.{all_starts, start_at, ways_of_cases};
ghost use Rattle.cs_flow.specs.TargetView.{targets_of};

use crate::point::{ControlPoint, Exit, Next, Way, meets};
use crate::points::Points;
use crate::targets::Targets;
use cs_ast::Place;
use cs_ast::typed::expression::Expr;
use cs_ast::typed::statement::{Case, Stmt};
use cs_events::PointKind;
use std::alloc::{AllocError, Global};
use std::collections::VecDeque;

impl Points {
    /// Puts the control points of a `switch` before the others, given what is reached after it; returns what is reached first.
    #[cycle(statement)]
    pub(crate) fn switch(
        &mut self,
        place: Place,
        list: &[Stmt],
        cases: &[Case],
        value: &Expr,
        to: Targets<'_>,
        following: Next,
    ) -> Result<Next, AllocError>
        ensures points { OnOk result
            (points_of self.new ≡ cfg.flows (targets_of to.entry)
            (Switch place (typed value.now) cases.now (statement_list list.now)) (next_of following)
            ++ points_of self.old) }
        ensures first { IfOk result (λ first.
            next_of first ≡ cfg.starts (targets_of to.entry)
            (Switch place (typed value.now) cases.now (statement_list list.now))
            (next_of following)) }
    {
        let kind = PointKind::Switch;
        let starts = self.each_statement(list, to.in_switch(following), following)?;
        let first = self.expression(value, meets(kind, place))?;
        let ways = case_ways(*self.list.allocator(), cases, &starts, following)?;
        self.put(ControlPoint { kind, place, ways })?;
        Ok(first)
    }

    /// The same for consecutive statements; returns for each of them what is reached first from it on.
    #[cycle(statement)]
    fn each_statement(
        &mut self,
        list: &[Stmt],
        to: Targets<'_>,
        following: Next,
    ) -> Result<VecDeque<Next>, AllocError>
        ensures points { OnOk result
            (points_of self.new ≡ cfg.flows_in (targets_of to.entry) (statement_list list.now)
            (next_of following) ++ points_of self.old) }
        ensures starts { IfOk result (λ starts.
            map next_of starts.items ≡ all_starts (targets_of to.entry) (statement_list list.now)
            (next_of following)) }
    {
        let mut starts = VecDeque::new(*self.list.allocator());
        let mut next = following;
        for s in list.iter().rev() {
            next = self.statement(s, to, next)?;
            starts.push_front(next)?;
        }
        Ok(starts)
    }
}

/// Returns the ways out of a `switch`: those of its cases with a value, counted from 0, and that of all other numbers.
fn case_ways(
    alloc: Global,
    cases: &[Case],
    starts: &VecDeque<Next>,
    following: Next,
) -> Result<Vec<Way>, AllocError>
    ensures { IfOk result (λ ways.
        map way_of ways.items ≡ ways_of_cases (map next_of starts.now.items) (next_of following)
        cases.now 0) }
{
    let mut ways = Vec::new(alloc);
    for case in cases {
        if case.value.is_some() {
            let exit = Exit::Case(ways.len());
            let next = start_at(starts, case.item as usize, following);
            ways.push(Way { exit, next })?;
        }
    }
    let exit = Exit::Case(ways.len());
    let next = start_at(starts, default_item(cases, starts.len()), following);
    ways.push(Way { exit, next })?;
    Ok(ways)
}

/// Returns what is reached first from the statement with a number on; if there is no such statement, what is reached after all of them.
fn start_at(starts: &VecDeque<Next>, item: usize, following: Next) -> Next
    ensures { next_of result ≡ start_at (map next_of starts.now.items) (next_of following) item }
{
    starts.get(item).copied().unwrap_or(following)
}

/// Returns the number of the statement that `default` leads to, or another number if there is no `default`.
fn default_item(cases: &[Case], otherwise: usize) -> usize
    ensures { result ≡ meaning.default_item cases.now otherwise }
{
    for case in cases {
        if case.value.is_none() {
            return case.item as usize;
        }
    }
    otherwise
}
