//! The lowering of loops (C11 6.8.5).
ghost use Rattle.std.specs.Prelude.{ℕ, IfOk, option_map, option_copied};
ghost use Rattle.cs_ast.specs.TypedProgram.{HasLayouts};
ghost use Rattle.cs_ast.specs.TypedTree.{While, Do, For};
ghost use Rattle.cs_ast.specs.TypedView.{typed, some_typed, statement, statement_list};
ghost use Rattle.cs_cfg.specs.Placing.{split};
ghost use Rattle.cs_lower.specs.Building.{point_of, built_of};
ghost use Rattle.cs_lower.specs.Expressions.{used_one};
ghost use Rattle.cs_lower.specs.Ready.{IsReady};
ghost use Rattle.cs_lower.specs.Statements.{TestsFor, EndsFor};
ghost use Rattle.cs_lower.specs.Builds.{program_of, BuildsBefore, BuildsStatement};

use crate::building::GraphBuilder;
use crate::context::Lowering;
use crate::statements::Exits;
use crate::strips::Strip;
use cs_ast::Place;
use cs_ast::typed::expression::Expr;
use cs_ast::typed::statement::Stmt;
use cs_cfg::Work;
use cs_events::PointKind;
use cs_objects::counted_points::{counted_points, counted_points_in, together};
use std::alloc::AllocError;

impl Lowering<'_> {
    /// Returns code for a `while` (C11 6.8.5.1).
    #[cycle(statements)]
    pub fn lower_while(
        &self,
        graph: &mut GraphBuilder,
        body: &Stmt,
        place: Place,
        test: &Expr,
        following: Strip,
    ) -> Result<Strip, AllocError>
        requires { IsReady self.now }
        ensures { IfOk result (λ made.
            (out again : ℕ)
            → BuildsStatement self.now graph.old graph.new
            (While place (typed test.now) (statement body.now)) out again made following) }
    {
        let inner = counted_points(body)?;
        let head = graph.counted_point_before(inner)?;
        let end = graph.seal(following)?;
        let exits = Exits {
            out: end,
            again: head,
        };
        let one = self.lower_way_out(graph, body, exits, head)?;
        let turned = self.lower_test(graph, place, test, one, end)?;
        graph.seal_counted_point(PointKind::Head, place, turned)?;
        Ok(self.jump(head))
    }

    /// Returns code for a `do` (C11 6.8.5.2).
    #[cycle(statements)]
    pub fn lower_do(
        &self,
        graph: &mut GraphBuilder,
        body: &Stmt,
        place: Place,
        test: &Expr,
        following: Strip,
    ) -> Result<Strip, AllocError>
        requires { IsReady self.now }
        ensures { IfOk result (λ made.
            (out again : ℕ)
            → BuildsStatement self.now graph.old graph.new
            (Do place (statement body.now) (typed test.now)) out again made following) }
    {
        let inner = counted_points(body)?;
        let start = graph.counted_point_before(inner)?;
        let end = graph.seal(following)?;
        let tested = self.lower_test(graph, place, test, start, end)?;
        let again = graph.seal(tested)?;
        let exits = Exits { out: end, again };
        let turned = self.lower_statement(graph, body, exits, self.jump(again))?;
        graph.seal_counted_point(PointKind::Head, place, turned)?;
        Ok(self.jump(start))
    }

    /// Returns code for a `for` (C11 6.8.5.3). In its first part `continue` leads out of the loop, to a block.
    #[cycle(statements)]
    pub fn lower_for(
        &self,
        graph: &mut GraphBuilder,
        first: &[Stmt],
        body: &Stmt,
        place: Place,
        test: &Option<Expr>,
        last: &Option<Expr>,
        around: u32,
        following: Strip,
    ) -> Result<Strip, AllocError>
        requires { IsReady self.now }
        ensures { IfOk result (λ made.
            (out : ℕ) → BuildsStatement self.now graph.old graph.new
            (For place (statement_list first.now) (some_typed test.now) (some_typed last.now)
            (statement body.now)) out around made following) }
    {
        let before = counted_points_in(first)?;
        let inside = counted_points(body)?;
        let inner = together(before, inside)?;
        let head = graph.counted_point_before(inner)?;
        let end = graph.seal(following)?;
        let last = last.as_ref();
        let turn = self.lower_last(graph, place, last, head)?;
        let exits = Exits {
            out: end,
            again: turn,
        };
        let made = self.lower_statement(graph, body, exits, self.jump(turn))?;
        let test = test.as_ref();
        let strip = self.lower_for_test(graph, place, test, made, end)?;
        let outer = Exits {
            out: end,
            again: around,
        };
        let entry = self.lower_all(graph, first, outer, self.jump(head))?;
        graph.seal_counted_point(PointKind::Head, place, strip)?;
        Ok(entry)
    }

    /// Returns code for a test, when no other temporary is in use, and a branch to one of two blocks.
    pub fn lower_test(
        &self,
        graph: &mut GraphBuilder,
        place: Place,
        test: &Expr,
        one: u32,
        other: u32,
    ) -> Result<Strip, AllocError>
        requires { HasLayouts self.now.program.now }
        ensures { IfOk result (λ made.
            BuildsBefore self.now graph.old graph.new (used_one (typed test.now) 0) made
            (split place 0 one other)) }
    {
        self.lower_used(graph, test, 0, self.branch(place, 0, one, other))
    }

    /// Returns code for the test of a `for`, if it has one, before its body.
    pub fn lower_for_test(
        &self,
        graph: &mut GraphBuilder,
        place: Place,
        test: Option<&Expr>,
        body: Strip,
        end: u32,
    ) -> Result<Strip, AllocError>
        requires { HasLayouts self.now.program.now }
        ensures { IfOk result (λ made.
            TestsFor (program_of self.now) place (option_map typed (option_copied test.entry))
            (built_of graph.old) (built_of graph.new) (point_of made) (point_of body) end) }
    {
        match test {
            None => Ok(body),
            Some(test) => {
                let one = graph.seal(body)?;
                self.lower_test(graph, place, test, one, end)
            }
        }
    }

    /// Makes code for the last part of a `for`, if it has one, and a jump to its head. Returns the block after the body.
    pub fn lower_last(
        &self,
        graph: &mut GraphBuilder,
        place: Place,
        last: Option<&Expr>,
        head: u32,
    ) -> Result<u32, AllocError>
        requires { HasLayouts self.now.program.now }
        ensures { IfOk result (λ made.
            EndsFor (program_of self.now) (option_map typed (option_copied last.entry))
            (built_of graph.old) (built_of graph.new) made head) }
    {
        match last {
            None => Ok(head),
            Some(last) => {
                let following = self.jump(head).prepend(place, 0, Work::Drop)?;
                let made = self.lower_used(graph, last, 0, following)?;
                graph.seal(made)
            }
        }
    }
}
