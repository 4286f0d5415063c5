//! The lowering of statements (C11 6.8).
ghost use Rattle.std.specs.Prelude.{ℕ, IfOk, option_map, option_copied};
ghost use Rattle.cs_ast.specs.TypedProgram.{HasLayouts};
ghost use Rattle.cs_ast.specs.declared.place.Place.{Place};
ghost use Rattle.cs_ast.specs.TypedTree.{Run, If, IfElse, Goto, Label};
ghost use Rattle.cs_ast.specs.TypedView.{typed, statement, statement_list};
ghost use Rattle.cs_lower.specs.Building.{point_of, built_of};
ghost use Rattle.cs_lower.specs.Keeping.{LeadsOff};
ghost use Rattle.cs_lower.specs.Ready.{IsReady};
ghost use Rattle.cs_lower.specs.Statements.{Executes, ExecutesAll, ExecutesIn, EntersAll, Returns};
ghost use Rattle.cs_lower.specs.Builds.{program_of, function_of, BuildsStatement};

use crate::building::GraphBuilder;
use crate::context::Lowering;
use crate::strips::Strip;
use cs_ast::Place;
use cs_ast::typed::expression::Expr;
use cs_ast::typed::statement::{Stmt, StmtKind};
use cs_cfg::{BlockEnd, Work};
use cs_events::PointKind;
use cs_objects::counted_points::counted_points;
use std::alloc::AllocError;

/// The blocks to which `break` and `continue` lead.
#[derive(Clone, Copy)]
pub struct Exits {
    pub out: u32,
    pub again: u32,
}

impl Lowering<'_> {
    /// Returns code that executes a statement and continues with `following`.
    #[cycle(statements)]
    pub fn lower_statement(
        &self,
        graph: &mut GraphBuilder,
        s: &Stmt,
        exits: Exits,
        next: Strip,
    ) -> Result<Strip, AllocError>
        requires { IsReady self.now }
        ensures { IfOk result (λ made.
            BuildsStatement self.now graph.old graph.new (statement s.now) exits.out exits.again
            made next) }
    {
        let place = s.place;
        match &*s.kind {
            StmtKind::Block(statements) => self.lower_all(graph, statements, exits, next),
            StmtKind::Declare(declaration, first) => {
                self.lower_declaration(graph, place, *declaration, first.as_ref(), next)
            }
            StmtKind::Run(e) => self.lower_run(graph, place, e, next),
            StmtKind::If(test, body) => self.lower_if(graph, body, place, test, exits, next),
            StmtKind::IfElse(test, body, other) => {
                self.lower_if_else(graph, body, other, place, test, exits, next)
            }
            StmtKind::While(test, body) => self.lower_while(graph, body, place, test, next),
            StmtKind::Do(body, test) => self.lower_do(graph, body, place, test, next),
            StmtKind::For(first, test, last, body) => {
                self.lower_for(graph, first, body, place, test, last, exits.again, next)
            }
            StmtKind::Switch(value, cases, list) => {
                self.lower_switch(graph, list, place, value, cases, exits.again, next)
            }
            StmtKind::Goto(label) => self.lower_goto(graph, *label, next),
            StmtKind::Label(_, body) => self.lower_label(graph, body, place, exits, next),
            StmtKind::Break => self.lower_jump(graph, exits.out, next),
            StmtKind::Continue => self.lower_jump(graph, exits.again, next),
            StmtKind::Return(value) => {
                graph.keep(next)?;
                self.lower_return(graph, place, value.as_ref())
            }
        }
    }

    // An expression whose value is dropped (C11 6.8.3).
    fn lower_run(
        &self,
        graph: &mut GraphBuilder,
        place: Place,
        e: &Expr,
        following: Strip,
    ) -> Result<Strip, AllocError>
        requires { HasLayouts self.now.program.now }
        ensures { IfOk result (λ made.
            (out again : ℕ)
            → BuildsStatement self.now graph.old graph.new (Run place (typed e.now)) out again
            made following) }
    {
        let dropped = following.prepend(place, 0, Work::Drop)?;
        self.lower_expression(graph, e, 0, dropped)
    }

    // `if` without `else` (C11 6.8.4.1).
    #[cycle(statements)]
    fn lower_if(
        &self,
        graph: &mut GraphBuilder,
        body: &Stmt,
        place: Place,
        test: &Expr,
        exits: Exits,
        following: Strip,
    ) -> Result<Strip, AllocError>
        requires { IsReady self.now }
        ensures { IfOk result (λ made.
            BuildsStatement self.now graph.old graph.new
            (If place (typed test.now) (statement body.now)) exits.out exits.again made following) }
    {
        let end = graph.seal(following)?;
        let one = self.lower_way_out(graph, body, exits, end)?;
        let made = self.lower_test(graph, place, test, one, end)?;
        Ok(made)
    }

    // `if` with `else`.
    #[cycle(statements)]
    fn lower_if_else(
        &self,
        graph: &mut GraphBuilder,
        body: &Stmt,
        otherwise: &Stmt,
        place: Place,
        test: &Expr,
        exits: Exits,
        following: Strip,
    ) -> Result<Strip, AllocError>
        requires { IsReady self.now }
        ensures { IfOk result (λ made.
            BuildsStatement self.now graph.old graph.new
            (IfElse place (typed test.now) (statement body.now) (statement otherwise.now)) exits.out
            exits.again made following) }
    {
        let end = graph.seal(following)?;
        let other = self.lower_way_out(graph, otherwise, exits, end)?;
        let one = self.lower_way_out(graph, body, exits, end)?;
        let made = self.lower_test(graph, place, test, one, other)?;
        Ok(made)
    }

    /// Returns code that executes consecutive statements and continues with `following`.
    #[cycle(statements)]
    pub fn lower_all(
        &self,
        graph: &mut GraphBuilder,
        statements: &[Stmt],
        exits: Exits,
        following: Strip,
    ) -> Result<Strip, AllocError>
        requires { IsReady self.now }
        ensures { IfOk result (λ made.
            ExecutesAll (program_of self.now) (function_of self.now) (statement_list statements.now)
            exits.out exits.again (built_of graph.old) (built_of graph.new) (point_of made)
            (point_of following)) }
    {
        let mut made = following;
        let mut left = statements.len();
        while left > 0 {
            left -= 1;
            made = self.lower_statement(graph, &statements[left], exits, made)?;
        }
        Ok(made)
    }

    /// Makes a block for each of the statements of a `switch`, in order; the last one continues with a block. Returns their blocks.
    #[cycle(statements)]
    pub fn lower_entries(
        &self,
        graph: &mut GraphBuilder,
        statements: &[Stmt],
        exits: Exits,
        end: u32,
    ) -> Result<Vec<u32>, AllocError>
        requires { IsReady self.now }
        ensures { IfOk result (λ made.
            EntersAll (program_of self.now) (function_of self.now) (statement_list statements.now)
            exits.out exits.again (built_of graph.old) (built_of graph.new) made.items end) }
    {
        let mut entries = Vec::new(self.alloc);
        let mut next = end;
        let mut left = statements.len();
        while left > 0 {
            left -= 1;
            next = self.lower_way_out(graph, &statements[left], exits, next)?;
            entries.push(next)?;
        }
        entries.reverse();
        Ok(entries)
    }

    /// Returns the block of a branch: a statement, and then a jump.
    #[cycle(statements)]
    pub fn lower_way_out(
        &self,
        graph: &mut GraphBuilder,
        s: &Stmt,
        exits: Exits,
        end: u32,
    ) -> Result<u32, AllocError>
        requires { IsReady self.now }
        ensures { IfOk result (λ made.
            ExecutesIn (program_of self.now) (function_of self.now) (statement s.now) exits.out
            exits.again (built_of graph.old) (built_of graph.new) made end) }
    {
        let made = self.lower_statement(graph, s, exits, self.jump(end))?;
        let block = graph.seal(made)?;
        Ok(block)
    }

    // A label (C11 6.8.1); its counted point is the one before those of its statement.
    #[cycle(statements)]
    fn lower_label(
        &self,
        graph: &mut GraphBuilder,
        body: &Stmt,
        place: Place,
        exits: Exits,
        following: Strip,
    ) -> Result<Strip, AllocError>
        requires { IsReady self.now }
        ensures { IfOk result (λ made.
            (label : ℕ) → BuildsStatement self.now graph.old graph.new
            (Label place label (statement body.now)) exits.out exits.again made following) }
    {
        let inner = counted_points(body)?;
        let counted_point = graph.counted_point_before(inner)?;
        let made = self.lower_statement(graph, body, exits, following)?;
        graph.seal_counted_point(PointKind::Label, place, made)?;
        Ok(self.jump(counted_point))
    }

    // A jump, and the unreachable code after it.
    fn lower_jump(
        &self,
        graph: &mut GraphBuilder,
        block: u32,
        following: Strip,
    ) -> Result<Strip, AllocError>
        ensures { IfOk result (λ made.
            LeadsOff (built_of graph.old) (built_of graph.new) block (point_of made)
            (point_of following)) }
    {
        graph.keep(following)?;
        Ok(self.jump(block))
    }

    // A `goto` leads to its label; if there is no such label, to the next statement (C11 6.8.6.1).
    fn lower_goto(
        &self,
        graph: &mut GraphBuilder,
        label: u32,
        following: Strip,
    ) -> Result<Strip, AllocError>
        requires { IsReady self.now }
        ensures { IfOk result (λ made.
            (place : Place) (out again : ℕ)
            → BuildsStatement self.now graph.old graph.new (Goto place label) out again made
            following) }
    {
        match self.labels.get(&label) {
            Some(counted_point) => self.lower_jump(graph, *counted_point, following),
            None => Ok(following),
        }
    }

    // A `return` (C11 6.8.6.4).
    fn lower_return(
        &self,
        graph: &mut GraphBuilder,
        place: Place,
        value: Option<&Expr>,
    ) -> Result<Strip, AllocError>
        requires { HasLayouts self.now.program.now }
        ensures { IfOk result (λ made.
            Returns (program_of self.now) (function_of self.now) place
            (option_map typed (option_copied value.entry)) (built_of graph.old) (built_of graph.new)
            (point_of made)) }
    {
        let leaving = Strip::ending(self.alloc, BlockEnd::Return(0));
        let leaving = leaving.prepend(place, 1, Work::Meet(PointKind::Return))?;
        match value {
            None => leaving.prepend(place, 0, Work::Nothing),
            Some(value) => self.lower_used(graph, value, 0, leaving),
        }
    }
}
