//! The lowering of expressions (C11 6.5).
ghost use Rattle.std.specs.Prelude.{◌≡◌, ◌+◌, IfOk};
ghost use Rattle.cs_ast.specs.TypedProgram.{HasLayouts};
ghost use Rattle.cs_ast.specs.TypedTree.{And, Or, Choice, Comma};
ghost use Rattle.cs_ast.specs.TypedView.{typed, typed_list};
ghost use Rattle.cs_lower.specs.Building.{point_of, built_of};
ghost use Rattle.cs_cfg.specs.Graph.{Number, Judge};
ghost use Rattle.cs_cfg.specs.Placing.{does, used_then};
ghost use Rattle.cs_lower.specs.Building.{jump_to};
ghost use Rattle.cs_lower.specs.Sealing.{Seals};
ghost use Rattle.cs_lower.specs.Expressions.{UsesIn, UsesAround, earlier, later, evaluated, formed, used_one, used_both, used_row};
ghost use Rattle.cs_lower.specs.Builds.{program_of, Builds};

use crate::building::GraphBuilder;
use crate::context::Lowering;
use crate::strips::Strip;
use cs_ast::Place;
use cs_ast::typed::expression::{Expr, ExprKind};
use cs_ast::typed::operator::Order;
use cs_cfg::Work;
use cs_types::CType;
use std::alloc::AllocError;

impl Lowering<'_> {
    /// Returns code that evaluates an expression into a temporary and continues with `following`.
    #[cycle(expressions)]
    pub fn lower_expression(
        &self,
        graph: &mut GraphBuilder,
        e: &Expr,
        number: u32,
        following: Strip,
    ) -> Result<Strip, AllocError>
        requires { HasLayouts self.now.program.now }
        ensures { IfOk result (λ made.
            Builds self.now graph.old graph.new (evaluated (typed e.now) number) made following) }
    {
        let next = self.act(e, number, following)?;
        match &*e.kind {
            ExprKind::Number(_) | ExprKind::Null | ExprKind::Text(_) => Ok(next),
            ExprKind::Local(_) | ExprKind::Global(_) => Ok(next),
            ExprKind::Through(a) | ExprKind::Load(a) => self.lower_used(graph, a, number, next),
            ExprKind::Address(a) | ExprKind::Decay(a) => self.lower_used(graph, a, number, next),
            ExprKind::Not(a) | ExprKind::Free(a) => self.lower_used(graph, a, number, next),
            ExprKind::Member(a, _) => self.lower_used(graph, a, number, next),
            ExprKind::Arrow(a, _) => self.lower_used(graph, a, number, next),
            ExprKind::Unary(_, a) => self.lower_used(graph, a, number, next),
            ExprKind::Convert(a) => match e.ty {
                CType::Void => self.lower_expression(graph, a, number, next),
                _ => self.lower_used(graph, a, number, next),
            },
            ExprKind::Index(a, b, order) => self.lower_sum(graph, a, b, *order, number, next),
            ExprKind::Sum(a, b, _, order) => self.lower_sum(graph, a, b, *order, number, next),
            ExprKind::Binary(_, a, b) => self.lower_pair(graph, a, b, number, next),
            ExprKind::Compare(_, a, b) => self.lower_pair(graph, a, b, number, next),
            ExprKind::Difference(a, b) => self.lower_pair(graph, a, b, number, next),
            ExprKind::Assign(a, b) => self.lower_pair(graph, a, b, number, next),
            ExprKind::And(a, b) => self.lower_and(graph, a, b, e.place, number, next),
            ExprKind::Or(a, b) => self.lower_or(graph, a, b, e.place, number, next),
            ExprKind::Choice(a, b, c) => self.lower_choice(graph, a, b, c, e.place, number, next),
            ExprKind::Comma(a, b) => self.lower_comma(graph, a, b, e.place, number, next),
            ExprKind::Update(_, a, b, _, _) => self.lower_update(graph, e, a, b, 3, number, next),
            ExprKind::Move(a, b, _, _) => self.lower_update(graph, e, a, b, 2, number, next),
            ExprKind::Call(_, arguments) => self.lower_row(graph, arguments, number, next),
            ExprKind::Allocate(_, arguments, _) => self.lower_row(graph, arguments, number, next),
        }
    }

    /// The same for an expression whose value is used.
    #[cycle(expressions)]
    pub fn lower_used(
        &self,
        graph: &mut GraphBuilder,
        e: &Expr,
        number: u32,
        following: Strip,
    ) -> Result<Strip, AllocError>
        requires { HasLayouts self.now.program.now }
        ensures { IfOk result (λ made.
            Builds self.now graph.old graph.new (used_one (typed e.now) number) made following) }
    {
        let following = used_before(e, number, following)?;
        let made = self.lower_expression(graph, e, number, following)?;
        Ok(made)
    }

    // Returns the block of a branch: an expression whose value is used, and then a strip.
    #[cycle(expressions)]
    fn lower_way(
        &self,
        graph: &mut GraphBuilder,
        e: &Expr,
        number: u32,
        following: Strip,
    ) -> Result<u32, AllocError>
        requires { HasLayouts self.now.program.now }
        ensures { IfOk result (λ made.
            UsesIn (program_of self.now) (typed e.now) number (built_of graph.old)
            (built_of graph.new) made (point_of following)) }
    {
        let made = self.lower_used(graph, e, number, following)?;
        let block = graph.seal(made)?;
        Ok(block)
    }

    // Two expressions whose values are used, one after the other.
    #[cycle(expressions)]
    fn lower_pair(
        &self,
        graph: &mut GraphBuilder,
        first: &Expr,
        second: &Expr,
        number: u32,
        following: Strip,
    ) -> Result<Strip, AllocError>
        requires { HasLayouts self.now.program.now }
        ensures { IfOk result (λ made.
            Builds self.now graph.old graph.new
            (used_both (typed first.now) (typed second.now) number) made following) }
    {
        let made = self.lower_used(graph, second, above(number, 1)?, following)?;
        let made = self.lower_used(graph, first, number, made)?;
        Ok(made)
    }

    // A pointer and an amount whose values are used, in their order of evaluation.
    #[cycle(expressions)]
    fn lower_sum(
        &self,
        graph: &mut GraphBuilder,
        pointer: &Expr,
        amount: &Expr,
        order: Order,
        number: u32,
        following: Strip,
    ) -> Result<Strip, AllocError>
        requires { HasLayouts self.now.program.now }
        ensures { IfOk result (λ made.
            Builds self.now graph.old graph.new
            (used_both (earlier order (typed pointer.now) (typed amount.now))
            (later order (typed pointer.now) (typed amount.now)) number) made following) }
    {
        match order {
            Order::PointerFirst => self.lower_pair(graph, pointer, amount, number, following),
            Order::AmountFirst => self.lower_pair(graph, amount, pointer, number, following),
        }
    }

    // The object of an update, and its right operand `more` temporaries above it, whose values are used. The object is loaded in
    // between.
    #[cycle(expressions)]
    fn lower_update(
        &self,
        graph: &mut GraphBuilder,
        update: &Expr,
        object: &Expr,
        right: &Expr,
        more: usize,
        number: u32,
        following: Strip,
    ) -> Result<Strip, AllocError>
        requires { HasLayouts self.now.program.now }
        ensures { IfOk result (λ made.
            UsesAround (program_of self.now) (typed update.now) (typed object.now) (typed right.now)
            more number (built_of graph.old) (built_of graph.new) (point_of made)
            (point_of following)) }
    {
        let made = self.lower_used(graph, right, above(number, more)?, following)?;
        let fetched = self.fetch(update, number, made)?;
        let made = self.lower_used(graph, object, number, fetched)?;
        Ok(made)
    }

    // Several expressions whose values are used, one after another.
    #[cycle(expressions)]
    fn lower_row(
        &self,
        graph: &mut GraphBuilder,
        row: &[Expr],
        number: u32,
        following: Strip,
    ) -> Result<Strip, AllocError>
        requires { HasLayouts self.now.program.now }
        ensures { IfOk result (λ made.
            Builds self.now graph.old graph.new (used_row (typed_list row.now) number) made
            following) }
    {
        let mut made = following;
        let mut left = row.len();
        while left > 0 {
            left -= 1;
            made = self.lower_used(graph, &row[left], above(number, left)?, made)?;
        }
        Ok(made)
    }

    // `&&` (C11 6.5.13).
    #[cycle(expressions)]
    fn lower_and(
        &self,
        graph: &mut GraphBuilder,
        left: &Expr,
        right: &Expr,
        place: Place,
        number: u32,
        following: Strip,
    ) -> Result<Strip, AllocError>
        requires { HasLayouts self.now.program.now }
        ensures { IfOk result (λ made.
            Builds self.now graph.old graph.new
            (formed place (And (typed left.now) (typed right.now)) number) made following) }
    {
        let end = graph.seal(following)?;
        let judged = self.judged(place, number, end)?;
        let one = self.lower_way(graph, right, number, judged)?;
        let other = self.known_way(graph, place, number, 0, end)?;
        let test = self.branch(place, number, one, other);
        let made = self.lower_used(graph, left, number, test)?;
        Ok(made)
    }

    // `||` (C11 6.5.14).
    #[cycle(expressions)]
    fn lower_or(
        &self,
        graph: &mut GraphBuilder,
        left: &Expr,
        right: &Expr,
        place: Place,
        number: u32,
        following: Strip,
    ) -> Result<Strip, AllocError>
        requires { HasLayouts self.now.program.now }
        ensures { IfOk result (λ made.
            Builds self.now graph.old graph.new
            (formed place (Or (typed left.now) (typed right.now)) number) made following) }
    {
        let end = graph.seal(following)?;
        let judged = self.judged(place, number, end)?;
        let other = self.lower_way(graph, right, number, judged)?;
        let one = self.known_way(graph, place, number, 1, end)?;
        let test = self.branch(place, number, one, other);
        let made = self.lower_used(graph, left, number, test)?;
        Ok(made)
    }

    // `?:` (C11 6.5.15).
    #[cycle(expressions)]
    fn lower_choice(
        &self,
        graph: &mut GraphBuilder,
        test: &Expr,
        first: &Expr,
        second: &Expr,
        place: Place,
        number: u32,
        following: Strip,
    ) -> Result<Strip, AllocError>
        requires { HasLayouts self.now.program.now }
        ensures { IfOk result (λ made.
            Builds self.now graph.old graph.new
            (formed place (Choice (typed test.now) (typed first.now) (typed second.now)) number)
            made following) }
    {
        let end = graph.seal(following)?;
        let one = self.lower_way(graph, first, number, self.jump(end))?;
        let other = self.lower_way(graph, second, number, self.jump(end))?;
        let test_of = self.branch(place, number, one, other);
        let made = self.lower_used(graph, test, number, test_of)?;
        Ok(made)
    }

    // The comma (C11 6.5.17).
    #[cycle(expressions)]
    fn lower_comma(
        &self,
        graph: &mut GraphBuilder,
        first: &Expr,
        second: &Expr,
        place: Place,
        number: u32,
        following: Strip,
    ) -> Result<Strip, AllocError>
        requires { HasLayouts self.now.program.now }
        ensures { IfOk result (λ made.
            Builds self.now graph.old graph.new
            (formed place (Comma (typed first.now) (typed second.now)) number) made following) }
    {
        let made = self.lower_used(graph, second, number, following)?;
        let dropped = made.prepend(place, number, Work::Drop)?;
        let made = self.lower_expression(graph, first, number, dropped)?;
        Ok(made)
    }

    // The branch of `&&` or `||` whose value is known: a number, and then a jump.
    fn known_way(
        &self,
        graph: &mut GraphBuilder,
        place: Place,
        number: u32,
        value: i128,
        end: u32,
    ) -> Result<u32, AllocError>
        ensures { IfOk result (λ block.
            Seals (built_of graph.old) (built_of graph.new) block
            (does place number (Number value) (jump_to end))) }
    {
        let made = self.jump(end).prepend(place, number, Work::Number(value))?;
        let block = graph.seal(made)?;
        Ok(block)
    }

    // After the right operand of `&&` or `||`: it becomes a truth value, and a jump follows.
    fn judged(&self, place: Place, number: u32, end: u32) -> Result<Strip, AllocError>
        ensures { IfOk result (λ made. point_of made ≡ does place number Judge (jump_to end)) }
    {
        self.jump(end).prepend(place, number, Work::Judge)
    }
}

// Returns the number of the temporary `more` above another one.
fn above(number: u32, more: usize) -> Result<u32, AllocError>
    ensures { IfOk result (λ above. above ≡ more + number) }
{
    let more = u32::try_from(more).map_err(|_| AllocError)?;
    number.checked_add(more).ok_or(AllocError)
}

// Puts the check that the result of a call was set, if the expression is one, before a strip.
fn used_before(e: &Expr, number: u32, following: Strip) -> Result<Strip, AllocError>
    ensures { IfOk result (λ made.
        point_of made ≡ used_then (typed e.now) number (point_of following)) }
{
    match &*e.kind {
        ExprKind::Call(_, _) => following.prepend(e.place, number, Work::Use),
        ExprKind::Number(_) | ExprKind::Null | ExprKind::Text(_) => Ok(following),
        ExprKind::Local(_) | ExprKind::Global(_) | ExprKind::Through(_) => Ok(following),
        ExprKind::Index(_, _, _) | ExprKind::Member(_, _) | ExprKind::Arrow(_, _) => Ok(following),
        ExprKind::Load(_) | ExprKind::Address(_) | ExprKind::Decay(_) => Ok(following),
        ExprKind::Convert(_) | ExprKind::Unary(_, _) | ExprKind::Not(_) => Ok(following),
        ExprKind::Binary(_, _, _) | ExprKind::Compare(_, _, _) => Ok(following),
        ExprKind::Sum(_, _, _, _) | ExprKind::Difference(_, _) => Ok(following),
        ExprKind::And(_, _) | ExprKind::Or(_, _) | ExprKind::Choice(_, _, _) => Ok(following),
        ExprKind::Comma(_, _) | ExprKind::Assign(_, _) => Ok(following),
        ExprKind::Update(_, _, _, _, _) | ExprKind::Move(_, _, _, _) => Ok(following),
        ExprKind::Allocate(_, _, _) | ExprKind::Free(_) => Ok(following),
    }
}
