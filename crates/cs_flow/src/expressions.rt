//! The control points of expressions (C11 6.5).
ghost use Rattle.std.specs.Prelude.{◌≡◌, ◌++◌, ◌∷◌, IfOk, OnOk};
ghost use Rattle.cs_ast.specs.TypedView.{typed, typed_list, some_typed};
ghost use Rattle.cs_events.specs.declared.point.PointKind.TheVariants as kinds;
ghost use Rattle.cs_cfg.specs.ControlPoints as cfg;
ghost use Rattle.cs_flow.specs.PointView.{next_of, points_of};

use crate::point::{Next, meets};
use crate::points::Points;
use cs_ast::Place;
use cs_ast::typed::expression::{Expr, ExprKind};
use cs_ast::typed::operator::Order;
use cs_events::PointKind;
use std::alloc::AllocError;

impl Points {
    /// Puts the control points of an expression before the others, given what is reached after it; returns what is reached first.
    #[cycle(expression)]
    pub(crate) fn expression(&mut self, e: &Expr, following: Next) -> Result<Next, AllocError>
        ensures points { OnOk result
            (points_of self.new ≡ cfg.points (typed e.now) (next_of following)
            ++ points_of self.old) }
        ensures first { IfOk result (λ first.
            next_of first ≡ cfg.first (typed e.now) (next_of following)) }
    {
        match &*e.kind {
            ExprKind::Number(_) | ExprKind::Null | ExprKind::Text(_) => Ok(following),
            ExprKind::Local(_) | ExprKind::Global(_) => Ok(following),
            ExprKind::Through(a)
            | ExprKind::Member(a, _)
            | ExprKind::Arrow(a, _)
            | ExprKind::Load(a)
            | ExprKind::Address(a)
            | ExprKind::Decay(a)
            | ExprKind::Convert(a)
            | ExprKind::Unary(_, a)
            | ExprKind::Not(a)
            | ExprKind::Free(a) => self.expression(a, following),
            ExprKind::Index(a, b, Order::PointerFirst) => self.pair(a, b, following),
            ExprKind::Index(a, b, Order::AmountFirst) => self.pair(b, a, following),
            ExprKind::Sum(a, b, _, Order::PointerFirst) => self.pair(a, b, following),
            ExprKind::Sum(a, b, _, Order::AmountFirst) => self.pair(b, a, following),
            ExprKind::Binary(_, a, b) | ExprKind::Compare(_, a, b) => self.pair(a, b, following),
            ExprKind::Difference(a, b) | ExprKind::Comma(a, b) => self.pair(a, b, following),
            ExprKind::Assign(a, b) | ExprKind::Move(a, b, _, _) => self.pair(a, b, following),
            ExprKind::Update(_, a, b, _, _) => self.pair(a, b, following),
            ExprKind::And(a, b) => {
                let right = self.expression(b, following)?;
                self.test(e.place, a, right, following)
            }
            ExprKind::Or(a, b) => {
                let right = self.expression(b, following)?;
                self.test(e.place, a, following, right)
            }
            ExprKind::Choice(a, b, c) => {
                let other = self.expression(c, following)?;
                let one = self.expression(b, following)?;
                self.test(e.place, a, one, other)
            }
            ExprKind::Call(_, arguments) => self.expressions(arguments, following),
            ExprKind::Allocate(_, arguments, _) => self.expressions(arguments, following),
        }
    }

    /// The same for two expressions, evaluated in this order.
    #[cycle(expression)]
    fn pair(&mut self, a: &Expr, b: &Expr, following: Next) -> Result<Next, AllocError>
        ensures points { OnOk result
            (points_of self.new ≡ cfg.points (typed a.now)
            (cfg.first (typed b.now) (next_of following))
            ++ cfg.points (typed b.now) (next_of following) ++ points_of self.old) }
        ensures first { IfOk result (λ first.
            next_of first ≡ cfg.first (typed a.now)
            (cfg.first (typed b.now) (next_of following))) }
    {
        let second = self.expression(b, following)?;
        self.expression(a, second)
    }

    /// The same for a test at a source position, given what is reached if it is true, and if it is false.
    #[cycle(expression)]
    fn test(
        &mut self,
        place: Place,
        test: &Expr,
        one: Next,
        other: Next,
    ) -> Result<Next, AllocError>
        ensures points { OnOk result
            (points_of self.new ≡ cfg.points (typed test.now) (cfg.met kinds.Branch place)
            ++ cfg.tested place (next_of one) (next_of other) ∷ points_of self.old) }
        ensures first { IfOk result (λ first.
            next_of first ≡ cfg.first (typed test.now) (cfg.met kinds.Branch place)) }
    {
        self.put_tested(place, one, other)?;
        self.expression(test, meets(PointKind::Branch, place))
    }

    /// The same for consecutive expressions.
    #[cycle(expression)]
    fn expressions(&mut self, list: &[Expr], following: Next) -> Result<Next, AllocError>
        ensures points { OnOk result
            (points_of self.new ≡ cfg.points_in (typed_list list.now) (next_of following)
            ++ points_of self.old) }
        ensures first { IfOk result (λ first.
            next_of first ≡ cfg.first_in (typed_list list.now) (next_of following)) }
    {
        let mut next = following;
        for e in list.iter().rev() {
            next = self.expression(e, next)?;
        }
        Ok(next)
    }

    /// The same for an optional expression.
    pub(crate) fn optional(&mut self, e: &Option<Expr>, following: Next) -> Result<Next, AllocError>
        ensures points { OnOk result
            (points_of self.new ≡ cfg.points_some (some_typed e.now) (next_of following)
            ++ points_of self.old) }
        ensures first { IfOk result (λ first.
            next_of first ≡ cfg.first_some (some_typed e.now) (next_of following)) }
    {
        match e {
            Some(e) => self.expression(e, following),
            None => Ok(following),
        }
    }
}
