//! Schedules the parts of an expression, and its operation on them, before the other things to do (C11 6.5).
ghost use Rattle.std.specs.Prelude.{◌≡◌, ◌∷◌, List, OnOk, if◌then◌else◌};
ghost use Rattle.cs_types.specs.Shape.{shape_of};
ghost use Rattle.cs_ast.specs.TypedView.{typed, typed_list};
ghost use Rattle.cs_meaning.specs.Machine as machine;
ghost use Rattle.cs_meaning.specs.Expressions as expressions;
ghost use Rattle.cs_run_state.specs.MachineView.{state_of, expression_item};

use crate::items::{ExprStep, Item};
use crate::machine::Machine;
use cs_ast::typed::expression::{Expr, ExprKind};
use cs_ast::typed::operator::Order;
use cs_types::CType;
use std::alloc::AllocError;

impl<'a> Machine<'a> {
    /// Puts a step of an expression before the other things to do.
    pub fn put_expr(&mut self, step: ExprStep, e: &'a Expr) -> Result<(), AllocError>
        ensures { OnOk result (state_of self.new
            ≡ machine.to_do (expression_item step (typed e.now)
            ∷ (state_of self.old).frame.todo) (state_of self.old)) }
    {
        self.put(Item::Expression(step, e))?;
        Ok(())
    }

    /// Puts the parts of an expression and its operation on them before the other things to do, followed by the check of a result if it is a
    /// call.
    pub fn evaluate(&mut self, e: &'a Expr) -> Result<(), AllocError>
        ensures { OnOk result (state_of self.new
            ≡ machine.to_do (expressions.evaluates (typed e.now)
            (expressions.uses (typed e.now) (state_of self.old).frame.todo)) (state_of self.old)) }
    {
        if is_call(e) {
            self.put(Item::Use(e.place))?;
        }
        self.evaluate_parts(e)?;
        Ok(())
    }

    /// Puts the parts of an expression and its operation on them before the other things to do.
    pub fn evaluate_parts(&mut self, e: &'a Expr) -> Result<(), AllocError>
        ensures { OnOk result (state_of self.new
            ≡ machine.to_do (expressions.evaluates (typed e.now) (state_of self.old).frame.todo)
            (state_of self.old)) }
    {
        match &*e.kind {
            ExprKind::Number(_) => self.put_expr(ExprStep::Act, e),
            ExprKind::Null => self.put_expr(ExprStep::Act, e),
            ExprKind::Text(_) => self.put_expr(ExprStep::Act, e),
            ExprKind::Local(_) => self.put_expr(ExprStep::Act, e),
            ExprKind::Global(_) => self.put_expr(ExprStep::Act, e),
            ExprKind::Through(pointer) => self.put_expr(ExprStep::Evaluate, pointer),
            ExprKind::Index(array, number, order) => self.evaluate_both(e, array, number, *order),
            ExprKind::Member(object, _) => self.evaluate_one(e, object, ExprStep::Act),
            ExprKind::Arrow(pointer, _) => self.evaluate_one(e, pointer, ExprStep::Act),
            ExprKind::Load(object) => self.evaluate_one(e, object, ExprStep::Act),
            ExprKind::Address(object) => self.put_expr(ExprStep::Evaluate, object),
            ExprKind::Decay(array) => self.put_expr(ExprStep::Evaluate, array),
            ExprKind::Convert(value) => self.evaluate_operand(e, value),
            ExprKind::Unary(_, operand) => self.evaluate_one(e, operand, ExprStep::Act),
            ExprKind::Not(operand) => self.evaluate_one(e, operand, ExprStep::Act),
            ExprKind::Binary(_, left, right) => self.evaluate_two(e, left, right),
            ExprKind::Compare(_, left, right) => self.evaluate_two(e, left, right),
            ExprKind::Sum(pointer, amount, _, order) => {
                self.evaluate_both(e, pointer, amount, *order)
            }
            ExprKind::Difference(left, right) => self.evaluate_two(e, left, right),
            ExprKind::And(left, _) => self.evaluate_one(e, left, ExprStep::Choose),
            ExprKind::Or(left, _) => self.evaluate_one(e, left, ExprStep::Choose),
            ExprKind::Choice(test, _, _) => self.evaluate_one(e, test, ExprStep::Choose),
            ExprKind::Comma(first, second) => self.evaluate_comma(first, second),
            ExprKind::Assign(object, value) => self.evaluate_two(e, object, value),
            ExprKind::Update(_, object, value, _, _) => self.evaluate_update(e, object, value),
            ExprKind::Move(object, amount, _, _) => self.evaluate_update(e, object, amount),
            ExprKind::Call(_, arguments) => self.evaluate_all(e, arguments),
            ExprKind::Allocate(_, arguments, _) => self.evaluate_all(e, arguments),
            ExprKind::Free(pointer) => self.evaluate_one(e, pointer, ExprStep::Act),
        }
    }

    // One operand, and then a step of the expression.
    fn evaluate_one(
        &mut self,
        e: &'a Expr,
        part: &'a Expr,
        step: ExprStep,
    ) -> Result<(), AllocError>
        ensures { OnOk result (state_of self.new
            ≡ machine.to_do (machine.Evaluate (typed part.now)
            ∷ (expression_item step (typed e.now) ∷ (state_of self.old).frame.todo))
            (state_of self.old)) }
    {
        self.put_expr(step, e)?;
        self.put_expr(ExprStep::Evaluate, part)?;
        Ok(())
    }

    // Two operands, from left to right.
    fn evaluate_two(
        &mut self,
        e: &'a Expr,
        left: &'a Expr,
        right: &'a Expr,
    ) -> Result<(), AllocError>
        ensures { OnOk result (state_of self.new
            ≡ machine.to_do (machine.Evaluate (typed left.now)
            ∷ (machine.Evaluate (typed right.now)
            ∷ (machine.Act (typed e.now) ∷ (state_of self.old).frame.todo)))
            (state_of self.old)) }
    {
        self.evaluate_one(e, right, ExprStep::Act)?;
        self.put_expr(ExprStep::Evaluate, left)?;
        Ok(())
    }

    // A pointer and an amount, in file order.
    fn evaluate_both(
        &mut self,
        e: &'a Expr,
        pointer: &'a Expr,
        amount: &'a Expr,
        order: Order,
    ) -> Result<(), AllocError>
        ensures { OnOk result (state_of self.new
            ≡ machine.to_do (expressions.evaluates_both (typed pointer.now) (typed amount.now)
            order (machine.Act (typed e.now) ∷ (state_of self.old).frame.todo))
            (state_of self.old)) }
    {
        match order {
            Order::PointerFirst => self.evaluate_two(e, pointer, amount),
            Order::AmountFirst => self.evaluate_two(e, amount, pointer),
        }
    }

    // The operand of a conversion; in one to `void`, its value isn't used.
    fn evaluate_operand(&mut self, e: &'a Expr, value: &'a Expr) -> Result<(), AllocError>
        ensures { OnOk result (state_of self.new
            ≡ machine.to_do (expressions.evaluates_operand (shape_of e.now.ty) (typed value.now)
            (machine.Act (typed e.now) ∷ (state_of self.old).frame.todo)) (state_of self.old)) }
    {
        self.put_expr(ExprStep::Act, e)?;
        match &e.ty {
            CType::Void => self.put_expr(ExprStep::EvaluateUnused, value),
            CType::Int(_) => self.put_expr(ExprStep::Evaluate, value),
            CType::Pointer(_) => self.put_expr(ExprStep::Evaluate, value),
            CType::Array(_, _) => self.put_expr(ExprStep::Evaluate, value),
            CType::Struct(_) => self.put_expr(ExprStep::Evaluate, value),
        }
    }

    // The left operand of a comma, whose value is dropped, and the right one.
    fn evaluate_comma(&mut self, first: &'a Expr, second: &'a Expr) -> Result<(), AllocError>
        ensures { OnOk result (state_of self.new
            ≡ machine.to_do (machine.EvaluateUnused (typed first.now)
            ∷ (machine.Drop
            ∷ (machine.Evaluate (typed second.now) ∷ (state_of self.old).frame.todo)))
            (state_of self.old)) }
    {
        self.put_expr(ExprStep::Evaluate, second)?;
        self.put(Item::Discard)?;
        self.put_expr(ExprStep::EvaluateUnused, first)?;
        Ok(())
    }

    // The lvalue of an update, its old value, and the right operand.
    fn evaluate_update(
        &mut self,
        e: &'a Expr,
        object: &'a Expr,
        value: &'a Expr,
    ) -> Result<(), AllocError>
        ensures { OnOk result (state_of self.new
            ≡ machine.to_do (machine.Evaluate (typed object.now)
            ∷ (machine.Fetch (typed e.now)
            ∷ (machine.Evaluate (typed value.now)
            ∷ (machine.Act (typed e.now) ∷ (state_of self.old).frame.todo))))
            (state_of self.old)) }
    {
        self.evaluate_one(e, value, ExprStep::Act)?;
        self.evaluate_one(e, object, ExprStep::Fetch)?;
        Ok(())
    }

    // Arguments, from the first on.
    fn evaluate_all(&mut self, e: &'a Expr, arguments: &'a [Expr]) -> Result<(), AllocError>
        ensures { OnOk result (state_of self.new
            ≡ machine.to_do (expressions.evaluates_all (typed_list arguments.now)
            (machine.Act (typed e.now) ∷ (state_of self.old).frame.todo)) (state_of self.old)) }
    {
        self.put_expr(ExprStep::Act, e)?;
        let mut left = arguments.len();
        while left > 0 {
            left -= 1;
            self.put_expr(ExprStep::Evaluate, &arguments[left])?;
        }
        Ok(())
    }
}

// Whether an expression is a call of a function.
fn is_call(e: &Expr) -> bool
    ensures { (following : List machine.Item)
        → expressions.uses (typed e.now) following
        ≡ (if result then machine.Use e.now.place ∷ following else following) }
{
    matches!(&*e.kind, ExprKind::Call(_, _))
}
