//! Steps between the parts of an expression: the branch of a test, and the use of a call's result.
ghost use Rattle.std.specs.Prelude.{◌≡◌, OnOk, IfOk, IfErr};
ghost use Rattle.cs_ast.specs.TypedView.{typed};
ghost use Rattle.cs_events.specs.Acts.{Act};
ghost use Rattle.cs_meaning.specs.Machine as machine;
ghost use Rattle.cs_meaning.specs.Machine.{State};
ghost use Rattle.cs_meaning.specs.Operators as operators;
ghost use Rattle.cs_meaning.specs.Expressions as expressions;
ghost use Rattle.cs_values.specs.View.{operand_of};
ghost use Rattle.cs_run_state.specs.MachineView.{state_of};
ghost use Rattle.cs_run_state.specs.Choosing.{result_act};
ghost use Rattle.cs_run_log.specs.Pieces.{LeadsTo, EndsBy, Gives, StopsIn, or_fault};

use crate::items::{ExprStep, Item};
use crate::machine::Machine;
use cs_ast::Place;
use cs_ast::typed::expression::{Expr, ExprKind};
use cs_events::Label;
use cs_memory::access::refused_use;
use cs_model::Kind;
use cs_objects::Setting;
use cs_run_log::operators::fault;
use cs_run_log::{Log, Stop};
use cs_values::Operand;
use cs_values::constants::truth_cell;
use std::alloc::AllocError;

impl<'a> Machine<'a> {
    /// Takes the branch that the first operand of `&&`, `||` or `?:` selects (C11 6.5.13 to 6.5.15).
    pub fn choose(&mut self, log: &mut Log, setting: &Setting<'a>, e: &'a Expr) -> Result<(), Stop>
        ensures ok { OnOk result
            (LeadsTo setting.now log.old log.new
            (expressions.choose (typed e.now) (state_of self.old)) (state_of self.new)) }
        ensures err { IfErr result
            (EndsBy setting.now log.old log.new
            (expressions.choose (typed e.now) (state_of self.old))) }
    {
        let place = e.place;
        match &*e.kind {
            ExprKind::And(_, right) => {
                let holds = self.test(log, setting, place)?;
                self.go_on_to(holds, place, right, false)?;
                Ok(())
            }
            ExprKind::Or(_, right) => {
                let holds = self.test(log, setting, place)?;
                self.go_on_to(!holds, place, right, true)?;
                Ok(())
            }
            ExprKind::Choice(_, one, other) => {
                let holds = self.test(log, setting, place)?;
                self.put_expr(ExprStep::Evaluate, if holds { one } else { other })?;
                Ok(())
            }
            ExprKind::Number(_) | ExprKind::Null | ExprKind::Text(_) => Ok(()),
            ExprKind::Local(_) | ExprKind::Global(_) | ExprKind::Through(_) => Ok(()),
            ExprKind::Index(_, _, _) | ExprKind::Member(_, _) | ExprKind::Arrow(_, _) => Ok(()),
            ExprKind::Load(_) | ExprKind::Address(_) | ExprKind::Decay(_) => Ok(()),
            ExprKind::Convert(_) | ExprKind::Unary(_, _) | ExprKind::Not(_) => Ok(()),
            ExprKind::Binary(_, _, _) | ExprKind::Compare(_, _, _) => Ok(()),
            ExprKind::Sum(_, _, _, _) | ExprKind::Difference(_, _) => Ok(()),
            ExprKind::Comma(_, _) | ExprKind::Assign(_, _) => Ok(()),
            ExprKind::Update(_, _, _, _, _) | ExprKind::Move(_, _, _, _) => Ok(()),
            ExprKind::Call(_, _) | ExprKind::Allocate(_, _, _) | ExprKind::Free(_) => Ok(()),
        }
    }

    /// Pops the newest value as a test's; returns the branch that it takes, which shows.
    pub fn test(&mut self, log: &mut Log, setting: &Setting<'a>, place: Place) -> Result<bool, Stop>
        ensures ok { IfOk result (λ holds.
            (state_of self.new ≡ machine.pop (state_of self.old))
            × Gives setting.now log.old log.new
            (operators.branch place (machine.cell_at (state_of self.old) 0)) holds) }
        ensures err { IfErr result
            (StopsIn setting.now log.old log.new
            (operators.branch place (machine.cell_at (state_of self.old) 0))) }
    {
        let value = self.pop_cell();
        let holds = log.branch(setting, place, &value)?;
        Ok(holds)
    }

    // Schedules the second operand, to be evaluated and made a truth value, if it is needed; else pushes the known value.
    fn go_on_to(
        &mut self,
        needed: bool,
        place: Place,
        part: &'a Expr,
        known: bool,
    ) -> Result<(), AllocError>
        ensures { OnOk result (state_of self.new
            ≡ expressions.goes_on_to needed place (typed part.now) known (state_of self.old)) }
    {
        if needed {
            self.put(Item::Judge(place))?;
            self.put_expr(ExprStep::Evaluate, part)?;
        } else {
            self.push_cell(truth_cell(known))?;
        }
        Ok(())
    }

    /// Pops the right operand of `&&` or `||`; its truth value shows, and is pushed.
    pub fn judge(&mut self, log: &mut Log, setting: &Setting<'a>, place: Place) -> Result<(), Stop>
        ensures ok { OnOk result
            (LeadsTo setting.now log.old log.new (expressions.judge place (state_of self.old))
            (state_of self.new)) }
        ensures err { IfErr result
            (EndsBy setting.now log.old log.new (expressions.judge place (state_of self.old))) }
    {
        let value = self.pop_cell();
        let holds = log.truth(setting, place, &value)?;
        log.show(setting, place, Label::Truth(holds))?;
        self.push_cell(truth_cell(holds))?;
        Ok(())
    }

    /// Checks that the result of a call, which is used, was set (C11 6.9.1, paragraph 12).
    pub fn use_result(&self, log: &Log, setting: &Setting<'a>, place: Place) -> Result<(), Stop>
        ensures ok { OnOk result
            (LeadsTo setting.now log.now log.now
            (expressions.use_result place (machine.operand_at (state_of self.now) 0)
            (state_of self.now)) (state_of self.now)) }
        ensures err { IfErr result
            (EndsBy setting.now log.now log.now
            (expressions.use_result place (machine.operand_at (state_of self.now) 0)
            (state_of self.now))) }
    {
        match self.refused_result() {
            Some(kind) => Err(fault(kind, place)),
            None => Ok(()),
        }
    }

    // Returns the fault of a use of the newest value, if it can't be used.
    #[tactic(auto, using(crate::proofs::States::states), unfolding(crate::specs::MachineView::state_of))]
    fn refused_result(&self) -> Option<Kind>
        ensures { (place : Place) (act : Act State)
            → result_act place (machine.operand_at (state_of self.now) 0) act
            ≡ or_fault place result act }
    {
        match self.frame.stack.last() {
            Some(operand) => refused_operand(operand),
            None => Some(Kind::Unset),
        }
    }
}

// Returns the fault of a use of a value, if it can't be used.
fn refused_operand(operand: &Operand) -> Option<Kind>
    ensures { (place : Place) (act : Act State)
        → result_act place (operand_of operand.now) act ≡ or_fault place result act }
{
    match operand {
        Operand::Scalar(cell) => refused_use(cell),
        Operand::Whole(_) => None,
        Operand::Nothing => None,
    }
}
