//! Loads, assignments and updates of objects, whose operands are on the stack (C11 6.3.2.1, 6.5.2.4, 6.5.3.1, 6.5.16).
ghost use Rattle.std.specs.Prelude.{◌≡◌, IfOk, IfErr};
ghost use Rattle.cs_ast.specs.TypedProgram.{typed_program};
ghost use Rattle.cs_events.specs.Objects.{NumberCell};
ghost use Rattle.cs_meaning.specs.Access as loads;
ghost use Rattle.cs_meaning.specs.Expressions as expressions;
ghost use Rattle.cs_meaning.specs.Initials.{directed};
ghost use Rattle.cs_meaning.specs.Machine as machine;
ghost use Rattle.cs_objects.specs.Prepared.{IsReady};
ghost use Rattle.cs_objects.specs.AccessView.{access_of};
ghost use Rattle.cs_run_state.specs.MachineView.{state_of};
ghost use Rattle.cs_run_log.specs.Pieces.{GivesBoth, StopsInBoth, LeadsOrEnds};
ghost use Rattle.cs_run_state.specs.Updates.{load_act, assign_act, fetch_number_act, fetch_pointer_act, update_act, move_act, stores_computed, stores_moved};
ghost use Rattle.cs_values.specs.View.{cell_of, operand_of};

use crate::machine::Machine;
use cs_ast::Place;
use cs_ast::typed::operator::{BinOp, Direction, Gives};
use cs_objects::Setting;
use cs_objects::access::Access;
use cs_run_log::{Log, Stop};
use cs_types::IntType;
use cs_values::objects::{let_go_of_cell, let_go_of_operand};
use cs_values::{Cell, Operand, stride_of};

impl<'a> Machine<'a> {
    /// Loads from the object whose lvalue is the newest operand.
    pub fn load_from(
        &mut self,
        log: &mut Log,
        setting: &Setting<'a>,
        access: Access,
    ) -> Result<(), Stop>
        requires { IsReady setting.now }
        ensures { LeadsOrEnds setting.now log.old log.new result
            (load_act (typed_program setting.now.program.now) (access_of access.entry)
            (state_of self.old)) (state_of self.new) }
    {
        let target = self.pop_cell();
        let operand = self.load(log, setting, access, &target)?;
        self.push(operand)?;
        Ok(())
    }

    /// Loads for an update of a pointer; the lvalue stays on the stack, below the value.
    pub fn fetch_pointer(
        &mut self,
        log: &mut Log,
        setting: &Setting<'a>,
        access: Access,
    ) -> Result<(), Stop>
        requires { IsReady setting.now }
        ensures { LeadsOrEnds setting.now log.old log.new result
            (fetch_pointer_act (typed_program setting.now.program.now) (access_of access.entry)
            (state_of self.old)) (state_of self.new) }
    {
        let operand = self.load_below(log, setting, access)?;
        self.push(operand)?;
        Ok(())
    }

    /// Loads for an update of a number; the lvalue stays on the stack, below the value and the value converted to the operator's type.
    pub fn fetch_number(
        &mut self,
        log: &mut Log,
        setting: &Setting<'a>,
        place: Place,
        access: Access,
        works_in: IntType,
    ) -> Result<(), Stop>
        requires { IsReady setting.now }
        ensures { LeadsOrEnds setting.now log.old log.new result
            (fetch_number_act (typed_program setting.now.program.now) place (access_of access.entry)
            works_in (state_of self.old)) (state_of self.new) }
    {
        let operand = self.load_below(log, setting, access)?;
        let value = operand.number();
        let number = log.convert_number(setting, place, access.ty, works_in, &value)?;
        self.push(operand)?;
        self.push_cell(Cell::Number(number))?;
        Ok(())
    }

    // Loads from the object whose lvalue is the newest operand, which stays on the stack.
    fn load_below(
        &mut self,
        log: &mut Log,
        setting: &Setting<'a>,
        access: Access,
    ) -> Result<Operand, Stop>
        requires { IsReady setting.now }
        ensures ok { IfOk result (λ operand.
            GivesBoth setting.now log.old log.new
            (loads.load_object (typed_program setting.now.program.now) (state_of self.old).memory
            (state_of self.old).frame.number (access_of access.entry)
            (machine.cell_at (state_of self.old) 0)) (state_of self.new).memory
            (operand_of operand)) }
        ensures err { IfErr result
            (StopsInBoth setting.now log.old log.new
            (loads.load_object (typed_program setting.now.program.now) (state_of self.old).memory
            (state_of self.old).frame.number (access_of access.entry)
            (machine.cell_at (state_of self.old) 0))) }
        ensures state { IfOk result (λ _.
            state_of self.new ≡ machine.with_memory (state_of self.new).memory
            (state_of self.old)) }
    {
        let target = self.top_cell()?;
        let operand = self.load(log, setting, access, &target)?;
        Ok(operand)
    }

    /// Assigns, and pushes the stored value.
    pub fn assign(
        &mut self,
        log: &mut Log,
        setting: &Setting<'a>,
        place: Place,
        access: Access,
    ) -> Result<(), Stop>
        requires { IsReady setting.now }
        ensures { LeadsOrEnds setting.now log.old log.new result
            (assign_act (typed_program setting.now.program.now) place (access_of access.entry)
            (state_of self.old)) (state_of self.new) }
    {
        let (target, value) = self.pop_stored();
        let stored = self.store(log, setting, place, access, &target, &value);
        let_go_of_cell(target);
        match stored {
            Ok(()) => {
                self.push(value)?;
                Ok(())
            }
            Err(stop) => {
                let_go_of_operand(value);
                Err(stop)
            }
        }
    }

    /// Updates a number: the operands are the lvalue, the old value, the same converted, and the right operand.
    pub fn update(
        &mut self,
        log: &mut Log,
        setting: &Setting<'a>,
        place: Place,
        operator: BinOp,
        access: Access,
        works_in: IntType,
        gives: Gives,
    ) -> Result<(), Stop>
        requires { IsReady setting.now }
        ensures { LeadsOrEnds setting.now log.old log.new result
            (update_act (typed_program setting.now.program.now) place operator
            (access_of access.entry) works_in gives (state_of self.old)) (state_of self.new) }
    {
        let (target, before, left, right) = self.pop_updated();
        let stored = self.store_computed(
            log, setting, place, operator, access, works_in, &target, &left, &right,
        );
        let_go_of_cell(target);
        match stored {
            Ok(number) => {
                self.push(given_number(gives, before, number))?;
                Ok(())
            }
            Err(stop) => {
                let_go_of_operand(before);
                Err(stop)
            }
        }
    }

    // Stores the result of an update.
    fn store_computed(
        &mut self,
        log: &mut Log,
        setting: &Setting<'a>,
        place: Place,
        operator: BinOp,
        access: Access,
        works_in: IntType,
        target: &Cell,
        left: &i128,
        right: &i128,
    ) -> Result<i128, Stop>
        requires { IsReady setting.now }
        ensures ok { IfOk result
            (GivesBoth setting.now log.old log.new
            (stores_computed (typed_program setting.now.program.now) (state_of self.old).memory
            (state_of self.old).frame.number place operator (access_of access.entry) works_in
            (cell_of target.now) left.now right.now) (state_of self.new).memory) }
        ensures err { IfErr result
            (StopsInBoth setting.now log.old log.new
            (stores_computed (typed_program setting.now.program.now) (state_of self.old).memory
            (state_of self.old).frame.number place operator (access_of access.entry) works_in
            (cell_of target.now) left.now right.now)) }
        ensures state { IfOk result (λ _.
            state_of self.new ≡ machine.with_memory (state_of self.new).memory
            (state_of self.old)) }
    {
        let number = log.compute(setting, place, operator, access, works_in, left, right)?;
        let operand = Operand::Scalar(Cell::Number(number));
        self.store(log, setting, place, access, target, &operand)?;
        Ok(number)
    }

    /// Updates a pointer by a number of elements of a size in bytes: the operands are the lvalue, the old value, and the amount.
    pub fn move_pointer(
        &mut self,
        log: &mut Log,
        setting: &Setting<'a>,
        place: Place,
        access: Access,
        bytes: u64,
        direction: Direction,
        gives: Gives,
    ) -> Result<(), Stop>
        requires { IsReady setting.now }
        ensures { LeadsOrEnds setting.now log.old log.new result
            (move_act (typed_program setting.now.program.now) place (access_of access.entry) bytes
            direction gives (state_of self.old)) (state_of self.new) }
    {
        let (target, before, amount) = self.pop_moved();
        let stored = self.store_moved(
            log, setting, place, access, &target, &before, &amount, bytes, direction,
        );
        let_go_of_cell(target);
        match stored {
            Ok(moved) => {
                self.push(given(gives, before, Operand::Scalar(moved)))?;
                Ok(())
            }
            Err(stop) => {
                let_go_of_operand(before);
                Err(stop)
            }
        }
    }

    // Stores the moved pointer.
    fn store_moved(
        &mut self,
        log: &mut Log,
        setting: &Setting<'a>,
        place: Place,
        access: Access,
        target: &Cell,
        before: &Operand,
        amount: &i128,
        bytes: u64,
        direction: Direction,
    ) -> Result<Cell, Stop>
        requires { IsReady setting.now }
        ensures ok { IfOk result (λ moved.
            GivesBoth setting.now log.old log.new
            (stores_moved (typed_program setting.now.program.now) (state_of self.old).memory
            (state_of self.old).frame.number place (access_of access.entry) (cell_of target.now)
            (machine.cell_of (operand_of before.now)) (directed direction amount.now) bytes)
            (state_of self.new).memory (cell_of moved)) }
        ensures err { IfErr result
            (StopsInBoth setting.now log.old log.new
            (stores_moved (typed_program setting.now.program.now) (state_of self.old).memory
            (state_of self.old).frame.number place (access_of access.entry) (cell_of target.now)
            (machine.cell_of (operand_of before.now)) (directed direction amount.now) bytes)) }
        ensures state { IfOk result (λ _.
            state_of self.new ≡ machine.with_memory (state_of self.new).memory
            (state_of self.old)) }
    {
        let stride = stride_of(amount, direction, bytes)?;
        let pointer = before.copy()?.into_cell();
        let moved = log.sum(setting, place, pointer, stride)?;
        let operand = Operand::Scalar(moved);
        self.store(log, setting, place, access, target, &operand)?;
        Ok(operand.into_cell())
    }

    // Pops the lvalue of an update of a pointer, the old value, and the amount.
    #[tactic(auto, using(crate::proofs::States::states))]
    fn pop_moved(&mut self) -> (Cell, Operand, i128)
        ensures target { cell_of result.0 ≡ machine.cell_at (state_of self.old) 2 }
        ensures before { operand_of result.1 ≡ machine.operand_at (state_of self.old) 1 }
        ensures amount { result.2 ≡ expressions.number_at (state_of self.old) 0 }
        ensures state { state_of self.new ≡ machine.pop_many 3 (state_of self.old) }
    {
        let amount = self.pop_number();
        let (target, before) = self.pop_stored();
        (target, before, amount)
    }

    // Pops the lvalue of an update of a number, the old value, the same converted, and the right operand.
    #[tactic(auto, using(crate::proofs::States::states))]
    fn pop_updated(&mut self) -> (Cell, Operand, i128, i128)
        ensures target { cell_of result.0 ≡ machine.cell_at (state_of self.old) 3 }
        ensures before { operand_of result.1 ≡ machine.operand_at (state_of self.old) 2 }
        ensures left { result.2 ≡ expressions.number_at (state_of self.old) 1 }
        ensures right { result.3 ≡ expressions.number_at (state_of self.old) 0 }
        ensures state { state_of self.new ≡ machine.pop_many 4 (state_of self.old) }
    {
        let right = self.pop_number();
        let (target, before, left) = self.pop_moved();
        (target, before, left, right)
    }

    // Pops the lvalue of an assignment or of an update, and the value above it.
    #[tactic(auto, using(crate::proofs::States::states))]
    fn pop_stored(&mut self) -> (Cell, Operand)
        ensures target { cell_of result.0 ≡ machine.cell_at (state_of self.old) 1 }
        ensures value { operand_of result.1 ≡ machine.operand_at (state_of self.old) 0 }
        ensures state { state_of self.new ≡ machine.pop_many 2 (state_of self.old) }
    {
        let value = self.pop();
        let target = self.pop_cell();
        (target, value)
    }
}

// Returns the value of an update: the old one or the new one (C11 6.5.2.4, 6.5.3.1, 6.5.16).
fn given(gives: Gives, before: Operand, after: Operand) -> Operand
    ensures { operand_of result ≡ expressions.given gives (operand_of before) (operand_of after) }
{
    match gives {
        Gives::Old => before,
        Gives::New => after,
    }
}

// The same for a number.
fn given_number(gives: Gives, before: Operand, after: i128) -> Operand
    ensures { operand_of result ≡ expressions.given gives (operand_of before)
        (machine.Scalar (NumberCell after)) }
{
    match gives {
        Gives::Old => before,
        Gives::New => Operand::Scalar(Cell::Number(after)),
    }
}
