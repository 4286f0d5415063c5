//! The state of the interpreter: frames with their things to do, operands, visits, and memory.
#![tactic(auto, using(crate::proofs::States::states), unfolding(crate::specs::MachineView::state_of))]

ghost use Rattle.std.specs.Prelude.{◌≡◌, [], ◌∷◌, OnOk, IfOk, IfErr, IfSome, IfNone};
ghost use Rattle.cs_ast.specs.TypedProgram.{typed_program};
ghost use Rattle.cs_meaning.specs.Access as loads;
ghost use Rattle.cs_meaning.specs.Expressions as expressions;
ghost use Rattle.cs_meaning.specs.Machine as machine;
ghost use Rattle.cs_objects.specs.Prepared.{IsReady};
ghost use Rattle.cs_values.specs.View.{cell_of, operand_of};
ghost use Rattle.cs_objects.specs.AccessView.{access_of};
ghost use Rattle.cs_run_state.specs.MachineView.{item_of, state_of};
ghost use Rattle.cs_run_log.specs.Pieces.{Gives, StopsIn, GivesBoth, StopsInBoth};

use crate::items::Item;
use cs_ast::Place;
use cs_ast::typed::operator::Order;
use cs_memory::memory::Memory;
use cs_objects::Setting;
use cs_objects::access::Access;
use cs_run_log::{Log, Stop};
use cs_values::{Cell, Operand};
use std::alloc::AllocError;

/// A call of a function that has not ended.
#[derive(Drop)]
pub struct Frame<'a> {
    /// The function's number in the program.
    pub function: u32,
    /// The frame's number in the run.
    pub number: u64,
    /// The things to do; the next one is the last.
    pub todo: Vec<Item<'a>>,
    /// Values and lvalues, the newest last.
    pub stack: Vec<Operand>,
    /// The number of visits of each counted point of the body.
    pub visits: Vec<u32>,
}

/// A state of a run.
#[derive(Drop)]
pub struct Machine<'a> {
    /// The current frame.
    pub frame: Frame<'a>,
    /// The frames on the call stack below it, its caller last.
    pub callers: Vec<Frame<'a>>,
    pub memory: Memory<'a>,
    /// The number of calls so far of functions without a body.
    pub calls: u64,
}

impl<'a> Machine<'a> {
    /// Puts a thing to do before the others.
    pub fn put(&mut self, item: Item<'a>) -> Result<(), AllocError>
        ensures { OnOk result (state_of self.new
            ≡ machine.to_do (item_of item.entry ∷ (state_of self.old).frame.todo)
            (state_of self.old)) }
    {
        self.frame.todo.push(item)?;
        Ok(())
    }

    /// Takes the next thing to do.
    pub fn next(&mut self) -> Option<Item<'a>>
        ensures some { IfSome result (λ item.
            state_of self.old ≡ machine.to_do (item_of item ∷ (state_of self.new).frame.todo)
            (state_of self.new)) }
        ensures none { IfNone result ((state_of self.old).frame.todo ≡ []) }
        ensures same { IfNone result (state_of self.new ≡ state_of self.old) }
    {
        match self.frame.todo.pop() {
            Some(item) => Some(item),
            None => None,
        }
    }

    /// Pushes an operand.
    pub fn push(&mut self, operand: Operand) -> Result<(), AllocError>
        ensures { OnOk result (state_of self.new
            ≡ machine.push (operand_of operand) (state_of self.old)) }
    {
        self.frame.stack.push(operand)?;
        Ok(())
    }

    /// Pushes a scalar.
    pub fn push_cell(&mut self, cell: Cell) -> Result<(), AllocError>
        ensures { OnOk result (state_of self.new
            ≡ machine.push_cell (cell_of cell) (state_of self.old)) }
    {
        self.push(Operand::Scalar(cell))?;
        Ok(())
    }

    /// Pops the newest operand.
    pub fn pop(&mut self) -> Operand
        ensures operand { operand_of result ≡ machine.operand_at (state_of self.old) 0 }
        ensures state { state_of self.new ≡ machine.pop (state_of self.old) }
    {
        self.frame
            .stack
            .pop()
            .unwrap_or(Operand::Scalar(Cell::Unset))
    }

    /// Pops the newest operand as a scalar.
    pub fn pop_cell(&mut self) -> Cell
        ensures cell { cell_of result ≡ machine.cell_at (state_of self.old) 0 }
        ensures state { state_of self.new ≡ machine.pop (state_of self.old) }
    {
        self.pop().into_cell()
    }

    /// Pops the two newest operands as scalars, and returns the older one first.
    pub fn pop_two(&mut self) -> (Cell, Cell)
        ensures older { cell_of result.0 ≡ machine.cell_at (state_of self.old) 1 }
        ensures newer { cell_of result.1 ≡ machine.cell_at (state_of self.old) 0 }
        ensures state { state_of self.new ≡ machine.pop_many 2 (state_of self.old) }
    {
        let newer = self.pop_cell();
        let older = self.pop_cell();
        (older, newer)
    }

    /// Pops the newest operand as a number.
    pub fn pop_number(&mut self) -> i128
        ensures number { result ≡ expressions.number_at (state_of self.old) 0 }
        ensures state { state_of self.new ≡ machine.pop (state_of self.old) }
    {
        self.pop_cell().number()
    }

    /// Pops the two newest operands as numbers, and returns the older one first.
    pub fn pop_numbers(&mut self) -> (i128, i128)
        ensures older { result.0 ≡ expressions.number_at (state_of self.old) 1 }
        ensures newer { result.1 ≡ expressions.number_at (state_of self.old) 0 }
        ensures state { state_of self.new ≡ machine.pop_many 2 (state_of self.old) }
    {
        let newer = self.pop_number();
        let older = self.pop_number();
        (older, newer)
    }

    /// Pops a pointer and an amount, which were evaluated in the given order.
    pub fn pop_both(&mut self, order: Order) -> (Cell, i128)
        ensures pointer { cell_of result.0
            ≡ machine.cell_at (state_of self.old) (expressions.pointer_age order) }
        ensures amount { result.1 ≡ expressions.number_at (state_of self.old)
            (expressions.amount_age order) }
        ensures state { state_of self.new ≡ machine.pop_many 2 (state_of self.old) }
    {
        let (older, newer) = self.pop_two();
        match order {
            Order::PointerFirst => (older, newer.number()),
            Order::AmountFirst => (newer, older.number()),
        }
    }

    /// Returns a copy of the newest operand as a scalar.
    pub fn top_cell(&self) -> Result<Cell, AllocError>
        ensures { IfOk result (λ cell. cell_of cell ≡ machine.cell_at (state_of self.now) 0) }
    {
        match self.frame.stack.last() {
            Some(operand) => {
                let copy = operand.copy()?;
                Ok(copy.into_cell())
            }
            None => Ok(Cell::Unset),
        }
    }

    /// Loads in the current frame.
    pub fn load(
        &mut self,
        log: &mut Log,
        setting: &Setting<'a>,
        access: Access,
        place: &Cell,
    ) -> Result<Operand, Stop>
        requires { IsReady setting.now }
        ensures ok { IfOk result (λ operand.
            GivesBoth setting.now log.old log.new
            (loads.load_object (typed_program setting.now.program.now) (state_of self.old).memory
            (state_of self.old).frame.number (access_of access.entry) (cell_of place.now))
            (state_of self.new).memory (operand_of operand)) }
        ensures err { IfErr result
            (StopsInBoth setting.now log.old log.new
            (loads.load_object (typed_program setting.now.program.now) (state_of self.old).memory
            (state_of self.old).frame.number (access_of access.entry) (cell_of place.now))) }
        ensures state { IfOk result (λ _.
            state_of self.new ≡ machine.with_memory (state_of self.new).memory
            (state_of self.old)) }
    {
        let frame = self.frame.number;
        let operand = self.memory.load(log, setting, frame, access, place)?;
        Ok(operand)
    }

    /// Stores at an lvalue in the current frame.
    pub fn store(
        &mut self,
        log: &mut Log,
        setting: &Setting<'a>,
        at: Place,
        access: Access,
        place: &Cell,
        operand: &Operand,
    ) -> Result<(), Stop>
        requires { IsReady setting.now }
        ensures ok { OnOk result
            (Gives setting.now log.old log.new
            (loads.store_object (typed_program setting.now.program.now) (state_of self.old).memory
            (state_of self.old).frame.number at (access_of access.entry) (cell_of place.now)
            (operand_of operand.now)) (state_of self.new).memory) }
        ensures err { IfErr result
            (StopsIn setting.now log.old log.new
            (loads.store_object (typed_program setting.now.program.now) (state_of self.old).memory
            (state_of self.old).frame.number at (access_of access.entry) (cell_of place.now)
            (operand_of operand.now))) }
        ensures state { OnOk result
            (state_of self.new ≡ machine.with_memory (state_of self.new).memory
            (state_of self.old)) }
    {
        let frame = self.frame.number;
        self.memory
            .store(log, setting, frame, at, access, place, operand)?;
        Ok(())
    }
}
