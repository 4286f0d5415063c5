//! The instruction at a spot of the code, and how many operands it takes.
ghost use Rattle.std.specs.Prelude.{◌≡◌, ◌+◌, map};
ghost use Rattle.cs_cfg.specs.Graph.{Point, flow_of};
ghost use Rattle.cs_cfg.specs.GraphView.{block, block_end, code, lent_block, lent_flow, operation, work};
ghost use Rattle.cs_cfg.specs.Instructions.{IsFirst, takes_at_end, takes_from};
ghost use Rattle.cs_cfg.specs.Spots.{after, block_at, point_in_or, point_of};
ghost use Rattle.cs_cfg.specs.Working.{allocator_takes as arguments_of, takes as operands_of};

use crate::code::{Block, BlockEnd, Code, CountedPoint, Flow, Spot};
use crate::operation::{Operation, Work};
use cs_ast::typed::operator::Allocator;

/// What a run does at a spot.
#[derive(Clone, Copy)]
pub enum Instruction<'a> {
    /// A loop head or a label is reached.
    CountedPoint(&'a CountedPoint),
    Operation(&'a Operation),
    /// The end of a block.
    End(&'a BlockEnd),
    /// There is no such spot: the frame returns an unset value.
    Nowhere,
}

impl Code {
    /// Returns what a run does at a spot.
    pub fn instruction_at(&self, spot: Spot) -> Instruction<'_>
        ensures first { IsFirst result (point_of (code self.now) spot)
            (point_of (code self.now) (after spot)) }
    {
        match self.block_at(spot) {
            Some(block) => block.instruction(spot.operation as usize),
            None => Instruction::Nowhere,
        }
    }

    // Returns the block of a spot.
    fn block_at(&self, spot: Spot) -> Option<&Block>
        ensures found { block_at (code self.now) spot ≡ lent_block result }
    {
        match self.flow_at(spot.function) {
            Some(flow) => flow.blocks.get(spot.block as usize),
            None => None,
        }
    }

    /// Returns the graph of a function, if it has one.
    pub fn flow_at(&self, function: u32) -> Option<&Flow>
        ensures found { flow_of (code self.now) function ≡ lent_flow result }
    {
        match self.flows.get(function as usize) {
            Some(Some(flow)) => Some(flow),
            Some(None) => None,
            None => None,
        }
    }
}

impl Block {
    // Returns the instruction with a number in the block: its counted point, an operation or its end.
    fn instruction(&self, number: usize) -> Instruction<'_>
        ensures first { IsFirst result (point_in_or (block self.now) number)
            (point_in_or (block self.now) (number + 1)) }
    {
        match &self.counted_point {
            Some(counted_point) if number == 0 => Instruction::CountedPoint(counted_point),
            Some(_) => instruction_of(&self.operations, &self.end, number - 1),
            None => instruction_of(&self.operations, &self.end, number),
        }
    }
}

// The same in a block without a counted point.
fn instruction_of<'a>(
    operations: &'a [Operation],
    end: &'a BlockEnd,
    number: usize,
) -> Instruction<'a>
    ensures first { IsFirst result
        (point_in_or (record {
          operations = map operation operations.now;
          end = block_end end.now;
        }) number)
        (point_in_or (record {
          operations = map operation operations.now;
          end = block_end end.now;
        }) (number + 1)) }
{
    match operations.get(number) {
        Some(operation) => Instruction::Operation(operation),
        None if number == operations.len() => Instruction::End(end),
        None => Instruction::Nowhere,
    }
}

impl Instruction<'_> {
    /// Returns how many operands the instruction takes from the stack: it reads and drops them.
    pub fn takes(&self) -> u32
        ensures operands { (here following : Point) → IsFirst self.now here following
            → result ≡ takes_from here }
    {
        match self {
            Instruction::CountedPoint(_) => 0,
            Instruction::Operation(operation) => operation.work.takes(),
            Instruction::End(end) => end.takes(),
            Instruction::Nowhere => 0,
        }
    }
}

impl Work {
    /// Returns how many operands an operation takes from the stack.
    pub fn takes(&self) -> u32
        ensures operands { result ≡ operands_of (work self.now) }
    {
        match self {
            Work::Number(_) | Work::Null | Work::Text(_) | Work::Local(_) | Work::Global(_) => 0,
            Work::Nothing | Work::Clear(_, _) | Work::Zero(_) | Work::Spell(_, _, _) => 0,
            Work::Meet(_) | Work::Close(_) => 0,
            Work::Member(_) | Work::Arrow(_) | Work::Load(_) | Work::Convert(_, _) => 1,
            Work::Unary(_, _) | Work::Not | Work::Judge | Work::FetchNumber(_, _) => 1,
            Work::FetchPointer(_) | Work::Free | Work::Use | Work::Drop => 1,
            Work::StoreLocal(_, _, _, _) => 1,
            Work::Sum(_, _, _) | Work::Binary(_, _) | Work::Compare(_) | Work::Difference(_) => 2,
            Work::Store(_) => 2,
            Work::Move(_, _, _, _) => 3,
            Work::Update(_, _, _, _) => 4,
            Work::Call(_, count) => *count,
            Work::Allocate(allocator, _) => allocator_takes(*allocator),
        }
    }
}

impl BlockEnd {
    /// Returns how many operands the end of a block takes from the stack.
    pub fn takes(&self) -> u32
        ensures operands { result ≡ takes_at_end (block_end self.now) }
    {
        match self {
            BlockEnd::Branch(_, _, _, _) | BlockEnd::Switch(_, _, _, _) | BlockEnd::Return(_) => 1,
            BlockEnd::Jump(_) | BlockEnd::Finish => 0,
        }
    }
}

// Returns the number of arguments of an allocation function (C11 7.22.3).
fn allocator_takes(allocator: Allocator) -> u32
    ensures { result ≡ arguments_of allocator }
{
    match allocator {
        Allocator::Malloc => 1,
        Allocator::Calloc => 2,
    }
}
