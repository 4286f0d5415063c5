//! Code: flow graphs, their blocks, and positions in them.

use crate::operation::Operation;
use cs_ast::Place;
use cs_events::PointKind;

/// The code of a program: a flow graph for each of its functions that has a body.
#[derive(Drop)]
pub struct Code {
    pub flows: Vec<Option<Flow>>,
}

/// The flow graph of a function.
#[derive(Drop)]
pub struct Flow {
    pub blocks: Vec<Block>,
    /// The block where a call begins.
    pub entry: u32,
    /// The number of loop heads and labels.
    pub counted_points: u32,
}

/// A basic block: operations, and how it ends.
#[derive(Drop)]
pub struct Block {
    /// The loop head or label that the block begins with, if any.
    pub counted_point: Option<CountedPoint>,
    pub operations: Vec<Operation>,
    pub end: BlockEnd,
}

/// A loop head or a label: its source position, and its number among those of its function.
#[derive(Clone, Copy)]
pub struct CountedPoint {
    pub kind: PointKind,
    pub place: Place,
    pub number: u32,
}

/// How a block ends: its terminator.
#[derive(Drop)]
pub enum BlockEnd {
    /// A jump to another block.
    Jump(u32),
    /// A test, at a source position, of the temporary with a number: to the first block if it is true, else to the second.
    Branch(Place, u32, u32, u32),
    /// A `switch`, at a source position, on the temporary with a number: to the block of the first case with its value, else to another block.
    Switch(Place, u32, Vec<SwitchCase>, u32),
    /// The frame returns the temporary with a number.
    Return(u32),
    /// The frame returns an unset value.
    Finish,
}

/// A case of a `switch` with a value, and its block.
#[derive(Clone, Copy)]
pub struct SwitchCase {
    pub value: i128,
    pub block: u32,
}

/// A position in the code: a step of a block of a function, counted from 0. A counted point, if the block has one, is the first step, then
/// the operations follow, then the end.
#[derive(Clone, Copy)]
pub struct Spot {
    pub function: u32,
    pub block: u32,
    pub operation: u32,
}
