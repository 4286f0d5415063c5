//! The next step of a frame.
ghost use Rattle.std.specs.Prelude.{◌≡◌, ◌+◌};
ghost use Rattle.cs_cfg.specs.Graph as graph;
ghost use Rattle.cs_cfg.specs.GraphView as view;
ghost use Rattle.cs_positions.specs.Nexts.{found_block, flow_found, without_counted_point, IsNext};
ghost use Rattle.cs_positions.specs.Points.{left_of, point_of};

use crate::positions::Position;
use cs_cfg::{Block, BlockEnd, Code, CountedPoint, Flow, Operation};

/// The next step of a frame.
#[derive(Clone, Copy)]
pub enum Next<'a> {
    /// A loop head or a label is reached.
    CountedPoint(&'a CountedPoint),
    Operation(&'a Operation),
    End(&'a BlockEnd),
    /// The frame is in a block that doesn't exist.
    Nowhere,
}

/// Returns the next step of a frame of a function at a position.
pub fn next_at(code: &Code, function: u32, position: Position) -> Next<'_>
    ensures { IsNext result (point_of code.now position function)
        (point_of code.now (record position { done = position.done + 1 }) function) }
{
    match block_at(code, function, position.block) {
        Some(block) => next_in(block, position.done),
        None => Next::Nowhere,
    }
}

// Returns the block with a number in a function.
fn block_at(code: &Code, function: u32, block: u32) -> Option<&Block>
    ensures { graph.block_in (view.code code.now) function block ≡ found_block result }
{
    match flow_at(code, function) {
        Some(flow) => flow.blocks.get(block as usize),
        None => None,
    }
}

/// Returns the graph of a function, if it has one.
pub fn flow_at(code: &Code, function: u32) -> Option<&Flow>
    ensures { graph.flow_of (view.code code.now) function ≡ flow_found result }
{
    match code.flows.get(function as usize) {
        Some(Some(flow)) => Some(flow),
        Some(None) => None,
        None => None,
    }
}

// Returns the next step in a block of which `done` steps are done.
fn next_in(block: &Block, done: usize) -> Next<'_>
    ensures { IsNext result (left_of done (view.block block.now))
        (left_of (done + 1) (view.block block.now)) }
{
    match &block.counted_point {
        Some(counted_point) => {
            if done == 0 {
                Next::CountedPoint(counted_point)
            } else {
                operation_at(block, done - 1)
            }
        }
        None => operation_at(block, done),
    }
}

// Returns the operation with a number in a block, or the block's end.
fn operation_at(block: &Block, number: usize) -> Next<'_>
    ensures { IsNext result (left_of number (without_counted_point block.now))
        (left_of (number + 1) (without_counted_point block.now)) }
{
    match block.operations.get(number) {
        Some(operation) => Next::Operation(operation),
        None => Next::End(&block.end),
    }
}
