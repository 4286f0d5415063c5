//! The builder of a function's graph.
ghost use Rattle.std.specs.Prelude.{◌≡◌, ◌+◌, suc, [], length, All, Contains, IfOk, OnOk};
ghost use Rattle.cs_cfg.specs.GraphView as view;
ghost use Rattle.cs_lower.specs.Building.{point_of, built_of, blocks, Has};
ghost use Rattle.cs_lower.specs.Keeping.{Keeps};
ghost use Rattle.cs_lower.specs.Sealing.{Seals, SealsCountedPoint};

use crate::strips::Strip;
use cs_ast::Place;
use cs_cfg::{Block, CountedPoint, Flow};
use cs_events::PointKind;
use std::alloc::{AllocError, Global};

/// The blocks built so far for the graph of a function. The block of a counted point has the counted point's number; the others follow.
#[derive(Drop)]
pub struct GraphBuilder {
    /// The number of loop heads and labels of the function.
    pub counted_points: u32,
    /// The blocks of the last counted points, in reverse order: code is built from its end.
    pub heads: Vec<Block>,
    pub others: Vec<Block>,
}

impl GraphBuilder {
    /// Returns a builder without blocks.
    pub fn new(alloc: Global, counted_points: u32) -> GraphBuilder
        ensures { built_of result ≡ record {
          counted_points = counted_points;
          heads = [];
          others = [];
        } }
    {
        GraphBuilder {
            counted_points,
            heads: Vec::new(alloc),
            others: Vec::new(alloc),
        }
    }

    /// Makes a strip a block, and returns the block's number.
    pub fn seal(&mut self, strip: Strip) -> Result<u32, AllocError>
        ensures { IfOk result (λ block.
            Seals (built_of self.old) (built_of self.new) block (point_of strip)) }
    {
        let block = self.next_block()?;
        self.others.push(strip.into_block(None)?)?;
        Ok(block)
    }

    /// Keeps unreachable code: in a block of its own, unless it is a jump to a block.
    pub fn keep(&mut self, strip: Strip) -> Result<(), AllocError>
        ensures { OnOk result (Keeps (built_of self.old) (built_of self.new) (point_of strip)) }
    {
        match strip.target() {
            Some(_) => Ok(()),
            None => {
                self.seal(strip)?;
                Ok(())
            }
        }
    }

    // Returns the number of the next block that isn't that of a counted point.
    fn next_block(&self) -> Result<u32, AllocError>
        ensures { IfOk result (λ block.
            block ≡ self.now.counted_points + length (built_of self.now).others) }
    {
        let following = u32::try_from(self.others.len()).map_err(|_| AllocError)?;
        self.counted_points.checked_add(following).ok_or(AllocError)
    }

    /// Returns the number of the counted point before the last `others` ones without a block.
    pub fn counted_point_before(&self, others: u64) -> Result<u32, AllocError>
        ensures { IfOk result (λ counted_point.
            counted_point + suc (others + length (built_of self.now).heads)
            ≡ self.now.counted_points) }
    {
        let built = u32::try_from(self.heads.len()).map_err(|_| AllocError)?;
        let others = u32::try_from(others).map_err(|_| AllocError)?;
        let left = self.counted_points.checked_sub(built).ok_or(AllocError)?;
        let left = left.checked_sub(others).ok_or(AllocError)?;
        left.checked_sub(1).ok_or(AllocError)
    }

    /// Makes the block of the last counted point without one.
    pub fn seal_counted_point(
        &mut self,
        kind: PointKind,
        place: Place,
        strip: Strip,
    ) -> Result<(), AllocError>
        ensures { OnOk result
            (SealsCountedPoint (built_of self.old) (built_of self.new) kind place
            (point_of strip)) }
    {
        let number = self.counted_point_before(0)?;
        let counted_point = CountedPoint {
            kind,
            place,
            number,
        };
        self.heads.push(strip.into_block(Some(counted_point))?)?;
        Ok(())
    }

    /// Returns the graph, once each counted point has its block.
    pub fn finish(mut self, entry: u32) -> Result<Flow, AllocError>
        ensures entry { IfOk result (λ flow. flow.entry ≡ entry) }
        ensures counted_points { IfOk result
            (λ flow. flow.counted_points ≡ self.counted_points) }
        ensures whole { IfOk result (λ flow.
            length (built_of self).heads ≡ self.counted_points
            → Has (view.flow flow) (built_of self)) }
        ensures no_other { IfOk result (λ flow.
            All (Contains (blocks (built_of self))) (view.flow flow).blocks) }
    {
        self.heads.reverse();
        self.heads.append(&mut self.others)?;
        Ok(Flow {
            blocks: self.heads,
            entry,
            counted_points: self.counted_points,
        })
    }
}
