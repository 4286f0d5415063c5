//! Strips: code that isn't a block yet and has no number. It is built from its end.
ghost use Rattle.std.specs.Prelude.{◌≡◌, ℕ, [], IfOk, Some};
ghost use Rattle.cs_cfg.specs.GraphView as view;
ghost use Rattle.cs_cfg.specs.Placing.{does};
ghost use Rattle.cs_lower.specs.Building.{point_of, jump_to};

use cs_ast::Place;
use cs_cfg::{Block, BlockEnd, CountedPoint, Operation, Work};
use std::alloc::{AllocError, Global};

/// Operations in reverse order, and the block end after them.
#[derive(Drop)]
pub struct Strip {
    pub operations: Vec<Operation>,
    pub end: BlockEnd,
}

impl Strip {
    /// Returns a strip that is only an end.
    pub fn ending(alloc: Global, end: BlockEnd) -> Strip
        ensures { point_of result ≡ record { operations = []; end = view.block_end end } }
    {
        Strip {
            operations: Vec::new(alloc),
            end,
        }
    }

    /// Puts an operation, on the temporaries from a number on, before the strip.
    pub fn prepend(mut self, place: Place, temporary: u32, work: Work) -> Result<Strip, AllocError>
        ensures { IfOk result (λ made.
            point_of made ≡ does place temporary (view.work work) (point_of self)) }
    {
        self.operations.push(Operation {
            place,
            temporary,
            work,
        })?;
        Ok(self)
    }

    /// Returns the block to which the strip jumps at once, if it is only a jump.
    pub fn target(&self) -> Option<u32>
        ensures { (block : ℕ) → result ≡ Some block → point_of self.now ≡ jump_to block }
    {
        if !self.operations.is_empty() {
            return None;
        }
        match self.end {
            BlockEnd::Jump(block) => Some(block),
            BlockEnd::Branch(_, _, _, _) | BlockEnd::Switch(_, _, _, _) => None,
            BlockEnd::Return(_) | BlockEnd::Finish => None,
        }
    }

    /// Returns the strip as a block, which may be that of a counted point.
    pub fn into_block(mut self, counted_point: Option<CountedPoint>) -> Result<Block, AllocError>
        ensures { IfOk result (λ block. view.block block ≡ record {
          operations = view.with_counted_point counted_point (point_of self).operations;
          end = (point_of self).end;
        }) }
    {
        // All code is kept, so it gets exactly the memory that it needs; the next strip reuses that of this one.
        let alloc = *self.operations.allocator();
        let mut operations = Vec::with_capacity(alloc, self.operations.len())?;
        operations.append(&mut self.operations)?;
        operations.reverse();
        Ok(Block {
            counted_point,
            operations,
            end: self.end,
        })
    }
}
