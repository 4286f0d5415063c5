//! Successors of spots: how a frame gets from one spot to another, with jumps followed at once.
ghost use Rattle.std.specs.Prelude.{◌≡◌, ◌+◌};
ghost use Rattle.cs_cfg.specs.GraphView.{code};
ghost use Rattle.cs_cfg.specs.Instructions.{jump_at, IsAfter, IsLed, IsNext, IsSettled};
ghost use Rattle.cs_cfg.specs.Spots.{after, begins, block_count};

use crate::code::{BlockEnd, Code, Spot};
use crate::instructions::Instruction;

impl Code {
    /// Returns the spot that a frame at a spot gets to by jumps through empty blocks: the first one with an instruction other than a
    /// jump. `None` if the jumps never end.
    pub fn settled(&self, spot: Spot) -> Option<Spot>
        ensures settled { IsSettled (code self.now) spot result }
    {
        let mut here = spot;
        for _ in 0..self.rounds(spot.function) {
            match self.jump(here) {
                Some(next) => here = next,
                None => return Some(here),
            }
        }
        None
    }

    /// Returns the spot of a frame after the instruction at a spot, in any run that continues there (for a call, once it has returned): the next
    /// operation of the block, or the target of a jump, with jumps through empty blocks followed at once. `None` at an end of a block
    /// where that depends on the run or the frame returns, if jumps never end, and if the number of the next operation
    /// has more than 32 bits.
    pub fn next_at(&self, spot: Spot) -> Option<Spot>
        ensures next { IsNext (code self.now) spot result }
    {
        let next = self.following(spot)?;
        self.settled(next)
    }

    // Returns the spot to which the instruction at a spot leads, in any run.
    fn following(&self, spot: Spot) -> Option<Spot>
        ensures led { IsLed (code self.now) spot result }
    {
        match self.instruction_at(spot) {
            Instruction::CountedPoint(_) => spot.next_in_block(),
            Instruction::Operation(_) => spot.next_in_block(),
            Instruction::End(BlockEnd::Jump(block)) => Some(spot.beginning(*block)),
            Instruction::End(_) => None,
            Instruction::Nowhere => None,
        }
    }

    // Returns the target of the jump at a spot, if there is one.
    fn jump(&self, spot: Spot) -> Option<Spot>
        ensures jumps { result ≡ jump_at (code self.now) spot }
    {
        match self.instruction_at(spot) {
            Instruction::End(BlockEnd::Jump(block)) => Some(spot.beginning(*block)),
            Instruction::End(_) => None,
            _ => None,
        }
    }

    // Returns how many spots to look at: the first one, each block of the function once, and one after the last jump.
    fn rounds(&self, function: u32) -> usize
        ensures enough { result ≡ block_count (code self.now) function + 2 }
    {
        match self.flow_at(function) {
            Some(flow) => flow.blocks.len() + 2,
            None => 2,
        }
    }
}

impl Spot {
    // Returns the spot at which a block of the same function begins.
    fn beginning(self, block: u32) -> Spot
        ensures spot { result ≡ begins self.function block }
    {
        Spot {
            function: self.function,
            block,
            operation: 0,
        }
    }

    // Returns the next spot in the block, if it has a number.
    fn next_in_block(self) -> Option<Spot>
        ensures next { IsAfter self result }
    {
        let operation = self.operation.checked_add(1)?;
        Some(Spot { operation, ..self })
    }
}
