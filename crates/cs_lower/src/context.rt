//! The context in which a function is lowered.
ghost use Rattle.std.specs.Prelude.{◌≡◌};
ghost use Rattle.cs_cfg.specs.Placing.{split};
ghost use Rattle.cs_lower.specs.Building.{point_of, jump_to};

use crate::strips::Strip;
use cs_ast::Place;
use cs_ast::typed::program::{Function, Program};
use cs_cfg::BlockEnd;
use std::alloc::Global;
use std::collections::BTreeMap;

/// A function of a program that is being lowered.
#[derive(Drop)]
pub struct Lowering<'a> {
    pub alloc: Global,
    pub program: &'a Program,
    pub function: &'a Function,
    /// The counted point of each label: that of the first statement with it.
    pub labels: BTreeMap<u32, u32>,
}

impl Lowering<'_> {
    /// Returns a jump to a block.
    pub fn jump(&self, block: u32) -> Strip
        ensures { point_of result ≡ jump_to block }
    {
        Strip::ending(self.alloc, BlockEnd::Jump(block))
    }

    /// Returns a test of a temporary: to the first block if it is true, else to the second.
    pub fn branch(&self, place: Place, temporary: u32, one: u32, other: u32) -> Strip
        ensures { point_of result ≡ split place temporary one other }
    {
        Strip::ending(self.alloc, BlockEnd::Branch(place, temporary, one, other))
    }
}
