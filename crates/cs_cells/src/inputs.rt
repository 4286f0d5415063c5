//! The inputs from which the scalars of a struct are read. They are made known to the state many at a time, which takes much less time
//! than one by one.

use crate::cells::{Input, interval};
use cs_state::State;
use cs_terms::Sym;
use std::alloc::{AllocError, Global};

/// Inputs that were read from cells of a base region.
#[derive(Drop)]
pub struct Inputs {
    alloc: Global,
    // All cells, each with the symbol of its input.
    cells: Vec<(u64, Sym)>,
    // The newest symbols. They aren't declared yet, and may have the numbers from `least` to `greatest`.
    syms: Vec<Sym>,
    least: i128,
    greatest: i128,
}

impl Inputs {
    /// Returns an empty list.
    pub fn new(alloc: Global) -> Inputs {
        Inputs {
            alloc,
            cells: Vec::new(alloc),
            syms: Vec::new(alloc),
            least: 0,
            greatest: 0,
        }
    }

    /// Adds the input that was read from the cell at an offset.
    pub fn add(&mut self, state: &mut State, offset: u64, input: Input) -> Result<(), AllocError> {
        self.cells.push((offset, input.sym))?;
        if state.constraints.range_of(input.sym).is_some() {
            return Ok(());
        }
        if input.least != self.least || input.greatest != self.greatest {
            self.declare(state)?;
            self.least = input.least;
            self.greatest = input.greatest;
        }
        self.syms.push(input.sym)?;
        Ok(())
    }

    /// Makes all inputs known to the state, as cells of this base region.
    pub fn settle(&mut self, state: &mut State, base: u64) -> Result<(), AllocError> {
        self.declare(state)?;
        if !self.cells.is_empty() {
            state.read_cells(base, self.cells.as_slice())?;
        }
        Ok(())
    }

    // Declares the newest symbols.
    fn declare(&mut self, state: &mut State) -> Result<(), AllocError> {
        if self.syms.is_empty() {
            return Ok(());
        }
        let numbers = interval(self.alloc, self.least, self.greatest)?;
        state.declare_all(self.syms.as_slice(), &numbers)?;
        self.syms.clear();
        Ok(())
    }
}
