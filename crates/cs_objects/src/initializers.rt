//! Constant initializers, in which the piece of a scalar is found by binary search (C11 6.7.9).
ghost use Rattle.std.specs.Prelude.{true, IsTrue, if◌then◌else◌};
ghost use Rattle.cs_objects.specs.PieceOrder.{ascends_from};

use crate::blocks::{BlockType, Piece};
use crate::pieces::{ascend, initial_cell, nearest};
use cs_ast::typed::program::Program;
use cs_values::Cell;
use std::alloc::AllocError;

/// A constant initializer.
#[derive(Drop)]
pub struct Initializer<'a> {
    pub pieces: Vec<Piece<'a>>,
    // Whether each piece ends before the next one begins. This holds for every initializer of a well-formed program.
    pub ascends: bool,
    ghost order: { IsTrue (if ascends then ascends_from 0 pieces.items else true) },
}

impl<'a> Initializer<'a> {
    ghost use Rattle.std.specs.Prelude.{◌≡◌, IfOk, map};
    ghost use Rattle.cs_ast.specs.TypedProgram.{HasLayouts, typed_program};
    ghost use Rattle.cs_meaning.specs.Initials as initials;
    ghost use Rattle.cs_values.specs.View.{cell_of};
    ghost use Rattle.cs_objects.specs.BlockView.{type_of, piece_of};

    /// Returns the initializer with these pieces.
    pub fn new(pieces: Vec<Piece<'a>>) -> Initializer<'a>
        ensures { result.pieces ≡ pieces.entry }
    {
        let ascends = ascend(&pieces);
        Initializer { pieces, ascends }
    }

    /// Returns a copy of the initializer.
    pub fn copy(&self) -> Result<Initializer<'a>, AllocError>
        ensures { IfOk result (λ made. made.pieces.items ≡ self.now.pieces.items) }
    {
        let pieces = self.pieces.clone()?;
        Ok(Initializer {
            pieces,
            ascends: self.ascends,
        })
    }

    /// Returns the cell of the scalar at an offset; where there is no piece, it is zero.
    pub fn cell(
        &self,
        program: &Program,
        scalar: BlockType,
        offset: u64,
    ) -> Result<Cell, AllocError>
        requires { HasLayouts program.now }
        ensures { IfOk result (λ cell.
            cell_of cell ≡ initials.initial_cell (typed_program program.now)
            (type_of scalar.entry)
            (map piece_of self.now.pieces.items) offset) }
    {
        if self.ascends {
            initial_cell(program, scalar, nearest(&self.pieces, offset), offset)
        } else {
            initial_cell(program, scalar, &self.pieces, offset)
        }
    }
}
