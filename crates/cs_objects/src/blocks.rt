//! Objects: type, size, standing, and the contents of their scalars.
ghost use Rattle.std.specs.Prelude.{◌≡◌, ◌+◌, map, Some, IfSome, IfOk, OnOk};
ghost use Rattle.cs_values.specs.View.{cell_of};
ghost use Rattle.cs_meaning.specs.Memory as meaning;
ghost use Rattle.cs_objects.specs.BlockView.{block_of, fill_of, type_of, change_of, written_at};

use crate::initializers::Initializer;
use cs_ast::typed::expression::Expr;
use cs_inputs::Path;
use cs_model::Standing;
use cs_types::{CType, IntType};
use cs_values::Cell;
use std::alloc::{AllocError, Global};
use std::collections::BTreeMap;

/// The type of an object, or of the elements of a start or heap block.
#[derive(Clone, Copy)]
pub enum BlockType<'a> {
    Of(&'a CType),
    /// An integer type.
    Integer(IntType),
    /// An array of characters, with this length.
    Text(u64),
    /// No type.
    Void,
}

/// A piece of an initializer: a value, or the bytes of a text, with the offset at which it begins.
#[derive(Clone, Copy)]
pub enum Piece<'a> {
    Value(u64, &'a Expr),
    Text(u64, &'a [u8]),
}

/// The contents of an object's scalars that weren't written.
#[derive(Drop)]
pub enum Fill<'a> {
    Unset,
    Zero,
    Initial(Initializer<'a>),
    /// The inputs below a path.
    Input(Path),
}

/// An object.
#[derive(Drop)]
pub struct Block<'a> {
    pub ty: BlockType<'a>,
    /// The size in bytes.
    pub extent: u64,
    pub standing: Standing,
    pub fill: Fill<'a>,
    /// The cells that were written, by offset.
    pub written: BTreeMap<u64, Cell>,
}

/// A change of an object.
#[derive(Drop)]
pub enum Change<'a> {
    /// A scalar at an offset is written.
    Write(u64, Cell),
    /// All scalars get the contents of a fill.
    Refill(Fill<'a>),
    /// The standing changes: it is live, freed or ended.
    Stand(Standing),
}

impl<'a> Fill<'a> {
    /// Returns a copy of the fill.
    pub fn copy(&self) -> Result<Fill<'a>, AllocError>
        ensures { IfOk result (λ made. fill_of made ≡ fill_of self.now) }
    {
        match self {
            Fill::Unset => Ok(Fill::Unset),
            Fill::Zero => Ok(Fill::Zero),
            Fill::Initial(initializer) => {
                let initializer = initializer.copy()?;
                Ok(Fill::Initial(initializer))
            }
            Fill::Input(path) => {
                let path = path.copy()?;
                Ok(Fill::Input(path))
            }
        }
    }
}

impl<'a> Block<'a> {
    /// Returns a live object to which nothing was written.
    pub fn new(alloc: Global, ty: BlockType<'a>, extent: u64, fill: Fill<'a>) -> Block<'a>
        ensures { block_of result ≡ meaning.new_block (type_of ty.entry) extent
            (fill_of fill.entry) }
    {
        Block {
            ty,
            extent,
            standing: Standing::Live,
            fill,
            written: BTreeMap::new(alloc),
        }
    }

    /// Returns a copy of the object.
    pub fn copy(&self) -> Result<Block<'a>, AllocError>
        ensures { IfOk result (λ made. block_of made ≡ block_of self.now) }
    {
        let fill = self.fill.copy()?;
        let written = self.written.clone()?;
        Ok(Block {
            ty: self.ty,
            extent: self.extent,
            standing: self.standing,
            fill,
            written,
        })
    }

    /// Returns the cells written at offsets relative to `from`, in order; `None` unless all of them were written, and none between them.
    pub fn written_cells(
        &self,
        alloc: Global,
        from: u64,
        offsets: &[u64],
    ) -> Result<Option<Vec<Cell>>, AllocError>
        ensures { IfOk result (λ found. IfSome found (λ cells.
            map (λ offset. written_at self.now (from + offset)) offsets.now
            ≡ map (λ cell. Some (cell_of cell)) cells.items)) }
    {
        let mut cells = Vec::with_capacity(alloc, offsets.len())?;
        // Consecutive entries are found without a search for each.
        let mut entries = self.written.range(from..);
        for offset in offsets {
            let Some((at, cell)) = entries.next() else {
                return Ok(None);
            };
            if from.checked_add(*offset) != Some(*at) {
                return Ok(None);
            }
            cells.push(cell.copy()?)?;
        }
        Ok(Some(cells))
    }

    /// Changes the object.
    pub fn change(&mut self, change: Change<'a>) -> Result<(), AllocError>
        ensures { OnOk result (block_of self.new ≡ change_of change.entry (block_of self.old)) }
    {
        match change {
            Change::Write(offset, cell) => self.write(offset, cell),
            Change::Refill(fill) => {
                self.refill(fill);
                Ok(())
            }
            Change::Stand(standing) => {
                self.standing = standing;
                Ok(())
            }
        }
    }

    // Writes a scalar at an offset.
    fn write(&mut self, offset: u64, cell: Cell) -> Result<(), AllocError>
        ensures { OnOk result (block_of self.new
            ≡ meaning.write_cell offset (cell_of cell) (block_of self.old)) }
    {
        match self.written.insert(offset, cell) {
            Ok(_) => Ok(()),
            Err(_) => Err(AllocError),
        }
    }

    // Gives all scalars the contents of a fill.
    fn refill(&mut self, fill: Fill<'a>)
        ensures { block_of self.new ≡ meaning.refill (fill_of fill.entry) (block_of self.old) }
    {
        self.fill = fill;
        self.written.clear();
    }
}
