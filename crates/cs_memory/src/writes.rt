//! Values and texts written to objects of memory.
ghost use Rattle.std.specs.Prelude.{◌≡◌, IfOk, OnOk, map, unwrap_or};
ghost use Rattle.cs_types.specs.Shape.{shape_of, void};
ghost use Rattle.cs_ast.specs.TypedProgram.{HasLayouts, typed_program};
ghost use Rattle.cs_meaning.specs.Memory as meaning;
ghost use Rattle.cs_meaning.specs.Access as access;
ghost use Rattle.cs_meaning.specs.Initials.{byte_cell};
ghost use Rattle.cs_meaning.specs.Types.{scalar_of};
ghost use Rattle.cs_objects.specs.Prepared.{IsReady};
ghost use Rattle.cs_values.specs.View.{cell_of, object_of, operand_of};
ghost use Rattle.cs_memory.specs.Reaching.{spells};
ghost use Rattle.cs_memory.specs.MemoryView.{memory_of, KeepsCounts};
ghost use Rattle.cs_objects.specs.BlockView.{type_of};

use crate::memory::Memory;
use cs_ast::typed::program::Program;
use cs_objects::Setting;
use cs_objects::blocks::{BlockType, Change};
use cs_objects::pieces::byte_cell;
use cs_objects::prepared::scalar_offsets;
use cs_types::CType;
use cs_values::{Cell, Object, Operand};
use std::alloc::AllocError;

impl<'a> Memory<'a> {
    /// Writes a value of a type at an offset of an object.
    pub fn write_operand(
        &mut self,
        setting: &Setting,
        ty: &CType,
        object: &Object,
        offset: u64,
        operand: &Operand,
    ) -> Result<(), AllocError>
        requires { IsReady setting.now }
        ensures memory { OnOk result
            (memory_of self.new ≡ meaning.changed
            (access.write_operand (typed_program setting.now.program.now) (shape_of ty.now) offset
            (operand_of operand.now)) (object_of object.now) (memory_of self.old)) }
        ensures counts { OnOk result (KeepsCounts self.old self.new) }
    {
        match operand {
            Operand::Scalar(cell) => {
                let cell = cell.copy()?;
                self.change(object, Change::Write(offset, cell))
            }
            Operand::Whole(cells) => {
                let offsets = scalar_offsets(setting, ty)?;
                self.write_cells(object, offset, offsets.as_slice(), cells)
            }
            Operand::Nothing => Ok(()),
        }
    }

    // Writes the scalars of a struct at offsets relative to `from`.
    fn write_cells(
        &mut self,
        object: &Object,
        from: u64,
        offsets: &[u64],
        cells: &[Cell],
    ) -> Result<(), AllocError>
        ensures memory { OnOk result
            (memory_of self.new ≡ meaning.changed
            (access.write_cells from offsets.now (map cell_of cells.now)) (object_of object.now)
            (memory_of self.old)) }
        ensures counts { OnOk result (KeepsCounts self.old self.new) }
    {
        let mut index = 0;
        while index < offsets.len() && index < cells.len() {
            let at = from.checked_add(offsets[index]).ok_or(AllocError)?;
            let cell = cells[index].copy()?;
            self.change(object, Change::Write(at, cell))?;
            index += 1;
        }
        Ok(())
    }

    /// Writes the bytes of a text from an offset on, each in the scalar that begins there (C11 6.7.9, paragraph 14).
    pub fn write_bytes(
        &mut self,
        program: &'a Program,
        object: &Object,
        from: u64,
        bytes: &[u8],
    ) -> Result<(), AllocError>
        requires { HasLayouts program.now }
        ensures memory { OnOk result
            (memory_of self.new ≡ meaning.changed
            (access.write_bytes (typed_program program.now) from bytes.now) (object_of object.now)
            (memory_of self.old)) }
        ensures counts { OnOk result (KeepsCounts self.old self.new) }
    {
        match self.block(object) {
            Some(block) => {
                let ty = block.ty;
                self.spell(program, ty, object, from, bytes)
            }
            None => Ok(()),
        }
    }

    // The same to an object of a type.
    fn spell(
        &mut self,
        program: &'a Program,
        ty: BlockType<'a>,
        object: &Object,
        from: u64,
        bytes: &[u8],
    ) -> Result<(), AllocError>
        requires { HasLayouts program.now }
        ensures memory { OnOk result
            (memory_of self.new ≡ meaning.changed
            (spells (typed_program program.now) (type_of ty.entry) from bytes.now)
            (object_of object.now) (memory_of self.old)) }
        ensures counts { OnOk result (KeepsCounts self.old self.new) }
    {
        let mut index = 0;
        while index < bytes.len() {
            let at = from.checked_add(index as u64).ok_or(AllocError)?;
            let cell = spelled(program, ty, at, bytes[index])?;
            self.change(object, Change::Write(at, cell))?;
            index += 1;
        }
        Ok(())
    }
}

// Returns the cell of a byte of a text, for the scalar that begins at an offset of a type.
fn spelled(program: &Program, ty: BlockType, at: u64, byte: u8) -> Result<Cell, AllocError>
    requires { HasLayouts program.now }
    ensures { IfOk result (λ cell.
        cell_of cell ≡ byte_cell program.now.model
        (unwrap_or (scalar_of (typed_program program.now) (type_of ty.entry) at) void) byte) }
{
    match ty.scalar(program, at)? {
        Some(scalar) => Ok(byte_cell(program.model, scalar, byte)),
        None => Ok(byte_cell(program.model, BlockType::Void, byte)),
    }
}
