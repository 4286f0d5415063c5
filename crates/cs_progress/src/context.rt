//! What all steps of an exploration share.
ghost use Rattle.std.specs.Prelude.{◌≡◌, Some, slice_get, IfSome};
ghost use Rattle.cs_ast.specs.declared.typed.program.Function.{Function as SourceFunction};
ghost use Rattle.cs_objects.specs.Prepared.{IsReady};
ghost use Rattle.cs_progress.specs.Leaving.{functions_of};

use cs_ast::typed::program::{Local, Program};
use cs_cfg::Code;
use cs_objects::Setting;
use cs_objects::blocks::BlockType;
use cs_objects::initializers::Initializer;
use cs_objects::inputs::element_of;
use cs_objects::prepared::{Offsets, scalar_offsets};
use cs_types::{CType, DataModel};
use cs_values::Cell;
use cs_values::types::size_of;
use std::alloc::{AllocError, Global};

/// The code of a program, and the setting of its runs, without inputs and guesses. Nothing of it changes in an exploration.
#[derive(Drop)]
pub struct Context<'a> {
    pub alloc: Global,
    pub code: &'a Code,
    /// The setting of the runs, which has no inputs and no guesses here.
    pub setting: &'a Setting<'a>,
}

impl<'a> Context<'a> {
    /// Returns the program.
    pub fn program(&self) -> &'a Program
        ensures { result.now ≡ self.now.setting.now.program.now }
    {
        self.setting.program
    }

    /// Returns the data model of the program.
    pub fn model(&self) -> DataModel
        ensures { result ≡ self.now.setting.now.program.now.model }
    {
        self.setting.program.model
    }

    /// Returns the locals of a function, its parameters first.
    pub fn locals_of(&self, function: u32) -> Option<&'a [Local]>
        ensures { IfSome result (λ locals. (found : SourceFunction)
            → slice_get (functions_of self.now) function ≡ Some found
            → locals.now ≡ found.locals.items) }
    {
        let function = self.program().functions.get(function as usize)?;
        Some(function.locals.as_slice())
    }

    /// Returns the size of a type in bytes; an incomplete one has none (C11 6.5.3.4).
    pub fn size_of(&self, ty: &CType) -> Result<u64, AllocError>
        requires { IsReady self.now.setting.now }
    {
        size_of(self.setting.program, ty)
    }

    /// Returns the size in bytes of what a pointer to a type points to: one byte for a `void *` (C11 6.3.2.3).
    pub fn element_size(&self, target: &CType) -> Result<u64, AllocError>
        requires { IsReady self.now.setting.now }
    {
        element_of(target).size(self.setting.program)
    }

    /// Returns the size in bytes of the type of an object.
    pub fn bytes(&self, ty: BlockType) -> Result<u64, AllocError>
        requires { IsReady self.now.setting.now }
    {
        ty.size(self.setting.program)
    }

    /// Whether an object of a type begins at an offset of another type: a scalar of exactly that type, or that struct.
    pub fn begins(&self, whole: BlockType<'a>, ty: &CType, offset: u64) -> Result<bool, AllocError>
        requires { IsReady self.now.setting.now }
    {
        whole.begins(self.setting.program, ty, offset)
    }

    /// Returns the scalar that begins at an offset of a type, if one does.
    pub fn scalar(
        &self,
        whole: BlockType<'a>,
        offset: u64,
    ) -> Result<Option<BlockType<'a>>, AllocError>
        requires { IsReady self.now.setting.now }
    {
        whole.scalar(self.setting.program, offset)
    }

    /// Returns the value with which a constant initializer initializes the scalar at an offset.
    pub fn first_cell(
        &self,
        initializer: &Initializer,
        scalar: BlockType,
        offset: u64,
    ) -> Result<Cell, AllocError>
        requires { IsReady self.now.setting.now }
    {
        initializer.cell(self.setting.program, scalar, offset)
    }

    /// Returns the offsets of a type's scalars, in order (C11 6.7.2.1).
    pub fn offsets(&self, ty: &CType) -> Result<Offsets<'a>, AllocError>
        requires { IsReady self.now.setting.now }
    {
        scalar_offsets(self.setting, ty)
    }
}
