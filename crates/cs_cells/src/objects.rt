//! What is known about the object of a base region.
ghost use Rattle.std.specs.Prelude.{◌≡◌, false, ℕ, IfOk};
ghost use Rattle.cs_objects.specs.Prepared.{IsReady};
ghost use Rattle.cs_state.specs.Naming.{Naming, naming, Extends};
ghost use Rattle.cs_progress.specs.Locals.{IsLocalOf};

use cs_ast::typed::program::Local;
use cs_model::{Freeable, Standing};
use cs_objects::blocks::BlockType;
use cs_progress::Context;
use cs_progress::pointers::block;
use cs_progress::terms::constant;
use cs_regions::Base;
use cs_state::{Frame, State, Tables};
use cs_terms::Lin;
use cs_types::CType;
use std::alloc::AllocError;

/// An object: whether it may be accessed, its size in bytes, and its type.
#[derive(Clone, Copy)]
pub struct Known<'a> {
    pub standing: Standing,
    pub extent: Lin,
    /// The type of the object; in a start block or a heap block, that of its elements, which follow one another without an end.
    pub ty: BlockType<'a>,
    /// Whether the object is an array of elements.
    pub is_row: bool,
    /// Whether a store to it is a fault: a const file-scope object or a string literal (C11 6.4.5, 6.7.3).
    pub constant: bool,
    /// Whether it can be freed.
    pub freeable: Freeable,
}

/// Returns what is known about the object of a base region.
pub fn object<'t>(
    context: &Context<'t>,
    state: &State,
    tables: &'t Tables,
    base: u64,
) -> Result<Known<'t>, AllocError>
    requires { IsReady context.now.setting.now }
    ensures { IfOk result (λ known. (names : Naming) (frame count : ℕ)
        → Extends (naming tables.now) names → IsLocalOf names.bases frame count base
        → known.constant ≡ false) }
{
    match tables.bases.base(base).ok_or(AllocError)? {
        Base::Entry(_) => in_block(state, tables, base),
        Base::Heap(_) => in_block(state, tables, base),
        Base::Global(global) => file_object(context, *global),
        Base::Literal(literal) => text(context, *literal),
        Base::Local { frame, decl } => local(context, state, *frame, *decl),
    }
}

// A start block or a heap block.
fn in_block<'t>(state: &State, tables: &'t Tables, base: u64) -> Result<Known<'t>, AllocError> {
    let block = block(state, base)?;
    let element = tables.types.ty(block.element).ok_or(AllocError)?;
    let freeable = match block.standing {
        Standing::Live => Freeable::Live,
        Standing::Freed => Freeable::Freed,
        Standing::Ended => Freeable::Fixed,
    };
    Ok(Known {
        standing: block.standing,
        extent: block.extent,
        ty: BlockType::Of(element),
        is_row: true,
        constant: false,
        freeable,
    })
}

// A file-scope object.
fn file_object<'t>(context: &Context<'t>, number: u32) -> Result<Known<'t>, AllocError>
    requires { IsReady context.now.setting.now }
{
    let block = context
        .setting
        .prepared
        .globals
        .get(number as usize)
        .ok_or(AllocError)?;
    let object = context
        .program()
        .globals
        .get(number as usize)
        .ok_or(AllocError)?;
    Ok(Known {
        standing: Standing::Live,
        extent: constant(i128::from(block.extent)),
        ty: block.ty,
        is_row: false,
        constant: object.constant,
        freeable: Freeable::Fixed,
    })
}

// A string literal.
fn text<'t>(context: &Context<'t>, number: u32) -> Result<Known<'t>, AllocError>
    requires { IsReady context.now.setting.now }
{
    let block = context
        .setting
        .prepared
        .literals
        .get(number as usize)
        .ok_or(AllocError)?;
    Ok(Known {
        standing: Standing::Live,
        extent: constant(i128::from(block.extent)),
        ty: block.ty,
        is_row: false,
        constant: true,
        freeable: Freeable::Fixed,
    })
}

// A local, which exists as long as its frame.
fn local<'t>(
    context: &Context<'t>,
    state: &State,
    frame: u64,
    declaration: u32,
) -> Result<Known<'t>, AllocError>
    requires { IsReady context.now.setting.now }
    ensures { IfOk result (λ known. known.constant ≡ false) }
{
    let Some(ty) = local_type(context, state, frame, declaration) else {
        return Ok(Known {
            standing: Standing::Ended,
            extent: constant(0),
            ty: BlockType::Void,
            is_row: false,
            constant: false,
            freeable: Freeable::Fixed,
        });
    };
    Ok(Known {
        standing: Standing::Live,
        extent: constant(i128::from(context.size_of(ty)?)),
        ty: BlockType::Of(ty),
        is_row: false,
        constant: false,
        freeable: Freeable::Fixed,
    })
}

// The type of a local of a frame that hasn't ended.
fn local_type<'t>(
    context: &Context<'t>,
    state: &State,
    frame: u64,
    declaration: u32,
) -> Option<&'t CType>
    requires { IsReady context.now.setting.now }
{
    let frame = frame_numbered(state, frame)?;
    let locals = context.locals_of(frame.spot.function)?;
    let local = locals.get(declaration as usize)?;
    Some(&local.ty)
}

// The frame with a number, if it hasn't ended.
fn frame_numbered(state: &State, number: u64) -> Option<&Frame> {
    if state.frame.number == number {
        return Some(&state.frame);
    }
    state.callers.numbered(number)
}

impl<'a> Known<'a> {
    /// Whether an object of a type begins at an offset: a scalar of exactly that type, or that struct.
    pub fn begins(
        &self,
        context: &Context<'a>,
        ty: &CType,
        offset: i128,
    ) -> Result<bool, AllocError>
        requires { IsReady context.now.setting.now }
    {
        let Ok(offset) = u64::try_from(offset) else {
            return Ok(false);
        };
        match self.position(context, offset)? {
            Some(position) => context.begins(self.ty, ty, position),
            None => Ok(false),
        }
    }

    /// Returns the scalar that begins at an offset; `Void` if none does.
    pub fn scalar(&self, context: &Context<'a>, offset: u64) -> Result<BlockType<'a>, AllocError>
        requires { IsReady context.now.setting.now }
    {
        let Some(position) = self.position(context, offset)? else {
            return Ok(BlockType::Void);
        };
        let found = context.scalar(self.ty, position)?;
        Ok(found.unwrap_or(BlockType::Void))
    }

    // The offset in the type for an offset in the object; none in an array of elements without bytes.
    fn position(&self, context: &Context<'a>, offset: u64) -> Result<Option<u64>, AllocError>
        requires { IsReady context.now.setting.now }
    {
        if !self.is_row {
            return Ok(Some(offset));
        }
        let size = context.bytes(self.ty)?;
        Ok(offset.checked_rem(size))
    }
}
