//! Data that all runs of a program share: its static objects at the beginning of a run, and the offsets of the scalars of its structs.
ghost use Rattle.std.specs.Prelude.{◌≡◌, ◌<◌, ℕ, length, option_map, IfOk, map};
ghost use Rattle.cs_types.specs.Shape.{shape_of};
ghost use Rattle.cs_ast.specs.TypedProgram.{HasLayouts, typed_program, file_object};
ghost use Rattle.cs_meaning.specs.Steps as steps;
ghost use Rattle.cs_meaning.specs.Types as types;
ghost use Rattle.cs_objects.specs.BlockView.{block_of, fill_of};
ghost use Rattle.cs_objects.specs.Prepared.{IsPrepared, IsReady, offsets_at, offsets_in, offsets_in_row, prepared_offsets};

use crate::blocks::{Block, BlockType, Fill, Piece};
use crate::initializers::Initializer;
use crate::offsets::type_offsets;
use crate::pieces::pieces;
use crate::settings::Setting;
use cs_ast::typed::program::{Global as FileObject, Program};
use cs_inputs::Root;
use cs_names::Bytes;
use cs_types::CType;
use cs_values::paths::root_path;
use cs_values::types::size_of;
use std::alloc::{AllocError, Global};

/// Data that all runs of a program share. It is made once for the program.
#[derive(Drop)]
pub struct Prepared<'a> {
    /// The file-scope objects at the beginning of a run.
    pub globals: Vec<Block<'a>>,
    /// The string literals.
    pub literals: Vec<Block<'a>>,
    /// The offsets of the scalars of each struct of the program's table, in order; `None` for a large struct.
    pub offsets: Vec<Option<Vec<u64>>>,
}

/// Offsets of scalars: the prepared ones of a struct, or computed ones.
#[derive(Drop)]
pub enum Offsets<'a> {
    Shared(&'a [u64]),
    Owned(Vec<u64>),
}

// The largest size of a struct whose offsets are prepared. A larger one has more than 4,096 scalars, so that no program assigns it as a
// whole, and its offsets would take much memory.
const PREPARED_BYTES: u64 = 1 << 15;

impl<'a> Prepared<'a> {
    /// Prepares the runs of a program.
    pub fn new(alloc: Global, program: &'a Program) -> Result<Prepared<'a>, AllocError>
        requires { HasLayouts program.now }
        ensures { IfOk result (λ prepared. IsPrepared prepared program.now) }
    {
        let globals = global_blocks(alloc, program)?;
        let literals = literal_blocks(alloc, program)?;
        let offsets = struct_offsets(alloc, program)?;
        Ok(Prepared {
            globals,
            literals,
            offsets,
        })
    }

    // Returns the offsets of the scalars of a struct, if they were prepared.
    fn offsets_of(&self, tag: u32) -> Option<&[u64]>
        ensures { option_map (λ offsets. offsets.now) result ≡ offsets_at self.now tag }
    {
        match self.offsets.get(tag as usize)? {
            Some(offsets) => Some(offsets),
            None => None,
        }
    }
}

impl<'a> Offsets<'a> {
    /// Returns the offsets, in order.
    pub fn as_slice(&self) -> &[u64]
        ensures { result.now ≡ offsets_in self.now }
    {
        match self {
            Offsets::Shared(offsets) => offsets,
            Offsets::Owned(offsets) => offsets,
        }
    }
}

/// Returns the offsets of a type's scalars, in order (C11 6.7.2.1).
pub fn scalar_offsets<'a>(setting: &Setting<'a>, ty: &CType) -> Result<Offsets<'a>, AllocError>
    requires { IsReady setting.now }
    ensures { IfOk result (λ offsets.
        offsets_in offsets ≡ types.scalar_offsets (typed_program setting.now.program.now)
        (shape_of ty.now)) }
{
    if let CType::Struct(tag) = ty
        && let Some(offsets) = setting.prepared.offsets_of(*tag)
    {
        return Ok(Offsets::Shared(offsets));
    }
    let offsets = type_offsets(setting.program, ty)?;
    Ok(Offsets::Owned(offsets))
}

// Returns the offsets of the scalars of each struct of the program's table.
fn struct_offsets(alloc: Global, program: &Program) -> Result<Vec<Option<Vec<u64>>>, AllocError>
    requires { HasLayouts program.now }
    ensures count { IfOk result (λ made. length made.items ≡ length program.now.table.list) }
    ensures offsets { IfOk result (λ made.
        (tag : ℕ) → tag < length program.now.table.list
        → offsets_in_row made.items tag ≡ prepared_offsets (typed_program program.now) tag) }
{
    let count = program.table.list.as_slice().len();
    let mut made = Vec::new(alloc);
    while made.len() < count {
        let tag = u32::try_from(made.len()).map_err(|_| AllocError)?;
        made.push(one_struct(program, tag)?)?;
    }
    Ok(made)
}

// Returns the offsets of the scalars of a struct, unless it is large.
fn one_struct(program: &Program, tag: u32) -> Result<Option<Vec<u64>>, AllocError>
    requires { HasLayouts program.now }
    ensures { IfOk result (λ made.
        option_map (λ offsets. offsets.items) made
        ≡ prepared_offsets (typed_program program.now) tag) }
{
    let ty = CType::Struct(tag);
    if size_of(program, &ty)? > PREPARED_BYTES {
        return Ok(None);
    }
    let offsets = type_offsets(program, &ty)?;
    Ok(Some(offsets))
}

// Returns the file-scope objects.
fn global_blocks(alloc: Global, program: &Program) -> Result<Vec<Block<'_>>, AllocError>
    requires { HasLayouts program.now }
    ensures { IfOk result (λ made.
        map block_of made.items ≡ map (steps.global_block (typed_program program.now))
        (map file_object program.now.globals.items)) }
{
    let mut made = Vec::new(alloc);
    for object in &program.globals {
        let size = size_of(program, &object.ty)?;
        let fill = global_fill(alloc, program, object)?;
        made.push(Block::new(alloc, BlockType::Of(&object.ty), size, fill))?;
    }
    Ok(made)
}

// Returns the initial contents of a file-scope object: for a const one its initializer, or zeros (C11 6.7.9, paragraph 10); else inputs.
fn global_fill<'a>(
    alloc: Global,
    program: &'a Program,
    object: &'a FileObject,
) -> Result<Fill<'a>, AllocError>
    requires { HasLayouts program.now }
    ensures { IfOk result (λ fill.
        fill_of fill ≡ steps.global_fill (typed_program program.now) (file_object object.now)
        object.now.constant (file_object object.now).initial) }
{
    if !object.constant {
        let name = object.name.copy()?;
        return Ok(Fill::Input(root_path(alloc, Root::Global(name))));
    }
    match &object.initial {
        Some(first) => {
            let pieces = pieces(alloc, program, BlockType::Of(&object.ty), first)?;
            Ok(Fill::Initial(Initializer::new(pieces)))
        }
        None => Ok(Fill::Zero),
    }
}

// Returns the string literals.
fn literal_blocks(alloc: Global, program: &Program) -> Result<Vec<Block<'_>>, AllocError>
    ensures { IfOk result (λ made.
        map block_of made.items ≡ map steps.literal_block program.now.literals.items) }
{
    let mut made = Vec::new(alloc);
    for literal in &program.literals {
        let block = literal_block(alloc, literal)?;
        made.push(block)?;
    }
    Ok(made)
}

// Returns the object of a string literal, which holds its bytes and a zero byte (C11 6.4.5, paragraph 6).
fn literal_block(alloc: Global, literal: &Bytes) -> Result<Block<'_>, AllocError>
    ensures { IfOk result (λ made. block_of made ≡ steps.literal_block literal.now) }
{
    let bytes = literal.as_bytes();
    let size = (bytes.len() as u64).checked_add(1).ok_or(AllocError)?;
    let mut pieces = Vec::new(alloc);
    pieces.push(Piece::Text(0, bytes))?;
    let fill = Fill::Initial(Initializer::new(pieces));
    Ok(Block::new(alloc, BlockType::Text(size), size, fill))
}
