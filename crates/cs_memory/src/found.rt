//! Contents of scalars in memory.
ghost use Rattle.std.specs.Prelude.{◌≡◌, IfOk, OnOk, IfErr, Some, None, if◌then◌else◌};
ghost use Rattle.cs_ast.specs.TypedProgram.{HasLayouts, typed_program};
ghost use Rattle.cs_meaning.specs.Memory as meaning;
ghost use Rattle.cs_meaning.specs.Access as access;
ghost use Rattle.cs_objects.specs.Prepared.{IsReady};
ghost use Rattle.cs_values.specs.View.{cell_of, object_of};
ghost use Rattle.cs_objects.specs.BlockView.{type_of, block_of, fill_of};
ghost use Rattle.cs_memory.specs.MemoryView.{memory_of, KeepsCounts};
ghost use Rattle.cs_memory.specs.FoundView.{found_of};
ghost use Rattle.cs_run_log.specs.Pieces.{GivesBoth, StopsInBoth};

use crate::memory::Memory;
use cs_ast::typed::program::Program;
use cs_inputs::Path;
use cs_objects::Setting;
use cs_objects::blocks::{Block, BlockType, Fill};
use cs_objects::inputs::input_kind;
use cs_objects::pieces::zero_of;
use cs_run_log::{Log, Stop};
use cs_values::{Cell, Object};
use std::alloc::AllocError;

/// The contents of a scalar.
#[derive(Drop)]
pub enum ScalarContents<'a> {
    Holds(Cell),
    /// An input that isn't looked up yet, by its path and the scalar's type.
    Unknown(Path, BlockType<'a>),
}

// Returns the position of an offset in an object's type: a start or heap block is a sequence of elements.
fn position(
    program: &Program,
    object: &Object,
    block: &Block,
    offset: u64,
) -> Result<u64, AllocError>
    requires { HasLayouts program.now }
    ensures { IfOk result (λ position.
        position ≡ meaning.position (typed_program program.now) (object_of object.now)
        (block_of block.now) offset) }
{
    match object {
        Object::Start(_) => {
            let size = block.ty.size(program)?;
            Ok(rest_of(offset, size))
        }
        Object::Heap(_) => {
            let size = block.ty.size(program)?;
            Ok(rest_of(offset, size))
        }
        Object::Global(_) => Ok(offset),
        Object::Literal(_) => Ok(offset),
        Object::Local(_, _) => Ok(offset),
    }
}

/// Returns the position of an offset in an object's type, if the object has cells: a start or heap block has none if its elements have
/// size 0.
pub fn cell_position(
    program: &Program,
    object: &Object,
    block: &Block,
    offset: u64,
) -> Result<Option<u64>, AllocError>
    requires { HasLayouts program.now }
    ensures { IfOk result (λ position.
        position ≡ (if meaning.has_cells (typed_program program.now) (object_of object.now)
        (block_of block.now)
        then Some (meaning.position (typed_program program.now) (object_of object.now)
        (block_of block.now) offset) else None)) }
{
    match object {
        Object::Start(_) => {
            let size = block.ty.size(program)?;
            Ok(offset.checked_rem(size))
        }
        Object::Heap(_) => {
            let size = block.ty.size(program)?;
            Ok(offset.checked_rem(size))
        }
        Object::Global(_) => Ok(Some(offset)),
        Object::Literal(_) => Ok(Some(offset)),
        Object::Local(_, _) => Ok(Some(offset)),
    }
}

// Returns an offset modulo the size of an element, if that isn't 0.
fn rest_of(offset: u64, bytes: u64) -> u64
    ensures { result ≡ meaning.rest_of offset bytes }
{
    if bytes == 0 { offset } else { offset % bytes }
}

// Returns the scalar that begins at an offset of an object.
fn scalar_at<'a>(
    program: &'a Program,
    object: &Object,
    block: &Block<'a>,
    offset: u64,
) -> Result<BlockType<'a>, AllocError>
    requires { HasLayouts program.now }
    ensures { IfOk result (λ found.
        type_of found ≡ meaning.scalar_at (typed_program program.now) (object_of object.now)
        (block_of block.now) offset) }
{
    let at = position(program, object, block, offset)?;
    let found = block.ty.scalar(program, at)?;
    Ok(found.unwrap_or(BlockType::Void))
}

// Returns the contents that a fill determines for a scalar at an offset.
fn filled<'a>(
    program: &Program,
    fill: &Fill,
    scalar: BlockType<'a>,
    offset: u64,
) -> Result<ScalarContents<'a>, AllocError>
    requires { HasLayouts program.now }
    ensures { IfOk result (λ found.
        found_of found ≡ meaning.filled (typed_program program.now) (fill_of fill.now)
        (type_of scalar.entry) offset) }
{
    match fill {
        Fill::Unset => Ok(ScalarContents::Holds(Cell::Unset)),
        Fill::Zero => Ok(ScalarContents::Holds(zero_of(scalar))),
        Fill::Initial(initializer) => {
            let cell = initializer.cell(program, scalar, offset)?;
            Ok(ScalarContents::Holds(cell))
        }
        Fill::Input(root) => {
            let path = cell_path(root, offset)?;
            Ok(ScalarContents::Unknown(path, scalar))
        }
    }
}

// Returns the path of a cell below another path.
fn cell_path(root: &Path, offset: u64) -> Result<Path, AllocError>
    ensures { IfOk result (λ path. path ≡ meaning.cell_path root.now offset) }
{
    let mut path = root.copy()?;
    path.cells.push(offset)?;
    Ok(path)
}

// Returns the contents of an existing object at an offset.
fn found_in<'a>(
    program: &'a Program,
    object: &Object,
    block: &Block<'a>,
    offset: u64,
) -> Result<ScalarContents<'a>, AllocError>
    requires { HasLayouts program.now }
    ensures { IfOk result (λ found.
        found_of found ≡ meaning.found_in (typed_program program.now) (object_of object.now)
        (Some (block_of block.now)) offset) }
{
    match block.written.get(&offset) {
        Some(cell) => {
            let cell = cell.copy()?;
            Ok(ScalarContents::Holds(cell))
        }
        None => {
            let scalar = scalar_at(program, object, block, offset)?;
            filled(program, &block.fill, scalar, offset)
        }
    }
}

impl<'a> Memory<'a> {
    // Returns the contents of an object at an offset.
    fn found(
        &self,
        program: &'a Program,
        object: &Object,
        offset: u64,
    ) -> Result<ScalarContents<'a>, AllocError>
        requires { HasLayouts program.now }
        ensures { IfOk result (λ found.
            found_of found ≡ meaning.found_in (typed_program program.now) (object_of object.now)
            (memory_of self.now (object_of object.now)) offset) }
    {
        match self.block(object) {
            Some(block) => found_in(program, object, block, offset),
            None => Ok(ScalarContents::Holds(Cell::Unset)),
        }
    }

    /// Returns the cell of a scalar's contents: an input is looked up.
    pub fn receive(
        &mut self,
        log: &mut Log,
        setting: &Setting<'a>,
        found: ScalarContents<'a>,
    ) -> Result<Cell, Stop>
        requires { IsReady setting.now }
        ensures ok { IfOk result (λ cell.
            GivesBoth setting.now log.old log.new
            (access.receive (typed_program setting.now.program.now) (memory_of self.old)
            (found_of found.entry)) (memory_of self.new) (cell_of cell)) }
        ensures err { IfErr result
            (StopsInBoth setting.now log.old log.new
            (access.receive (typed_program setting.now.program.now) (memory_of self.old)
            (found_of found.entry))) }
        ensures counts { IfOk result (λ _. KeepsCounts self.old self.new) }
    {
        match found {
            ScalarContents::Holds(cell) => Ok(cell),
            ScalarContents::Unknown(path, scalar) => {
                let cell = self.look_up(log, setting, path, scalar)?;
                Ok(cell)
            }
        }
    }

    // Looks up an input, and returns its cell.
    fn look_up(
        &mut self,
        log: &mut Log,
        setting: &Setting<'a>,
        path: Path,
        scalar: BlockType<'a>,
    ) -> Result<Cell, Stop>
        requires { IsReady setting.now }
        ensures ok { IfOk result (λ cell.
            GivesBoth setting.now log.old log.new
            (access.receive (typed_program setting.now.program.now) (memory_of self.old)
            (meaning.Unknown path (type_of scalar.entry))) (memory_of self.new) (cell_of cell)) }
        ensures err { IfErr result
            (StopsInBoth setting.now log.old log.new
            (access.receive (typed_program setting.now.program.now) (memory_of self.old)
            (meaning.Unknown path (type_of scalar.entry)))) }
        ensures counts { IfOk result (λ _. KeepsCounts self.old self.new) }
    {
        let cell = log.read_input(setting, &path, input_kind(scalar))?;
        self.open(setting.program, &path, scalar, None, &cell)?;
        Ok(cell)
    }

    /// Returns the cell of a scalar of an object.
    pub fn read(
        &mut self,
        log: &mut Log,
        setting: &Setting<'a>,
        object: &Object,
        offset: u64,
    ) -> Result<Cell, Stop>
        requires { IsReady setting.now }
        ensures ok { IfOk result (λ cell.
            GivesBoth setting.now log.old log.new
            (access.read (typed_program setting.now.program.now) (memory_of self.old)
            (object_of object.now) offset) (memory_of self.new) (cell_of cell)) }
        ensures err { IfErr result
            (StopsInBoth setting.now log.old log.new
            (access.read (typed_program setting.now.program.now) (memory_of self.old)
            (object_of object.now) offset)) }
        ensures counts { IfOk result (λ _. KeepsCounts self.old self.new) }
    {
        let found = self.found(setting.program, object, offset)?;
        let cell = self.receive(log, setting, found)?;
        Ok(cell)
    }
}
