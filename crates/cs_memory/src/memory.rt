//! The memory of a run: its objects, and the contents of their scalars.
ghost use Rattle.std.specs.Prelude.{◌≡◌, ◌==◌, ◌&&◌, ◌+◌, ℕ, [], length, None, if◌then◌else◌, option_map, option_copied, OnOk};
ghost use Rattle.std.specs.BTreeMap.{get};
ghost use Rattle.std.specs.Ordering.{nat_cmp};
ghost use Rattle.cs_inputs.specs.declared.path.Path.{Path};
ghost use Rattle.cs_inputs.specs.PathOrder.{path_order};
ghost use Rattle.cs_events.specs.Objects.{is_equal, StartBlock, HeapBlock};
ghost use Rattle.cs_meaning.specs.Calls.{without_locals};
ghost use Rattle.cs_meaning.specs.Memory as meaning;
ghost use Rattle.cs_values.specs.View.{object_of};
ghost use Rattle.cs_objects.specs.Prepared.{statics_of};
ghost use Rattle.cs_objects.specs.BlockView.{block_of, change_of, block_at};
ghost use Rattle.cs_memory.specs.MemoryView.{memory_of, changed_at, static_at, start_in, local_in, given_in, KeepsCounts, with_frame};

use cs_inputs::Path;
use cs_objects::blocks::{Block, Change};
use cs_objects::prepared::Prepared;
use cs_values::Object;
use std::alloc::{AllocError, Global};
use std::collections::BTreeMap;

/// The existing objects, including freed blocks, of each kind by their numbers.
#[derive(Drop)]
pub struct Memory<'a> {
    /// The start blocks of unknown pointers, by the pointers' paths.
    pub starts: BTreeMap<Path, Block<'a>>,
    /// Data that all runs of the program share, including the file-scope objects and string literals that weren't changed.
    pub prepared: &'a Prepared<'a>,
    /// The changed file-scope objects, by their numbers, and the changed string literals.
    pub globals: BTreeMap<u32, Block<'a>>,
    pub literals: BTreeMap<u32, Block<'a>>,
    /// The locals of each frame, by its number; a frame that has ended has none.
    pub frames: Vec<Vec<Block<'a>>>,
    /// The block of each allocation, from the first one on; `None` if it returned none.
    pub heap: Vec<Option<Block<'a>>>,
}

impl<'a> Memory<'a> {
    /// Returns the memory at the beginning of a run, before the first frame.
    pub fn new(alloc: Global, prepared: &'a Prepared<'a>) -> Memory<'a>
        ensures memory { memory_of result ≡ statics_of prepared.now }
        ensures frames { result.frames.items ≡ [] }
        ensures heap { result.heap.items ≡ [] }
    {
        Memory {
            starts: BTreeMap::new(alloc),
            prepared,
            globals: BTreeMap::new(alloc),
            literals: BTreeMap::new(alloc),
            frames: Vec::new(alloc),
            heap: Vec::new(alloc),
        }
    }

    /// Returns an object, if it exists.
    pub fn block(&self, object: &Object) -> Option<&Block<'a>>
        ensures { option_map block_of (option_copied result)
            ≡ memory_of self.now (object_of object.now) }
    {
        match object {
            Object::Start(path) => self.starts.get(path),
            Object::Global(global) => static_in(&self.globals, &self.prepared.globals, *global),
            Object::Literal(literal) => static_in(
                &self.literals,
                &self.prepared.literals,
                *literal,
            ),
            Object::Local(frame, declaration) => {
                self.frames.get(*frame as usize)?.get(*declaration as usize)
            }
            Object::Heap(allocation) => {
                let before = allocation.checked_sub(1)?;
                self.heap.get(before as usize)?.as_ref()
            }
        }
    }

    /// Changes an object, if it exists.
    pub fn change(&mut self, object: &Object, change: Change<'a>) -> Result<(), AllocError>
        ensures memory { OnOk result
            (memory_of self.new ≡ meaning.changed (change_of change.entry) (object_of object.now)
            (memory_of self.old)) }
        ensures counts { OnOk result (KeepsCounts self.old self.new) }
    {
        match object {
            Object::Start(path) => change_start(&mut self.starts, path, change)?,
            Object::Global(global) => {
                change_static(&mut self.globals, &self.prepared.globals, *global, change)?;
            }
            Object::Literal(literal) => {
                change_static(
                    &mut self.literals,
                    &self.prepared.literals,
                    *literal,
                    change,
                )?;
            }
            Object::Local(frame, declaration) => {
                change_local(
                    &mut self.frames,
                    *frame as usize,
                    *declaration as usize,
                    change,
                )?;
            }
            Object::Heap(allocation) => change_given(&mut self.heap, *allocation, change)?,
        }
        Ok(())
    }

    /// Adds the start block of an unknown pointer with a path, unless it exists.
    pub fn add_start(&mut self, path: Path, block: Block<'a>) -> Result<(), AllocError>
        ensures memory { OnOk result
            (memory_of self.new ≡ meaning.with_new_block (StartBlock path) (block_of block.entry)
            (memory_of self.old)) }
        ensures counts { OnOk result (KeepsCounts self.old self.new) }
    {
        add_if_new(&mut self.starts, path, block)?;
        Ok(())
    }

    /// Adds the block of a further allocation.
    pub fn allocate(&mut self, block: Block<'a>) -> Result<(), AllocError>
        ensures memory { OnOk result
            (memory_of self.new ≡ meaning.with_block (HeapBlock (length self.old.heap.items + 1))
            (block_of block.entry) (memory_of self.old)) }
        ensures allocations { OnOk result
            (length self.new.heap.items ≡ length self.old.heap.items + 1) }
        ensures frames { OnOk result
            (length self.new.frames.items ≡ length self.old.frames.items) }
    {
        self.heap.push(Some(block))?;
        Ok(())
    }

    /// Counts a further allocation that returned no block.
    pub fn allocate_none(&mut self) -> Result<(), AllocError>
        ensures memory { OnOk result (memory_of self.new ≡ memory_of self.old) }
        ensures allocations { OnOk result
            (length self.new.heap.items ≡ length self.old.heap.items + 1) }
        ensures frames { OnOk result
            (length self.new.frames.items ≡ length self.old.frames.items) }
    {
        self.heap.push(None)?;
        Ok(())
    }

    /// Adds the locals of a new frame.
    pub fn add_frame(&mut self, locals: Vec<Block<'a>>) -> Result<(), AllocError>
        ensures memory { OnOk result
            (memory_of self.new ≡ with_frame (length self.old.frames.items)
            (block_at locals.entry.items) (memory_of self.old)) }
        ensures frames { OnOk result
            (length self.new.frames.items ≡ length self.old.frames.items + 1) }
        ensures allocations { OnOk result
            (length self.new.heap.items ≡ length self.old.heap.items) }
    {
        self.frames.push(locals)?;
        Ok(())
    }

    /// Ends the lifetime of the locals of a frame (C11 6.2.4, paragraph 2).
    pub fn end_frame(&mut self, frame: u64)
        ensures memory { memory_of self.new ≡ without_locals frame (memory_of self.old) }
        ensures counts { KeepsCounts self.old self.new }
    {
        if (frame as usize) < self.frames.len() {
            clear(&mut self.frames[frame as usize]);
        }
    }
}

// Drops all objects of a list.
fn clear(row: &mut Vec<Block>)
    ensures { row.new.items ≡ [] }
{
    *row = Vec::new(*row.allocator());
}

// Adds the start block of an unknown pointer, unless it exists.
fn add_if_new<'a>(
    starts: &mut BTreeMap<Path, Block<'a>>,
    path: Path,
    block: Block<'a>,
) -> Result<(), AllocError>
    ensures { OnOk result ((other : Path)
        → start_in starts.new other
        ≡ (if is_equal (path_order path other)
        then meaning.or_new (block_of block.entry) (start_in starts.old other)
        else start_in starts.old other)) }
{
    if starts.contains_key(&path) {
        return Ok(());
    }
    match starts.insert(path, block) {
        Ok(_) => Ok(()),
        Err(_) => Err(AllocError),
    }
}

// Changes the start block of an unknown pointer, if it exists.
fn change_start<'a>(
    starts: &mut BTreeMap<Path, Block<'a>>,
    path: &Path,
    change: Change<'a>,
) -> Result<(), AllocError>
    ensures { OnOk result ((other : Path)
        → start_in starts.new other
        ≡ (if is_equal (path_order path.now other)
        then option_map (change_of change.entry) (start_in starts.old other)
        else start_in starts.old other)) }
{
    match starts.get_mut(path) {
        Some(block) => block.change(change),
        None => Ok(()),
    }
}

// Returns a static object: as it was changed, or else as at the beginning of a run.
fn static_in<'m, 'a>(
    changed: &'m BTreeMap<u32, Block<'a>>,
    row: &'m [Block<'a>],
    number: u32,
) -> Option<&'m Block<'a>>
    ensures { option_map block_of (option_copied result) ≡ static_at changed.now row.now number }
{
    match changed.get(&number) {
        Some(block) => Some(block),
        None => row.get(number as usize),
    }
}

// Changes a static object, if it exists.
fn change_static<'a>(
    changed: &mut BTreeMap<u32, Block<'a>>,
    row: &[Block<'a>],
    number: u32,
    change: Change<'a>,
) -> Result<(), AllocError>
    ensures { OnOk result ((n : ℕ)
        → static_at changed.new row.now n
        ≡ changed_at (change_of change.entry) number (static_at changed.old row.now) n) }
{
    match changed.get_mut(&number) {
        Some(block) => block.change(change),
        None => change_first(changed, row, number, change),
    }
}

// Changes a static object for the first time, if it exists.
fn change_first<'a>(
    changed: &mut BTreeMap<u32, Block<'a>>,
    row: &[Block<'a>],
    number: u32,
    change: Change<'a>,
) -> Result<(), AllocError>
    requires { get nat_cmp changed.old number ≡ None }
    ensures { OnOk result ((n : ℕ)
        → static_at changed.new row.now n
        ≡ changed_at (change_of change.entry) number (static_at changed.old row.now) n) }
{
    let Some(block) = row.get(number as usize) else {
        return Ok(());
    };
    let mut block = block.copy()?;
    block.change(change)?;
    match changed.insert(number, block) {
        Ok(_) => Ok(()),
        Err(_) => Err(AllocError),
    }
}

// Changes the object at an index of a list, if it exists.
fn change_at<'a>(row: &mut Vec<Block<'a>>, at: usize, change: Change<'a>) -> Result<(), AllocError>
    ensures { OnOk result ((n : ℕ)
        → block_at row.new.items n
        ≡ changed_at (change_of change.entry) at (block_at row.old.items) n) }
{
    if at < row.len() {
        row[at].change(change)?;
    }
    Ok(())
}

// Changes a local of a frame, if it exists.
fn change_local<'a>(
    frames: &mut Vec<Vec<Block<'a>>>,
    frame: usize,
    declaration: usize,
    change: Change<'a>,
) -> Result<(), AllocError>
    ensures frames { OnOk result (length frames.new.items ≡ length frames.old.items) }
    ensures locals { OnOk result ((n d : ℕ)
        → local_in frames.new.items n d
        ≡ (if (frame == n) && (declaration == d)
        then option_map (change_of change.entry) (local_in frames.old.items n d)
        else local_in frames.old.items n d)) }
{
    if frame < frames.len() {
        change_at(&mut frames[frame], declaration, change)?;
    }
    Ok(())
}

// Changes the block of an allocation, if it returned one.
fn change_given<'a>(
    heap: &mut Vec<Option<Block<'a>>>,
    allocation: u64,
    change: Change<'a>,
) -> Result<(), AllocError>
    ensures allocations { OnOk result (length heap.new.items ≡ length heap.old.items) }
    ensures given { OnOk result ((n : ℕ)
        → given_in heap.new.items n
        ≡ changed_at (change_of change.entry) allocation (given_in heap.old.items) n) }
{
    if 0 < allocation && allocation <= heap.len() as u64 {
        change_if_given(&mut heap[allocation as usize - 1], change)?;
    }
    Ok(())
}

// Changes a block, if there is one.
fn change_if_given<'a>(given: &mut Option<Block<'a>>, change: Change<'a>) -> Result<(), AllocError>
    ensures { OnOk result (option_map block_of given.new
        ≡ option_map (change_of change.entry) (option_map block_of given.old)) }
{
    match given {
        Some(block) => block.change(change),
        None => Ok(()),
    }
}
