//! Base regions and memory spaces, after the memory model of Xu, Kremenek and Zhang, "A Memory Model for Static Analysis of C
//! Programs" (2010).
//!
//! A base region is one whole object. Each cell of it is a base region with a byte offset, so the subregions of the paper, which are
//! fields and elements, need no type of their own here.
ghost use Rattle.std.specs.Prelude.{◌≡◌};
ghost use Rattle.cs_regions.specs.Spaces.{space_with};

use cs_inputs::Path;

/// A base region: an object that is part of no other.
#[derive(Clone, Debug, Drop, PartialEq, Eq, Hash)]
pub enum Base {
    /// The block that the pointer at a path points to when the entry begins. It is the paper's symbolic
    /// region: only its pointer is known.
    Entry(Path),
    /// A file-scope object, by its number in the program.
    Global(u32),
    /// A string literal, by its number in the program.
    Literal(u32),
    /// A local, by the number of its frame in the run and by its declaration's number in the function.
    Local { frame: u64, decl: u32 },
    /// A heap block, by the number of the allocating call in the run.
    Heap(u64),
}

/// A memory space: base regions in different ones are never the same object.
#[derive(Clone, Copy, PartialEq, Eq, Debug)]
pub enum Space {
    /// Blocks that existed before the entry began.
    Start,
    Globals,
    /// Objects whose contents never change: string literals.
    Constants,
    Stack,
    Heap,
}

/// Returns the memory space of a base region.
pub fn space_of(base: &Base) -> Space
    ensures { result ≡ space_with base.now }
{
    match base {
        Base::Entry(_) => Space::Start,
        Base::Global(_) => Space::Globals,
        Base::Literal(_) => Space::Constants,
        Base::Local { .. } => Space::Stack,
        Base::Heap(_) => Space::Heap,
    }
}
