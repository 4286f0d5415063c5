//! The paths of inputs.
ghost use Rattle.std.specs.Prelude.{◌≡◌};
ghost use Rattle.cs_meaning.specs.Calls as calls;

use cs_inputs::{Cells, Path, Root};
use std::alloc::Global;

/// Returns the path that is only a root.
pub fn root_path(alloc: Global, root: Root) -> Path
    ensures { result ≡ calls.root_path root }
{
    Path {
        root,
        cells: Cells::new(alloc),
    }
}
