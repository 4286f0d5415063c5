//! The function of a program that has a given name, and the numbers of functions.
ghost use Rattle.std.specs.Prelude.{◌≡◌, IfOk};
ghost use Rattle.std.specs.List.{position};
ghost use Rattle.cs_ast.specs.TypedProgram.{routine};
ghost use Rattle.cs_entries.specs.Named.{is_entry};

use cs_ast::typed::program::Function;
use cs_names::Name;
use std::alloc::AllocError;

/// Whether the function has this name and a body.
#[tactic(auto, using(crate::proofs::Mapped::is_some_mapped))]
fn is_entry(function: &Function, name: &Name) -> bool
    ensures { result ≡ is_entry name.now (routine function.now) }
{
    function.name == *name && function.body.is_some()
}

/// Returns the index of the first function with this name and a body, if there is one.
pub fn entry_of(functions: &[Function], name: &Name) -> Option<usize>
    ensures { result ≡ position (λ f. is_entry name.now (routine f)) functions.now }
{
    functions
        .iter()
        .position(|function| is_entry(function, name))
}

/// Returns the number of the function with an index. If there are more functions than numbers, it fails as if memory had run out.
pub fn number_of(index: usize) -> Result<u32, AllocError>
    ensures { IfOk result (λ number. number ≡ index) }
{
    u32::try_from(index).map_err(|_| AllocError)
}
