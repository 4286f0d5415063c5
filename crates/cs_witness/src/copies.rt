//! Copies of inputs and runs.
ghost use Rattle.std.specs.Prelude.{◌≡◌, IfOk};
ghost use Rattle.cs_inputs.specs.Inputs.{IsInOrder};
ghost use Rattle.cs_findings.specs.Runs.{run_of};

use cs_findings::Run;
use cs_inputs::{Inputs, Path};
use std::alloc::{AllocError, Global};

/// Returns a copy of the inputs.
pub fn copy_inputs(alloc: Global, inputs: &Inputs) -> Result<Inputs, AllocError>
    ensures { IfOk result (λ made. made ≡ inputs.now) }
{
    copy_entries(alloc, inputs.list())
}

/// Returns a copy of the run.
pub fn copy_run(alloc: Global, run: &Run) -> Result<Run, AllocError>
    ensures { IfOk result (λ made. run_of made ≡ run_of run.now) }
{
    let inputs = copy_inputs(alloc, &run.inputs)?;
    let guesses = Vec::from_slice(alloc, run.guesses.as_slice())?;
    Ok(Run { inputs, guesses })
}

// Makes inputs of entries in path order.
fn copy_entries(alloc: Global, entries: &[(Path, i128)]) -> Result<Inputs, AllocError>
    requires { IsInOrder entries.now }
    ensures { IfOk result (λ made. made ≡ entries.now) }
{
    let mut made = Inputs::new(alloc);
    for entry in entries {
        let path = entry.0.copy()?;
        made.set(path, entry.1)?;
    }
    Ok(made)
}
