//! The inputs that a run lists: those for the entry's parameters and for the paths that it reads.
ghost use Rattle.std.specs.Prelude.{◌≡◌, ◌↔◌, [], ◌∷◌, map, Contains, IfOk, OnOk, IsTrue};
ghost use Rattle.std.specs.Map.{keys_of};
ghost use Rattle.cs_inputs.specs.Inputs.{IsInOrder};
ghost use Rattle.cs_ast.specs.TypedProgram.{typed_program, routine, variable};
ghost use Rattle.cs_meaning.specs.Machine.{routine_of};
ghost use Rattle.cs_meaning.specs.Steps.{parameters_of, parameter_path};
ghost use Rattle.cs_witness.specs.Listing.{Adds, Lists, path_read};

use crate::entry::Entry;
use cs_ast::typed::program::{Function, Local};
use cs_events::Lookup;
use cs_inputs::{Inputs, Path, Root};
use cs_values::paths::root_path;
use std::alloc::{AllocError, Global};
use std::cmp::Ordering;

/// Returns the numbers that given inputs have for the entry's parameters and for the paths that were read, and for no other path.
pub fn listed(
    alloc: Global,
    entry: &Entry,
    given: &Inputs,
    read: &[Lookup],
) -> Result<Inputs, AllocError>
    ensures { IfOk result (λ inputs. Lists (typed_program entry.now.program.now)
        entry.now.function given.now read.now inputs) }
{
    let mut inputs = Inputs::new(alloc);
    add_parameters(alloc, entry, &mut inputs, given)?;
    add_read(&mut inputs, given, read)?;
    Ok(inputs)
}

/// Whether inputs list a path.
pub fn lists(inputs: &Inputs, path: &Path) -> bool
    ensures listed { IsTrue result ↔ Contains (keys_of inputs.now) path.now }
    ensures in_order { IsInOrder inputs.now }
{
    for entry in inputs.list() {
        if same_path(&entry.0, path) {
            return true;
        }
    }
    false
}

/// Whether two inputs list the same paths.
pub fn same_paths(one: &Inputs, other: &Inputs) -> bool
    ensures { IsTrue result ↔ (keys_of one.now ≡ keys_of other.now) }
{
    same_keys(one.list(), other.list())
}

fn same_keys(one: &[(Path, i128)], other: &[(Path, i128)]) -> bool
    ensures { IsTrue result ↔ (keys_of one.now ≡ keys_of other.now) }
{
    if one.len() != other.len() {
        return false;
    }
    for index in 0..one.len() {
        if !same_path(&one[index].0, &other[index].0) {
            return false;
        }
    }
    true
}

fn same_path(one: &Path, other: &Path) -> bool
    ensures { IsTrue result ↔ (one.now ≡ other.now) }
{
    match one.order(other) {
        Ordering::Equal => true,
        Ordering::Less => false,
        Ordering::Greater => false,
    }
}

// Adds the entry's parameters, if the function exists.
fn add_parameters(
    alloc: Global,
    entry: &Entry,
    inputs: &mut Inputs,
    given: &Inputs,
) -> Result<(), AllocError>
    ensures { OnOk result (Adds given.now (map parameter_path (parameters_of
        (routine_of (typed_program entry.now.program.now) entry.now.function)))
        inputs.old inputs.new) }
{
    match entry.program.functions.get(entry.function as usize) {
        Some(function) => add_locals(alloc, inputs, given, first_locals(function)),
        None => Ok(()),
    }
}

// Returns the parameters of a function: its first locals.
#[tactic(auto, using(crate::proofs::Keys::takes))]
fn first_locals(function: &Function) -> &[Local]
    ensures { map variable result.now ≡ parameters_of (routine function.now) }
{
    let count = function.parameters as usize;
    if count < function.locals.len() {
        &function.locals[..count]
    } else {
        &function.locals
    }
}

// Adds the parameters, each with the number that the given inputs have for it.
fn add_locals(
    alloc: Global,
    inputs: &mut Inputs,
    given: &Inputs,
    parameters: &[Local],
) -> Result<(), AllocError>
    ensures { OnOk result (Adds given.now
        (map parameter_path (map variable parameters.now)) inputs.old inputs.new) }
{
    for parameter in parameters {
        let path = root_path(alloc, Root::Param(parameter.name.copy()?));
        add(inputs, given, path)?;
    }
    Ok(())
}

// Adds the paths that were read, each with the number that the given inputs have there.
fn add_read(inputs: &mut Inputs, given: &Inputs, read: &[Lookup]) -> Result<(), AllocError>
    ensures { OnOk result (Adds given.now (map path_read read.now) inputs.old inputs.new) }
{
    for lookup in read {
        add(inputs, given, lookup.path.copy()?)?;
    }
    Ok(())
}

// Adds a path, with the number that the given inputs have there.
fn add(inputs: &mut Inputs, given: &Inputs, path: Path) -> Result<(), AllocError>
    ensures { OnOk result (Adds given.now (path ∷ []) inputs.old inputs.new) }
{
    let number = given.get(&path);
    inputs.set(path, number)?;
    Ok(())
}
