//! The inputs that are tried without guesses before a finding is printed with guesses.
ghost use Rattle.std.specs.Prelude.{◌≡◌, ◌≤◌, ℤ, [], ◌∷◌, ◌++◌, take, length, nat_lt, flat_map, All, IfOk, IfSome, IfNone, OnOk};
ghost use Rattle.std.specs.BTreeMap.{insert_entry};
ghost use Rattle.cs_inputs.specs.declared.path.Path.{Path as InputPath};
ghost use Rattle.cs_inputs.specs.PathOrder.{path_order};
ghost use Rattle.cs_ast.specs.TypedProgram.{typed_program};
ghost use Rattle.cs_findings.specs.GoodFindings.{IsFinding};
ghost use Rattle.cs_findings.specs.Neighbours.{neighbours, replaced};
ghost use Rattle.cs_witness.specs.Entries.{CanRun};
ghost use Rattle.cs_witness.specs.Witnesses.{IsShownOf, IsElsewhereOf};

use crate::copies::copy_inputs;
use crate::entry::Entry;
use crate::showing::plain;
use cs_events::Outcome;
use cs_findings::Finding;
use cs_inputs::{Inputs, Path};
use std::alloc::{AllocError, Global};

// The number of inputs that are tried.
const MOST_TRIES: usize = 64;

/// Returns the finding of the first neighbour of the inputs whose run has the same outcome without guesses, if there is one.
pub fn confirmed(
    alloc: Global,
    entry: &Entry,
    inputs: &Inputs,
    what: Outcome,
) -> Result<Option<Finding>, AllocError>
    requires runs { CanRun entry.now }
    requires finding { IsFinding what }
    ensures shown { IfOk result (λ found. IfSome found (IsShownOf entry.now)) }
    ensures so { IfOk result (λ found. IfSome found (λ finding. finding.what ≡ what)) }
    ensures plain { IfOk result (λ found. IfSome found (λ finding.
        finding.run.guesses.items ≡ [])) }
    ensures elsewhere { IfOk result (λ found. IfNone found (All (IsElsewhereOf entry.now what)
        (neighbours (typed_program entry.now.program.now).constants inputs.now))) }
{
    let tries = neighbours(alloc, entry.program.constants.as_slice(), inputs)?;
    first_plain(alloc, entry, tries.as_slice(), what)
}

// Returns the finding of the first of these inputs whose run has the same outcome without guesses, if there is one.
fn first_plain(
    alloc: Global,
    entry: &Entry,
    tries: &[Inputs],
    what: Outcome,
) -> Result<Option<Finding>, AllocError>
    requires runs { CanRun entry.now }
    requires finding { IsFinding what }
    ensures shown { IfOk result (λ found. IfSome found (IsShownOf entry.now)) }
    ensures so { IfOk result (λ found. IfSome found (λ finding. finding.what ≡ what)) }
    ensures plain { IfOk result (λ found. IfSome found (λ finding.
        finding.run.guesses.items ≡ [])) }
    ensures elsewhere { IfOk result (λ found. IfNone found
        (All (IsElsewhereOf entry.now what) tries.now)) }
{
    for inputs in tries {
        match plain(alloc, entry, inputs, what)? {
            Some(finding) => return Ok(Some(finding)),
            None => {}
        }
    }
    Ok(None)
}

/// Returns the first 64 of: the inputs, then for each path the inputs with its number replaced by each of the constants.
fn neighbours(alloc: Global, constants: &[i128], inputs: &Inputs) -> Result<Vec<Inputs>, AllocError>
    ensures { IfOk result (λ tries. tries.items ≡ neighbours constants.now inputs.now) }
{
    let mut tries = Vec::new(alloc);
    tries.push(copy_inputs(alloc, inputs)?)?;
    add_neighbours(alloc, &mut tries, constants, inputs, inputs.list())?;
    Ok(tries)
}

// For each listed path, adds the inputs with its number replaced by each of the constants, up to 64 in all.
fn add_neighbours(
    alloc: Global,
    tries: &mut Vec<Inputs>,
    constants: &[i128],
    inputs: &Inputs,
    listed: &[(Path, i128)],
) -> Result<(), AllocError>
    requires { length tries.old.items ≤ 64 }
    ensures { OnOk result (tries.new.items ≡ take 64 (tries.old.items
        ++ flat_map (λ (entry : InputPath × ℤ). replaced constants.now inputs.now entry.0)
        listed.now)) }
{
    for entry in listed {
        add_replaced(alloc, tries, constants, inputs, &entry.0)?;
    }
    Ok(())
}

// Adds the inputs with the number of a path replaced by each of the constants, up to 64 in all.
fn add_replaced(
    alloc: Global,
    tries: &mut Vec<Inputs>,
    constants: &[i128],
    inputs: &Inputs,
    path: &Path,
) -> Result<(), AllocError>
    requires { length tries.old.items ≤ 64 }
    ensures { OnOk result (tries.new.items
        ≡ take 64 (tries.old.items ++ replaced constants.now inputs.now path.now)) }
{
    for number in constants {
        add_try(alloc, tries, inputs, path, *number)?;
    }
    Ok(())
}

// Adds the inputs with another number of a path, if there are fewer than 64 so far.
fn add_try(
    alloc: Global,
    tries: &mut Vec<Inputs>,
    inputs: &Inputs,
    path: &Path,
    number: i128,
) -> Result<(), AllocError>
    requires { length tries.old.items ≤ 64 }
    ensures { OnOk result (tries.new.items ≡ take 64 (tries.old.items
        ++ insert_entry path_order inputs.now path.now number ∷ [])) }
{
    if !takes_more(tries) {
        return Ok(());
    }
    let other = with_number(alloc, inputs, path, number)?;
    tries.push(other)?;
    Ok(())
}

fn takes_more(tries: &Vec<Inputs>) -> bool
    ensures { result ≡ nat_lt (length tries.now.items) 64 }
{
    tries.len() < MOST_TRIES
}

// Returns a copy of the inputs with another number of a path.
fn with_number(
    alloc: Global,
    inputs: &Inputs,
    path: &Path,
    number: i128,
) -> Result<Inputs, AllocError>
    ensures { IfOk result (λ made. made ≡ insert_entry path_order inputs.now path.now number) }
{
    let mut made = copy_inputs(alloc, inputs)?;
    let copied = path.copy()?;
    made.set(copied, number)?;
    Ok(made)
}
