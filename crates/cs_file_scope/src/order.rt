//! The order of a file's functions, which are blank before they are declared.
ghost use Rattle.std.specs.Prelude.{◌≡◌, ◌||◌, ℕ, List, map, nat_eq, option_copied, OnOk, IfOk};
ghost use Rattle.std.specs.Cmp.Lexicographic.{pointwise};
ghost use Rattle.std.specs.HashSet.{contains};
ghost use Rattle.cs_ast.specs.TypedProgram.{routine};
ghost use Rattle.cs_file_scope.specs.Order as order;
ghost use Rattle.cs_file_scope.specs.Order.{is_of_library, defines, is_defined, placed};
ghost use Rattle.cs_file_scope.specs.Beginning.{blank};

use cs_ast::Place;
use cs_ast::raw::external::{RawExternal, RawExternalKind};
use cs_ast::typed::program::Function;
use cs_names::Name;
use cs_types::CType;
use indexmap::IndexSet;
use std::alloc::{AllocError, Global};
use std::collections::HashSet;
use std::mem::forget;

// Whether a function is one of the library's (C11 7.22.3).
fn is_of_library(name: &Name) -> bool
    ensures { result ≡ is_of_library name.now }
{
    let bytes = name.as_bytes();
    bytes == b"malloc".as_slice() || bytes == b"calloc".as_slice() || bytes == b"free".as_slice()
}

// Notes the function that a part of a file defines, if it defines one.
fn note_definition(defined: &mut HashSet<Name>, kind: &RawExternalKind) -> Result<(), AllocError>
    ensures { OnOk result ((name : List ℕ)
        → contains (pointwise nat_eq) defined.new name
        ≡ (contains (pointwise nat_eq) defined.old name || defines name kind.now)) }
{
    if let RawExternalKind::Definition(_, head, _) = kind {
        defined.insert(head.name.copy()?)?;
    }
    Ok(())
}

// The names of the functions that are defined in a file.
fn defined_in(alloc: Global, file: &[RawExternal]) -> Result<HashSet<Name>, AllocError>
    ensures { IfOk result (λ defined.
        (name : List ℕ) → contains (pointwise nat_eq) defined name
        ≡ is_defined name file.now) }
{
    let mut defined = HashSet::new(alloc);
    for external in file {
        note_definition(&mut defined, &external.kind)?;
    }
    Ok(defined)
}

// The function whose place in the order may be that of a part of a file.
fn placed<'a>(defined: &HashSet<Name>, kind: &'a RawExternalKind) -> Option<&'a Name>
    ensures { option_copied result ≡ placed (contains (pointwise nat_eq) defined.now) kind.now }
{
    match kind {
        RawExternalKind::Definition(_, head, _) => Some(&head.name),
        RawExternalKind::Function(_, head) => {
            if is_of_library(&head.name) || defined.contains(&head.name) {
                None
            } else {
                Some(&head.name)
            }
        }
        _ => None,
    }
}

/// Returns the names of a file's functions in their order.
pub fn order_of(alloc: Global, file: &[RawExternal]) -> Result<IndexSet<Name>, AllocError>
    ensures { IfOk result (λ names. names.keys ≡ order.order_of file.now) }
{
    let defined = defined_in(alloc, file)?;
    let mut names = IndexSet::new(alloc);
    for external in file {
        if let Some(name) = placed(&defined, &external.kind) {
            names.insert(name.copy()?).map_err(|_| AllocError)?;
        }
    }
    // Freeing each name would leave a gap in memory that is too small for most later allocations.
    forget(defined);
    Ok(names)
}

// A function that isn't declared yet.
fn blank(alloc: Global, name: &Name) -> Result<Function, AllocError>
    ensures { IfOk result (λ function. routine function ≡ blank name.now) }
{
    let place = Place {
        file: 0,
        line: 1,
        column: 1,
    };
    Ok(Function {
        name: name.copy()?,
        place,
        result: CType::Void,
        parameters: 0,
        locals: Vec::new(alloc),
        body: None,
        end: place,
        written: Vec::new(alloc),
    })
}

/// Returns functions with these names that aren't declared yet.
pub fn blanks(alloc: Global, names: &[Name]) -> Result<Vec<Function>, AllocError>
    ensures { IfOk result (λ functions. map routine functions.items ≡ map blank names.now) }
{
    let mut functions = Vec::new(alloc);
    for name in names {
        functions.push(blank(alloc, name)?)?;
    }
    Ok(functions)
}
