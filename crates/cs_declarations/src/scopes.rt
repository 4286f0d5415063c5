//! The declarations of a scope, taken out of it: those of a function's parameters become those of its body.
ghost use Rattle.std.specs.Prelude.{◌≡◌, ◌++◌, map, drop, take, reverse, IfOk, OnOk};
ghost use Rattle.cs_scopes.specs.Meanings.{declaration_of};
ghost use Rattle.cs_declarations.specs.Environment.{declarations_of, with_declarations, left_to};
ghost use Rattle.cs_declarations.specs.View.{environment_of, snapshot};

use crate::environment::{Environment, ScopeSnapshot};
use cs_scopes::{Declaration, Declarations};
use std::alloc::{AllocError, Global};

/// The declarations of a scope, the innermost first.
#[derive(Drop)]
pub struct Inner {
    pub list: Vec<Declaration>,
}

// Removes the declarations after the first `outer` ones, and returns them, the innermost first.
#[tactic(auto, using(crate::proofs::ScopesApart::one_taken, crate::proofs::ScopesApart::kept, crate::proofs::ScopesApart::all_left, crate::proofs::ScopesApart::all_taken))]
fn taken_after(
    alloc: Global,
    declarations: &mut Declarations,
    outer: usize,
) -> Result<Vec<Declaration>, AllocError>
    ensures left { OnOk result (declarations.new ≡ take outer declarations.old) }
    ensures taken { IfOk result (λ list.
        map declaration_of (reverse list.items) ≡ drop outer declarations.old) }
{
    let mut list = Vec::new(alloc);
    while declarations.len() > outer {
        if let Some(declaration) = declarations.pop() {
            list.push(declaration)?;
        }
    }
    Ok(list)
}

// Declares all of these, the last one first.
#[tactic(auto, using(crate::proofs::ScopesApart::moved))]
fn declare_each(declarations: &mut Declarations, list: Vec<Declaration>) -> Result<(), AllocError>
    ensures { OnOk result (declarations.new
        ≡ declarations.old ++ map declaration_of (reverse list.items)) }
{
    let mut list = list;
    while let Some(declaration) = list.pop() {
        declarations.declare(declaration)?;
    }
    Ok(())
}

impl Environment {
    /// Ends the scope that began there, and returns its declarations.
    pub fn leave_with(&mut self, alloc: Global, around: ScopeSnapshot) -> Result<Inner, AllocError>
        ensures left { OnOk result (environment_of self.new
            ≡ left_to (snapshot around) (environment_of self.old)) }
        ensures inner { IfOk result (λ inner.
            map declaration_of (reverse inner.list.items)
            ≡ drop around.declarations (declarations_of (environment_of self.old))) }
    {
        let declarations = &mut self.context.scope.declarations;
        let list = taken_after(alloc, declarations, around.declarations)?;
        self.outer = around.outer;
        Ok(Inner { list })
    }

    /// Declares in the innermost scope what another scope declared.
    pub fn declare_all(&mut self, inner: Inner) -> Result<(), AllocError>
        ensures { OnOk result (environment_of self.new
            ≡ with_declarations (declarations_of (environment_of self.old)
            ++ map declaration_of (reverse inner.list.items)) self.old.outer
            (environment_of self.old)) }
    {
        declare_each(&mut self.context.scope.declarations, inner.list)
    }
}
