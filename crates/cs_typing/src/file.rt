//! Files (C11 6.9).
ghost use Rattle.std.specs.Prelude.{◌≡◌};
ghost use Rattle.cs_types.specs.Shape.{shape_of};
ghost use Rattle.cs_scopes.specs.Verdicts.{Answers};
ghost use Rattle.cs_file_scope.specs.View.{filed_of};
ghost use Rattle.cs_typing.specs.Files.{specs_of, external_declared, external_typed, file_typed, typed_file};

use crate::bodies::with_function;
use cs_ast::Token;
use cs_ast::raw::declaration::RawSpecs;
use cs_ast::raw::external::{RawExternal, RawExternalKind};
use cs_declarations::specs_type;
use cs_file_scope::{Filed, begun};
use cs_scopes::TypeRefusal;
use cs_types::{CType, DataModel};
use std::alloc::Global;

// The specifiers of a part of a file.
fn specs_of(kind: &RawExternalKind) -> &RawSpecs
    ensures { result.now ≡ specs_of kind.now }
{
    match kind {
        RawExternalKind::Type(specs) => specs,
        RawExternalKind::Typedef(specs, _) => specs,
        RawExternalKind::Objects(specs, _) => specs,
        RawExternalKind::Function(specs, _) => specs,
        RawExternalKind::Definition(specs, _, _) => specs,
    }
}

// A file with what one more part declares; `base` is the type of its specifiers.
#[tactic(auto, using(cs_scopes::proofs::Lifting::lifts))]
fn with_external(
    alloc: Global,
    filed: Filed,
    base: CType,
    kind: &RawExternalKind,
) -> Result<Filed, TypeRefusal>
    ensures { Answers filed_of (external_declared kind.now (filed_of filed) (shape_of base))
        result }
{
    let mut filed = filed;
    match kind {
        RawExternalKind::Type(_) => Ok(filed),
        RawExternalKind::Typedef(_, names) => {
            filed.known.declare_typedefs(alloc, &base, names)?;
            Ok(filed)
        }
        RawExternalKind::Objects(specs, objects) => {
            filed.declare_objects(alloc, specs, &base, objects)?;
            Ok(filed)
        }
        RawExternalKind::Function(_, head) => with_function(alloc, filed, base, head, None),
        RawExternalKind::Definition(_, head, body) => {
            with_function(alloc, filed, base, head, Some(body))
        }
    }
}

/// Returns a file with one more part.
#[tactic(auto, using(cs_scopes::proofs::Lifting::lifts))]
pub fn external_typed(
    alloc: Global,
    filed: Filed,
    external: &RawExternal,
) -> Result<Filed, TypeRefusal>
    ensures { Answers filed_of
        (external_typed external.now.place external.now.kind (filed_of filed)) result }
{
    let mut filed = filed;
    let specs = specs_of(&external.kind);
    let base = specs_type(alloc, &mut filed.known, external.place, specs)?;
    with_external(alloc, filed, base, &external.kind)
}

// A file with more parts, one after another.
fn with_externals(alloc: Global, before: Filed, file: &[RawExternal]) -> Result<Filed, TypeRefusal>
    ensures { Answers filed_of (file_typed file.now (filed_of before)) result }
{
    let mut filed = before;
    for external in file {
        filed = external_typed(alloc, filed, external)?;
    }
    Ok(filed)
}

/// Returns the file with these tokens, or its first type error.
pub fn typed_file(
    alloc: Global,
    model: DataModel,
    tokens: &[Token],
    file: &[RawExternal],
) -> Result<Filed, TypeRefusal>
    ensures { Answers filed_of (typed_file model tokens.now file.now) result }
{
    let filed = begun(alloc, model, tokens, file)?;
    with_externals(alloc, filed, file)
}
