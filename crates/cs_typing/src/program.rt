//! The typed program of a file.
ghost use Rattle.std.specs.Prelude.{◌≡◌, IfOk};
ghost use Rattle.cs_ast.specs.TypedProgram.{HasLayouts, typed_program};
ghost use Rattle.cs_scopes.specs.Verdicts.{Answers};
ghost use Rattle.cs_typing.specs.Programs.{constants_in, typed};
ghost use Rattle.cs_well_formed.specs.Files.{IsFileTree};
ghost use Rattle.cs_well_formed.specs.Programs.{IsWellFormed};

use crate::file::typed_file;
use cs_ast::raw::external::RawExternal;
use cs_ast::typed::program::Program;
use cs_ast::{Token, TokenKind};
use cs_declarations::Environment;
use cs_file_scope::Filed;
use cs_names::Name;
use cs_scopes::{Context, TypeRefusal};
use cs_types::DataModel;
use indexmap::IndexSet;
use std::alloc::{AllocError, Global};
use std::mem::forget;

// The different values of the integer constants among tokens, in the order of their first occurrences.
fn constants_of(alloc: Global, tokens: &[Token]) -> Result<Vec<i128>, AllocError>
    ensures { IfOk result (λ numbers. numbers.items ≡ constants_in tokens.now) }
{
    let mut numbers: IndexSet<i128> = IndexSet::new(alloc);
    for token in tokens {
        if let TokenKind::Number(constant) = &token.kind {
            numbers
                .insert(i128::from(constant.value))
                .map_err(|_| AllocError)?;
        }
    }
    Vec::from_slice(alloc, numbers.as_slice())
}

// A copy of names.
fn copied(alloc: Global, names: &[Name]) -> Result<Vec<Name>, AllocError>
    ensures { IfOk result (λ made. made.items ≡ names.now) }
{
    let mut made = Vec::new(alloc);
    for name in names {
        made.push(name.copy()?)?;
    }
    Ok(made)
}

/// Returns the program of a file with these parts and tokens, whose positions are in these files, or its first type error. It
/// is well formed if these are the tree and the tokens of a file's text: no constant is too large for the types of its list
/// (C11 6.4.4, paragraph 2), positions are in the files, and the text is short.
#[tactic(auto, using(cs_scopes::proofs::Lifting::lifts))]
pub fn typed(
    alloc: Global,
    model: DataModel,
    files: &[Name],
    tokens: &[Token],
    file: &[RawExternal],
) -> Result<Program, TypeRefusal>
    ensures reported { Answers typed_program (typed model files.now tokens.now file.now) result }
    ensures laid_out { IfOk result (λ program. HasLayouts program) }
    ensures well_formed { IsFileTree files.now tokens.now file.now
        → IfOk result (λ program. IsWellFormed (typed_program program)) }
{
    let Filed {
        known,
        globals,
        order,
        functions,
    } = typed_file(alloc, model, tokens, file)?;
    let Environment {
        context,
        literals,
        ..
    } = known;
    let Context { table, scope, .. } = context;
    // The names aren't freed one by one: later allocations would take their places, scattered over memory.
    forget(scope);
    forget(order);
    Ok(Program {
        model,
        files: copied(alloc, files)?,
        table,
        globals,
        literals,
        functions,
        constants: constants_of(alloc, tokens)?,
    })
}
