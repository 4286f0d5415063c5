//! The bodies of functions (C11 6.9.1).
ghost use Rattle.std.specs.Prelude.{◌≡◌, map, option_copied, OnOk};
ghost use Rattle.cs_types.specs.Shape.{shape_of};
ghost use Rattle.cs_ast.specs.TypedProgram.{variable, routine};
ghost use Rattle.cs_scopes.specs.declared.scope.Callee.TheVariants as callee;
ghost use Rattle.cs_scopes.specs.Verdicts.{Answers};
ghost use Rattle.cs_ast.specs.TypedView.{statement};
ghost use Rattle.cs_statements.specs.Locals.{TypedStatements as TypedStatementsOf};
ghost use Rattle.cs_file_scope.specs.Objects.{changed};
ghost use Rattle.cs_file_scope.specs.View.{filed_of};
ghost use Rattle.cs_typing.specs.Functions as functions;
ghost use Rattle.cs_typing.specs.Functions.{body_added, bodied, function_added};
ghost use Rattle.cs_typing.specs.View.{inner_of};

use cs_ast::raw::declaration::RawFunction;
use cs_ast::raw::external::RawBody;
use cs_ast::typed::program::{Function, Local};
use cs_ast::typed::statement::{Stmt, StmtKind};
use cs_declarations::{Inner, parameters_typed};
use cs_file_scope::{Filed, is_result};
use cs_scopes::{Callee, TypeCode, TypeRefusal, starred};
use cs_statements::{Inside, Where, items_typed, labels_of_body};
use cs_types::CType;
use std::alloc::{AllocError, Global};

// Sets the body of the function with this number.
fn put_body(
    alloc: Global,
    functions: &mut Vec<Function>,
    number: u32,
    head: &RawFunction,
    body: &RawBody,
    locals: Vec<Local>,
    statements: Vec<Stmt>,
) -> Result<(), AllocError>
    ensures { (reported : TypedStatementsOf)
        → reported.inside.variables ≡ map variable locals.items
        → reported.statements ≡ map statement statements.items
        → OnOk result (map routine functions.new.items
        ≡ changed number (bodied head.now body.now reported) (map routine functions.old.items)) }
{
    let block = Box::new(alloc, StmtKind::Block(statements))?;
    if let Some(function) = functions.get_mut(number as usize) {
        function.place = head.place;
        function.locals = locals;
        function.body = Some(Stmt {
            place: body.opening,
            kind: block,
        });
        function.end = body.closing;
    }
    Ok(())
}

// A file with the body of the function with this number; `inner` are the declarations of its parameters' scope.
#[tactic(auto, using(cs_scopes::proofs::Lifting::lifts))]
fn with_body(
    alloc: Global,
    filed: Filed,
    head: &RawFunction,
    body: &RawBody,
    returns: &CType,
    parameters: Vec<Local>,
    inner: Inner,
    number: u32,
) -> Result<Filed, TypeRefusal>
    ensures { Answers filed_of
        (body_added head.now body.now (shape_of returns.now) (map variable parameters.items)
        (inner_of inner) (callee.Numbered number) (filed_of filed)) result }
{
    let labels = labels_of_body(alloc, &body.items)?;
    let at = Where {
        returns,
        labels: &labels,
        breaks: false,
        continues: false,
    };
    let Filed {
        known,
        globals,
        order,
        functions,
    } = filed;
    let mut inside = Inside {
        known,
        locals: parameters,
        met: 0,
    };
    let around = inside.known.enter();
    inside.known.declare_all(inner)?;
    let statements = items_typed(alloc, &mut inside, at, &body.items)?;
    inside.known.leave(around);
    let mut functions = functions;
    let Inside { known, locals, .. } = inside;
    put_body(
        alloc,
        &mut functions,
        number,
        head,
        body,
        locals,
        statements,
    )?;
    Ok(Filed {
        known,
        globals,
        order,
        functions,
    })
}

// A file with one more function, whose result has to be of a supported type.
#[tactic(auto, using(cs_scopes::proofs::Lifting::lifts))]
fn resulted(
    alloc: Global,
    filed: Filed,
    head: &RawFunction,
    body: Option<&RawBody>,
    returns: &CType,
) -> Result<Filed, TypeRefusal>
    ensures { Answers filed_of
        (functions.resulted head.now (option_copied body.entry) (filed_of filed)
        (shape_of returns.now)) result }
{
    if !is_result(returns) {
        return Err(TypeRefusal::Code(TypeCode::IncompleteType, head.place));
    }
    let mut filed = filed;
    let around = filed.known.enter();
    let parameters = parameters_typed(alloc, &mut filed.known, &head.parameters)?;
    let inner = filed.known.leave_with(alloc, around)?;
    let callee = filed.function_once(alloc, head, returns, &parameters)?;
    match (body, callee) {
        (Some(body), Callee::Numbered(number)) => {
            let list = parameters.parameters;
            with_body(alloc, filed, head, body, returns, list, inner, number)
        }
        _ => Ok(filed),
    }
}

/// Returns a file with one more function; `base` is the type of its specifiers.
#[tactic(auto, using(cs_scopes::proofs::Lifting::lifts))]
pub fn with_function(
    alloc: Global,
    filed: Filed,
    base: CType,
    head: &RawFunction,
    body: Option<&RawBody>,
) -> Result<Filed, TypeRefusal>
    ensures { Answers filed_of
        (function_added head.now (option_copied body.entry) (filed_of filed) (shape_of base))
        result }
{
    let returns = starred(alloc, &head.pointers, base)?;
    if !filed.may_be_function(&head.name, body.is_some(), &returns) {
        return Err(TypeRefusal::Code(TypeCode::DeclaredTwice, head.place));
    }
    resulted(alloc, filed, head, body, &returns)
}
