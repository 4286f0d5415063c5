//! Integer functions.
ghost use Rattle.std.specs.Prelude.{◌≡◌, map};
ghost use Rattle.cs_ast.specs.TypedProgram.{routine, typed_program, variable};
ghost use Rattle.cs_integer_functions.specs.IntegerFunctions as definition;
ghost use Rattle.cs_meaning.specs.Machine.{routine_of};
ghost use Rattle.cs_types.specs.Shape.{shape_of};

use crate::statements::is_integer_statement;
use cs_ast::typed::program::{Function, Local, Program};
use cs_types::CType;

/// Whether the function with a number has a body and is an integer function.
pub fn is_integer_function(program: &Program, number: u32) -> bool
    ensures { result ≡ definition.is_integer_routine
        (routine_of (typed_program program.now) number) }
{
    match program.functions.get(number as usize) {
        Some(function) => is_integer_routine(function),
        None => false,
    }
}

fn is_integer_routine(function: &Function) -> bool
    ensures { result ≡ definition.is_integer_routine (routine function.now) }
{
    match &function.body {
        Some(body) => are_integers(&function.locals) && is_integer_statement(body),
        None => false,
    }
}

// Whether all these locals are integers.
fn are_integers(locals: &[Local]) -> bool
    ensures { result ≡ definition.are_integer_variables (map variable locals.now) }
{
    for local in locals {
        if !is_integer_type(&local.ty) {
            return false;
        }
    }
    true
}

fn is_integer_type(ty: &CType) -> bool
    ensures { result ≡ definition.is_integer_type (shape_of ty.now) }
{
    match ty {
        CType::Int(_) => true,
        _ => false,
    }
}
