//! The state in which the exploration of an entry begins.
ghost use Rattle.std.specs.Prelude.{◌≡◌, ◌<◌, ℕ, true, false, length, map, Some, slice_get, IfOk, OnOk};
ghost use Rattle.cs_types.specs.Shape.{shape_of};
ghost use Rattle.cs_ast.specs.TypedProgram.{HasLayouts, typed_program, variable, routine};
ghost use Rattle.cs_meaning.specs.Machine.{routine_of};
ghost use Rattle.cs_meaning.specs.Steps as meaning;
ghost use Rattle.cs_objects.specs.Prepared.{IsReady};
ghost use Rattle.cs_cfg.specs.GraphView as view;
ghost use Rattle.cs_state.specs.Naming.{naming};
ghost use Rattle.cs_state.specs.Starting.{HaveSizes, HasSizes, DifferInName, IsStart};
ghost use Rattle.cs_engine.specs.Parameters.{DiffersFromBefore};

use cs_ast::typed::program::{Function, Local, Program};
use cs_progress::Context;
use cs_state::{State, Tables};
use cs_types::CType;
use cs_values::types::is_small;
use std::alloc::AllocError;

/// Returns the state in which an entry begins. An entry that can't begin is reported as want of memory.
pub(crate) fn start(context: &Context, entry: u32, tables: &mut Tables) -> Result<State, AllocError>
    requires { IsReady context.now.setting.now }
    ensures start { IfOk result (IsStart (view.code context.now.code.now)
        (typed_program context.now.setting.now.program.now) entry (naming tables.new)) }
    ensures names { OnOk result (DifferInName (meaning.parameters_of
        (routine_of (typed_program context.now.setting.now.program.now) entry))) }
{
    let program = context.setting.program;
    if !can_start(program, entry) {
        return Err(AllocError);
    }
    State::start(context.alloc, context.code, program, entry, tables)
}

// Whether an entry can begin: its parameters have different names (C11 6.7, paragraph 3), and no size in what they point to exceeds
// the bounds. Both hold for each file that was read, but not for each program that is well formed.
fn can_start(program: &Program, entry: u32) -> bool
    requires { HasLayouts program.now }
    ensures sizes { result ≡ true → HaveSizes (typed_program program.now)
        (meaning.parameters_of (routine_of (typed_program program.now) entry)) }
    ensures names { result ≡ true → DifferInName
        (meaning.parameters_of (routine_of (typed_program program.now) entry)) }
{
    match program.functions.get(entry as usize) {
        Some(function) => can_receive(program, parameters_of(function)),
        None => true,
    }
}

// The parameters of a function, which are the first of its locals.
fn parameters_of(function: &Function) -> &[Local]
    ensures { map variable result.now ≡ meaning.parameters_of (routine function.now) }
{
    let locals = function.locals.as_slice();
    let count = (function.parameters as usize).min(locals.len());
    &locals[..count]
}

fn can_receive(program: &Program, parameters: &[Local]) -> bool
    requires { HasLayouts program.now }
    ensures sizes { result ≡ true → HaveSizes (typed_program program.now)
        (map variable parameters.now) }
    ensures names { result ≡ true → DifferInName (map variable parameters.now) }
{
    have_sizes(program, parameters) && differ_in_name(parameters)
}

// Whether no size in what the parameters point to exceeds the bounds.
fn have_sizes(program: &Program, parameters: &[Local]) -> bool
    requires { HasLayouts program.now }
    ensures { result ≡ true
        → HaveSizes (typed_program program.now) (map variable parameters.now) }
{
    for parameter in parameters {
        if !has_sizes(program, &parameter.ty) {
            return false;
        }
    }
    true
}

fn has_sizes(program: &Program, ty: &CType) -> bool
    requires { HasLayouts program.now }
    ensures { result ≡ true → HasSizes (typed_program program.now) (shape_of ty.now) }
{
    match ty {
        CType::Pointer(target) => is_small(program.model, &program.table, target),
        CType::Void => true,
        CType::Int(_) => true,
        CType::Array(_, _) => true,
        CType::Struct(_) => true,
    }
}

// Whether all parameters have different names.
fn differ_in_name(parameters: &[Local]) -> bool
    ensures { result ≡ true → DifferInName (map variable parameters.now) }
{
    for number in 0..parameters.len() {
        if !differs_from_before(parameters, number) {
            return false;
        }
    }
    true
}

// Whether no parameter before this one has its name.
fn differs_from_before(parameters: &[Local], number: usize) -> bool
    requires { number < length parameters.now }
    ensures { result ≡ true → DiffersFromBefore parameters.now number }
{
    let name = &parameters[number].name;
    for earlier in 0..number {
        if parameters[earlier].name == *name {
            return false;
        }
    }
    true
}
