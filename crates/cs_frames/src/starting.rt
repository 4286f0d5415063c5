//! How a run begins: the static objects, and the first frame.
ghost use Rattle.std.specs.Prelude.{◌≡◌, IfOk, map};
ghost use Rattle.cs_ast.specs.TypedProgram.{typed_program, routine, variable};
ghost use Rattle.cs_inputs.specs.Inputs.{number_at};
ghost use Rattle.cs_meaning.specs.Machine as meaning;
ghost use Rattle.cs_meaning.specs.Steps as steps;
ghost use Rattle.cs_objects.specs.Prepared.{IsReady};
ghost use Rattle.cs_values.specs.View.{operand_of};
ghost use Rattle.cs_memory.specs.MemoryView.{memory_of, KeepsCounts};
ghost use Rattle.cs_run_state.specs.MachineView.{state_of};

use crate::frames::{local_blocks, new_frame, no_frame};
use cs_ast::typed::program::{Function, Local};
use cs_inputs::Root;
use cs_memory::memory::Memory;
use cs_objects::Setting;
use cs_objects::blocks::BlockType;
use cs_objects::inputs::{input_cell, input_kind};
use cs_run_state::machine::Machine;
use cs_values::Operand;
use cs_values::paths::root_path;
use std::alloc::{AllocError, Global};

/// Returns the machine in the first frame of an entry, whose parameters hold the values of their paths.
pub fn start<'a>(
    alloc: Global,
    setting: &Setting<'a>,
    entry: u32,
) -> Result<Machine<'a>, AllocError>
    requires { IsReady setting.now }
    ensures { IfOk result (λ machine.
        state_of machine ≡ steps.start (typed_program setting.now.program.now)
        (number_at setting.now.inputs.now) entry) }
{
    match setting.program.functions.get(entry as usize) {
        Some(function) => start_function(alloc, setting, entry, function),
        None => start_nowhere(alloc, setting, entry),
    }
}

// Returns the machine in the first frame of a function.
fn start_function<'a>(
    alloc: Global,
    setting: &Setting<'a>,
    entry: u32,
    function: &'a Function,
) -> Result<Machine<'a>, AllocError>
    requires { IsReady setting.now }
    ensures { IfOk result (λ machine.
        state_of machine ≡ steps.started (typed_program setting.now.program.now)
        (number_at setting.now.inputs.now) entry (routine function.now)) }
{
    let mut memory = Memory::new(alloc, setting.prepared);
    let parameters = parameters_of(function);
    let arguments = received(alloc, setting, parameters, &mut memory)?;
    let locals = local_blocks(alloc, setting.program, &function.locals, &arguments)?;
    memory.add_frame(locals)?;
    let frame = new_frame(alloc, entry, 0, function)?;
    Ok(Machine {
        frame,
        callers: Vec::new(alloc),
        memory,
        calls: 0,
    })
}

// Returns the machine in the first frame of a function that doesn't exist.
fn start_nowhere<'a>(
    alloc: Global,
    setting: &Setting<'a>,
    entry: u32,
) -> Result<Machine<'a>, AllocError>
    requires { IsReady setting.now }
    ensures { IfOk result (λ machine.
        state_of machine ≡ steps.started (typed_program setting.now.program.now)
        (number_at setting.now.inputs.now) entry (meaning.no_routine meaning.NOWHERE)) }
{
    let mut memory = Memory::new(alloc, setting.prepared);
    memory.add_frame(Vec::new(alloc))?;
    let frame = no_frame(alloc, entry, 0)?;
    Ok(Machine {
        frame,
        callers: Vec::new(alloc),
        memory,
        calls: 0,
    })
}

// Returns the parameters of a function.
#[tactic(auto, using(crate::proofs::Stacks::takes))]
fn parameters_of(function: &Function) -> &[Local]
    ensures { map variable result.now ≡ steps.parameters_of (routine function.now) }
{
    let count = function.parameters as usize;
    if count < function.locals.len() {
        &function.locals[..count]
    } else {
        &function.locals
    }
}

// Returns the initial values of an entry's parameters, and adds their start blocks.
fn received<'a>(
    alloc: Global,
    setting: &Setting<'a>,
    parameters: &'a [Local],
    memory: &mut Memory<'a>,
) -> Result<Vec<Operand>, AllocError>
    requires { IsReady setting.now }
    ensures values { IfOk result (λ made.
        map operand_of made.items
        ≡ map (λ v. meaning.Scalar (steps.received (typed_program setting.now.program.now)
        (number_at setting.now.inputs.now) v)) (map variable parameters.now)) }
    ensures memory { IfOk result (λ _.
        memory_of memory.new ≡ steps.with_received (typed_program setting.now.program.now)
        (number_at setting.now.inputs.now) (map variable parameters.now) (memory_of memory.old)) }
    ensures counts { IfOk result (λ _. KeepsCounts memory.old memory.new) }
{
    let mut made = Vec::new(alloc);
    for parameter in parameters {
        let path = root_path(alloc, Root::Param(parameter.name.copy()?));
        let number = setting.inputs.get(&path);
        let scalar = BlockType::Of(&parameter.ty);
        let cell = input_cell(setting.program.model, &path, input_kind(scalar), &number)?;
        memory.open(setting.program, &path, scalar, parameter.block, &cell)?;
        made.push(Operand::Scalar(cell))?;
    }
    Ok(made)
}
