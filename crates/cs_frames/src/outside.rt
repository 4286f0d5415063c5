//! Effects of a call of a function without a body on memory: its result, and its writes through arguments.
ghost use Rattle.std.specs.Prelude.{◌≡◌, OnOk, IfErr, IfOk, map};
ghost use Rattle.cs_ast.specs.TypedProgram.{typed_program};
ghost use Rattle.cs_meaning.specs.Calls as calls;
ghost use Rattle.cs_meaning.specs.Machine as machine;
ghost use Rattle.cs_meaning.specs.Memory as meaning;
ghost use Rattle.cs_objects.specs.Prepared.{IsReady};
ghost use Rattle.cs_values.specs.View.{cell_of, operand_of, object_of};
ghost use Rattle.cs_memory.specs.MemoryView.{memory_of, KeepsCounts};
ghost use Rattle.cs_objects.specs.BlockView.{type_of};
ghost use Rattle.cs_run_log.specs.Pieces.{Gives, StopsIn, GivesBoth, StopsInBoth};
ghost use Rattle.cs_frames.specs.Calling.{received_result, is_nothing};

use cs_ast::Place;
use cs_ast::typed::program::Program;
use cs_events::Label;
use cs_inputs::{Path, Root};
use cs_memory::access::is_constant;
use cs_memory::found::ScalarContents;
use cs_memory::memory::Memory;
use cs_model::Standing;
use cs_objects::Setting;
use cs_objects::blocks::{BlockType, Change, Fill};
use cs_run_log::{Log, Stop};
use cs_types::CType;
use cs_values::paths::root_path;
use cs_values::{Cell, Object, Operand};
use std::alloc::AllocError;

/// Returns the result of a call of a function without a body, by its return type: it is looked up, except if the type is
/// `void`.
pub fn outside_result<'a>(
    memory: &mut Memory<'a>,
    log: &mut Log,
    setting: &Setting<'a>,
    returns: BlockType<'a>,
    call: u64,
) -> Result<Operand, Stop>
    requires { IsReady setting.now }
    ensures ok { IfOk result (λ given.
        GivesBoth setting.now log.old log.new
        (calls.outside_result (typed_program setting.now.program.now) (type_of returns.entry) call
        (memory_of memory.old)) (memory_of memory.new) (operand_of given)) }
    ensures err { IfErr result
        (StopsInBoth setting.now log.old log.new
        (calls.outside_result (typed_program setting.now.program.now) (type_of returns.entry) call
        (memory_of memory.old))) }
    ensures counts { IfOk result (λ _. KeepsCounts memory.old memory.new) }
{
    if gives_nothing(returns) {
        Ok(Operand::Nothing)
    } else {
        received(memory, log, setting, returns, call)
    }
}

// Whether a function with this return type returns nothing.
fn gives_nothing(returns: BlockType) -> bool
    ensures { result ≡ is_nothing (type_of returns.entry) }
{
    match returns {
        BlockType::Of(CType::Void) => true,
        BlockType::Of(CType::Int(_)) => false,
        BlockType::Of(CType::Pointer(_)) => false,
        BlockType::Of(CType::Array(_, _)) => false,
        BlockType::Of(CType::Struct(_)) => false,
        BlockType::Integer(_) => false,
        BlockType::Text(_) => false,
        BlockType::Void => true,
    }
}

// Looks up the result of such a call if its type isn't `void`.
fn received<'a>(
    memory: &mut Memory<'a>,
    log: &mut Log,
    setting: &Setting<'a>,
    returns: BlockType<'a>,
    call: u64,
) -> Result<Operand, Stop>
    requires { IsReady setting.now }
    ensures ok { IfOk result (λ given.
        GivesBoth setting.now log.old log.new
        (received_result (typed_program setting.now.program.now) (type_of returns.entry) call
        (memory_of memory.old)) (memory_of memory.new) (operand_of given)) }
    ensures err { IfErr result
        (StopsInBoth setting.now log.old log.new
        (received_result (typed_program setting.now.program.now) (type_of returns.entry) call
        (memory_of memory.old))) }
    ensures counts { IfOk result (λ _. KeepsCounts memory.old memory.new) }
{
    let path = root_path(*memory.heap.allocator(), Root::Call(call));
    let cell = memory.receive(log, setting, ScalarContents::Unknown(path, returns))?;
    Ok(Operand::Scalar(cell))
}

/// Writes through each argument whose parameter may be written through.
pub fn write_arguments<'a>(
    memory: &mut Memory<'a>,
    log: &mut Log,
    setting: &Setting<'a>,
    place: Place,
    call: u64,
    written: &[bool],
    arguments: &[Operand],
) -> Result<(), Stop>
    ensures ok { OnOk result
        (Gives setting.now log.old log.new
        (calls.write_arguments (typed_program setting.now.program.now) place call 0 written.now
        (map operand_of arguments.now) (memory_of memory.old)) (memory_of memory.new)) }
    ensures err { IfErr result
        (StopsIn setting.now log.old log.new
        (calls.write_arguments (typed_program setting.now.program.now) place call 0 written.now
        (map operand_of arguments.now) (memory_of memory.old))) }
    ensures counts { OnOk result (KeepsCounts memory.old memory.new) }
{
    let mut argument = 0;
    while argument < written.len() && argument < arguments.len() {
        if written[argument] {
            let root = Root::Wrote(call, argument as u64);
            let path = root_path(*memory.heap.allocator(), root);
            write_argument(memory, log, setting, place, path, &arguments[argument])?;
        }
        argument += 1;
    }
    Ok(())
}

// Writes through an argument, if it is a scalar.
fn write_argument<'a>(
    memory: &mut Memory<'a>,
    log: &mut Log,
    setting: &Setting<'a>,
    place: Place,
    path: Path,
    argument: &Operand,
) -> Result<(), Stop>
    ensures ok { OnOk result
        (Gives setting.now log.old log.new
        (calls.write_through (typed_program setting.now.program.now) place path
        (machine.cell_of (operand_of argument.now)) (memory_of memory.old))
        (memory_of memory.new)) }
    ensures err { IfErr result
        (StopsIn setting.now log.old log.new
        (calls.write_through (typed_program setting.now.program.now) place path
        (machine.cell_of (operand_of argument.now)) (memory_of memory.old))) }
    ensures counts { OnOk result (KeepsCounts memory.old memory.new) }
{
    match argument {
        Operand::Scalar(pointer) => write_through(memory, log, setting, place, path, pointer),
        Operand::Whole(_) => Ok(()),
        Operand::Nothing => Ok(()),
    }
}

// Shows whether an argument of such a call points to an object, and writes all of it.
fn write_through<'a>(
    memory: &mut Memory<'a>,
    log: &mut Log,
    setting: &Setting<'a>,
    place: Place,
    path: Path,
    pointer: &Cell,
) -> Result<(), Stop>
    ensures ok { OnOk result
        (Gives setting.now log.old log.new
        (calls.write_through (typed_program setting.now.program.now) place path
        (cell_of pointer.now) (memory_of memory.old)) (memory_of memory.new)) }
    ensures err { IfErr result
        (StopsIn setting.now log.old log.new
        (calls.write_through (typed_program setting.now.program.now) place path
        (cell_of pointer.now) (memory_of memory.old))) }
    ensures counts { OnOk result (KeepsCounts memory.old memory.new) }
{
    match pointer {
        Cell::Null => {
            log.show(setting, place, Label::Look(false))?;
            Ok(())
        }
        Cell::Pointer(object, _) => {
            log.show(setting, place, Label::Look(true))?;
            overwrite(memory, setting.program, object, path)?;
            Ok(())
        }
        Cell::Number(_) => Ok(()),
        Cell::Unset => Ok(()),
    }
}

// Makes all scalars of an object inputs below a path, if the function may write it.
fn overwrite(
    memory: &mut Memory,
    program: &Program,
    object: &Object,
    path: Path,
) -> Result<(), AllocError>
    ensures memory { OnOk result (memory_of memory.new
        ≡ meaning.changed (calls.overwrite (typed_program program.now) (object_of object.now)
        path) (object_of object.now) (memory_of memory.old)) }
    ensures counts { OnOk result (KeepsCounts memory.old memory.new) }
{
    match memory.block(object) {
        Some(block) => {
            if is_writable(program, object, block.standing) {
                memory.change(object, Change::Refill(Fill::Input(path)))?;
            }
            Ok(())
        }
        None => Ok(()),
    }
}

// Whether a function without a body may write an object with this standing.
fn is_writable(program: &Program, object: &Object, standing: Standing) -> bool
    ensures { result ≡ calls.is_writable (typed_program program.now) (object_of object.now)
        standing }
{
    match standing {
        Standing::Live => !is_constant(program, object),
        Standing::Freed => false,
        Standing::Ended => false,
    }
}
