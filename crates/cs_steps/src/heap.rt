//! Allocations and releases (C11 7.22.3).
ghost use Rattle.cs_objects.specs.Prepared.{IsReady};
ghost use Rattle.cs_state.specs.Naming.{naming, Extends};
ghost use Rattle.cs_operators.specs.Asking.{KeepKinds};

use cs_ast::Place;
use cs_ast::typed::operator::{Allocator, BinOp};
use cs_cells::cells::declare;
use cs_cells::objects::object;
use cs_checker::{Checker, Subject};
use cs_eval::{Question, Tested};
use cs_inputs::Root;
use cs_model::Standing;
use cs_operators::Attempt;
use cs_operators::operators::operate;
use cs_progress::operands::{number, replace, replace_with, value};
use cs_progress::pointers::{Seen, look, truth};
use cs_progress::terms::{constant, own};
use cs_progress::{Context, Pause, Progress};
use cs_regions::Base;
use cs_state::{Block, Counters, State, Tables, Temporary};
use cs_store::{Fill, Value};
use cs_terms::{Lin, Sym, SymName};
use cs_types::{CType, size_type};
use cs_values::paths::root_path;

/// Executes a call of `malloc` or `calloc`, whose block has elements of a type.
pub fn allocate(
    context: &Context,
    state: &mut State,
    tables: &mut Tables,
    attempt: &mut Attempt,
    at: Place,
    allocator: Allocator,
    element: &CType,
) -> Result<(), Pause>
    requires { IsReady context.now.setting.now }
    ensures kinds { KeepKinds (λ b. (⟦<dyn Checker as Checker>⟧ b.vtable).kind_of b.value)
        attempt.old.checkers.items attempt.new.checkers.items }
    ensures extends { Extends (naming tables.old) (naming tables.new) }
{
    match allocator {
        Allocator::Malloc => {
            let bytes = number(state, 0)?;
            let made = (bytes, Fill::Unset);
            let progress = &mut attempt.progress;
            let value = allocated(context, state, tables, progress, at, element, made)?;
            replace_with(state, 1, value)
        }
        Allocator::Calloc => {
            let value = zeros(context, state, tables, attempt, at, element)?;
            replace_with(state, 2, value)
        }
    }
}

// A block for the given number of elements, all zero; null if the product is too great (C11 7.22.3.2).
fn zeros(
    context: &Context,
    state: &mut State,
    tables: &mut Tables,
    attempt: &mut Attempt,
    at: Place,
    element: &CType,
) -> Result<Value, Pause>
    requires { IsReady context.now.setting.now }
    ensures kinds { KeepKinds (λ b. (⟦<dyn Checker as Checker>⟧ b.vtable).kind_of b.value)
        attempt.old.checkers.items attempt.new.checkers.items }
    ensures extends { Extends (naming tables.old) (naming tables.new) }
{
    let model = context.model();
    let count = number(state, 1)?;
    let size = number(state, 0)?;
    let question = Question::Product(count, size);
    let few = attempt.progress.ask(state, at, question)?;
    if !truth(few)? {
        next_allocation(state)?;
        return Ok(Value::Null);
    }
    let (ty, factors) = (size_type(model), (count, size));
    let bytes = operate(model, state, attempt, at, BinOp::Mul, ty, factors)?;
    let made = (bytes, Fill::Zero);
    let progress = &mut attempt.progress;
    allocated(context, state, tables, progress, at, element, made)
}

// A block of the given number of bytes with a fill, or null.
fn allocated(
    context: &Context,
    state: &mut State,
    tables: &mut Tables,
    progress: &mut Progress,
    at: Place,
    element: &CType,
    made: (Lin, Fill),
) -> Result<Value, Pause>
    requires { IsReady context.now.setting.now }
    ensures { Extends (naming tables.old) (naming tables.new) }
{
    let (bytes, fill) = made;
    let allocation = state
        .counters
        .allocations
        .checked_add(1)
        .ok_or(Pause::Memory)?;
    let path = root_path(context.alloc, Root::Malloc(allocation));
    let sym = tables.sym(SymName::Input(path))?;
    declare(context.alloc, state, sym, 0, 1)?;
    let given = progress.ask(state, at, Question::Test(Tested::Alloc, own(sym)))?;
    next_allocation(state)?;
    if !truth(given)? {
        return Ok(Value::Null);
    }
    let base = tables.base(Base::Heap(allocation))?;
    let block = heap_block(state, tables, element, bytes, sym)?;
    state.set_block(base, block)?;
    if let Fill::Zero = fill {
        state.fill(base, fill)?;
    }
    Ok(Value::At(base, constant(0)))
}

// The data of a new block.
fn heap_block(
    state: &State,
    tables: &mut Tables,
    element: &CType,
    bytes: Lin,
    sym: Sym,
) -> Result<Block, Pause>
    ensures { Extends (naming tables.old) (naming tables.new) }
{
    Ok(Block {
        extent: bytes,
        standing: Standing::Live,
        element: tables.element(element)?,
        sym,
        made_by: state.counters.events,
    })
}

// Counts one more allocation.
fn next_allocation(state: &mut State) -> Result<(), Pause> {
    let allocations = state
        .counters
        .allocations
        .checked_add(1)
        .ok_or(Pause::Memory)?;
    state.set_counters(Counters {
        allocations,
        ..state.counters
    });
    Ok(())
}

/// Executes a call of `free`.
pub fn release(
    context: &Context,
    state: &mut State,
    tables: &Tables,
    attempt: &mut Attempt,
    at: Place,
) -> Result<(), Pause>
    requires { IsReady context.now.setting.now }
    ensures { KeepKinds (λ b. (⟦<dyn Checker as Checker>⟧ b.vtable).kind_of b.value)
        attempt.old.checkers.items attempt.new.checkers.items }
{
    let pointer = value(state, 0)?;
    if let Seen::At(base, offset) = look(state, &mut attempt.progress, at, pointer)? {
        let block = object(context, state, tables, base)?.freeable;
        attempt.check(state, at, Subject::Release { block, offset })?;
        state.release(base)?;
    }
    replace(state, 1, Temporary::Nothing)
}
