//! The operations of the code.
ghost use Rattle.cs_objects.specs.Prepared.{IsReady};
ghost use Rattle.cs_operators.specs.Asking.{KeepKinds, HasEveryKind};
ghost use Rattle.std.specs.Prelude.{◌≡◌, Bool, OnOk, IfErr};
ghost use Rattle.cs_types.specs.declared.data_model.DataModel.{DataModel};
ghost use Rattle.cs_types.specs.Shape.{shape_of};
ghost use Rattle.cs_state.specs.Naming.{Naming, naming, Extends};
ghost use Rattle.cs_cfg.specs.Graph as graph;
ghost use Rattle.cs_cfg.specs.GraphView as view;
ghost use Rattle.cs_state.specs.MeaningOfWrites.{MeansPushed};
ghost use Rattle.cs_state.specs.declared.temporary.Temporary.TheVariants.{Scalar};
ghost use Rattle.cs_progress.specs.declared.pause.Pause.TheVariants as pause;
ghost use Rattle.cs_progress.specs.declared.progress.Progress.{Progress};
ghost use Rattle.cs_progress.specs.Operands.{IsPushed, IsPlacePushed};
ghost use Rattle.cs_progress.specs.Stepping.{DoesWork, DoesWorkAndGoesOn};

use crate::access::{Reached, load, spell, store, write};
use crate::calls::call;
use crate::ends::go_on;
use crate::heap::{allocate, release};
use crate::updates::{fetch_number, move_pointer, update};
use cs_ast::Place;
use cs_cfg::{Access, Operation, Work};
use cs_checker::Checker;
use cs_operators::Attempt;
use cs_operators::computing::{
    add, binary, compare_operands, convert, judge, member, member_through, negate, subtract, unary,
    use_result,
};
use cs_progress::operands::{drop_newest, operand, replace, value};
use cs_progress::terms::constant;
use cs_progress::{Context, Pause};
use cs_regions::Base;
use cs_state::{State, Tables, Temporary};
use cs_store::{Fill, Value};
use cs_types::CType;

/// Executes an operation, after which the frame is at its next instruction.
pub fn work(
    context: &Context,
    state: &mut State,
    tables: &mut Tables,
    attempt: &mut Attempt,
    operation: &Operation,
) -> Result<(), Pause>
    requires { IsReady context.now.setting.now }
    ensures kinds { KeepKinds (λ b. (⟦<dyn Checker as Checker>⟧ b.vtable).kind_of b.value)
        attempt.old.checkers.items attempt.new.checkers.items }
    ensures extends { Extends (naming tables.old) (naming tables.new) }
    ensures work { HasEveryKind (λ b. (⟦<dyn Checker as Checker>⟧ b.vtable).kind_of b.value)
        attempt.old.checkers.items
        → DoesWorkAndGoesOn (view.code context.now.code.now)
        context.now.setting.now.program.now.model
        context.now.setting.now.budgets (naming tables.new) state.old state.new attempt.old.progress
        attempt.new.progress result operation.now.place (view.work operation.now.work) }
{
    if let Work::Call(function, count) = &operation.work {
        let called = (*function, *count);
        return call(
            context,
            state,
            tables,
            &mut attempt.progress,
            operation.place,
            called,
        );
    }
    do_work(context, state, tables, attempt, operation)?;
    go_on(context, state)
}

// Executes any operation but a call; the frame stays at its spot.
fn do_work(
    context: &Context,
    state: &mut State,
    tables: &mut Tables,
    attempt: &mut Attempt,
    operation: &Operation,
) -> Result<(), Pause>
    requires { IsReady context.now.setting.now }
    ensures kinds { KeepKinds (λ b. (⟦<dyn Checker as Checker>⟧ b.vtable).kind_of b.value)
        attempt.old.checkers.items attempt.new.checkers.items }
    ensures extends { Extends (naming tables.old) (naming tables.new) }
    ensures work { HasEveryKind (λ b. (⟦<dyn Checker as Checker>⟧ b.vtable).kind_of b.value)
        attempt.old.checkers.items
        → DoesWork context.now.setting.now.program.now.model (naming tables.new) state.old
        state.new attempt.old.progress attempt.new.progress result operation.now.place
        (view.work operation.now.work) }
{
    match &operation.work {
        Work::Number(number) => push_number(state, *number),
        Work::Null => push(state, Value::Null),
        Work::Text(literal) => name(state, tables, Base::Literal(*literal)),
        Work::Global(global) => name(state, tables, Base::Global(*global)),
        Work::Local(decl) => name_local(state, tables, *decl),
        Work::Nothing => push_nothing(state),
        Work::Drop => drop_operand(state),
        Work::Meet(_) => Ok(()),
        Work::Close(nothing) => close(state, *nothing),
        Work::Clear(decl, _) => clear(state, tables, *decl),
        Work::Zero(decl) => zero(state, tables, *decl),
        Work::Use => use_result(state, attempt, operation.place),
        _ => compute(context, state, tables, attempt, operation),
    }
}

// Executes an operation that computes, or accesses memory.
fn compute(
    context: &Context,
    state: &mut State,
    tables: &mut Tables,
    attempt: &mut Attempt,
    operation: &Operation,
) -> Result<(), Pause>
    requires { IsReady context.now.setting.now }
    ensures kinds { KeepKinds (λ b. (⟦<dyn Checker as Checker>⟧ b.vtable).kind_of b.value)
        attempt.old.checkers.items attempt.new.checkers.items }
    ensures extends { Extends (naming tables.old) (naming tables.new) }
    ensures work { HasEveryKind (λ b. (⟦<dyn Checker as Checker>⟧ b.vtable).kind_of b.value)
        attempt.old.checkers.items
        → DoesWork context.now.setting.now.program.now.model (naming tables.new) state.old
        state.new attempt.old.progress attempt.new.progress result operation.now.place
        (view.work operation.now.work) }
{
    let at = operation.place;
    match &operation.work {
        Work::Sum(bytes, direction, order) => {
            add(context, state, attempt, at, *bytes, *direction, *order)
        }
        Work::Member(offset) => member(state, *offset),
        Work::Arrow(offset) => member_through(state, attempt, at, *offset),
        Work::Unary(operator, ty) => unary(state, &mut attempt.progress, at, *operator, *ty),
        Work::Not => negate(state, &mut attempt.progress, at),
        Work::Judge => judge(state, &mut attempt.progress, at),
        Work::Binary(operator, ty) => binary(context, state, attempt, at, *operator, *ty),
        Work::Compare(operator) => compare_operands(state, attempt, at, *operator),
        Work::Difference(bytes) => subtract(state, attempt, at, *bytes),
        Work::Convert(from, to) => convert(context, state, &mut attempt.progress, at, from, to),
        _ => access(context, state, tables, attempt, operation),
    }
}

// Executes an operation that accesses memory.
fn access(
    context: &Context,
    state: &mut State,
    tables: &mut Tables,
    attempt: &mut Attempt,
    operation: &Operation,
) -> Result<(), Pause>
    requires { IsReady context.now.setting.now }
    ensures kinds { KeepKinds (λ b. (⟦<dyn Checker as Checker>⟧ b.vtable).kind_of b.value)
        attempt.old.checkers.items attempt.new.checkers.items }
    ensures extends { Extends (naming tables.old) (naming tables.new) }
    ensures work { HasEveryKind (λ b. (⟦<dyn Checker as Checker>⟧ b.vtable).kind_of b.value)
        attempt.old.checkers.items
        → DoesWork context.now.setting.now.program.now.model (naming tables.new) state.old
        state.new attempt.old.progress attempt.new.progress result operation.now.place
        (view.work operation.now.work) }
{
    let at = operation.place;
    match &operation.work {
        Work::Load(access) => load_in_place(context, state, tables, attempt, access),
        Work::FetchPointer(access) => fetch(context, state, tables, attempt, access),
        Work::FetchNumber(access, ty) => {
            fetch_number(context, state, tables, attempt, (at, *ty), access)
        }
        Work::Store(access) => assign(context, state, tables, attempt, access),
        Work::Update(operator, access, ty, gives) => {
            let how = (*operator, *ty, *gives);
            update(context, state, tables, attempt, at, access, how)
        }
        Work::Move(access, bytes, direction, gives) => {
            let how = (*bytes, *direction, *gives);
            move_pointer(context, state, tables, attempt, at, access, how)
        }
        Work::Allocate(allocator, element) => {
            allocate(context, state, tables, attempt, at, *allocator, element)
        }
        Work::Free => release(context, state, tables, attempt, at),
        _ => set_local(context, state, tables, &operation.work),
    }
}

// Executes an operation that sets a part of a local.
fn set_local(
    context: &Context,
    state: &mut State,
    tables: &mut Tables,
    work: &Work,
) -> Result<(), Pause>
    requires { IsReady context.now.setting.now }
    ensures extends { Extends (naming tables.old) (naming tables.new) }
    ensures work { (at : Place) (progress : Progress)
        → DoesWork context.now.setting.now.program.now.model (naming tables.new) state.old
        state.new progress progress result at (view.work work.now) }
{
    match work {
        Work::StoreLocal(decl, offset, ty, _) => {
            initialize(context, state, tables, *decl, *offset, ty)
        }
        Work::Spell(decl, offset, bytes) => {
            let base = tables.base(local(state, *decl))?;
            spell(context, state, tables, base, *offset, bytes.as_bytes())
        }
        _ => Err(Pause::Memory),
    }
}

// Replaces a place by the value of the object there.
fn load_in_place(
    context: &Context,
    state: &mut State,
    tables: &mut Tables,
    attempt: &mut Attempt,
    access: &Access,
) -> Result<(), Pause>
    requires { IsReady context.now.setting.now }
    ensures kinds { KeepKinds (λ b. (⟦<dyn Checker as Checker>⟧ b.vtable).kind_of b.value)
        attempt.old.checkers.items attempt.new.checkers.items }
    ensures extends { Extends (naming tables.old) (naming tables.new) }
    ensures work { HasEveryKind (λ b. (⟦<dyn Checker as Checker>⟧ b.vtable).kind_of b.value)
        attempt.old.checkers.items
        → (at : Place) → DoesWork context.now.setting.now.program.now.model (naming tables.new)
        state.old state.new attempt.old.progress attempt.new.progress result at
        (graph.Load (view.access access.now)) }
{
    let place = value(state, 0)?;
    let loaded = load(context, state, tables, attempt, access, place)?;
    replace(state, 1, loaded)
}

// Pushes the value of the object at a place, and keeps the place.
fn fetch(
    context: &Context,
    state: &mut State,
    tables: &mut Tables,
    attempt: &mut Attempt,
    access: &Access,
) -> Result<(), Pause>
    requires { IsReady context.now.setting.now }
    ensures kinds { KeepKinds (λ b. (⟦<dyn Checker as Checker>⟧ b.vtable).kind_of b.value)
        attempt.old.checkers.items attempt.new.checkers.items }
    ensures extends { Extends (naming tables.old) (naming tables.new) }
{
    let place = value(state, 0)?;
    let loaded = load(context, state, tables, attempt, access, place)?;
    state.push(loaded)?;
    Ok(())
}

// Assigns to an object; the value assigned is also the result.
fn assign(
    context: &Context,
    state: &mut State,
    tables: &mut Tables,
    attempt: &mut Attempt,
    access: &Access,
) -> Result<(), Pause>
    requires { IsReady context.now.setting.now }
    ensures kinds { KeepKinds (λ b. (⟦<dyn Checker as Checker>⟧ b.vtable).kind_of b.value)
        attempt.old.checkers.items attempt.new.checkers.items }
    ensures extends { Extends (naming tables.old) (naming tables.new) }
    ensures work { HasEveryKind (λ b. (⟦<dyn Checker as Checker>⟧ b.vtable).kind_of b.value)
        attempt.old.checkers.items
        → (at : Place)
        → DoesWork context.now.setting.now.program.now.model (naming tables.new) state.old
        state.new
        attempt.old.progress attempt.new.progress result at (graph.Store (view.access access.now)) }
{
    let place = value(state, 1)?;
    let stored = operand(state, 0)?.clone()?;
    let left = stored.clone()?;
    store(context, state, tables, attempt, access, place, stored)?;
    replace(state, 2, left)
}

// Initializes a part of a local.
fn initialize(
    context: &Context,
    state: &mut State,
    tables: &mut Tables,
    decl: u32,
    offset: u64,
    ty: &CType,
) -> Result<(), Pause>
    requires { IsReady context.now.setting.now }
    ensures extends { Extends (naming tables.old) (naming tables.new) }
    ensures work { (at : Place) (scalar : Bool) (progress : Progress)
        → DoesWork context.now.setting.now.program.now.model (naming tables.new) state.old
        state.new
        progress progress result at (graph.StoreLocal decl offset (shape_of ty.now) scalar) }
{
    let stored = operand(state, 0)?.clone()?;
    let base = tables.base(local(state, decl))?;
    write(context, state, ty, Reached { base, offset }, stored)?;
    drop_newest(state, 1)
}

// Pushes a number.
fn push_number(state: &mut State, number: i128) -> Result<(), Pause>
    ensures { (model : DataModel) (given : Naming) (at : Place) (progress : Progress)
        → DoesWork model given state.old state.new progress progress result at
        (graph.Number number) }
{
    push(state, Value::Number(constant(number)))
}

// Pushes an operand without a value.
fn push_nothing(state: &mut State) -> Result<(), Pause>
    ensures { (model : DataModel) (given : Naming) (at : Place) (progress : Progress)
        → DoesWork model given state.old state.new progress progress result at graph.Nothing }
{
    push_operand(state, Temporary::Nothing)
}

// Drops the newest operand.
fn drop_operand(state: &mut State) -> Result<(), Pause>
    ensures { (model : DataModel) (given : Naming) (at : Place) (progress : Progress)
        → DoesWork model given state.old state.new progress progress result at graph.Drop }
{
    drop_newest(state, 1)
}

// The end of a function's body returns no value, or a value that was never set (C11 6.9.1, paragraph 12).
fn close(state: &mut State, nothing: bool) -> Result<(), Pause>
    ensures { (model : DataModel) (given : Naming) (at : Place) (progress : Progress)
        → DoesWork model given state.old state.new progress progress result at
        (graph.Close nothing) }
{
    if nothing {
        push_operand(state, Temporary::Nothing)
    } else {
        push(state, Value::Unset)
    }
}

// Pushes a scalar.
fn push(state: &mut State, value: Value) -> Result<(), Pause>
    ensures pushed { OnOk result (IsPushed (Scalar value) state.old state.new) }
    ensures means { OnOk result (MeansPushed (Scalar value) state.old state.new) }
    ensures memory { IfErr result (λ why. why ≡ pause.Memory) }
{
    push_operand(state, Temporary::Scalar(value))
}

// Pushes an operand.
fn push_operand(state: &mut State, operand: Temporary) -> Result<(), Pause>
    ensures pushed { OnOk result (IsPushed operand state.old state.new) }
    ensures means { OnOk result (MeansPushed operand state.old state.new) }
    ensures memory { IfErr result (λ why. why ≡ pause.Memory) }
{
    state.push(operand)?;
    Ok(())
}

// Pushes the place of an object.
fn name(state: &mut State, tables: &mut Tables, base: Base) -> Result<(), Pause>
    ensures extends { Extends (naming tables.old) (naming tables.new) }
    ensures pushed { OnOk result
        (IsPlacePushed (naming tables.new).bases base state.old state.new) }
    ensures memory { IfErr result (λ why. why ≡ pause.Memory) }
{
    let base = tables.base(base)?;
    push(state, Value::At(base, constant(0)))
}

// Pushes the place of a local of the current frame.
fn name_local(state: &mut State, tables: &mut Tables, decl: u32) -> Result<(), Pause>
    ensures extends { Extends (naming tables.old) (naming tables.new) }
    ensures work { (model : DataModel) (at : Place) (progress : Progress)
        → DoesWork model (naming tables.new) state.old state.new progress progress result at
        (graph.Local decl) }
{
    let base = local(state, decl);
    name(state, tables, base)
}

// The base region of a local of the current frame.
fn local(state: &State, decl: u32) -> Base
    ensures { result ≡ Base.Local state.now.frame.number decl }
{
    Base::Local {
        frame: state.frame.number,
        decl,
    }
}

// Makes a local unset.
fn clear(state: &mut State, tables: &mut Tables, decl: u32) -> Result<(), Pause>
    ensures extends { Extends (naming tables.old) (naming tables.new) }
    ensures work { (model : DataModel) (at : Place) (scalar : Bool) (progress : Progress)
        → DoesWork model (naming tables.new) state.old state.new
        progress progress result at (graph.Clear decl scalar) }
{
    let base = tables.base(local(state, decl))?;
    state.unbind(&[base])?;
    Ok(())
}

// Makes a local zero.
fn zero(state: &mut State, tables: &mut Tables, decl: u32) -> Result<(), Pause>
    ensures { Extends (naming tables.old) (naming tables.new) }
{
    let base = tables.base(local(state, decl))?;
    state.fill(base, Fill::Zero)?;
    Ok(())
}
