//! The contents of cells: what was bound, else what fills their object.
ghost use Rattle.cs_objects.specs.Prepared.{IsReady};
ghost use Rattle.std.specs.Prelude.{◌≡◌, ℕ, IfOk, IfErr};
ghost use Rattle.cs_ranges.specs.RangeSet.{IsInhabited};
ghost use Rattle.cs_store.specs.Held.{held};
ghost use Rattle.cs_state.specs.Naming.{Naming, naming, Extends};
ghost use Rattle.cs_progress.specs.declared.pause.Pause.TheVariants as pause;
ghost use Rattle.cs_progress.specs.Locals.{IsLocalOf, IsUnfilled, value_held};

use crate::objects::{Known, object};
use cs_events::numbers_of;
use cs_inputs::{Path, Root};
use cs_model::Standing;
use cs_objects::blocks::{self, BlockType};
use cs_objects::pieces::zero_of;
use cs_progress::terms::{constant, own};
use cs_progress::{Context, Pause};
use cs_ranges::{GREATEST, LEAST, RangeSet};
use cs_regions::Base;
use cs_state::{Block, State, Tables};
use cs_store::{Binding, Fill, Value};
use cs_terms::{Sym, SymName};
use cs_types::{CType, IntType, start_extent};
use cs_values::paths::root_path;
use cs_values::{Cell as FirstCell, Object};
use std::alloc::{AllocError, Global};

// The contents of a cell: a value, or an input that isn't looked up yet, by its path.
enum Contents {
    Here(Value),
    /// The value of a constant initializer.
    First(FirstCell),
    Input(Path),
}

/// The result of reading a cell: a value, or an input, whose symbol the state may not have yet.
#[derive(Clone, Copy)]
pub enum Cell {
    Known(Value),
    Received(Input),
}

/// An input: its symbol, the least and the greatest number that it may have, and its value.
#[derive(Clone, Copy)]
pub struct Input {
    pub sym: Sym,
    pub least: i128,
    pub greatest: i128,
    pub value: Value,
}

/// Returns the value of the scalar that begins at an offset of an object, and notes an input as read.
pub fn read(
    context: &Context,
    state: &mut State,
    tables: &mut Tables,
    base: u64,
    offset: u64,
) -> Result<Value, Pause>
    requires { IsReady context.now.setting.now }
    ensures local { IfOk result (λ value. (names : Naming) (frame count : ℕ)
        → Extends (naming tables.old) names → IsLocalOf names.bases frame count base
        → IsUnfilled state.old.store base offset
        → (value ≡ value_held (held state.old.store base offset))
        × (state.new ≡ state.old)) }
    ensures memory { IfErr result (λ why. why ≡ pause.Memory) }
    ensures extends { Extends (naming tables.old) (naming tables.new) }
{
    match look_up(context, state, tables, base, offset)? {
        Cell::Known(value) => Ok(value),
        Cell::Received(input) => {
            declare(context.alloc, state, input.sym, input.least, input.greatest)?;
            state.read_cell(base, offset, input.sym)?;
            Ok(input.value)
        }
    }
}

/// Returns the scalar that begins at an offset of an object. An input isn't declared, and its cell isn't noted as read.
pub fn look_up(
    context: &Context,
    state: &mut State,
    tables: &mut Tables,
    base: u64,
    offset: u64,
) -> Result<Cell, Pause>
    requires { IsReady context.now.setting.now }
    ensures local { IfOk result (λ cell. (names : Naming) (frame count : ℕ)
        → Extends (naming tables.old) names → IsLocalOf names.bases frame count base
        → IsUnfilled state.old.store base offset
        → (cell ≡ Cell.Known (value_held (held state.old.store base offset)))
        × (state.new ≡ state.old)) }
    ensures memory { IfErr result (λ why. why ≡ pause.Memory) }
    ensures extends { Extends (naming tables.old) (naming tables.new) }
{
    let found = found(context, state, tables, base, offset)?;
    match found {
        Contents::Here(value) => Ok(Cell::Known(value)),
        Contents::First(cell) => Ok(Cell::Known(static_value(tables, cell)?)),
        Contents::Input(path) => {
            let kind = scalar_kind(context, state, tables, base, offset)?;
            match input_at(context, state, tables, path, kind)? {
                Some(input) => Ok(Cell::Received(input)),
                None => Ok(Cell::Known(Value::Unset)),
            }
        }
    }
}

// The contents at an offset of an object.
fn found(
    context: &Context,
    state: &State,
    tables: &Tables,
    base: u64,
    offset: u64,
) -> Result<Contents, AllocError>
    requires { IsReady context.now.setting.now }
    ensures { IfOk result (λ contents. (names : Naming) (frame count : ℕ)
        → Extends (naming tables.now) names → IsLocalOf names.bases frame count base
        → IsUnfilled state.now.store base offset
        → contents ≡ Contents.Here (value_held (held state.now.store base offset))) }
{
    match state.store.load(base, offset) {
        Binding::Direct(value) => Ok(Contents::Here(value)),
        Binding::Fill(fill) => unbound(context, state, tables, base, offset, fill),
    }
}

// The contents of an object that was filled, where nothing was bound since.
fn unbound(
    context: &Context,
    state: &State,
    tables: &Tables,
    base: u64,
    offset: u64,
    fill: Fill,
) -> Result<Contents, AllocError>
    requires { IsReady context.now.setting.now }
    ensures { IfOk result (λ contents. (names : Naming) (frame count : ℕ)
        → Extends (naming tables.now) names → IsLocalOf names.bases frame count base
        → fill ≡ Fill.Unset → contents ≡ Contents.Here Value.Unset) }
{
    match fill {
        Fill::Zero => {
            let known = object(context, state, tables, base)?;
            let scalar = known.scalar(context, offset)?;
            Ok(Contents::Here(zero(scalar)))
        }
        Fill::Wrote(call, argument) => {
            let root = Root::Wrote(call, argument);
            Ok(Contents::Input(cell_path(root_path(context.alloc, root), offset)?))
        }
        Fill::Unset | Fill::Input => unwritten(context, state, tables, base, offset),
    }
}

// The contents of an object to which nothing was written.
fn unwritten(
    context: &Context,
    state: &State,
    tables: &Tables,
    base: u64,
    offset: u64,
) -> Result<Contents, AllocError>
    requires { IsReady context.now.setting.now }
    ensures { IfOk result (λ contents. (names : Naming) (frame count : ℕ)
        → Extends (naming tables.now) names → IsLocalOf names.bases frame count base
        → contents ≡ Contents.Here Value.Unset) }
{
    match tables.bases.base(base).ok_or(AllocError)? {
        Base::Entry(path) => Ok(Contents::Input(cell_path(path.copy()?, offset)?)),
        Base::Global(global) => {
            let block = context
                .setting
                .prepared
                .globals
                .get(*global as usize)
                .ok_or(AllocError)?;
            filled(context, state, tables, base, offset, block)
        }
        Base::Literal(literal) => {
            let block = context
                .setting
                .prepared
                .literals
                .get(*literal as usize)
                .ok_or(AllocError)?;
            filled(context, state, tables, base, offset, block)
        }
        Base::Local { .. } => Ok(Contents::Here(Value::Unset)),
        Base::Heap(_) => Ok(Contents::Here(Value::Unset)),
    }
}

// The initial contents of a static object.
fn filled(
    context: &Context,
    state: &State,
    tables: &Tables,
    base: u64,
    offset: u64,
    block: &blocks::Block,
) -> Result<Contents, AllocError>
    requires { IsReady context.now.setting.now }
{
    match &block.fill {
        blocks::Fill::Unset => Ok(Contents::Here(Value::Unset)),
        blocks::Fill::Input(root) => Ok(Contents::Input(cell_path(root.copy()?, offset)?)),
        blocks::Fill::Zero => {
            let known = object(context, state, tables, base)?;
            Ok(Contents::Here(zero(known.scalar(context, offset)?)))
        }
        blocks::Fill::Initial(first) => {
            let known = object(context, state, tables, base)?;
            let scalar = known.scalar(context, offset)?;
            Ok(Contents::First(context.first_cell(first, scalar, offset)?))
        }
    }
}

// The value of a cell of a static object.
fn static_value(tables: &mut Tables, cell: FirstCell) -> Result<Value, AllocError>
    ensures { Extends (naming tables.old) (naming tables.new) }
{
    match cell {
        FirstCell::Number(number) => Ok(Value::Number(constant(number))),
        FirstCell::Null => Ok(Value::Null),
        FirstCell::Unset => Ok(Value::Unset),
        FirstCell::Pointer(object, offset) => {
            let base = tables.base(base_of(object)?)?;
            Ok(Value::At(base, constant(offset)))
        }
    }
}

// The base region of an object.
fn base_of(object: Object) -> Result<Base, AllocError> {
    match object {
        Object::Start(path) => Ok(Base::Entry(path)),
        Object::Global(global) => Ok(Base::Global(global)),
        Object::Literal(literal) => Ok(Base::Literal(literal)),
        Object::Local(frame, decl) => Ok(Base::Local { frame, decl }),
        Object::Heap(allocation) => Ok(Base::Heap(allocation)),
    }
}

// The zero of a scalar.
fn zero(scalar: BlockType) -> Value {
    match zero_of(scalar) {
        FirstCell::Null => Value::Null,
        _ => Value::Number(constant(0)),
    }
}

// The path of a cell, from the path of its object and its offset.
fn cell_path(mut path: Path, offset: u64) -> Result<Path, AllocError> {
    path.cells.push(offset)?;
    Ok(path)
}

/// The kind of value of a scalar's input.
pub enum Kind {
    Integer(IntType),
    /// A pointer to elements of a type, each of this size in bytes.
    Pointer(CType, u64),
    Nothing,
}

// The kind of value of the input of the scalar at an offset.
fn scalar_kind(
    context: &Context,
    state: &State,
    tables: &Tables,
    base: u64,
    offset: u64,
) -> Result<Kind, AllocError>
    requires { IsReady context.now.setting.now }
{
    let known: Known = object(context, state, tables, base)?;
    match known.scalar(context, offset)? {
        BlockType::Integer(ty) => Ok(Kind::Integer(ty)),
        BlockType::Of(ty) => kind_of(context, ty),
        BlockType::Text(_) | BlockType::Void => Ok(Kind::Nothing),
    }
}

/// Returns the kind of value of an input of a type.
pub fn kind_of(context: &Context, ty: &CType) -> Result<Kind, AllocError>
    requires { IsReady context.now.setting.now }
{
    match ty {
        CType::Int(ty) => Ok(Kind::Integer(*ty)),
        CType::Pointer(target) => {
            let size = context.element_size(target)?;
            Ok(Kind::Pointer(target.copy(context.alloc)?, size))
        }
        CType::Void | CType::Array(_, _) | CType::Struct(_) => Ok(Kind::Nothing),
    }
}

/// Returns the value of the input at a path, and declares its symbol.
pub fn received(
    context: &Context,
    state: &mut State,
    tables: &mut Tables,
    path: Path,
    kind: Kind,
) -> Result<Value, Pause>
    requires { IsReady context.now.setting.now }
    ensures memory { IfErr result (λ why. why ≡ pause.Memory) }
    ensures extends { Extends (naming tables.old) (naming tables.new) }
{
    let Some(input) = input_at(context, state, tables, path, kind)? else {
        return Ok(Value::Unset);
    };
    declare(context.alloc, state, input.sym, input.least, input.greatest)?;
    Ok(input.value)
}

// The input at a path: an integer is any number of its type; a pointer is null, or points to its own block. Anything else is never set.
fn input_at(
    context: &Context,
    state: &mut State,
    tables: &mut Tables,
    path: Path,
    kind: Kind,
) -> Result<Option<Input>, Pause>
    requires { IsReady context.now.setting.now }
    ensures memory { IfErr result (λ why. why ≡ pause.Memory) }
    ensures extends { Extends (naming tables.old) (naming tables.new) }
{
    match kind {
        Kind::Nothing => Ok(None),
        Kind::Integer(ty) => {
            let sym = tables.sym(SymName::Input(path))?;
            let (least, greatest) = numbers_of(context.model(), ty);
            Ok(Some(Input {
                sym,
                least,
                greatest,
                value: Value::Number(own(sym)),
            }))
        }
        Kind::Pointer(target, size) => {
            let sym = tables.sym(SymName::Input(path.copy()?))?;
            let base = tables.base(Base::Entry(path))?;
            if state.blocks.get((base, 0)).is_none() {
                let block = start_block(context, tables, &target, size, sym)?;
                state.set_block(base, block)?;
            }
            Ok(Some(Input {
                sym,
                least: 0,
                greatest: 1,
                value: Value::Start(base, 0),
            }))
        }
    }
}

// Declares a symbol with the numbers from `least` to `greatest`, unless it is declared already.
pub fn declare(
    alloc: Global,
    state: &mut State,
    sym: Sym,
    least: i128,
    greatest: i128,
) -> Result<(), AllocError> {
    if state.constraints.range_of(sym).is_some() {
        return Ok(());
    }
    let numbers = interval(alloc, least, greatest)?;
    state.declare(sym, numbers)?;
    Ok(())
}

/// Returns the numbers from `least` to `greatest`. There has to be one, and they have to be within the bounds of sets.
pub fn interval(alloc: Global, least: i128, greatest: i128) -> Result<RangeSet, AllocError>
    ensures { IfOk result (λ set. IsInhabited set) }
{
    if least < LEAST || greatest > GREATEST || least > greatest {
        return Err(AllocError);
    }
    RangeSet::of(alloc, least, greatest)
}

// The start block to which an unknown pointer points.
fn start_block(
    context: &Context,
    tables: &mut Tables,
    target: &CType,
    size: u64,
    sym: Sym,
) -> Result<Block, AllocError>
    requires { IsReady context.now.setting.now }
    ensures { Extends (naming tables.old) (naming tables.new) }
{
    if size > 1 << 20 {
        return Err(AllocError);
    }
    let bytes = start_extent(context.model(), size);
    Ok(Block {
        extent: constant(i128::from(bytes)),
        standing: Standing::Live,
        element: tables.element(target)?,
        sym,
        made_by: 0,
    })
}
