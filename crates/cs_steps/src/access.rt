//! Loads and stores (C11 6.3.2.1, 6.5.16).
ghost use Rattle.std.specs.Prelude.{◌≡◌, true, ℕ, Bool, List, OnOk, IfOk, IfErr};
ghost use Rattle.cs_types.specs.Shape.{shape_of};
ghost use Rattle.cs_ast.specs.TypedProgram.{TypedProgram};
ghost use Rattle.cs_cfg.specs.GraphView as view;
ghost use Rattle.cs_regions.specs.declared.base.Base.{Base};
ghost use Rattle.cs_regions.specs.Numbering.{IsNumbered};
ghost use Rattle.cs_objects.specs.Prepared.{IsReady};
ghost use Rattle.cs_state.specs.Naming.{Naming, naming, Extends};
ghost use Rattle.cs_progress.specs.declared.pause.Pause.TheVariants as pause;
ghost use Rattle.cs_progress.specs.declared.progress.Progress.{Progress};
ghost use Rattle.cs_progress.specs.Acting.{CarriesOut, IsNamed};
ghost use Rattle.cs_cfg.specs.IntegerCode.{count_of_locals, IsOfInteger};
ghost use Rattle.cs_progress.specs.Locals.{PointsToLocal, IsLocalOf, IsIn, AreIn, HasLocalsAlone};
ghost use Rattle.cs_operators.specs.Asking.{KeepKinds, HasEveryKind};
ghost use Rattle.cs_operators.specs.Pointing.{cell_in};
ghost use Rattle.cs_steps.specs.Reaching.{reaches, cell_reached, IsByte};
ghost use Rattle.cs_steps.specs.Loading.{Loads, load_part, scalar_part};
ghost use Rattle.cs_steps.specs.Storing.{reaches_for_store, store_part, IsWritten, Stores};

use cs_ast::Place;
use cs_cells::cells::read;
use cs_cells::objects::object;
use cs_cells::structs;
use cs_cfg::Access;
use cs_checker::{Checker, Subject};
use cs_operators::Attempt;
use cs_operators::pointers::{named, not_null, ordered};
use cs_progress::pointers::look;
use cs_progress::terms::{constant, known, scaled, shifted};
use cs_progress::{Context, Pause};
use cs_state::{Scalars, State, Tables, Temporary};
use cs_store::Value;
use cs_terms::Lin;
use cs_types::CType;

/// An object that is accessed: its base region, and the offset in it.
#[derive(Clone, Copy)]
pub struct Reached {
    pub base: u64,
    pub offset: u64,
}

/// Returns the object to access, whose place has this value.
pub fn locate(
    context: &Context,
    state: &State,
    tables: &Tables,
    attempt: &mut Attempt,
    access: &Access,
    place: Value,
) -> Result<Reached, Pause>
    requires { IsReady context.now.setting.now }
    ensures kinds { KeepKinds (λ b. (⟦<dyn Checker as Checker>⟧ b.vtable).kind_of b.value)
        attempt.old.checkers.items attempt.new.checkers.items }
    ensures act { access.now.direct ≡ true → (bases : List Base) → IsNamed bases place
        → CarriesOut bases state.now attempt.old.progress attempt.new.progress result
        (λ valuation. reaches access.now.place (cell_in bases state.now place valuation))
        (cell_reached bases) }
    ensures local { IfOk result (λ reached. access.now.direct ≡ true
        → (bases : List Base) (known : ℕ → Bool) (frame count : ℕ)
        → PointsToLocal bases known frame count place
        → IsLocalOf bases frame count reached.base) }
{
    if access.direct {
        return locate_variable(state, place);
    }
    locate_through(context, state, tables, attempt, access, place)
}

// The variable, or the member of one, whose place this value is. No other kind of value is the place of a variable.
fn locate_variable(state: &State, place: Value) -> Result<Reached, Pause>
    ensures act { (bases : List Base) → IsNamed bases place → (at : Place) (progress : Progress)
        → CarriesOut bases state.now progress progress result
        (λ valuation. reaches at (cell_in bases state.now place valuation))
        (cell_reached bases) }
    ensures local { IfOk result (λ reached.
        (bases : List Base) (known : ℕ → Bool) (frame count : ℕ)
        → PointsToLocal bases known frame count place
        → IsLocalOf bases frame count reached.base) }
{
    let Value::At(base, offset) = place else {
        return Err(Pause::Memory);
    };
    let offset = byte(known(state, offset)?)?;
    Ok(Reached { base, offset })
}

// The object that a pointer points to.
fn locate_through(
    context: &Context,
    state: &State,
    tables: &Tables,
    attempt: &mut Attempt,
    access: &Access,
    place: Value,
) -> Result<Reached, Pause>
    requires { IsReady context.now.setting.now }
    ensures { KeepKinds (λ b. (⟦<dyn Checker as Checker>⟧ b.vtable).kind_of b.value)
        attempt.old.checkers.items attempt.new.checkers.items }
{
    let pointer = look(state, &mut attempt.progress, access.place, place)?;
    not_null(state, attempt, access.place, pointer)?;
    let (base, offset) = named(state, attempt, access.place, pointer)?;
    reach(context, state, tables, attempt, access, (base, offset))
}

// Checks an access to an object of a type in a base region: the region is live, the type's bytes are within it, the offset shows in an event,
// and an object of the type begins there.
fn reach(
    context: &Context,
    state: &State,
    tables: &Tables,
    attempt: &mut Attempt,
    access: &Access,
    pointer: (u64, Lin),
) -> Result<Reached, Pause>
    requires { IsReady context.now.setting.now }
    ensures { KeepKinds (λ b. (⟦<dyn Checker as Checker>⟧ b.vtable).kind_of b.value)
        attempt.old.checkers.items attempt.new.checkers.items }
{
    let (base, offset) = pointer;
    let at = access.place;
    let known = object(context, state, tables, base)?;
    let standing = known.standing;
    attempt.check(state, at, Subject::Reached { standing })?;
    let size = context.size_of(&access.ty)?;
    ordered(state, attempt, at, offset, constant(0))?;
    let room = shifted(known.extent, -i128::from(size))?;
    ordered(state, attempt, at, scaled(offset, -1)?, room)?;
    let offset = byte(attempt.progress.reach(state, at, base, offset)?)?;
    let fits = known.begins(context, &access.ty, i128::from(offset))?;
    attempt.check(state, at, Subject::Slot { fits })?;
    Ok(Reached { base, offset })
}

// The value of an offset that isn't below 0 and is a constant.
fn byte(offset: Lin) -> Result<u64, Pause>
    ensures value { IfOk result (IsByte offset) }
    ensures memory { IfErr result (λ why. why ≡ pause.Memory) }
{
    if offset.sym.is_some() {
        return Err(Pause::Memory);
    }
    u64::try_from(offset.value).map_err(|_| Pause::Memory)
}

/// Returns the loaded operand: a scalar, which is checked to be set, or the scalars of a struct, set or not.
pub fn load(
    context: &Context,
    state: &mut State,
    tables: &mut Tables,
    attempt: &mut Attempt,
    access: &Access,
    place: Value,
) -> Result<Temporary, Pause>
    requires { IsReady context.now.setting.now }
    ensures kinds { KeepKinds (λ b. (⟦<dyn Checker as Checker>⟧ b.vtable).kind_of b.value)
        attempt.old.checkers.items attempt.new.checkers.items }
    ensures extends { Extends (naming tables.old) (naming tables.new) }
    ensures integer { HasEveryKind (λ b. (⟦<dyn Checker as Checker>⟧ b.vtable).kind_of b.value)
        attempt.old.checkers.items
        → (program : TypedProgram) (names : Naming) (known : ℕ → Bool)
        → Extends (naming tables.new) names → IsNumbered names.bases
        → HasLocalsAlone program names.bases known state.old
        → IsOfInteger (view.access access.now)
        → IsIn program names.bases known state.old.frame place
        → Loads program names state.old state.new attempt.old.progress attempt.new.progress
        result (load_part program names state.old (view.access access.now) place) }
{
    let reached = locate(context, state, tables, attempt, access, place)?;
    if let CType::Struct(_) = &access.ty {
        let scalars = read_all(context, state, tables, &access.ty, reached)?;
        return Ok(Temporary::Whole(scalars));
    }
    load_scalar(context, state, tables, attempt, access.place, reached)
}

// Loads the scalar at an object, which is checked to be set.
fn load_scalar(
    context: &Context,
    state: &mut State,
    tables: &mut Tables,
    attempt: &mut Attempt,
    at: Place,
    reached: Reached,
) -> Result<Temporary, Pause>
    requires { IsReady context.now.setting.now }
    ensures kinds { KeepKinds (λ b. (⟦<dyn Checker as Checker>⟧ b.vtable).kind_of b.value)
        attempt.old.checkers.items attempt.new.checkers.items }
    ensures extends { Extends (naming tables.old) (naming tables.new) }
    ensures local { HasEveryKind (λ b. (⟦<dyn Checker as Checker>⟧ b.vtable).kind_of b.value)
        attempt.old.checkers.items
        → (program : TypedProgram) (names : Naming) (known : ℕ → Bool)
        → Extends (naming tables.new) names → IsNumbered names.bases
        → HasLocalsAlone program names.bases known state.old
        → IsLocalOf names.bases state.old.frame.number
        (count_of_locals program state.old.frame.spot.function) reached.base
        → Loads program names state.old state.new attempt.old.progress attempt.new.progress
        result (scalar_part program names state.old at reached) }
{
    let value = read(context, state, tables, reached.base, reached.offset)?;
    let unset = matches!(value, Value::Unset);
    attempt.check(state, at, Subject::Cell { unset })?;
    Ok(Temporary::Scalar(value))
}

// Loads the scalars of a struct.
fn read_all(
    context: &Context,
    state: &mut State,
    tables: &mut Tables,
    ty: &CType,
    reached: Reached,
) -> Result<Scalars, Pause>
    requires { IsReady context.now.setting.now }
    ensures { Extends (naming tables.old) (naming tables.new) }
{
    let values = structs::read_all(context, state, tables, ty, reached.base, reached.offset)?;
    Ok(Scalars::of(values)?)
}

/// Returns the object to store to, which is checked not to be constant.
pub fn locate_for_store(
    context: &Context,
    state: &State,
    tables: &Tables,
    attempt: &mut Attempt,
    access: &Access,
    place: Value,
) -> Result<Reached, Pause>
    requires { IsReady context.now.setting.now }
    ensures kinds { KeepKinds (λ b. (⟦<dyn Checker as Checker>⟧ b.vtable).kind_of b.value)
        attempt.old.checkers.items attempt.new.checkers.items }
    ensures act { HasEveryKind (λ b. (⟦<dyn Checker as Checker>⟧ b.vtable).kind_of b.value)
        attempt.old.checkers.items → access.now.direct ≡ true
        → (program : TypedProgram) (names : Naming) (known : ℕ → Bool) (frame count : ℕ)
        → Extends (naming tables.now) names → PointsToLocal names.bases known frame count place
        → CarriesOut names.bases state.now attempt.old.progress attempt.new.progress result
        (λ valuation. reaches_for_store program access.now.place
        (cell_in names.bases state.now place valuation)) (cell_reached names.bases) }
    ensures local { IfOk result (λ reached. access.now.direct ≡ true
        → (bases : List Base) (known : ℕ → Bool) (frame count : ℕ)
        → PointsToLocal bases known frame count place
        → IsLocalOf bases frame count reached.base) }
{
    let reached = locate(context, state, tables, attempt, access, place)?;
    let constant = object(context, state, tables, reached.base)?.constant;
    attempt.check(state, access.place, Subject::Written { constant })?;
    Ok(reached)
}

/// Writes an operand of a type to an object.
pub fn write(
    context: &Context,
    state: &mut State,
    ty: &CType,
    reached: Reached,
    operand: Temporary,
) -> Result<(), Pause>
    requires { IsReady context.now.setting.now }
    ensures written { OnOk result ((program : TypedProgram) (names : Naming) (known : ℕ → Bool)
        → IsNumbered names.bases → HasLocalsAlone program names.bases known state.old
        → AreIn program names.bases known state.old.frame operand
        → IsWritten program names known state.old state.new (shape_of ty.now) reached operand) }
    ensures memory { IfErr result (λ why. why ≡ pause.Memory) }
{
    match &operand {
        Temporary::Nothing => Ok(()),
        Temporary::Scalar(value) => {
            state.bind(reached.base, reached.offset, *value)?;
            Ok(())
        }
        Temporary::Whole(scalars) => write_all(context, state, ty, reached, scalars),
    }
}

// Writes the scalars of a struct.
fn write_all(
    context: &Context,
    state: &mut State,
    ty: &CType,
    reached: Reached,
    scalars: &Scalars,
) -> Result<(), Pause>
    requires { IsReady context.now.setting.now }
    ensures { IfErr result (λ why. why ≡ pause.Memory) }
{
    let offsets = context.offsets(ty)?;
    let mut leaves = Vec::with_capacity(context.alloc, scalars.as_slice().len())?;
    for (offset, value) in offsets.as_slice().iter().zip(scalars.as_slice()) {
        let at = reached.offset.checked_add(*offset).ok_or(Pause::Memory)?;
        leaves.push((at, *value))?;
    }
    state.bind_all(reached.base, &leaves)?;
    Ok(())
}

/// Stores an operand at a place (C11 6.5.16.1).
pub fn store(
    context: &Context,
    state: &mut State,
    tables: &Tables,
    attempt: &mut Attempt,
    access: &Access,
    place: Value,
    operand: Temporary,
) -> Result<(), Pause>
    requires { IsReady context.now.setting.now }
    ensures kinds { KeepKinds (λ b. (⟦<dyn Checker as Checker>⟧ b.vtable).kind_of b.value)
        attempt.old.checkers.items attempt.new.checkers.items }
    ensures integer { HasEveryKind (λ b. (⟦<dyn Checker as Checker>⟧ b.vtable).kind_of b.value)
        attempt.old.checkers.items
        → (program : TypedProgram) (names : Naming) (known : ℕ → Bool)
        → Extends (naming tables.now) names → IsNumbered names.bases
        → HasLocalsAlone program names.bases known state.old
        → IsOfInteger (view.access access.now)
        → IsIn program names.bases known state.old.frame place
        → AreIn program names.bases known state.old.frame operand → (at : Place)
        → Stores program names known state.old state.new attempt.old.progress attempt.new.progress
        result (store_part program names state.old at (view.access access.now) place operand) }
{
    let reached = locate_for_store(context, state, tables, attempt, access, place)?;
    write(context, state, &access.ty, reached, operand)
}

/// Writes the bytes of a text from an offset on, each to the scalar that begins there (C11 6.7.9, paragraph 14).
pub fn spell(
    context: &Context,
    state: &mut State,
    tables: &Tables,
    base: u64,
    from: u64,
    bytes: &[u8],
) -> Result<(), Pause>
    requires { IsReady context.now.setting.now }
{
    let model = context.model();
    for (number, byte) in bytes.iter().enumerate() {
        let at = from.checked_add(number as u64).ok_or(Pause::Memory)?;
        let scalar = object(context, state, tables, base)?.scalar(context, at)?;
        let cell = cs_objects::pieces::byte_cell(model, scalar, *byte);
        state.bind(base, at, Value::Number(constant(cell.number())))?;
    }
    Ok(())
}
