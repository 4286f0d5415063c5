//! Updates of objects in place (C11 6.5.2.4, 6.5.16.2).
ghost use Rattle.std.specs.Prelude.{◌≡◌, ℕ, Bool, List, OnOk, IfOk, IfErr};
ghost use Rattle.cs_types.specs.Shape.{shape_of};
ghost use Rattle.cs_ast.specs.TypedProgram.{TypedProgram};
ghost use Rattle.cs_terms.specs.Term as term;
ghost use Rattle.cs_meaning.specs.Types as types;
ghost use Rattle.cs_cfg.specs.Graph as graph;
ghost use Rattle.cs_cfg.specs.Graph.{Code};
ghost use Rattle.cs_cfg.specs.GraphView as view;
ghost use Rattle.cs_objects.specs.Prepared.{IsReady};
ghost use Rattle.cs_regions.specs.declared.base.Base.{Base};
ghost use Rattle.cs_state.specs.declared.temporary.Temporary.TheVariants.{Scalar};
ghost use Rattle.cs_state.specs.Cells.{operand_of};
ghost use Rattle.cs_state.specs.Meaning.{meaning};
ghost use Rattle.cs_state.specs.Naming.{Naming, naming, Extends};
ghost use Rattle.cs_progress.specs.declared.pause.Pause.TheVariants as pause;
ghost use Rattle.cs_progress.specs.Acting.{CarriesOut};
ghost use Rattle.cs_progress.specs.Locals.{IsOverKnown, MayBeIn, MayAllBeIn};
ghost use Rattle.cs_progress.specs.Stepping.{DoesWork, StaysInFrame, KeepsLocals, WaitsUnchanged};
ghost use Rattle.cs_operators.specs.Asking.{KeepKinds, HasEveryKind};
ghost use Rattle.cs_steps.specs.Fetching.{ArePushed, MeanPushed, converts_beside, Fetches};
ghost use Rattle.cs_steps.specs.Updating.{update_part, IsGiven};

use crate::access::{load, store};
use cs_ast::Place;
use cs_ast::typed::operator::{BinOp, Direction, Gives};
use cs_cfg::Access;
use cs_checker::Checker;
use cs_operators::Attempt;
use cs_operators::operators::{convert_number, directed, operate, sum};
use cs_progress::operands::{number, number_in, operand, replace, value, value_of};
use cs_progress::{Context, Pause, Progress};
use cs_state::{State, Tables, Temporary};
use cs_store::Value;
use cs_terms::Lin;
use cs_types::{CType, DataModel, IntType};
use cs_values::constants::integer_of;
use std::alloc::AllocError;

/// Loads the number that an update changes, and converts it to the type of the operator.
pub fn fetch_number(
    context: &Context,
    state: &mut State,
    tables: &mut Tables,
    attempt: &mut Attempt,
    how: (Place, IntType),
    access: &Access,
) -> Result<(), Pause>
    requires { IsReady context.now.setting.now }
    ensures kinds { KeepKinds (λ b. (⟦<dyn Checker as Checker>⟧ b.vtable).kind_of b.value)
        attempt.old.checkers.items attempt.new.checkers.items }
    ensures extends { Extends (naming tables.old) (naming tables.new) }
    ensures work { HasEveryKind (λ b. (⟦<dyn Checker as Checker>⟧ b.vtable).kind_of b.value)
        attempt.old.checkers.items
        → DoesWork context.now.setting.now.program.now.model (naming tables.new) state.old
        state.new
        attempt.old.progress attempt.new.progress result how.0
        (graph.FetchNumber (view.access access.now) how.1) }
{
    let (at, ty) = how;
    let place = value(state, 0)?;
    let loaded = load(context, state, tables, attempt, access, place)?;
    let types = (&access.ty, ty);
    push_converted(
        context.model(),
        state,
        &mut attempt.progress,
        at,
        types,
        loaded,
    )
}

// Pushes what was loaded, and then its number in another type.
fn push_converted(
    model: DataModel,
    state: &mut State,
    progress: &mut Progress,
    at: Place,
    types: (&CType, IntType),
    loaded: Temporary,
) -> Result<(), Pause>
    ensures act { (code : Code) (names : Naming) (program : TypedProgram)
        → Fetches code names program state.old state.new progress.old progress.new result
        (λ valuation. converts_beside model at (shape_of types.entry.0.now) types.entry.1
        (operand_of names.bases state.old.blocks valuation loaded)) }
    ensures frame { OnOk result (StaysInFrame state.old state.new) }
    ensures locals { OnOk result (MayAllBeIn state.old loaded
        → (program : TypedProgram) (bases : List Base) (known : ℕ → Bool)
        → KeepsLocals program bases known state.old state.new) }
    ensures unchanged { WaitsUnchanged state.old state.new result }
{
    let before = number_in(state, value_of(&loaded))?;
    let after = convert_number(model, state, progress, at, types, before)?;
    push_both(state, loaded, Value::Number(after))
}

// Pushes two operands.
fn push_both(state: &mut State, first: Temporary, second: Value) -> Result<(), Pause>
    ensures pushed { OnOk result (ArePushed first (Scalar second) state.old state.new) }
    ensures means { OnOk result (MeanPushed first (Scalar second) state.old state.new) }
    ensures memory { IfErr result (λ why. why ≡ pause.Memory) }
{
    state.push(first)?;
    state.push(Temporary::Scalar(second))?;
    Ok(())
}

/// Updates a number: the operands are the place, the value before, the same in the type of the operator, and the right operand.
pub fn update(
    context: &Context,
    state: &mut State,
    tables: &mut Tables,
    attempt: &mut Attempt,
    at: Place,
    access: &Access,
    how: (BinOp, IntType, Gives),
) -> Result<(), Pause>
    requires { IsReady context.now.setting.now }
    ensures kinds { KeepKinds (λ b. (⟦<dyn Checker as Checker>⟧ b.vtable).kind_of b.value)
        attempt.old.checkers.items attempt.new.checkers.items }
    ensures extends { Extends (naming tables.old) (naming tables.new) }
    ensures work { HasEveryKind (λ b. (⟦<dyn Checker as Checker>⟧ b.vtable).kind_of b.value)
        attempt.old.checkers.items
        → DoesWork context.now.setting.now.program.now.model (naming tables.new) state.old
        state.new
        attempt.old.progress attempt.new.progress result at
        (graph.Update how.0 (view.access access.now) how.1 how.2) }
{
    let (operator, ty, gives) = how;
    let stored = updated(context, state, attempt, at, (operator, ty), &access.ty)?;
    let stored = Value::Number(stored);
    let left = given(state, gives, 2, stored)?;
    let place = value(state, 3)?;
    store(
        context,
        state,
        tables,
        attempt,
        access,
        place,
        Temporary::Scalar(stored),
    )?;
    replace(state, 4, left)
}

// The number that an update stores in an object of a type: the result of the operator, converted.
fn updated(
    context: &Context,
    state: &State,
    attempt: &mut Attempt,
    at: Place,
    how: (BinOp, IntType),
    object: &CType,
) -> Result<Lin, Pause>
    requires { IsReady context.now.setting.now }
    ensures kinds { KeepKinds (λ b. (⟦<dyn Checker as Checker>⟧ b.vtable).kind_of b.value)
        attempt.old.checkers.items attempt.new.checkers.items }
    ensures act { HasEveryKind (λ b. (⟦<dyn Checker as Checker>⟧ b.vtable).kind_of b.value)
        attempt.old.checkers.items → (code : Code) (names : Naming) (program : TypedProgram)
        → CarriesOut names.bases state.now attempt.old.progress attempt.new.progress result
        (update_part context.now.setting.now.program.now.model at how.0 how.1
        (types.integer_of (shape_of object.now)) (meaning code names program state.now))
        (λ made valuation. term.value_of valuation made) }
    ensures over { IfOk result (IsOverKnown state.now) }
{
    let (operator, ty) = how;
    let model = context.model();
    let operands = (number(state, 1)?, number(state, 0)?);
    let result = operate(model, state, attempt, at, operator, ty, operands)?;
    let from = CType::Int(ty);
    let types = (&from, integer_of(object));
    convert_number(model, state, &mut attempt.progress, at, types, result)
}

/// Stores a moved pointer: the operands are the place, the value before, and the number of elements, each of `how.0` bytes.
pub fn move_pointer(
    context: &Context,
    state: &mut State,
    tables: &mut Tables,
    attempt: &mut Attempt,
    at: Place,
    access: &Access,
    how: (u64, Direction, Gives),
) -> Result<(), Pause>
    requires { IsReady context.now.setting.now }
    ensures kinds { KeepKinds (λ b. (⟦<dyn Checker as Checker>⟧ b.vtable).kind_of b.value)
        attempt.old.checkers.items attempt.new.checkers.items }
    ensures extends { Extends (naming tables.old) (naming tables.new) }
{
    let (bytes, direction, gives) = how;
    let amount = directed(direction, number(state, 0)?)?;
    let before = value(state, 1)?;
    let moved = sum(context, state, attempt, at, before, amount, bytes)?;
    let left = given(state, gives, 1, moved)?;
    let place = value(state, 2)?;
    store(
        context,
        state,
        tables,
        attempt,
        access,
        place,
        Temporary::Scalar(moved),
    )?;
    replace(state, 3, left)
}

// The result of an update: the operand of this age, which is the value before, or the value after it.
fn given(state: &State, gives: Gives, age: usize, after: Value) -> Result<Temporary, AllocError>
    ensures operand { IfOk result (IsGiven state.now gives age (Scalar after)) }
    ensures inside { IfOk result (λ left. MayBeIn state.now after → MayAllBeIn state.now left) }
{
    match gives {
        Gives::Old => Ok(operand(state, age)?.clone()?),
        Gives::New => Ok(Temporary::Scalar(after)),
    }
}
