//! The operands of an operation: the newest temporaries of the current frame.
ghost use Rattle.std.specs.Prelude.{◌≡◌, ◌<◌, ℕ, Bool, length, List, IfOk, IfErr, OnOk};
ghost use Rattle.cs_regions.specs.declared.base.Base.{Base};
ghost use Rattle.cs_state.specs.declared.temporary.Temporary.TheVariants.{Scalar};
ghost use Rattle.cs_progress.specs.declared.pause.Pause.TheVariants as pause;
ghost use Rattle.cs_progress.specs.Acting.{IsNamed};
ghost use Rattle.cs_progress.specs.Computing.{IsNamedTemporary, HaveNames};
ghost use Rattle.cs_progress.specs.Locals.{PointsToLocal, PointToLocals, IsOverKnown, MayBeIn, MayAllBeIn};
ghost use Rattle.cs_progress.specs.Operands.{IsOperandAt, IsScalarOf, IsCellAt, IsNumberOf, IsNumberAt, MeansDropped, MeansReplaced, IsDropped, IsReplaced};

use crate::pause::Pause;
use crate::terms::{constant, known};
use cs_state::{State, Temporary};
use cs_store::Value;
use cs_terms::Lin;
use std::alloc::AllocError;

/// Returns the operand of an age; the newest has age 0.
pub fn operand(state: &State, age: usize) -> Result<&Temporary, AllocError>
    ensures operand { IfOk result (λ operand. IsOperandAt state.now age operand.now) }
    ensures named { IfOk result (λ operand. (bases : List Base) → HaveNames bases state.now
        → IsNamedTemporary bases operand.now) }
    ensures within { IfOk result (λ operand. MayAllBeIn state.now operand.now) }
    ensures there { OnOk result (age < length state.now.frame.temporaries) }
{
    let list = state.frame.temporaries.as_slice();
    if age >= list.len() {
        return Err(AllocError);
    }
    Ok(&list[list.len() - 1 - age])
}

/// Returns the value of an operand that is a scalar; any other counts as unset.
pub fn value_of(temporary: &Temporary) -> Value
    ensures scalar { IsScalarOf temporary.now result }
    ensures named { (bases : List Base) → IsNamedTemporary bases temporary.now
        → IsNamed bases result }
    ensures within { (bases : List Base) (known : ℕ → Bool) (frame count : ℕ)
        → PointToLocals bases known frame count temporary.now
        → PointsToLocal bases known frame count result }
{
    match temporary {
        Temporary::Scalar(value) => *value,
        Temporary::Whole(_) | Temporary::Nothing => Value::Unset,
    }
}

/// Returns the value of the operand of an age, if it is a scalar; any other counts as unset.
pub fn value(state: &State, age: usize) -> Result<Value, Pause>
    ensures value { IfOk result (IsCellAt state.now age) }
    ensures named { IfOk result (λ value. (bases : List Base) → HaveNames bases state.now
        → IsNamed bases value) }
    ensures within { IfOk result (MayBeIn state.now) }
    ensures memory { IfErr result (λ why. why ≡ pause.Memory) }
{
    let temporary = operand(state, age)?;
    Ok(value_of(temporary))
}

/// Returns the number of the operand of an age; any operand but a number counts as 0.
pub fn number(state: &State, age: usize) -> Result<Lin, Pause>
    ensures value { IfOk result (IsNumberAt state.now age) }
    ensures over { IfOk result (IsOverKnown state.now) }
    ensures memory { IfErr result (λ why. why ≡ pause.Memory) }
{
    let value = value(state, age)?;
    number_in(state, value)
}

/// Returns the term of a value that is a number; any other counts as 0.
pub fn number_in(state: &State, value: Value) -> Result<Lin, Pause>
    ensures value { IfOk result (IsNumberOf state.now value) }
    ensures over { IfOk result (λ term. MayBeIn state.now value → IsOverKnown state.now term) }
    ensures memory { IfErr result (λ why. why ≡ pause.Memory) }
{
    match value {
        Value::Number(term) => known(state, term),
        _ => Ok(constant(0)),
    }
}

/// Replaces the newest operands, `count` of them, by one.
pub fn replace(state: &mut State, count: usize, left: Temporary) -> Result<(), Pause>
    ensures means { OnOk result (MeansReplaced count left state.old state.new) }
    ensures left { OnOk result (IsReplaced count left state.old state.new) }
    ensures memory { IfErr result (λ why. why ≡ pause.Memory) }
{
    drop_newest(state, count)?;
    state.push(left)?;
    Ok(())
}

/// Replaces the newest operands, `count` of them, by a scalar.
pub fn replace_with(state: &mut State, count: usize, value: Value) -> Result<(), Pause>
    ensures means { OnOk result (MeansReplaced count (Scalar value) state.old state.new) }
    ensures left { OnOk result (IsReplaced count (Scalar value) state.old state.new) }
    ensures memory { IfErr result (λ why. why ≡ pause.Memory) }
{
    replace(state, count, Temporary::Scalar(value))
}

/// Drops the newest operands, `count` of them.
pub fn drop_newest(state: &mut State, count: usize) -> Result<(), Pause>
    ensures means { OnOk result (MeansDropped count state.old state.new) }
    ensures left { OnOk result (IsDropped count state.old state.new) }
    ensures blocks { state.new.blocks ≡ state.old.blocks }
    ensures memory { IfErr result (λ why. why ≡ pause.Memory) }
{
    let length = state.frame.temporaries.as_slice().len();
    if count > length {
        return Err(Pause::Memory);
    }
    state.cut(length - count);
    Ok(())
}
