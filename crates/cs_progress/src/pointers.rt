//! Pointers: whether they are null, and where they point.
ghost use Rattle.std.specs.Prelude.{◌≡◌, List, Some, IfOk, IfErr};
ghost use Rattle.cs_regions.specs.declared.base.Base.{Base};
ghost use Rattle.cs_terms.specs.Term.{Valuation, value_of};
ghost use Rattle.cs_events.specs.Operations.{is_true};
ghost use Rattle.cs_events.specs.Acts.{Act};
ghost use Rattle.cs_cfg.specs.Working.{CodeState};
ghost use Rattle.cs_state.specs.Cells.{block_of};
ghost use Rattle.cs_progress.specs.declared.pause.Pause.TheVariants as pause;
ghost use Rattle.cs_progress.specs.Acting.{GetsThrough, WaitsFor, IsNamed, looked, ShowsLook};
ghost use Rattle.cs_progress.specs.Operands.{IsFurther};
ghost use Rattle.cs_progress.specs.Seeing.{IsSeenIn, IsSeenNamed};

use crate::pause::Pause;
use crate::progress::Progress;
use crate::terms::{constant, is_zero, known, own, shifted};
use cs_ast::Place;
use cs_eval::{Question, Tested};
use cs_state::{Block, State};
use cs_store::Value;
use cs_terms::Lin;
use std::alloc::AllocError;

/// A value that was inspected for null.
#[derive(Clone, Copy)]
pub enum Seen {
    Null,
    /// A pointer to the byte at an offset of a base region.
    At(u64, Lin),
    /// A value that is no pointer.
    Other,
}

/// Inspects whether a value is null: for a pointer, this is an event that shows the result; for any other value, there is no event.
pub fn look(state: &State, progress: &mut Progress, at: Place, value: Value) -> Result<Seen, Pause>
    ensures seen { IfOk result (IsSeenIn state.now value) }
    ensures named { IfOk result (λ seen. (bases : List Base) → IsNamed bases value
        → IsSeenNamed bases seen) }
    ensures through { IfOk result (λ seen. (bases : List Base) → IsNamed bases value
        → GetsThrough state.now progress.old.used progress.new.used
        (looked bases state.now at value)) }
    ensures waits { IfErr result (λ why. why ≡ pause.Waits
        → (bases : List Base) → IsNamed bases value → (act : Act CodeState)
        → WaitsFor bases state.now progress.old.used progress.new.first
        (λ valuation. looked bases state.now at value valuation act)) }
{
    if let Some(there) = shown_by(state, value)? {
        progress.ask(state, at, Question::Test(Tested::Look, there))?;
    }
    resolved(state, value)
}

// The term whose truth an inspection of a value shows; none if the value is no pointer.
fn shown_by(state: &State, value: Value) -> Result<Option<Lin>, AllocError>
    ensures { IfOk result (ShowsLook state.now value) }
{
    match value {
        Value::Number(_) => Ok(None),
        Value::Null => Ok(Some(constant(0))),
        Value::At(_, _) => Ok(Some(constant(1))),
        Value::Start(base, _) => Ok(Some(own(block(state, base)?.sym))),
        Value::Unset => Ok(None),
    }
}

/// Returns where an inspected value points.
pub fn resolved(state: &State, value: Value) -> Result<Seen, Pause>
    ensures seen { IfOk result (IsSeenIn state.now value) }
    ensures named { IfOk result (λ seen. (bases : List Base) → IsNamed bases value
        → IsSeenNamed bases seen) }
    ensures memory { IfErr result (λ why. why ≡ pause.Memory) }
{
    match value {
        Value::Number(_) | Value::Unset => Ok(Seen::Other),
        Value::Null => Ok(Seen::Null),
        Value::At(base, offset) => Ok(Seen::At(base, known(state, offset)?)),
        Value::Start(base, offset) => match is_zero(state, own(block(state, base)?.sym))? {
            Some(true) => Ok(Seen::Null),
            Some(false) => Ok(Seen::At(base, constant(i128::from(offset)))),
            None => Err(Pause::Memory),
        },
    }
}

/// Returns the start block or heap block of a base region.
pub fn block(state: &State, base: u64) -> Result<&Block, AllocError>
    ensures { IfOk result (λ block. block_of state.now.blocks base ≡ Some block.now) }
{
    state.blocks.get((base, 0)).ok_or(AllocError)
}

/// Returns a pointer moved forward by `bytes`; null remains null.
pub fn further(state: &State, value: Value, bytes: u64) -> Result<Value, Pause>
    ensures moved { IfOk result (IsFurther state.now value bytes) }
    ensures memory { IfErr result (λ why. why ≡ pause.Memory) }
{
    match value {
        Value::At(base, offset) => {
            let offset = known(state, offset)?;
            let moved = shifted(offset, i128::from(bytes))?;
            Ok(Value::At(base, moved))
        }
        Value::Start(base, offset) => {
            let Some(offset) = offset.checked_add(bytes) else {
                return Err(Pause::Memory);
            };
            Ok(Value::Start(base, offset))
        }
        Value::Null => Ok(Value::Null),
        Value::Number(_) | Value::Unset => Ok(value),
    }
}

/// Returns the truth value of an answer, which is a constant.
pub fn truth(answer: Lin) -> Result<bool, Pause>
    ensures truth { IfOk result (λ holds. (valuation : Valuation)
        → is_true (value_of valuation answer) ≡ holds) }
    ensures memory { IfErr result (λ why. why ≡ pause.Memory) }
{
    match answer.sym {
        Some(_) => Err(Pause::Memory),
        None => Ok(answer.value != 0),
    }
}
