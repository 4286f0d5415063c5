//! Reading all scalars of a struct at once.
ghost use Rattle.std.specs.Prelude.{◌≡◌, IfErr};
ghost use Rattle.cs_objects.specs.Prepared.{IsReady};
ghost use Rattle.cs_state.specs.Naming.{naming, Extends};
ghost use Rattle.cs_progress.specs.declared.pause.Pause.TheVariants as pause;

use crate::cells::{Cell, look_up};
use crate::inputs::Inputs;
use crate::integers::Integers;
use cs_progress::terms::own;
use cs_progress::{Context, Pause};
use cs_state::{State, Tables};
use cs_store::Value;
use cs_types::CType;

/// Returns the scalars of a struct that begins at an offset of a base region, in order.
pub fn read_all<'t>(
    context: &Context<'t>,
    state: &mut State,
    tables: &mut Tables,
    ty: &'t CType,
    base: u64,
    from: u64,
) -> Result<Vec<Value>, Pause>
    requires { IsReady context.now.setting.now }
    ensures memory { IfErr result (λ why. why ≡ pause.Memory) }
    ensures extends { Extends (naming tables.old) (naming tables.new) }
{
    let offsets = context.offsets(ty)?;
    let mut values = Vec::with_capacity(context.alloc, offsets.as_slice().len())?;
    let mut inputs = Inputs::new(context.alloc);
    let mut integers = Integers::of(context, ty);
    for offset in offsets.as_slice() {
        let at = from.checked_add(*offset).ok_or(Pause::Memory)?;
        let integer = integers.has(context, *offset)?;
        let value = read_one(context, state, tables, &mut inputs, integer, (base, at))?;
        values.push(value)?;
    }
    inputs.settle(state, base)?;
    Ok(values)
}

// The scalar at an offset of a base region. An input that was read before, and not written since, has a symbol in the state; if it is
// a number, the symbol is enough, without the path.
fn read_one(
    context: &Context,
    state: &mut State,
    tables: &mut Tables,
    inputs: &mut Inputs,
    integer: bool,
    cell: (u64, u64),
) -> Result<Value, Pause>
    requires { IsReady context.now.setting.now }
    ensures memory { IfErr result (λ why. why ≡ pause.Memory) }
    ensures extends { Extends (naming tables.old) (naming tables.new) }
{
    let (base, offset) = cell;
    if integer && let Some(sym) = state.read.at(base, offset) {
        return Ok(Value::Number(own(sym)));
    }
    match look_up(context, state, tables, base, offset)? {
        Cell::Known(value) => Ok(value),
        Cell::Received(input) => {
            inputs.add(state, offset, input)?;
            Ok(input.value)
        }
    }
}
