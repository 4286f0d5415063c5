//! The end of a frame.
ghost use Rattle.std.specs.Prelude.{◌≡◌, ◌+◌, List, [], Some, length, slice_get, IfOk, OnOk};
ghost use Rattle.cs_ast.specs.declared.typed.program.Function.{Function};
ghost use Rattle.cs_regions.specs.declared.base.Base as regions;
ghost use Rattle.cs_terms.specs.Term.{Valuation};
ghost use Rattle.cs_meaning.specs.Calls.{returned_of};
ghost use Rattle.cs_state.specs.Cells.{Blocks, operand_of};
ghost use Rattle.cs_state.specs.Naming.{naming, Extends};
ghost use Rattle.cs_progress.specs.Leaving.{functions_of, AreLocals, AreUnset, IsReturned, EndsRun};
ghost use Rattle.cs_progress.specs.Stepping.{result_in};

use crate::context::Context;
use crate::operands::value_of;
use crate::pause::Pause;
use crate::progress::Progress;
use cs_events::{Outcome, Returned};
use cs_regions::Base;
use cs_state::{State, Tables, Temporary};
use cs_store::Value;
use std::alloc::AllocError;

/// Ends the current frame, and pushes its result in the calling frame; if there is none, the run is done.
pub fn leave(
    context: &Context,
    state: &mut State,
    tables: &mut Tables,
    progress: &mut Progress,
    given: Temporary,
) -> Result<(), Pause>
    ensures unset { OnOk result (AreUnset (functions_of context.now)
        (naming tables.new).bases state.old.frame state.new.store) }
    ensures extends { Extends (naming tables.old) (naming tables.new) }
    ensures last { state.old.callers ≡ []
        → EndsRun state.old state.new progress.new.first result given }
{
    if state.callers.depth() == 0 {
        state.set_result(returned(&given));
        return Err(progress.finish(Outcome::Done(Returned::Nothing)));
    }
    let bases = local_bases(context, state, tables)?;
    state.unbind(&bases)?;
    if !state.leave()? {
        return Err(Pause::Memory);
    }
    state.push(given)?;
    Ok(())
}

// The value that the entry returns, if this is the result of its frame.
fn returned(given: &Temporary) -> Option<Value>
    ensures means { (bases : List regions.Base) (blocks : Blocks) (valuation : Valuation)
        → returned_of (operand_of bases blocks valuation given.now)
        ≡ returned_of (result_in bases blocks valuation result) }
    ensures same { IsReturned given.now result }
{
    match given {
        Temporary::Nothing => None,
        Temporary::Scalar(value) => Some(*value),
        Temporary::Whole(_) => Some(value_of(given)),
    }
}

// The base regions of the locals of the current frame.
fn local_bases(
    context: &Context,
    state: &State,
    tables: &mut Tables,
) -> Result<Vec<u64>, AllocError>
    ensures locals { IfOk result (λ bases. (function : Function)
        → slice_get (functions_of context.now) state.now.frame.spot.function ≡ Some function
        → AreLocals (naming tables.new).bases state.now.frame.number
        (length function.locals.items) bases.items) }
    ensures extends { Extends (naming tables.old) (naming tables.new) }
{
    let locals = context
        .locals_of(state.frame.spot.function)
        .ok_or(AllocError)?;
    let mut bases = Vec::new(context.alloc);
    for declaration in 0..locals.len() {
        add_local(tables, &mut bases, state.frame.number, declaration)?;
    }
    Ok(bases)
}

// Adds the base region of the next local of a frame.
fn add_local(
    tables: &mut Tables,
    bases: &mut Vec<u64>,
    frame: u64,
    declaration: usize,
) -> Result<(), AllocError>
    requires { AreLocals (naming tables.old).bases frame declaration bases.old.items }
    ensures locals { OnOk result
        (AreLocals (naming tables.new).bases frame (declaration + 1) bases.new.items) }
    ensures extends { Extends (naming tables.old) (naming tables.new) }
{
    let Ok(decl) = u32::try_from(declaration) else {
        return Err(AllocError);
    };
    let base = tables.base(Base::Local { frame, decl })?;
    bases.push(base)?;
    Ok(())
}
