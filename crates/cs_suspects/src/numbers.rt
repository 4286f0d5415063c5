//! The numbers of a suspect's symbols.
ghost use Rattle.std.specs.Prelude.{◌≡◌, IfOk, OnOk};
ghost use Rattle.cs_constraints.specs.Constraints.{AreInhabited};
ghost use Rattle.cs_state.specs.Naming.{naming};
ghost use Rattle.cs_suspects.specs.Suspected.{range_of};
ghost use Rattle.cs_suspects.specs.Solved.{IsNumberOf, AreInputsOf, IsPut};

use cs_constraints::Constraints;
use cs_inputs::Inputs;
use cs_ranges::Interval;
use cs_state::{State, Tables};
use cs_suspect_types::OperandRange;
use cs_terms::{Lin, Sym, SymName};
use std::alloc::{AllocError, Global};

/// Returns the inputs of a state: for each path the number of least absolute value that its symbol may have, the positive one of two.
pub(crate) fn inputs_of(alloc: Global, state: &State, tables: &Tables) -> Result<Inputs, AllocError>
    ensures { IfOk result (AreInputsOf state.now.constraints (naming tables.now).syms) }
{
    let mut inputs = Inputs::new(alloc);
    for place in 0..tables.syms.names.len() {
        let sym = Sym(place as u64);
        if let Some(name) = tables.syms.name(sym) {
            set_input(&mut inputs, name, number_of(state, sym))?;
        }
    }
    Ok(inputs)
}

// Sets the path of a symbol to its number, if the symbol represents an input. A path that isn't set has 0.
fn set_input(inputs: &mut Inputs, name: &SymName, number: i128) -> Result<(), AllocError>
    ensures { OnOk result (IsPut name.now number inputs.old inputs.new) }
{
    match name {
        SymName::Input(path) => {
            if number != 0 {
                inputs.set(path.copy()?, number)?;
            }
            Ok(())
        }
        SymName::Guess(_) => Ok(()),
    }
}

/// Returns the number of least absolute value that a symbol may have, 0 if it isn't declared.
pub(crate) fn number_of(state: &State, sym: Sym) -> i128
    ensures { IsNumberOf state.now.constraints sym.0 result }
{
    state.constraints.solution(sym).unwrap_or(0)
}

/// Returns the symbol of an operand, if it has one with a name, and the ends of its range.
pub(crate) fn operand_range(
    tables: &Tables,
    term: Lin,
    ends: Interval,
) -> Result<Option<OperandRange>, AllocError>
    ensures { IfOk result (λ range. range ≡ range_of (naming tables.now) term.sym ends) }
{
    let Some(sym) = term.sym else {
        return Ok(None);
    };
    let Some(name) = tables.syms.name(sym) else {
        return Ok(None);
    };
    Ok(Some(OperandRange {
        symbol: name.clone()?,
        least: ends.low,
        greatest: ends.high,
    }))
}

/// Shows that each declared symbol can have a number. The copy is made for what its contract states about the constraints.
pub(crate) fn have_numbers(constraints: &Constraints) -> Result<(), AllocError>
    ensures { OnOk result (AreInhabited constraints.now) }
{
    let _same = constraints.copy()?;
    Ok(())
}
