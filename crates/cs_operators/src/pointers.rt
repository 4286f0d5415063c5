//! Checked pointers.
ghost use Rattle.std.specs.Prelude.{List};
ghost use Rattle.cs_regions.specs.declared.base.Base.{Base};
ghost use Rattle.cs_terms.specs.Term.{Valuation, value_of};
ghost use Rattle.cs_events.specs.Objects.{Cell, PointerCell};
ghost use Rattle.cs_meaning.specs.Access as access;
ghost use Rattle.cs_meaning.specs.Operators as operators;
ghost use Rattle.cs_progress.specs.Acting.{CarriesOut, Passes, IsNamed};
ghost use Rattle.cs_operators.specs.Asking.{KeepKinds, HasEveryKind};
ghost use Rattle.cs_operators.specs.Pointing.{Sees, cell_in, cell_at};

use crate::attempt::Attempt;
use cs_ast::Place;
use cs_checker::Subject;
use cs_eval::Question;
use cs_progress::Pause;
use cs_progress::pointers::{Seen, look, truth};
use cs_progress::terms::{constant, shifted};
use cs_state::State;
use cs_store::Value;
use cs_terms::{Lin, Lin2};

/// Checks that a pointer isn't null where an object is needed (C11 6.5.3.2, paragraph 4).
pub fn not_null(state: &State, attempt: &mut Attempt, at: Place, seen: Seen) -> Result<(), Pause>
    ensures kinds { KeepKinds (λ b. kind_of b) attempt.old.checkers.items
        attempt.new.checkers.items }
    ensures act { HasEveryKind (λ b. kind_of b) attempt.old.checkers.items
        → (bases : List Base) (cell : Valuation → Cell) → Sees bases state.now seen cell
        → Passes bases state.now attempt.old.progress attempt.new.progress result
        (λ valuation. access.not_null at (cell valuation)) }
{
    let null = matches!(seen, Seen::Null);
    attempt.check(state, at, Subject::Through { null })
}

/// Returns the base region and the offset of a pointer, which was checked not to be null.
pub fn named(
    state: &State,
    attempt: &mut Attempt,
    at: Place,
    seen: Seen,
) -> Result<(u64, Lin), Pause>
    ensures kinds { KeepKinds (λ b. kind_of b) attempt.old.checkers.items
        attempt.new.checkers.items }
    ensures act { HasEveryKind (λ b. kind_of b) attempt.old.checkers.items
        → (bases : List Base) (cell : Valuation → Cell) → Sees bases state.now seen cell
        → CarriesOut bases state.now attempt.old.progress attempt.new.progress result
        (λ valuation onward.
        access.named at (cell valuation) (λ object offset. onward (PointerCell object offset)))
        (cell_at bases) }
{
    match seen {
        Seen::At(base, offset) => Ok((base, offset)),
        Seen::Null => Err(Pause::Memory),
        Seen::Other => {
            attempt.check(state, at, Subject::Cell { unset: true })?;
            Err(Pause::Memory)
        }
    }
}

/// Returns the place of a member, at an offset in bytes, of the object that a pointer points to (C11 6.5.2.3, paragraph 4).
pub fn arrow(
    state: &State,
    attempt: &mut Attempt,
    at: Place,
    value: Value,
    bytes: u64,
) -> Result<Value, Pause>
    ensures kinds { KeepKinds (λ b. kind_of b) attempt.old.checkers.items
        attempt.new.checkers.items }
    ensures act { HasEveryKind (λ b. kind_of b) attempt.old.checkers.items
        → (bases : List Base) → IsNamed bases value
        → CarriesOut bases state.now attempt.old.progress attempt.new.progress result
        (λ valuation. operators.arrow at (cell_in bases state.now value valuation) bytes)
        (cell_in bases state.now) }
{
    let seen = look(state, &mut attempt.progress, at, value)?;
    not_null(state, attempt, at, seen)?;
    match seen {
        Seen::At(base, offset) => Ok(Value::At(base, shifted(offset, i128::from(bytes))?)),
        Seen::Null => Err(Pause::Memory),
        Seen::Other => Ok(Value::Unset),
    }
}

/// Tests an order, which is an event, and checks it: a sum of two parts below 0 is out of bounds.
pub fn ordered(
    state: &State,
    attempt: &mut Attempt,
    at: Place,
    first: Lin,
    second: Lin,
) -> Result<(), Pause>
    ensures kinds { KeepKinds (λ b. kind_of b) attempt.old.checkers.items
        attempt.new.checkers.items }
    ensures act { HasEveryKind (λ b. kind_of b) attempt.old.checkers.items
        → (bases : List Base) → Passes bases state.now attempt.old.progress attempt.new.progress
        result (λ valuation.
        access.ordered at (value_of valuation first) (value_of valuation second)) }
{
    let question = Question::Order(first, second);
    let answer = attempt.progress.ask(state, at, question)?;
    let holds = truth(answer)?;
    let term = Lin2 {
        first: constant(if holds { 0 } else { -1 }),
        second: constant(0),
    };
    attempt.check(state, at, Subject::Rest { term })
}
