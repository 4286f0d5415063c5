//! What operators do with their operands (C11 6.3, 6.5.3 to 6.5.10).
ghost use Rattle.std.specs.Prelude.{◌≡◌, ℤ, Bool, List, IfOk, IfErr, option_map};
ghost use Rattle.cs_types.specs.Shape.{shape_of};
ghost use Rattle.cs_regions.specs.declared.base.Base.{Base};
ghost use Rattle.cs_regions.specs.Numbering.{IsNumbered};
ghost use Rattle.cs_terms.specs.Term.{Valuation, value_of};
ghost use Rattle.cs_checker.specs.Answers as terms;
ghost use Rattle.cs_events.specs.Operations.{truth_number};
ghost use Rattle.cs_events.specs.Objects.{Cell};
ghost use Rattle.cs_meaning.specs.Initials as cells;
ghost use Rattle.cs_meaning.specs.Operators as operators;
ghost use Rattle.cs_objects.specs.Prepared.{IsReady};
ghost use Rattle.cs_progress.specs.declared.pause.Pause.TheVariants as pause;
ghost use Rattle.cs_progress.specs.Acting.{CarriesOut, IsNamed};
ghost use Rattle.cs_progress.specs.Locals.{IsOverKnown};
ghost use Rattle.cs_progress.specs.Seeing.{IsSeen, IsSeenNamed};
ghost use Rattle.cs_operators.specs.Asking.{KeepKinds, HasEveryKind};
ghost use Rattle.cs_operators.specs.Pointing.{Sees, cell_in, both_values, test, moved_within, equality, related};

use crate::attempt::Attempt;
use crate::pointers::ordered;
use cs_ast::Place;
use cs_ast::typed::operator::{BinOp, CmpOp, Direction};
use cs_checker::Subject;
use cs_eval::{Question, Tested};
use cs_events::numbers_of;
use cs_progress::operands::number_in;
use cs_progress::pointers::{Seen, look};
use cs_progress::terms::{constant, is_zero, known, scaled, shifted};
use cs_progress::{Context, Pause, Progress};
use cs_state::State;
use cs_store::Value;
use cs_terms::Lin;
use cs_types::{CType, DataModel, IntType, bytes, offset_bound};

/// Whether a value counts as true (C11 6.8.4.1, paragraph 2). The event depends on the kind of test; a pointer is inspected first.
pub fn test(
    state: &State,
    progress: &mut Progress,
    at: Place,
    value: Value,
    tested: Tested,
) -> Result<bool, Pause>
    ensures act { (bases : List Base) → IsNamed bases value
        → CarriesOut bases state.now progress.old progress.new result
        (λ valuation. test at tested (cell_in bases state.now value valuation))
        (λ holds valuation. holds) }
{
    if let Value::Number(term) = value {
        let term = known(state, term)?;
        progress.ask(state, at, Question::Test(tested, term))?;
        return match is_zero(state, term)? {
            Some(zero) => Ok(!zero),
            None => Err(Pause::Memory),
        };
    }
    let holds = matches!(look(state, progress, at, value)?, Seen::At(_, _));
    progress.ask(state, at, Question::Test(tested, number_of(holds)))?;
    Ok(holds)
}

/// Returns the number of a truth value (C11 6.5.8, paragraph 6).
pub fn number_of(holds: bool) -> Lin
    ensures { result ≡ terms.constant (truth_number holds) }
{
    constant(if holds { 1 } else { 0 })
}

/// Returns the result of an operator with two integer operands, after its checks.
pub fn operate(
    model: DataModel,
    state: &State,
    attempt: &mut Attempt,
    at: Place,
    operator: BinOp,
    ty: IntType,
    operands: (Lin, Lin),
) -> Result<Lin, Pause>
    ensures kinds { KeepKinds (λ b. kind_of b) attempt.old.checkers.items
        attempt.new.checkers.items }
    ensures act { HasEveryKind (λ b. kind_of b) attempt.old.checkers.items
        → (bases : List Base)
        → CarriesOut bases state.now attempt.old.progress attempt.new.progress result
        (λ valuation. operators.operate model at operator ty (value_of valuation operands.0)
        (value_of valuation operands.1)) (λ made valuation. value_of valuation made) }
    ensures over { IfOk result (IsOverKnown state.now) }
{
    let (left, right) = operands;
    match operator {
        BinOp::Div | BinOp::Rem => {
            attempt.check(state, at, Subject::Divisor { term: right })?;
        }
        BinOp::Shl | BinOp::Shr => {
            let width = 8 * bytes(model, ty) as u32;
            let subject = Subject::Shift {
                count: right,
                width,
            };
            attempt.check(state, at, subject)?;
        }
        _ => {}
    }
    let question = Question::Binary(operator, ty, left, right);
    attempt.progress.ask(state, at, question)
}

/// Returns a number converted to a type. The conversion is an event unless the new type has every number of the old one (C11 6.3.1.3).
pub fn convert_number(
    model: DataModel,
    state: &State,
    progress: &mut Progress,
    at: Place,
    types: (&CType, IntType),
    number: Lin,
) -> Result<Lin, Pause>
    ensures act { (bases : List Base)
        → CarriesOut bases state.now progress.old progress.new result
        (λ valuation. operators.convert_number model at (shape_of types.entry.0.now) types.entry.1
        (value_of valuation number)) (λ made valuation. value_of valuation made) }
    ensures over { IfOk result (λ made. IsOverKnown state.now number
        → IsOverKnown state.now made) }
{
    let (from, to) = types;
    if takes_all(model, from, to) {
        return Ok(number);
    }
    progress.ask(state, at, Question::Convert(to, number))
}

// Whether a type has every number of another one.
fn takes_all(model: DataModel, from: &CType, to: IntType) -> bool
    ensures { result ≡ operators.takes_all model (shape_of from.now) to }
{
    let CType::Int(from) = from else {
        return false;
    };
    let (least, greatest) = numbers_of(model, *from);
    let (low, high) = numbers_of(model, to);
    low <= least && greatest <= high
}

/// Returns a number, negated if the direction is backward.
pub fn directed(direction: Direction, number: Lin) -> Result<Lin, Pause>
    ensures value { IfOk result (λ made. (valuation : Valuation)
        → value_of valuation made ≡ cells.directed direction (value_of valuation number)) }
    ensures memory { IfErr result (λ why. why ≡ pause.Memory) }
{
    match direction {
        Direction::Forward => Ok(number),
        Direction::Back => scaled(number, -1),
    }
}

/// Returns a pointer moved by a number of elements of this size: its offset stays within its bounds (C11 6.5.6, paragraph 8).
pub fn sum(
    context: &Context,
    state: &State,
    attempt: &mut Attempt,
    at: Place,
    pointer: Value,
    amount: Lin,
    size: u64,
) -> Result<Value, Pause>
    requires { IsReady context.now.setting.now }
    ensures kinds { KeepKinds (λ b. kind_of b) attempt.old.checkers.items
        attempt.new.checkers.items }
    ensures act { HasEveryKind (λ b. kind_of b) attempt.old.checkers.items
        → (bases : List Base) → IsNamed bases pointer
        → CarriesOut bases state.now attempt.old.progress attempt.new.progress result
        (λ valuation. operators.sum context.now.setting.now.program.now.model at
        (cell_in bases state.now pointer valuation) (value_of valuation amount) size)
        (cell_in bases state.now) }
{
    let seen = look(state, &mut attempt.progress, at, pointer)?;
    match seen {
        Seen::Null => {
            let subject = Subject::Move { null: true, amount };
            attempt.check(state, at, subject)?;
            Ok(Value::Null)
        }
        Seen::At(base, offset) => {
            let subject = Subject::Move {
                null: false,
                amount,
            };
            attempt.check(state, at, subject)?;
            let moved = moved(context, state, attempt, at, offset, amount, size)?;
            Ok(Value::At(base, moved))
        }
        Seen::Other => Ok(Value::Unset),
    }
}

// The offset of a moved pointer.
fn moved(
    context: &Context,
    state: &State,
    attempt: &mut Attempt,
    at: Place,
    offset: Lin,
    amount: Lin,
    size: u64,
) -> Result<Lin, Pause>
    requires { IsReady context.now.setting.now }
    ensures kinds { KeepKinds (λ b. kind_of b) attempt.old.checkers.items
        attempt.new.checkers.items }
    ensures act { HasEveryKind (λ b. kind_of b) attempt.old.checkers.items
        → (bases : List Base)
        → CarriesOut bases state.now attempt.old.progress attempt.new.progress result
        (λ valuation. moved_within context.now.setting.now.program.now.model at
        (value_of valuation offset) (value_of valuation amount) size)
        (λ made valuation. value_of valuation made) }
{
    let bound = offset_bound(context.model());
    let bytes = scaled(amount, i128::from(size))?;
    let back = scaled(bytes, -1)?;
    ordered(state, attempt, at, shifted(offset, bound)?, bytes)?;
    let left = shifted(scaled(offset, -1)?, bound)?;
    ordered(state, attempt, at, left, back)?;
    let question = Question::Sum(offset, amount, size);
    attempt.progress.ask(state, at, question)
}

/// Returns the result of a comparison of two numbers or two pointers (C11 6.5.8, 6.5.9).
pub fn compare(
    state: &State,
    attempt: &mut Attempt,
    at: Place,
    operator: CmpOp,
    left: Value,
    right: Value,
) -> Result<Lin, Pause>
    ensures kinds { KeepKinds (λ b. kind_of b) attempt.old.checkers.items
        attempt.new.checkers.items }
    ensures act { HasEveryKind (λ b. kind_of b) attempt.old.checkers.items
        → (bases : List Base) → IsNumbered bases → IsNamed bases left → IsNamed bases right
        → CarriesOut bases state.now attempt.old.progress attempt.new.progress result
        (λ valuation. operators.compare at operator (cell_in bases state.now left valuation)
        (cell_in bases state.now right valuation)) (λ made valuation. value_of valuation made) }
    ensures over { IfOk result (IsOverKnown state.now) }
{
    if is_pointer(left) || is_pointer(right) {
        return compare_pointers(state, attempt, at, operator, left, right);
    }
    let question = Question::Compare(operator, number_in(state, left)?, number_in(state, right)?);
    attempt.progress.ask(state, at, question)
}

// Compares two pointers, which are inspected first.
fn compare_pointers(
    state: &State,
    attempt: &mut Attempt,
    at: Place,
    operator: CmpOp,
    left: Value,
    right: Value,
) -> Result<Lin, Pause>
    ensures kinds { KeepKinds (λ b. kind_of b) attempt.old.checkers.items
        attempt.new.checkers.items }
    ensures act { HasEveryKind (λ b. kind_of b) attempt.old.checkers.items
        → (bases : List Base) → IsNumbered bases → IsNamed bases left → IsNamed bases right
        → CarriesOut bases state.now attempt.old.progress attempt.new.progress result
        (λ valuation. operators.compare_pointers at operator
        (cell_in bases state.now left valuation) (cell_in bases state.now right valuation))
        (λ made valuation. value_of valuation made) }
    ensures over { IfOk result (IsOverKnown state.now) }
{
    let left = look(state, &mut attempt.progress, at, left)?;
    let right = look(state, &mut attempt.progress, at, right)?;
    match operator {
        CmpOp::Equal | CmpOp::Differs => {
            equality(state, &mut attempt.progress, at, operator, left, right)
        }
        CmpOp::Less | CmpOp::AtMost | CmpOp::More | CmpOp::AtLeast => {
            let (one, other) = related(state, attempt, at, left, right)?;
            let question = Question::Compare(operator, one, other);
            attempt.progress.ask(state, at, question)
        }
    }
}

// Compares two pointers for equality: by their offsets if they point into the same object (C11 6.5.9, paragraph 6).
fn equality(
    state: &State,
    progress: &mut Progress,
    at: Place,
    operator: CmpOp,
    left: Seen,
    right: Seen,
) -> Result<Lin, Pause>
    ensures act { (bases : List Base) (one other : Valuation → Cell) → IsNumbered bases
        → Sees bases state.now left one → Sees bases state.now right other
        → CarriesOut bases state.now progress.old progress.new result
        (λ valuation. equality at operator (one valuation) (other valuation))
        (λ made valuation. value_of valuation made) }
    ensures over { IfOk result (IsOverKnown state.now) }
{
    if let Some((one, other)) = in_one_object(left, right) {
        return progress.ask(state, at, Question::Compare(operator, one, other));
    }
    let holds = compares_apart(operator, left, right);
    progress.ask(state, at, Question::Test(Tested::Truth, number_of(holds)))?;
    Ok(number_of(holds))
}

// The offsets of two pointers into the same object.
fn in_one_object(left: Seen, right: Seen) -> Option<(Lin, Lin)>
    ensures { (bases : List Base) (valuation : Valuation) (one other : Cell) → IsNumbered bases
        → IsSeenNamed bases left → IsSeenNamed bases right
        → IsSeen bases valuation left one → IsSeen bases valuation right other
        → operators.in_one_object one other
        ≡ option_map (λ found. both_values found valuation) result }
{
    let Seen::At(base, one) = left else {
        return None;
    };
    let Seen::At(other_base, other) = right else {
        return None;
    };
    if base == other_base {
        Some((one, other))
    } else {
        None
    }
}

// The result for two pointers that don't point into the same object: they are equal if both are null.
fn compares_apart(operator: CmpOp, left: Seen, right: Seen) -> bool
    ensures { (bases : List Base) (valuation : Valuation) (one other : Cell)
        → IsSeenNamed bases left → IsSeenNamed bases right
        → IsSeen bases valuation left one → IsSeen bases valuation right other
        → operators.equality_of operator (operators.both_null one other) ≡ result }
{
    let same = matches!((left, right), (Seen::Null, Seen::Null));
    same == matches!(operator, CmpOp::Equal)
}

// The offsets of two pointers into the same object, where null is an object of its own.
fn in_relation(left: Seen, right: Seen) -> Option<(Lin, Lin)>
    ensures { (bases : List Base) (valuation : Valuation) (one other : Cell) → IsNumbered bases
        → IsSeenNamed bases left → IsSeenNamed bases right
        → IsSeen bases valuation left one → IsSeen bases valuation right other
        → operators.related one other
        ≡ option_map (λ found. both_values found valuation) result }
{
    match (left, right) {
        (Seen::Null, Seen::Null) => Some((constant(0), constant(0))),
        _ => in_one_object(left, right),
    }
}

// The same, with a check: it is a fault if there are none (C11 6.5.6, paragraph 9; 6.5.8, paragraph 5).
fn related(
    state: &State,
    attempt: &mut Attempt,
    at: Place,
    left: Seen,
    right: Seen,
) -> Result<(Lin, Lin), Pause>
    ensures kinds { KeepKinds (λ b. kind_of b) attempt.old.checkers.items
        attempt.new.checkers.items }
    ensures act { HasEveryKind (λ b. kind_of b) attempt.old.checkers.items
        → (bases : List Base) (one other : Valuation → Cell) → IsNumbered bases
        → Sees bases state.now left one → Sees bases state.now right other
        → CarriesOut bases state.now attempt.old.progress attempt.new.progress result
        (λ valuation. related at (one valuation) (other valuation)) both_values }
{
    let found = in_relation(left, right);
    let same = found.is_some();
    attempt.check(state, at, Subject::Pair { same })?;
    found.ok_or(Pause::Memory)
}

/// Returns the number of elements of this size between two pointers (C11 6.5.6, paragraph 9).
pub fn difference(
    state: &State,
    attempt: &mut Attempt,
    at: Place,
    pointers: (Value, Value),
    size: u64,
) -> Result<Lin, Pause>
    ensures kinds { KeepKinds (λ b. kind_of b) attempt.old.checkers.items
        attempt.new.checkers.items }
    ensures act { HasEveryKind (λ b. kind_of b) attempt.old.checkers.items
        → (bases : List Base) → IsNumbered bases → IsNamed bases pointers.0
        → IsNamed bases pointers.1
        → CarriesOut bases state.now attempt.old.progress attempt.new.progress result
        (λ valuation. operators.difference at (cell_in bases state.now pointers.0 valuation)
        (cell_in bases state.now pointers.1 valuation) size)
        (λ made valuation. value_of valuation made) }
{
    let left = look(state, &mut attempt.progress, at, pointers.0)?;
    let right = look(state, &mut attempt.progress, at, pointers.1)?;
    let (one, other) = related(state, attempt, at, left, right)?;
    let question = Question::Difference(one, other, size);
    attempt.progress.ask(state, at, question)
}

fn is_pointer(value: Value) -> bool
    ensures { (bases : List Base) (state : State) (valuation : Valuation) → IsNamed bases value
        → operators.is_pointer (cell_in bases state value valuation) ≡ result }
{
    match value {
        Value::Null | Value::At(_, _) | Value::Start(_, _) => true,
        Value::Number(_) | Value::Unset => false,
    }
}
