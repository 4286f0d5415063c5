//! Operations that only compute with their operands, which they replace by their result.
ghost use Rattle.std.specs.Prelude.{◌≡◌, ℕ, Bool, List, OnOk};
ghost use Rattle.cs_types.specs.Shape.{shape_of};
ghost use Rattle.cs_ast.specs.TypedProgram.{TypedProgram};
ghost use Rattle.cs_events.specs.declared.outcome.RunBudgets.{RunBudgets};
ghost use Rattle.cs_regions.specs.declared.base.Base.{Base};
ghost use Rattle.cs_regions.specs.Numbering.{IsNumbered};
ghost use Rattle.cs_meaning.specs.Expressions as expressions;
ghost use Rattle.cs_cfg.specs.Graph as graph;
ghost use Rattle.cs_cfg.specs.Graph.{Code};
ghost use Rattle.cs_cfg.specs.Working.{do_work};
ghost use Rattle.cs_objects.specs.Prepared.{IsReady};
ghost use Rattle.cs_state.specs.Naming.{Naming};
ghost use Rattle.cs_progress.specs.Computing.{HaveNames, Computes};
ghost use Rattle.cs_progress.specs.Stepping.{StaysInFrame, KeepsLocals, WaitsUnchanged};
ghost use Rattle.cs_operators.specs.Asking.{KeepKinds, HasEveryKind};
ghost use Rattle.cs_operators.specs.Pointing.{is_number};

use crate::attempt::Attempt;
use crate::operators::{
    compare, convert_number, difference, directed, number_of, operate, sum, test,
};
use crate::pointers::arrow;
use cs_ast::Place;
use cs_ast::typed::operator::{BinOp, CmpOp, Direction, Order, UnOp};
use cs_checker::Subject;
use cs_eval::{Question, Tested};
use cs_progress::operands::{number, operand, replace, replace_with, value};
use cs_progress::pointers::further;
use cs_progress::{Context, Pause, Progress};
use cs_state::{State, Temporary};
use cs_store::Value;
use cs_types::{CType, IntType};

/// Replaces the place of a struct by that of a member.
pub fn member(state: &mut State, offset: u64) -> Result<(), Pause>
    ensures act { (code : Code) (names : Naming) (program : TypedProgram) (budgets : RunBudgets)
        (at : Place) (progress : Progress) → Computes code names program state.old state.new
        progress progress result (do_work code program budgets at (graph.Member offset)) }
{
    let place = further(state, value(state, 0)?, offset)?;
    replace_with(state, 1, place)
}

/// Replaces a pointer to a struct by the place of a member (C11 6.5.2.3, paragraph 4).
pub fn member_through(
    state: &mut State,
    attempt: &mut Attempt,
    at: Place,
    offset: u64,
) -> Result<(), Pause>
    ensures kinds { KeepKinds (λ b. kind_of b) attempt.old.checkers.items
        attempt.new.checkers.items }
    ensures act { HasEveryKind (λ b. kind_of b) attempt.old.checkers.items
        → (code : Code) (names : Naming) (program : TypedProgram) (budgets : RunBudgets)
        → HaveNames names.bases state.old
        → Computes code names program state.old state.new attempt.old.progress
        attempt.new.progress result (do_work code program budgets at (graph.Arrow offset)) }
{
    let place = arrow(state, attempt, at, value(state, 0)?, offset)?;
    replace_with(state, 1, place)
}

/// Applies an operator with one integer operand (C11 6.5.3.3).
pub fn unary(
    state: &mut State,
    progress: &mut Progress,
    at: Place,
    operator: UnOp,
    ty: IntType,
) -> Result<(), Pause>
    ensures act { (code : Code) (names : Naming) (program : TypedProgram) (budgets : RunBudgets)
        → Computes code names program state.old state.new progress.old progress.new result
        (do_work code program budgets at (graph.Unary operator ty)) }
    ensures frame { OnOk result (StaysInFrame state.old state.new) }
    ensures locals { OnOk result
        ((program : TypedProgram) (bases : List Base) (known : ℕ → Bool)
        → KeepsLocals program bases known state.old state.new) }
    ensures unchanged { WaitsUnchanged state.old state.new result }
{
    let operand = number(state, 0)?;
    let result = progress.ask(state, at, Question::Unary(operator, ty, operand))?;
    replace_with(state, 1, Value::Number(result))
}

/// Replaces a value by whether it isn't zero, which is an event (C11 6.5.13, 6.5.14).
pub fn judge(state: &mut State, progress: &mut Progress, at: Place) -> Result<(), Pause>
    ensures act { (code : Code) (names : Naming) (program : TypedProgram) (budgets : RunBudgets)
        → HaveNames names.bases state.old
        → Computes code names program state.old state.new progress.old progress.new result
        (do_work code program budgets at graph.Judge) }
    ensures frame { OnOk result (StaysInFrame state.old state.new) }
    ensures locals { OnOk result
        ((program : TypedProgram) (bases : List Base) (known : ℕ → Bool)
        → KeepsLocals program bases known state.old state.new) }
    ensures unchanged { WaitsUnchanged state.old state.new result }
{
    let holds = test(state, progress, at, value(state, 0)?, Tested::Truth)?;
    replace_with(state, 1, Value::Number(number_of(holds)))
}

/// Replaces a value by whether it is zero, which is an event (C11 6.5.3.3, paragraph 5).
pub fn negate(state: &mut State, progress: &mut Progress, at: Place) -> Result<(), Pause>
    ensures act { (code : Code) (names : Naming) (program : TypedProgram) (budgets : RunBudgets)
        → HaveNames names.bases state.old
        → Computes code names program state.old state.new progress.old progress.new result
        (do_work code program budgets at graph.Not) }
    ensures frame { OnOk result (StaysInFrame state.old state.new) }
    ensures locals { OnOk result
        ((program : TypedProgram) (bases : List Base) (known : ℕ → Bool)
        → KeepsLocals program bases known state.old state.new) }
    ensures unchanged { WaitsUnchanged state.old state.new result }
{
    let holds = test(state, progress, at, value(state, 0)?, Tested::Not)?;
    replace_with(state, 1, Value::Number(number_of(!holds)))
}

/// Applies an operator with two integer operands (C11 6.5.5 to 6.5.7, 6.5.10 to 6.5.12).
pub fn binary(
    context: &Context,
    state: &mut State,
    attempt: &mut Attempt,
    at: Place,
    operator: BinOp,
    ty: IntType,
) -> Result<(), Pause>
    requires { IsReady context.now.setting.now }
    ensures kinds { KeepKinds (λ b. kind_of b) attempt.old.checkers.items
        attempt.new.checkers.items }
    ensures act { HasEveryKind (λ b. kind_of b) attempt.old.checkers.items
        → (code : Code) (names : Naming) (program : TypedProgram) (budgets : RunBudgets)
        → program.model ≡ context.now.setting.now.program.now.model
        → Computes code names program state.old state.new attempt.old.progress
        attempt.new.progress result (do_work code program budgets at (graph.Binary operator ty)) }
    ensures frame { OnOk result (StaysInFrame state.old state.new) }
    ensures locals { OnOk result
        ((program : TypedProgram) (bases : List Base) (known : ℕ → Bool)
        → KeepsLocals program bases known state.old state.new) }
    ensures unchanged { WaitsUnchanged state.old state.new result }
{
    let operands = (number(state, 1)?, number(state, 0)?);
    let result = operate(context.model(), state, attempt, at, operator, ty, operands)?;
    replace_with(state, 2, Value::Number(result))
}

/// Applies a comparison (C11 6.5.8, 6.5.9).
pub fn compare_operands(
    state: &mut State,
    attempt: &mut Attempt,
    at: Place,
    operator: CmpOp,
) -> Result<(), Pause>
    ensures kinds { KeepKinds (λ b. kind_of b) attempt.old.checkers.items
        attempt.new.checkers.items }
    ensures act { HasEveryKind (λ b. kind_of b) attempt.old.checkers.items
        → (code : Code) (names : Naming) (program : TypedProgram) (budgets : RunBudgets)
        → IsNumbered names.bases → HaveNames names.bases state.old
        → Computes code names program state.old state.new attempt.old.progress
        attempt.new.progress result (do_work code program budgets at (graph.Compare operator)) }
    ensures frame { OnOk result (StaysInFrame state.old state.new) }
    ensures locals { OnOk result
        ((program : TypedProgram) (bases : List Base) (known : ℕ → Bool)
        → KeepsLocals program bases known state.old state.new) }
    ensures unchanged { WaitsUnchanged state.old state.new result }
{
    let (left, right) = (value(state, 1)?, value(state, 0)?);
    let result = compare(state, attempt, at, operator, left, right)?;
    replace_with(state, 2, Value::Number(result))
}

/// Subtracts two pointers to objects of this size in bytes (C11 6.5.6, paragraph 9).
pub fn subtract(
    state: &mut State,
    attempt: &mut Attempt,
    at: Place,
    bytes: u64,
) -> Result<(), Pause>
    ensures kinds { KeepKinds (λ b. kind_of b) attempt.old.checkers.items
        attempt.new.checkers.items }
    ensures act { HasEveryKind (λ b. kind_of b) attempt.old.checkers.items
        → (code : Code) (names : Naming) (program : TypedProgram) (budgets : RunBudgets)
        → IsNumbered names.bases → HaveNames names.bases state.old
        → Computes code names program state.old state.new attempt.old.progress
        attempt.new.progress result (do_work code program budgets at (graph.Difference bytes)) }
{
    let pointers = (value(state, 1)?, value(state, 0)?);
    let result = difference(state, attempt, at, pointers, bytes)?;
    replace_with(state, 2, Value::Number(result))
}

/// Moves a pointer by a number of elements of this size in bytes (C11 6.5.6, paragraph 8).
pub fn add(
    context: &Context,
    state: &mut State,
    attempt: &mut Attempt,
    at: Place,
    bytes: u64,
    direction: Direction,
    order: Order,
) -> Result<(), Pause>
    requires { IsReady context.now.setting.now }
    ensures kinds { KeepKinds (λ b. kind_of b) attempt.old.checkers.items
        attempt.new.checkers.items }
    ensures act { HasEveryKind (λ b. kind_of b) attempt.old.checkers.items
        → (code : Code) (names : Naming) (program : TypedProgram) (budgets : RunBudgets)
        → program.model ≡ context.now.setting.now.program.now.model
        → HaveNames names.bases state.old
        → Computes code names program state.old state.new attempt.old.progress
        attempt.new.progress result
        (do_work code program budgets at (graph.Sum bytes direction order)) }
{
    let pointer = value(state, pointer_age(order))?;
    let amount = directed(direction, number(state, amount_age(order))?)?;
    let moved = sum(context, state, attempt, at, pointer, amount, bytes)?;
    replace_with(state, 2, moved)
}

// The age of the operand that is the pointer.
fn pointer_age(order: Order) -> usize
    ensures { result ≡ expressions.pointer_age order }
{
    match order {
        Order::PointerFirst => 1,
        Order::AmountFirst => 0,
    }
}

// The age of the operand that is the amount.
fn amount_age(order: Order) -> usize
    ensures { result ≡ expressions.amount_age order }
{
    match order {
        Order::PointerFirst => 0,
        Order::AmountFirst => 1,
    }
}

/// Converts a value: only a conversion from a number to an integer type changes it; one to `void` leaves no value (C11 6.3.2.2).
pub fn convert(
    context: &Context,
    state: &mut State,
    progress: &mut Progress,
    at: Place,
    from: &CType,
    to: &CType,
) -> Result<(), Pause>
    requires { IsReady context.now.setting.now }
    ensures act { (code : Code) (names : Naming) (program : TypedProgram) (budgets : RunBudgets)
        → program.model ≡ context.now.setting.now.program.now.model
        → Computes code names program state.old state.new progress.old progress.new result
        (do_work code program budgets at (graph.Convert (shape_of from.now) (shape_of to.now))) }
    ensures frame { OnOk result (StaysInFrame state.old state.new) }
    ensures locals { OnOk result
        ((program : TypedProgram) (bases : List Base) (known : ℕ → Bool)
        → KeepsLocals program bases known state.old state.new) }
    ensures unchanged { WaitsUnchanged state.old state.new result }
{
    let model = context.model();
    let converted = operand(state, 0)?;
    match to {
        CType::Void => replace(state, 1, Temporary::Nothing),
        CType::Int(ty) => {
            if !is_number(converted) {
                return Ok(());
            }
            let before = number(state, 0)?;
            let after = convert_number(model, state, progress, at, (from, *ty), before)?;
            replace(state, 1, Temporary::Scalar(Value::Number(after)))
        }
        CType::Pointer(_) | CType::Array(_, _) | CType::Struct(_) => Ok(()),
    }
}

/// Checks that the result of a call was set if it is used (C11 6.9.1, paragraph 12).
pub fn use_result(state: &State, attempt: &mut Attempt, at: Place) -> Result<(), Pause>
    ensures kinds { KeepKinds (λ b. kind_of b) attempt.old.checkers.items
        attempt.new.checkers.items }
    ensures act { HasEveryKind (λ b. kind_of b) attempt.old.checkers.items
        → (code : Code) (names : Naming) (program : TypedProgram) (budgets : RunBudgets)
        → HaveNames names.bases state.now
        → Computes code names program state.now state.now attempt.old.progress
        attempt.new.progress result (do_work code program budgets at graph.Use) }
{
    let Temporary::Scalar(value) = operand(state, 0)? else {
        return Ok(());
    };
    let unset = matches!(value, Value::Unset);
    attempt.check(state, at, Subject::Cell { unset })
}

// Whether an operand is a number.
fn is_number(operand: &Temporary) -> bool
    ensures { result ≡ is_number operand.now }
{
    match operand {
        Temporary::Scalar(value) => match value {
            Value::Number(_) => true,
            Value::Null | Value::At(_, _) | Value::Start(_, _) | Value::Unset => false,
        },
        Temporary::Whole(_) | Temporary::Nothing => false,
    }
}
