//! The answers to a question.
ghost use Rattle.std.specs.Prelude.{◌≡◌, None, IfOk};
ghost use Rattle.cs_constraints.specs.Constraints.{set_of, AreInhabited};
ghost use Rattle.cs_events.specs.Operations as operations;
ghost use Rattle.cs_values.specs.Results.{IsOwn};
ghost use Rattle.cs_eval.specs.Followed.{AreAnswers};
ghost use Rattle.cs_eval.specs.Forms.{AreConstants, operation_pieces};
ghost use Rattle.cs_eval.specs.Noted.{NotesGuess};
ghost use Rattle.cs_eval.specs.Ready.{HasReadyOperands};
ghost use Rattle.cs_eval.specs.Recorded.{AreRecordedAnswers};
ghost use Rattle.cs_eval.specs.Splits.{Each};

use crate::checked::check_adds;
use crate::integers::{binary, conversion, unary};
use crate::operands::{constant, constant_operation, prepared};
use crate::piece::Piece;
use crate::pieces::{Shown, one_piece};
use crate::pointers::{pointer_difference, pointer_sum};
use crate::question::Question;
use crate::setting::Setting;
use crate::tested::test;
use crate::truths::{comparison, order_test, product_test};
use cs_constraints::Constraints;
use cs_events::{Label, Operation};
use cs_terms::Sym;
use cs_types::DataModel;
use cs_values::arithmetic::{Computed, compute, is_true};
use std::alloc::{AllocError, Global};

/// Returns a piece for each label that the operation may show; no two have the same label. The given symbol,
/// which isn't declared yet, represents a guessed number. The values of terms are integers of C, those of the
/// parts of an order test from -2^100 to 2^100.
pub fn answers(
    alloc: Global,
    model: DataModel,
    constraints: &Constraints,
    question: &Question,
    guess: Sym,
) -> Result<Vec<Piece>, AllocError>
    ensures answers { IfOk result (λ pieces.
        AreAnswers model constraints.now guess.0 question.now pieces.items) }
    ensures notes { IfOk result (λ pieces.
        Each (NotesGuess model constraints.now question.now) pieces.items) }
{
    if constraints.range_of(guess).is_some() {
        return Err(AllocError);
    }
    let setting = Setting {
        alloc,
        model,
        constraints,
        guess,
    };
    let question = prepared(constraints, question)?;
    match constant_operation(&question) {
        Some(operation) => computed(&setting, operation),
        None => followed(&setting, question),
    }
}

// Returns the piece of an operation on constants.
fn computed(setting: &Setting, operation: Operation) -> Result<Vec<Piece>, AllocError>
    ensures piece { IfOk result (λ pieces. pieces.items ≡ operation_pieces setting.now.model
        operation setting.now.constraints.now) }
    ensures inhabited { IfOk result (λ pieces. AreInhabited setting.now.constraints.now) }
{
    let Some(own) = compute(setting.model, operation) else {
        return Err(AllocError);
    };
    one_piece(
        setting,
        Shown {
            label: shown(operation, own),
            answer: constant(own.number),
        },
    )
}

// Returns the label of an operation that isn't guessed.
fn shown(operation: Operation, own: Computed) -> Label
    ensures { (model : DataModel) → IsOwn model operation own
        → result ≡ operations.shows model operation None }
{
    match operation {
        Operation::Show(what) => what,
        Operation::Compare(_, _, _) | Operation::Order(_, _) | Operation::Product(_, _) => {
            Label::Truth(is_true(own.number))
        }
        Operation::Binary(_, _, _, _)
        | Operation::Unary(_, _, _)
        | Operation::Convert(_, _)
        | Operation::Sum(_, _, _)
        | Operation::Difference(_, _, _) => Label::Wrap(own.wrap),
    }
}

// Answers a question with prepared operands, not all of which are constants.
fn followed(setting: &Setting, question: Question) -> Result<Vec<Piece>, AllocError>
    requires ready { HasReadyOperands setting.now.constraints.now question }
    requires mixed { ¬ AreConstants question }
    requires fresh { set_of setting.now.constraints.now setting.now.guess.0 ≡ None }
    ensures { IfOk result (λ pieces. AreRecordedAnswers setting.now.model
        setting.now.constraints.now setting.now.guess.0 question
        pieces.items) }
{
    match question {
        Question::Binary(op, ty, left, right) => binary(setting, op, ty, left, right),
        Question::Unary(op, ty, term) => unary(setting, op, ty, term),
        Question::Convert(ty, term) => conversion(setting, ty, term),
        Question::Compare(op, left, right) => {
            let _inhabited = setting.constraints.copy()?;
            comparison(setting, op, left, right)
        }
        Question::Order(first, second) => {
            let _inhabited = setting.constraints.copy()?;
            check_adds(first, second)?;
            order_test(setting, first, second)
        }
        Question::Product(count, size) => product_test(setting, count, size),
        Question::Sum(offset, amount, size) => pointer_sum(setting, offset, amount, size),
        Question::Difference(left, right, size) => pointer_difference(setting, left, right, size),
        Question::Test(tested, term) => test(setting, tested, term),
        Question::Callee(function) => one_piece(
            setting,
            Shown {
                label: Label::Callee(function),
                answer: constant(0),
            },
        ),
    }
}
