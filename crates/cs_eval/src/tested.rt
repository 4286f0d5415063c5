//! Tests: whether a number isn't 0.
ghost use Rattle.std.specs.Prelude.{◌≡◌, ℤ, pos, IfOk};
ghost use Rattle.cs_events.specs.Operations.{compares};
ghost use Rattle.cs_eval.specs.declared.question.Question.{Question};
ghost use Rattle.cs_eval.specs.Followed.{AreAnswers};
ghost use Rattle.cs_eval.specs.Operands.{IsTermInside};
ghost use Rattle.cs_eval.specs.Parts.{number_term};
ghost use Rattle.cs_eval.specs.Questions.{holds_for, label_of};

use crate::halves::split_by_sign;
use crate::operands::constant;
use crate::piece::Piece;
use crate::pieces::{Shown, halves_pieces};
use crate::question::Tested;
use crate::setting::Setting;
use cs_ast::typed::operator::CmpOp;
use cs_events::Label;
use cs_terms::Lin;
use std::alloc::AllocError;

/// Splits by whether a number isn't 0. The label isn't a number, so the answer is 0.
pub(crate) fn test(setting: &Setting, tested: Tested, term: Lin) -> Result<Vec<Piece>, AllocError>
    requires { IsTermInside setting.now.constraints.now term }
    ensures { IfOk result (λ pieces. AreAnswers setting.now.model setting.now.constraints.now
        setting.now.guess.0 (Question.Test tested term) pieces.items) }
{
    let halves = split_by_sign(setting.alloc, setting.constraints, test_of(tested), term)?;
    let yes = shown(tested, true);
    let no = shown(tested, false);
    halves_pieces(setting.alloc, halves, yes, no)
}

// Returns the comparison with 0 that holds exactly if a test shows true.
fn test_of(tested: Tested) -> CmpOp
    ensures { (x : ℤ) → compares result x (pos 0) ≡ holds_for tested x }
{
    match tested {
        Tested::Not => CmpOp::Equal,
        Tested::Look => CmpOp::Differs,
        Tested::Branch => CmpOp::Differs,
        Tested::Truth => CmpOp::Differs,
        Tested::Alloc => CmpOp::Differs,
    }
}

// Returns what a test shows.
fn shown(tested: Tested, holds: bool) -> Shown
    ensures label { result.label ≡ label_of tested holds }
    ensures answer { result.answer ≡ number_term (pos 0) }
{
    Shown {
        label: label(tested, holds),
        answer: constant(0),
    }
}

fn label(tested: Tested, holds: bool) -> Label
    ensures { result ≡ label_of tested holds }
{
    match tested {
        Tested::Look => Label::Look(holds),
        Tested::Branch => Label::Branch(holds),
        Tested::Truth => Label::Truth(holds),
        Tested::Not => Label::Truth(holds),
        Tested::Alloc => Label::Alloc(holds),
    }
}
