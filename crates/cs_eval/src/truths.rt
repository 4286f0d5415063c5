//! Operations that show a truth: comparisons, order tests, the order test of `calloc`.
ghost use Rattle.std.specs.Prelude.{◌≡◌, ℤ, pos, int_le, ◌≤ℤ◌, ◌*ℤ◌, IsTrue, None, IfOk, OnOk};
ghost use Rattle.cs_ranges.specs.RangeSet.{contains, IsInhabited};
ghost use Rattle.cs_terms.specs.Conditions.{CanAdd};
ghost use Rattle.cs_terms.specs.Term.{value_at, IsTerm};
ghost use Rattle.cs_constraints.specs.Constraints.{set_of, AreInhabited};
ghost use Rattle.cs_eval.specs.declared.question.Question.{Question};
ghost use Rattle.cs_eval.specs.Operands.{IsBetween, IsTermBetween, LOWEST, HIGHEST};
ghost use Rattle.cs_eval.specs.Operands.{HasEnds, HasEndsOver, IsEndsOfSum, IsReadyOperand, IsSeveral};
ghost use Rattle.cs_eval.specs.ProductTests.{IsTermOfCounts, IsFollowedByEnds, IsFollowedByFactor, IsFollowedByProduct};
ghost use Rattle.cs_eval.specs.Recorded.{AreRecordedAnswers, RecordsInexact};
ghost use Rattle.cs_eval.specs.Splits.{Each};
ghost use Rattle.cs_events.specs.Operations.{truth_number};
ghost use Rattle.cs_eval.specs.Truths.{IsReady, ArePiecesOf, AreOfGuess, IsGuessOf, IsFollowedBySign};

use crate::checked::{check_between, check_inside_values, moved};
use crate::guesses::Inexact;
use crate::halves::split_by_sign;
use crate::operands::number;
use crate::piece::Piece;
use crate::pieces::{guessed_piece, halves_pieces, one_piece, truth};
use crate::setting::Setting;
use cs_ast::typed::operator::CmpOp;
use cs_constraints::Constraints;
use cs_events::Label;
use cs_ranges::{Interval, RangeSet, affine_value};
use cs_signs::sign_between;
use cs_state::{Asks, Fact};
use cs_terms::{Lin, Lin2, diff, merged};
use cs_types::product_bound;
use std::alloc::AllocError;

/// How a truth is followed.
enum Followed {
    /// It holds exactly if this comparison of the term with 0 holds.
    Where(CmpOp, Lin),
    /// It always holds or never does, whatever the numbers of the symbols are.
    Always(bool),
    /// It isn't followed exactly.
    No,
}

/// Compares two numbers that aren't both constants.
pub(crate) fn comparison(
    setting: &Setting,
    op: CmpOp,
    left: Lin,
    right: Lin,
) -> Result<Vec<Piece>, AllocError>
    requires left { IsReadyOperand setting.now.constraints.now left }
    requires right { IsReadyOperand setting.now.constraints.now right }
    requires fresh { set_of setting.now.constraints.now setting.now.guess.0 ≡ None }
    requires inhabited { AreInhabited setting.now.constraints.now }
    ensures { IfOk result (λ pieces. AreRecordedAnswers setting.now.model
        setting.now.constraints.now setting.now.guess.0 (Question.Compare op left right)
        pieces.items) }
{
    let term = diff(left, right);
    let followed = followed_by_sign(setting.constraints, op, term);
    let inexact = Inexact {
        asks: Asks::Compare(op),
        left,
        right,
        fact: Some(Fact { op, term }),
    };
    truth_split(setting, followed, &inexact)
}

/// Tests whether the sum of two parts that aren't both constants isn't below 0 (an order test).
pub(crate) fn order_test(
    setting: &Setting,
    first: Lin,
    second: Lin,
) -> Result<Vec<Piece>, AllocError>
    requires first { IsTermBetween setting.now.constraints.now LOWEST HIGHEST first }
    requires second { IsTermBetween setting.now.constraints.now LOWEST HIGHEST second }
    requires adds { CanAdd first second }
    requires several { IsSeveral setting.now.constraints.now first
        × IsSeveral setting.now.constraints.now second }
    requires fresh { set_of setting.now.constraints.now setting.now.guess.0 ≡ None }
    requires inhabited { AreInhabited setting.now.constraints.now }
    ensures { IfOk result (λ pieces. AreRecordedAnswers setting.now.model
        setting.now.constraints.now setting.now.guess.0 (Question.Order first second)
        pieces.items) }
{
    let term = Lin2 { first, second };
    let followed = followed_by_sign(setting.constraints, CmpOp::AtLeast, term);
    let inexact = Inexact {
        asks: Asks::Order,
        left: first,
        right: second,
        fact: Some(Fact {
            op: CmpOp::AtLeast,
            term,
        }),
    };
    truth_split(setting, followed, &inexact)
}

/// Does the order test of `calloc` for two numbers that aren't both constants.
pub(crate) fn product_test(
    setting: &Setting,
    count: Lin,
    size: Lin,
) -> Result<Vec<Piece>, AllocError>
    requires count { IsSeveral setting.now.constraints.now count }
    requires size { IsSeveral setting.now.constraints.now size }
    requires fresh { set_of setting.now.constraints.now setting.now.guess.0 ≡ None }
    ensures { IfOk result (λ pieces. AreRecordedAnswers setting.now.model
        setting.now.constraints.now setting.now.guess.0 (Question.Product count size)
        pieces.items) }
{
    check_counts(setting.constraints, count)?;
    check_counts(setting.constraints, size)?;
    let followed = followed_by_product(setting, count, size)?;
    let inexact = Inexact::new(Asks::Product, count, size);
    truth_split(setting, followed, &inexact)
}

// Returns the pieces of a truth: exact ones if it is followed, else both with a guess.
fn truth_split(
    setting: &Setting,
    followed: Followed,
    inexact: &Inexact,
) -> Result<Vec<Piece>, AllocError>
    requires { IsReady setting.now.constraints.now followed }
    ensures pieces { IfOk result (λ pieces.
        ArePiecesOf setting.now.constraints.now setting.now.guess.0 followed pieces.items) }
    ensures records { IfOk result (λ pieces.
        Each (RecordsInexact setting.now.constraints.now inexact.now) pieces.items) }
{
    match followed {
        Followed::Where(op, term) => {
            let halves = split_by_sign(setting.alloc, setting.constraints, op, term)?;
            let yes = truth(true);
            let no = truth(false);
            halves_pieces(setting.alloc, halves, yes, no)
        }
        Followed::Always(holds) => one_piece(setting, truth(holds)),
        Followed::No => guessed_truths(setting, inexact),
    }
}

// Returns a piece for each truth, with its guess.
fn guessed_truths(setting: &Setting, inexact: &Inexact) -> Result<Vec<Piece>, AllocError>
    ensures pieces { IfOk result (λ pieces.
        AreOfGuess setting.now.constraints.now setting.now.guess.0 pieces.items) }
    ensures records { IfOk result (λ pieces.
        Each (RecordsInexact setting.now.constraints.now inexact.now) pieces.items) }
{
    let yes = guessed_truth(setting, true, inexact)?;
    let no = guessed_truth(setting, false, inexact)?;
    let mut pieces = Vec::with_capacity(setting.alloc, 2)?;
    pieces.push(yes)?;
    pieces.push(no)?;
    Ok(pieces)
}

fn guessed_truth(setting: &Setting, holds: bool, inexact: &Inexact) -> Result<Piece, AllocError>
    ensures piece { IfOk result
        (IsGuessOf setting.now.constraints.now setting.now.guess.0 holds) }
    ensures records { IfOk result (RecordsInexact setting.now.constraints.now inexact.now) }
{
    let numbers = only(holds);
    let constraints = setting.constraints.copy()?;
    let guessed = inexact.guessed(setting.constraints);
    guessed_piece(setting, constraints, Label::Truth(holds), numbers, guessed)
}

// Returns the interval with only the number of a truth.
fn only(holds: bool) -> Interval
    ensures low { result.low ≡ truth_number holds }
    ensures high { result.high ≡ truth_number holds }
{
    let number = i128::from(holds);
    Interval {
        low: number,
        high: number,
    }
}

// Returns how a comparison of a sum with 0 is followed: exactly over at most one symbol, else if the ends decide it.
fn followed_by_sign(constraints: &Constraints, op: CmpOp, term: Lin2) -> Followed
    requires first { IsTermBetween constraints.now LOWEST HIGHEST term.first }
    requires second { IsTermBetween constraints.now LOWEST HIGHEST term.second }
    requires adds { CanAdd term.first term.second }
    requires inhabited { AreInhabited constraints.now }
    ensures { IsFollowedBySign constraints.now op term result }
{
    if let Some(sum) = merged(term) {
        return Followed::Where(op, sum);
    }
    let ends = ends_of_sum(constraints, term);
    match sign_between(op, ends) {
        Some(true) => Followed::Always(true),
        Some(false) => Followed::Always(false),
        None => Followed::No,
    }
}

// Returns the least and the greatest value of a sum of two terms.
fn ends_of_sum(constraints: &Constraints, term: Lin2) -> Interval
    requires first { IsTermBetween constraints.now LOWEST HIGHEST term.first }
    requires second { IsTermBetween constraints.now LOWEST HIGHEST term.second }
    ensures { IsEndsOfSum constraints.now term result }
{
    let first = values_of(constraints, term.first);
    let second = values_of(constraints, term.second);
    Interval {
        low: first.low + second.low,
        high: first.high + second.high,
    }
}

// Checks that the values of a term are integers of C that aren't below 0, as those of `size_t` are.
fn check_counts(constraints: &Constraints, term: Lin) -> Result<(), AllocError>
    ensures { OnOk result (IsTermOfCounts constraints.now term) }
{
    check_between(constraints, term, 0, i128::from(u64::MAX))
}

// Returns how it is followed whether a product is at most the bound of one allocation.
fn followed_by_product(setting: &Setting, count: Lin, size: Lin) -> Result<Followed, AllocError>
    requires count { IsTermOfCounts setting.now.constraints.now count }
    requires size { IsTermOfCounts setting.now.constraints.now size }
    requires several { IsSeveral setting.now.constraints.now count
        × IsSeveral setting.now.constraints.now size }
    ensures { IfOk result
        (IsFollowedByProduct setting.now.model setting.now.constraints.now count size) }
{
    if let Some(factor) = number(size) {
        return followed_by_factor(setting, count, factor);
    }
    if let Some(factor) = number(count) {
        return followed_by_factor(setting, size, factor);
    }
    Ok(followed_by_ends(setting, count, size))
}

// A product whose factors are both over symbols is followed if the ends decide.
fn followed_by_ends(setting: &Setting, count: Lin, size: Lin) -> Followed
    requires count { IsTermOfCounts setting.now.constraints.now count }
    requires size { IsTermOfCounts setting.now.constraints.now size }
    ensures { IsFollowedByEnds setting.now.model setting.now.constraints.now count size result }
{
    let count = values_of(setting.constraints, count);
    let size = values_of(setting.constraints, size);
    let bound = i128::from(product_bound(setting.model));
    if is_product_within(bound, count.high, size.high) {
        Followed::Always(true)
    } else if is_product_within(bound, count.low, size.low) {
        Followed::No
    } else {
        Followed::Always(false)
    }
}

// A term times a constant factor is within the bound exactly if the term is at most the bound divided by the factor.
fn followed_by_factor(setting: &Setting, term: Lin, factor: i128) -> Result<Followed, AllocError>
    requires { IsTermOfCounts setting.now.constraints.now term }
    ensures { IfOk result
        (IsFollowedByFactor setting.now.model setting.now.constraints.now term factor) }
{
    if factor <= 0 {
        return Ok(Followed::Always(true));
    }
    let bound = i128::from(product_bound(setting.model));
    let greatest = bound / factor;
    let above = moved(term, -greatest)?;
    check_inside_values(setting.constraints, above)?;
    Ok(Followed::Where(CmpOp::AtMost, above))
}

// Whether the product of two numbers that aren't below 0 is within the bound. A product that overflows 128
// bits isn't.
fn is_product_within(bound: i128, count: i128, size: i128) -> bool
    ensures { pos 0 ≤ℤ count → pos 0 ≤ℤ size
        → result ≡ int_le (count *ℤ size) bound }
{
    match count.checked_mul(size) {
        Some(product) => product <= bound,
        None => false,
    }
}

// Returns the least and the greatest value of a term, which are at the ends of its symbol's numbers: a term
// is monotonic.
fn values_of(constraints: &Constraints, term: Lin) -> Interval
    requires { IsTermBetween constraints.now LOWEST HIGHEST term }
    ensures ends { HasEnds constraints.now term result }
    ensures low { IsBetween LOWEST HIGHEST result.low }
    ensures high { IsBetween LOWEST HIGHEST result.high }
{
    let Some(sym) = term.sym else {
        return Interval {
            low: term.value,
            high: term.value,
        };
    };
    let Some(range) = constraints.range_of(sym) else {
        unreachable!()
    };
    values_over(term, range)
}

// Returns the least and the greatest value of a term over the numbers of its symbol.
fn values_over(term: Lin, range: &RangeSet) -> Interval
    requires term { IsTerm term }
    requires inhabited { IsInhabited range.now }
    requires values { (x : ℤ) → IsTrue (contains range.now x)
        → IsBetween LOWEST HIGHEST (value_at term x) }
    ensures { HasEndsOver term range.now result }
{
    let (Some(least), Some(greatest)) = (range.least(), range.greatest()) else {
        unreachable!()
    };
    let first = affine_value(term.slope, term.at, term.value, least);
    let last = affine_value(term.slope, term.at, term.value, greatest);
    if first <= last {
        return Interval {
            low: first,
            high: last,
        };
    }
    Interval {
        low: last,
        high: first,
    }
}
