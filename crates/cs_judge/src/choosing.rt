//! Chooses partners for the guesses of a pool: some that are a ground, if the pool has any.
ghost use Rattle.std.specs.Prelude.{◌≡◌, ◌≢◌, ◌↔◌, ℕ, IsTrue, IfSome, is_some};
ghost use Rattle.cs_results.specs.declared.run.Others as several;
ghost use Rattle.cs_results.specs.declared.run.Others.TheVariants.{One, Two};
ghost use Rattle.cs_findings.specs.Runs.{AllRelated};
ghost use Rattle.cs_findings.specs.Operands as specs;
ghost use Rattle.cs_findings.specs.Grounds.{Pair};
ghost use Rattle.cs_judge.specs.Choosing.{IsGround, IsCandidate, GivesGround, GivesGroundWith, NamesOther};

use crate::grounds::has_ground;
use crate::pool::Partners;
use cs_compared::operands;
use cs_events::Operation;
use cs_findings::Others;
use cs_types::DataModel;

/// A run of the pool that reaches a guessed operation, with its operands there.
#[derive(Clone, Copy)]
pub struct Candidate {
    pub number: usize,
    pub pair: (i128, i128),
}

/// Returns the first candidate that is a ground by itself, or else the first two that are one together; and the first candidates with
/// another left and another right operand.
pub fn chosen(model: DataModel, operation: &Operation, candidates: &[Candidate]) -> Partners
    ensures others { (numbers : several.Others ℕ) (pairs : several.Others Pair)
        → AllRelated (IsCandidate candidates.now) numbers pairs
        → IsGround model operation.now pairs
        → GivesGround candidates.now model operation.now result.others }
    ensures left { (number : ℕ) (pair : Pair) → IsCandidate candidates.now number pair
        → pair.0 ≢ (specs.operands operation.now).0
        → NamesOther candidates.now operation.now (λ pair. pair.0) result.left }
    ensures right { (number : ℕ) (pair : Pair) → IsCandidate candidates.now number pair
        → pair.1 ≢ (specs.operands operation.now).1
        → NamesOther candidates.now operation.now (λ pair. pair.1) result.right }
{
    let others = one_or_two(model, operation, candidates);
    Partners {
        others: others.unwrap_or(Others::One(usize::MAX)),
        left: other_left(operation, candidates),
        right: other_right(operation, candidates),
    }
}

fn one_or_two(
    model: DataModel,
    operation: &Operation,
    candidates: &[Candidate],
) -> Option<Others<usize>>
    ensures given { IfSome result (GivesGround candidates.now model operation.now) }
    ensures found { (numbers : several.Others ℕ) (pairs : several.Others Pair)
        → AllRelated (IsCandidate candidates.now) numbers pairs
        → IsGround model operation.now pairs → IsTrue (is_some result) }
{
    match one_alone(model, operation, candidates) {
        Some(others) => Some(others),
        None => two_together(model, operation, candidates),
    }
}

fn one_alone(
    model: DataModel,
    operation: &Operation,
    candidates: &[Candidate],
) -> Option<Others<usize>>
    ensures given { IfSome result (GivesGround candidates.now model operation.now) }
    ensures found { (number : ℕ) (pair : Pair) → IsCandidate candidates.now number pair
        → IsGround model operation.now (One pair) → IsTrue (is_some result) }
{
    for one in candidates {
        if has_ground(model, operation, Others::One(one.pair)) {
            return Some(Others::One(one.number));
        }
    }
    None
}

fn two_together(
    model: DataModel,
    operation: &Operation,
    candidates: &[Candidate],
) -> Option<Others<usize>>
    ensures given { IfSome result (GivesGround candidates.now model operation.now) }
    ensures found { (one two : ℕ) (first second : Pair) → IsCandidate candidates.now one first
        → IsCandidate candidates.now two second
        → IsGround model operation.now (Two first second) → IsTrue (is_some result) }
{
    for one in candidates {
        if let Some(second) = second_for(model, operation, *one, candidates) {
            return Some(Others::Two(one.number, second));
        }
    }
    None
}

// Returns the first candidate that is a ground together with another one. The order of the two makes no difference to a ground.
fn second_for(
    model: DataModel,
    operation: &Operation,
    one: Candidate,
    candidates: &[Candidate],
) -> Option<usize>
    ensures given { IfSome result (GivesGroundWith candidates.now model operation.now one.pair) }
    ensures found { (number : ℕ) (pair : Pair) → IsCandidate candidates.now number pair
        → IsGround model operation.now (Two one.pair pair) → IsTrue (is_some result) }
{
    for other in candidates {
        if has_ground(model, operation, Others::Two(one.pair, other.pair)) {
            return Some(other.number);
        }
    }
    None
}

fn other_left(operation: &Operation, candidates: &[Candidate]) -> Option<usize>
    ensures { (number : ℕ) (pair : Pair) → IsCandidate candidates.now number pair
        → pair.0 ≢ (specs.operands operation.now).0
        → NamesOther candidates.now operation.now (λ pair. pair.0) result }
{
    for one in candidates {
        if differs_left(operation, one) {
            return Some(one.number);
        }
    }
    None
}

fn other_right(operation: &Operation, candidates: &[Candidate]) -> Option<usize>
    ensures { (number : ℕ) (pair : Pair) → IsCandidate candidates.now number pair
        → pair.1 ≢ (specs.operands operation.now).1
        → NamesOther candidates.now operation.now (λ pair. pair.1) result }
{
    for one in candidates {
        if differs_right(operation, one) {
            return Some(one.number);
        }
    }
    None
}

fn differs_left(operation: &Operation, one: &Candidate) -> bool
    ensures { IsTrue result ↔ (one.now.pair.0 ≢ (specs.operands operation.now).0) }
{
    one.pair.0 != operands(operation).0
}

fn differs_right(operation: &Operation, one: &Candidate) -> bool
    ensures { IsTrue result ↔ (one.now.pair.1 ≢ (specs.operands operation.now).1) }
{
    one.pair.1 != operands(operation).1
}
