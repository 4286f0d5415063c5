//! The judge: one pass over a pool.
ghost use Rattle.std.specs.Prelude.{◌≡◌, ◌≢◌, ◌⊎◌, ◌↔◌, ℕ, suc, ◌<◌, ◌≤◌, IsTrue, IfOk, IfSome, is_some, Some, List, length, slice_get};
ghost use Rattle.cs_ast.specs.declared.place.Place as places;
ghost use Rattle.cs_events.specs.declared.guess.Guess as guesses;
ghost use Rattle.cs_events.specs.declared.operation.Operation as operations;
ghost use Rattle.cs_results.specs.declared.run.Others as several;
ghost use Rattle.cs_findings.specs.Runs.{AllRelated};
ghost use Rattle.cs_findings.specs.Grounds as grounds;
ghost use Rattle.cs_findings.specs.Grounds.{Pair};
ghost use Rattle.cs_findings.specs.Narrower as narrower;
ghost use Rattle.cs_compared.specs.Agreement.{AgreeTo};
ghost use Rattle.cs_compared.specs.Guessable.{IsGuessable};
ghost use Rattle.cs_judge.specs.declared.pool.Replay as replays;
ghost use Rattle.cs_judge.specs.declared.pool.Kept.TheVariants as kept;
ghost use Rattle.cs_judge.specs.Pools.{ShowsReal};
ghost use Rattle.cs_judge.specs.Certificates.{IsJudged, IsReplayJudged, IsCertificate, IsSpotAt, IsReady, IsSeated, ComesAlong, KeepsWith};
ghost use Rattle.cs_judge.specs.Proving.{Bare, bare, IsGuessedAt, AreProved, FindAllProofs};
ghost use Rattle.cs_judge.specs.Choosing.{IsGround};
ghost use Rattle.cs_judge.specs.Partnering.{Meets, MeetsOther, IsLeftFree, IsRightFree, Proves, CanProve, NamesProof, NamesAllProofs, FindsRow, AreCandidatesBelow};

use crate::agreement::shares;
use crate::choosing::{Candidate, chosen};
use crate::grounds::has_ground;
use crate::listing::{are_at_events, are_before};
use crate::pool::{Kept, Partners, Replay};
use cs_ast::Place;
use cs_compared::{
    agree, fits_left, fits_right, may_be_used, operands, operands_of_same, same_place,
};
use cs_events::{Event, Guess, Operation};
use cs_findings::Others;
use cs_types::DataModel;
use std::alloc::{AllocError, Global};

/// The guess that is judged, with the operation whose result it replaces.
#[derive(Clone, Copy)]
pub struct Spot {
    guess: Guess,
    // Its place among the guesses of its run.
    place: usize,
    // How many events its run passes before it.
    passed: usize,
    at: Place,
    operation: Operation,
}

/// A pool that is judged.
#[derive(Clone, Copy)]
pub struct Judge<'a> {
    model: DataModel,
    pool: &'a [Replay],
    // The events of the first run of the pool, which most other runs begin with.
    shown: &'a [Event],
    // For each run, how many of these events it passes first.
    shares: &'a [usize],
}

/// Whether each guess of each run of the pool is real with the partners that the pool names for it. A pool of replays that keep what was
/// pending is a certificate, which this checks; so if the result is true, whoever chose the runs and the partners needn't be trusted.
pub fn are_real(alloc: Global, model: DataModel, pool: &[Replay]) -> Result<bool, AllocError>
    ensures real { IfOk result (λ yes. IsTrue yes → ShowsReal model pool.now) }
    ensures convinced { IfOk result (λ yes. AreProved model pool.now → IsTrue yes) }
{
    let shown = shown_events(pool);
    let shares = shares(alloc, pool, shown)?;
    let judge = Judge {
        model,
        pool,
        shown,
        shares: shares.as_slice(),
    };
    Ok(judge.is_certificate())
}

/// Returns, for each run of the pool and each of its guesses, partners that prove it, if the pool has some.
pub fn partners(
    alloc: Global,
    model: DataModel,
    pool: &[Replay],
) -> Result<Vec<Vec<Partners>>, AllocError>
    ensures found { IfOk result (λ found. FindAllProofs model pool.now found.items) }
{
    let shown = shown_events(pool);
    let shares = shares(alloc, pool, shown)?;
    let judge = Judge {
        model,
        pool,
        shown,
        shares: shares.as_slice(),
    };
    judge.all_partners(alloc)
}

// Returns the events of the first run.
fn shown_events(pool: &[Replay]) -> &[Event] {
    match pool.first() {
        Some(replay) => replay.events.as_slice(),
        None => &[],
    }
}

impl<'a> Judge<'a> {
    // Whether each guess of each run passes.
    fn is_certificate(&self) -> bool
        requires { IsSeated self.now }
        ensures real { IsTrue result → IsCertificate self.now.model self.now.pool.now }
        ensures convinced { AreProved self.now.model self.now.pool.now → IsTrue result }
    {
        for number in 0..self.pool.len() {
            if !self.passes(number) {
                return false;
            }
        }
        true
    }

    // Whether each guess of a run passes.
    fn passes(&self, number: usize) -> bool
        requires seated { IsSeated self.now }
        requires there { number < length self.now.pool.now }
        ensures real { IsTrue result → (mine : replays.Replay)
            → slice_get self.now.pool.now number ≡ Some mine
            → IsReplayJudged self.now.model self.now.pool.now mine }
        ensures convinced { (mine : replays.Replay)
            → slice_get self.now.pool.now number ≡ Some mine
            → NamesAllProofs self.now mine → IsTrue result }
    {
        let mine = &self.pool[number];
        self.each_passes(mine, self.known(mine, number))
    }

    fn each_passes(&self, mine: &Replay, known: usize) -> bool
        requires seated { IsSeated self.now }
        requires known { AgreeTo known mine.now.events.items self.now.shown.now }
        ensures real { IsTrue result
            → IsReplayJudged self.now.model self.now.pool.now mine.now }
        ensures convinced { NamesAllProofs self.now mine.now → IsTrue result }
    {
        for place in 0..mine.run.guesses.len() {
            if !self.guess_passes(mine, known, place) {
                return false;
            }
        }
        true
    }

    fn guess_passes(&self, mine: &Replay, known: usize, place: usize) -> bool
        requires seated { IsSeated self.now }
        requires known { AgreeTo known mine.now.events.items self.now.shown.now }
        ensures real { IsTrue result → (guess : guesses.Guess)
            → slice_get mine.now.run.guesses.items place ≡ Some guess
            → IsJudged self.now.model self.now.pool.now mine.now place guess }
        ensures convinced { NamesProof self.now mine.now place → IsTrue result }
    {
        match spot_of(mine, place) {
            Some(spot) => self.spot_passes(mine, known, &spot),
            None => false,
        }
    }

    fn spot_passes(&self, mine: &Replay, known: usize, spot: &Spot) -> bool
        requires seated { IsSeated self.now }
        requires ready { IsReady self.now.shown.now mine.now known spot.now }
        ensures real { IsTrue result
            → IsJudged self.now.model self.now.pool.now mine.now spot.now.place spot.now.guess }
        ensures convinced { NamesProof self.now mine.now spot.now.place → IsTrue result }
    {
        match partners_at(mine, spot.place) {
            Some(partners) => self.is_shown(mine, known, spot, &partners),
            None => false,
        }
    }

    fn is_shown(&self, mine: &Replay, known: usize, spot: &Spot, partners: &Partners) -> bool
        requires seated { IsSeated self.now }
        requires ready { IsReady self.now.shown.now mine.now known spot.now }
        requires named { slice_get mine.now.partners.items spot.now.place
            ≡ Some partners.now }
        ensures real { IsTrue result
            → IsJudged self.now.model self.now.pool.now mine.now spot.now.place spot.now.guess }
        ensures convinced { Proves self.now mine.now spot.now.place partners.now → IsTrue result }
    {
        match self.pairs_in(mine, known, spot, partners.others) {
            Some(pairs) => {
                self.has_reason(spot, pairs) && self.is_free(mine, known, spot, partners)
            }
            None => false,
        }
    }

    // Whether operands are a ground, and a run may use the number.
    fn has_reason(&self, spot: &Spot, pairs: Others<(i128, i128)>) -> bool
        ensures ground { IsTrue result
            → IsTrue (grounds.has_ground self.now.model spot.now.operation pairs) }
        ensures used { IsTrue result → IsTrue
            (narrower.may_be_used self.now.model spot.now.operation spot.now.guess.number) }
        ensures found { IsGround self.now.model spot.now.operation pairs → IsTrue
            (narrower.may_be_used self.now.model spot.now.operation spot.now.guess.number)
            → IsTrue result }
    {
        has_ground(self.model, &spot.operation, pairs)
            && may_be_used(self.model, &spot.operation, spot.guess.number)
    }

    // Whether neither operand rules the number out.
    fn is_free(&self, mine: &Replay, known: usize, spot: &Spot, partners: &Partners) -> bool
        requires seated { IsSeated self.now }
        requires ready { IsReady self.now.shown.now mine.now known spot.now }
        ensures left { IsTrue result
            → IsLeftFree self.now mine.now spot.now partners.now.left }
        ensures right { IsTrue result
            → IsRightFree self.now mine.now spot.now partners.now.right }
        ensures found { IsGuessable spot.now.operation
            → IsLeftFree self.now mine.now spot.now partners.now.left
            → IsRightFree self.now mine.now spot.now partners.now.right → IsTrue result }
    {
        self.left_is_free(mine, known, spot, partners.left)
            && self.right_is_free(mine, known, spot, partners.right)
    }

    // Returns the operands of the partners, if they all reach the guessed operation.
    fn pairs_in(
        &self,
        mine: &Replay,
        known: usize,
        spot: &Spot,
        others: Others<usize>,
    ) -> Option<Others<(i128, i128)>>
        requires seated { IsSeated self.now }
        requires ready { IsReady self.now.shown.now mine.now known spot.now }
        ensures meet { IfSome result (AllRelated (Meets self.now mine.now spot.now) others) }
        ensures found { (pairs : several.Others Pair) → IsGuessable spot.now.operation
            → AllRelated (Meets self.now mine.now spot.now) others pairs → result ≡ Some pairs }
    {
        match others {
            Others::One(number) => Some(Others::One(self.pair_in(mine, known, spot, number)?)),
            Others::Two(first, second) => {
                let one = self.pair_in(mine, known, spot, first)?;
                let other = self.pair_in(mine, known, spot, second)?;
                Some(Others::Two(one, other))
            }
        }
    }

    // Returns the operands of a run of the pool at the guessed operation, if it gets there through the same events.
    fn pair_in(
        &self,
        mine: &Replay,
        known: usize,
        spot: &Spot,
        number: usize,
    ) -> Option<(i128, i128)>
        requires seated { IsSeated self.now }
        requires ready { IsReady self.now.shown.now mine.now known spot.now }
        ensures meets { IfSome result (Meets self.now mine.now spot.now number) }
        ensures found { (pair : Pair) → IsGuessable spot.now.operation
            → Meets self.now mine.now spot.now number pair → result ≡ Some pair }
    {
        let other = replay_at(self.pool, number)?;
        let both = known.min(self.known(other, number));
        if comes_too(mine, other, both, spot) {
            pair_at(other, spot)
        } else {
            None
        }
    }

    // Returns partners for each guess of each run.
    fn all_partners(&self, alloc: Global) -> Result<Vec<Vec<Partners>>, AllocError>
        requires { IsSeated self.now }
        ensures { IfOk result (λ found.
            FindAllProofs self.now.model self.now.pool.now found.items) }
    {
        let mut all = Vec::new(alloc);
        for number in 0..self.pool.len() {
            all.push(self.partners_of(alloc, number)?)?;
        }
        Ok(all)
    }

    // Returns partners for each guess of a run.
    fn partners_of(&self, alloc: Global, number: usize) -> Result<Vec<Partners>, AllocError>
        requires seated { IsSeated self.now }
        requires there { number < length self.now.pool.now }
        ensures { (mine : replays.Replay) → slice_get self.now.pool.now number ≡ Some mine
            → IfOk result (λ found. FindsRow self.now mine found.items) }
    {
        let mine = &self.pool[number];
        self.row_of(alloc, mine, self.known(mine, number))
    }

    fn row_of(
        &self,
        alloc: Global,
        mine: &Replay,
        known: usize,
    ) -> Result<Vec<Partners>, AllocError>
        requires seated { IsSeated self.now }
        requires known { AgreeTo known mine.now.events.items self.now.shown.now }
        ensures { IfOk result (λ found. FindsRow self.now mine.now found.items) }
    {
        let mut all = Vec::new(alloc);
        for place in 0..mine.run.guesses.len() {
            all.push(self.partners_for(alloc, mine, known, place)?)?;
        }
        Ok(all)
    }

    // Returns partners for one guess.
    fn partners_for(
        &self,
        alloc: Global,
        mine: &Replay,
        known: usize,
        place: usize,
    ) -> Result<Partners, AllocError>
        requires seated { IsSeated self.now }
        requires known { AgreeTo known mine.now.events.items self.now.shown.now }
        ensures { IfOk result (λ found.
            CanProve self.now mine.now place → Proves self.now mine.now place found) }
    {
        match spot_of(mine, place) {
            Some(spot) => {
                let candidates = self.candidates(alloc, mine, known, &spot)?;
                Ok(chosen(self.model, &spot.operation, candidates.as_slice()))
            }
            None => Ok(Partners {
                others: Others::One(usize::MAX),
                left: None,
                right: None,
            }),
        }
    }

    // Returns the runs that reach a guessed operation through the same events.
    fn candidates(
        &self,
        alloc: Global,
        mine: &Replay,
        known: usize,
        spot: &Spot,
    ) -> Result<Vec<Candidate>, AllocError>
        requires seated { IsSeated self.now }
        requires ready { IsReady self.now.shown.now mine.now known spot.now }
        ensures { IfOk result (λ found. AreCandidatesBelow self.now mine.now spot.now
            (length self.now.pool.now) found.items) }
    {
        let mut found = Vec::new(alloc);
        for number in 0..self.pool.len() {
            if let Some(pair) = self.pair_in(mine, known, spot, number) {
                found.push(Candidate { number, pair })?;
            }
        }
        Ok(found)
    }

    // Returns a number of first events that a run is known to share with the shown run.
    fn known(&self, replay: &Replay, number: usize) -> usize
        requires seated { IsSeated self.now }
        requires there { slice_get self.now.pool.now number ≡ Some replay.now }
        ensures { AgreeTo result replay.now.events.items self.now.shown.now }
    {
        match share_at(self.shares, number) {
            Some(share) => share,
            None => 0,
        }
    }

    // Whether the number could be the result with the left operand, or a run has another left operand.
    fn left_is_free(&self, mine: &Replay, known: usize, spot: &Spot, other: Option<usize>) -> bool
        requires seated { IsSeated self.now }
        requires ready { IsReady self.now.shown.now mine.now known spot.now }
        ensures real { IsTrue result → IsLeftFree self.now mine.now spot.now other }
        ensures found { IsGuessable spot.now.operation
            → IsLeftFree self.now mine.now spot.now other → IsTrue result }
    {
        fits_left(&spot.operation, spot.guess.number) || self.left_differs(mine, known, spot, other)
    }

    fn left_differs(&self, mine: &Replay, known: usize, spot: &Spot, other: Option<usize>) -> bool
        requires seated { IsSeated self.now }
        requires ready { IsReady self.now.shown.now mine.now known spot.now }
        ensures real { IsTrue result
            → MeetsOther self.now mine.now spot.now (λ pair. pair.0) other }
        ensures found { IsGuessable spot.now.operation
            → MeetsOther self.now mine.now spot.now (λ pair. pair.0) other → IsTrue result }
    {
        let Some(number) = other else {
            return false;
        };
        match self.pair_in(mine, known, spot, number) {
            Some(pair) => is_other(pair.0, operands(&spot.operation).0),
            None => false,
        }
    }

    // The same for the right operand.
    fn right_is_free(&self, mine: &Replay, known: usize, spot: &Spot, other: Option<usize>) -> bool
        requires seated { IsSeated self.now }
        requires ready { IsReady self.now.shown.now mine.now known spot.now }
        ensures real { IsTrue result → IsRightFree self.now mine.now spot.now other }
        ensures found { IsGuessable spot.now.operation
            → IsRightFree self.now mine.now spot.now other → IsTrue result }
    {
        fits_right(&spot.operation, spot.guess.number)
            || self.right_differs(mine, known, spot, other)
    }

    fn right_differs(&self, mine: &Replay, known: usize, spot: &Spot, other: Option<usize>) -> bool
        requires seated { IsSeated self.now }
        requires ready { IsReady self.now.shown.now mine.now known spot.now }
        ensures real { IsTrue result
            → MeetsOther self.now mine.now spot.now (λ pair. pair.1) other }
        ensures found { IsGuessable spot.now.operation
            → MeetsOther self.now mine.now spot.now (λ pair. pair.1) other → IsTrue result }
    {
        let Some(number) = other else {
            return false;
        };
        match self.pair_in(mine, known, spot, number) {
            Some(pair) => is_other(pair.1, operands(&spot.operation).1),
            None => false,
        }
    }
}

fn is_other(one: i128, other: i128) -> bool
    ensures { IsTrue result ↔ (one ≢ other) }
{
    one != other
}

// Whether another run has guesses at exactly the events before the guess at which mine has some, and passes the same events before it.
fn comes_too(mine: &Replay, other: &Replay, known: usize, spot: &Spot) -> bool
    requires known { AgreeTo known mine.now.events.items other.now.events.items }
    requires spot { IsSpotAt mine.now spot.now.place spot.now }
    ensures { IsTrue result ↔ ComesAlong mine.now spot.now other.now }
{
    are_at_events(
        spot.place,
        mine.run.guesses.as_slice(),
        other.run.guesses.as_slice(),
    ) && spot.passed <= other.events.len()
        && agree(
            mine.events.as_slice(),
            other.events.as_slice(),
            known,
            spot.passed,
        )
}

// Returns the operands of another run at the guessed operation, if it keeps the same operation there.
fn pair_at(other: &Replay, spot: &Spot) -> Option<(i128, i128)>
    ensures kept { IfSome result (KeepsWith other.now spot.now) }
    ensures found { (pair : Pair) → IsGuessable spot.now.operation
        → KeepsWith other.now spot.now pair → result ≡ Some pair }
{
    let (at, operation) = operation_at(other, spot.passed)?;
    if same_place(at, spot.at) {
        operands_of_same(&spot.operation, &operation)
    } else {
        None
    }
}

// Returns the notes about the guess at a place, if an operation is kept there and the guesses are in order.
fn spot_of(mine: &Replay, place: usize) -> Option<Spot>
    ensures notes { IfSome result (IsSpotAt mine.now place) }
    ensures found { (pool : List Bare) (guess : guesses.Guess) (passed : ℕ) (at : places.Place)
        (operation : operations.Operation)
        → IsGuessedAt pool (bare mine.now) place guess passed at operation
        → IsTrue (is_some result) }
{
    let guess = guess_at(mine, place)?;
    let passed = events_before(guess)?;
    let (at, operation) = operation_at(mine, passed)?;
    let is_right = passed <= mine.events.len()
        && are_before(place, guess.event, mine.run.guesses.as_slice());
    if is_right {
        Some(Spot {
            guess,
            place,
            passed,
            at,
            operation,
        })
    } else {
        None
    }
}

// Returns how many events are passed before a guess.
fn events_before(guess: Guess) -> Option<usize>
    ensures number { IfSome result (λ passed. guess.event ≡ suc passed) }
    ensures found { (passed : ℕ) → guess.event ≡ suc passed → result ≡ Some passed }
{
    let passed = guess.event.checked_sub(1)?;
    Some(passed as usize)
}

// Returns the operation that was kept after this many events, with its position.
fn operation_at(replay: &Replay, passed: usize) -> Option<(Place, Operation)>
    ensures kept { IfSome result (λ found. slice_get replay.now.kept.items passed
        ≡ Some (kept.Operates found.0 found.1)) }
    ensures found { (at : places.Place) (operation : operations.Operation)
        → slice_get replay.now.kept.items passed ≡ Some (kept.Operates at operation)
        → result ≡ Some (at, operation) }
{
    match replay.kept.get(passed) {
        Some(kept) => match *kept {
            Kept::Operates(at, operation) => Some((at, operation)),
            Kept::Other => None,
        },
        None => None,
    }
}

fn guess_at(replay: &Replay, place: usize) -> Option<Guess>
    ensures { result ≡ slice_get replay.now.run.guesses.items place }
{
    match replay.run.guesses.get(place) {
        Some(guess) => Some(*guess),
        None => None,
    }
}

fn partners_at(replay: &Replay, place: usize) -> Option<Partners>
    ensures { result ≡ slice_get replay.now.partners.items place }
{
    match replay.partners.get(place) {
        Some(partners) => Some(*partners),
        None => None,
    }
}

fn share_at(shares: &[usize], number: usize) -> Option<usize>
    ensures { IfSome result (λ share. slice_get shares.now number ≡ Some share) }
{
    match shares.get(number) {
        Some(share) => Some(*share),
        None => None,
    }
}

fn replay_at(pool: &[Replay], number: usize) -> Option<&Replay>
    ensures there { IfSome result (λ replay. slice_get pool.now number ≡ Some replay.now) }
    ensures found { number < length pool.now → IsTrue (is_some result) }
{
    pool.get(number)
}
