//! The progress of an operation that is executed again from its beginning.
ghost use Rattle.std.specs.Prelude.{◌≡◌, true, IfOk, IfErr, IfSome, MatchOption};
ghost use Rattle.cs_progress.specs.declared.next.Next.TheVariants as next;
ghost use Rattle.cs_progress.specs.declared.pause.Pause.TheVariants as pause;
ghost use Rattle.cs_progress.specs.Answering.{IsNextAnswer, HasNextValue, HasNextAnswer, HasNoAnswer, IsAnsweredLater};
ghost use Rattle.cs_progress.specs.Locals.{IsOverKnown};

use crate::next::Next;
use crate::pause::Pause;
use crate::terms::known;
use cs_ast::Place;
use cs_eval::Question;
use cs_events::Outcome;
use cs_state::State;
use cs_terms::Lin;

/// The number of answers that an operation has used, and what comes next if it waits. It waits for the first event without an answer.
#[derive(Drop)]
pub struct Progress {
    pub used: usize,
    pub first: Next,
}

impl Progress {
    /// Returns the progress of an operation at its beginning.
    pub fn new() -> Progress
        ensures { result.used ≡ 0 }
    {
        Progress {
            used: 0,
            first: Next::Done,
        }
    }

    /// Returns what comes next, if the operation waits.
    pub fn into_first(self) -> Next
        ensures { result ≡ self.first }
    {
        self.first
    }

    /// Whether a later event than what is about to be done has an answer.
    pub fn is_answered_later(&self, state: &State) -> bool
        ensures later { result ≡ true → IsAnsweredLater state.now self.now.used }
        ensures last { IsAnsweredLater state.now self.now.used → result ≡ true }
    {
        self.used < state.answers.as_slice().len()
    }

    /// Makes the operation wait for this.
    pub fn wait(&mut self, first: Next) -> Pause
        ensures waits { result ≡ pause.Waits }
        ensures first { self.new.first ≡ first }
        ensures used { self.new.used ≡ self.old.used }
    {
        self.first = first;
        Pause::Waits
    }

    /// Makes the run end.
    pub fn finish(&mut self, outcome: Outcome) -> Pause
        ensures waits { result ≡ pause.Waits }
        ensures first { self.new.first ≡ next.Ends outcome }
        ensures used { self.new.used ≡ self.old.used }
    {
        self.wait(Next::Ends(outcome))
    }

    /// Returns the answer of the event that shows the result of a question; without one, the operation waits.
    pub fn ask(&mut self, state: &State, at: Place, question: Question) -> Result<Lin, Pause>
        ensures answered { IfOk result (HasNextValue state.now self.old.used self.new.used) }
        ensures over { IfOk result (IsOverKnown state.now) }
        ensures none { IfErr result (λ why. why ≡ pause.Waits
            → HasNoAnswer state.now self.old.used) }
        ensures first { IfErr result (λ why. why ≡ pause.Waits
            → self.new.first ≡ next.Asks at question) }
    {
        match self.answer(state) {
            Some(answer) => known(state, answer),
            None => Err(self.wait(Next::Asks(at, question))),
        }
    }

    /// Passes the event of a `switch`, which shows the case of a term; without an answer, the operation waits.
    pub fn select(&mut self, state: &State, at: Place, term: Lin) -> Result<(), Pause>
        ensures answered { IfOk result (λ done.
            HasNextAnswer state.now self.old.used self.new.used) }
        ensures none { IfErr result (λ why. HasNoAnswer state.now self.old.used) }
        ensures first { IfErr result (λ why. self.new.first ≡ next.Selects at term) }
    {
        match self.answer(state) {
            Some(_) => Ok(()),
            None => Err(self.wait(Next::Selects(at, term))),
        }
    }

    /// Returns the offset of an access to a base region, which is an event; without an answer, the operation waits.
    pub fn reach(&mut self, state: &State, at: Place, base: u64, offset: Lin) -> Result<Lin, Pause>
        ensures answered { IfOk result (HasNextValue state.now self.old.used self.new.used) }
        ensures none { IfErr result (λ why. why ≡ pause.Waits
            → HasNoAnswer state.now self.old.used) }
        ensures first { IfErr result (λ why. why ≡ pause.Waits
            → self.new.first ≡ next.Reaches at base offset) }
    {
        match self.answer(state) {
            Some(answer) => known(state, answer),
            None => Err(self.wait(Next::Reaches(at, base, offset))),
        }
    }

    // The next answer, if there is one.
    fn answer(&mut self, state: &State) -> Option<Lin>
        ensures next { MatchOption result (HasNoAnswer state.now self.old.used)
            (IsNextAnswer state.now self.old.used self.new.used) }
        ensures over { IfSome result (IsOverKnown state.now) }
    {
        let answer = *state.answers.as_slice().get(self.used)?;
        self.used += 1;
        Some(answer)
    }
}
