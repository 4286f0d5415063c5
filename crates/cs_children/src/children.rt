//! The successors of a state: the states directly after its next events, and its ends.
ghost use Rattle.std.specs.Prelude.{◌≡◌, ◌≤◌, true, false, [], ◌∷◌, map, option_map, OnOk, IfOk, MatchOption};
ghost use Rattle.cs_objects.specs.Prepared.{IsReady};
ghost use Rattle.cs_constraints.specs.Constraints.{IsDeclared};
ghost use Rattle.cs_state.specs.Naming.{naming, Extends};
ghost use Rattle.cs_operators.specs.Asking.{KeepKinds, HasEveryKind};
ghost use Rattle.cs_children.specs.Adding.{Adds, AddsChildren, AddsPieces, AddsFaulty, KeepApart, HaveOthers};
ghost use Rattle.cs_pieces.specs.Pieces.{asked_for, AreOfQuestion, AreOfSwitch, GoesOn, IsNextEvent, IsPassed};
ghost use Rattle.cs_children.specs.Finding.{AreNone, FindsAll};
ghost use Rattle.cs_successors.specs.Explorations.{code_of, model_of};

use crate::settled::settled;
use cs_access::{Checked, FaultyPart, Reached, ReachedOffset, Rest, is_known, reach};
use cs_ast::Place;
use cs_cfg::{BlockEnd, Instruction};
use cs_checker::Checker;
use cs_eval::{Guessed, Piece, Question, answers, select};
use cs_events::{Budget, Event, Label, Outcome};
use cs_explored::{Child, constant, leads_on, phase_after};
use cs_operators::Attempt;
use cs_progress::Next;
use cs_results::Cut;
use cs_state::{Asked, Counters, State, Tables};
use cs_steps::proceed;
use cs_successors::Exploration;
use cs_terms::{Lin, Sym, SymName};
use std::alloc::{AllocError, Global};
use std::mem;

/// The successors of a state, and the cuts there.
#[derive(Drop)]
pub struct Children {
    pub made: Vec<Child>,
    pub ends: Vec<(Outcome, Box<State>)>,
    pub cuts: Vec<Cut>,
}

impl Children {
    /// Returns children without successors and cuts.
    pub fn new(alloc: Global) -> Children
        ensures { AreNone result }
    {
        Children {
            made: Vec::new(alloc),
            ends: Vec::new(alloc),
            cuts: Vec::new(alloc),
        }
    }

    /// Finds all successors of a state.
    pub fn find(
        &mut self,
        exploration: &Exploration,
        state: Box<State>,
        tables: &mut Tables,
        checkers: &mut Vec<Box<dyn Checker>>,
    ) -> Result<(), AllocError>
        requires { IsReady exploration.now.context.now.setting.now }
        ensures kinds { map (λ b. kind_of b) checkers.new.items
            ≡ map (λ b. kind_of b) checkers.old.items }
        ensures extends { Extends (naming tables.old) (naming tables.new) }
        ensures all { HasEveryKind (λ b. kind_of b) checkers.old.items → AreNone self.old
            → OnOk result (FindsAll exploration.now (naming tables.new) state.value self.new) }
    {
        let alloc = exploration.context.alloc;
        let mut attempt = Attempt::new(alloc, mem::replace(checkers, Vec::new(alloc)));
        let found = self.find_with(exploration, state, tables, &mut attempt);
        mem::swap(checkers, &mut attempt.checkers);
        found
    }

    // Finds all successors of a state, with an attempt that has the checkers.
    fn find_with(
        &mut self,
        exploration: &Exploration,
        state: Box<State>,
        tables: &mut Tables,
        attempt: &mut Attempt,
    ) -> Result<(), AllocError>
        requires { IsReady exploration.now.context.now.setting.now }
        ensures kinds { KeepKinds (λ b. (⟦<dyn Checker as Checker>⟧ b.vtable).kind_of b.value)
            attempt.old.checkers.items attempt.new.checkers.items }
        ensures extends { Extends (naming tables.old) (naming tables.new) }
        ensures all { HasEveryKind (λ b. (⟦<dyn Checker as Checker>⟧ b.vtable).kind_of b.value)
            attempt.old.checkers.items → AreNone self.old
            → OnOk result (FindsAll exploration.now (naming tables.new) state.value self.new) }
    {
        let mut state = state;
        for _ in 0..u64::MAX {
            if proceed(exploration.context, &mut *state, tables, attempt)? {
                continue;
            }
            match mem::replace(&mut attempt.progress.first, Next::Done) {
                Next::Done => {}
                Next::Checks(at, checked) => {
                    let alloc = exploration.context.alloc;
                    if !self.checked(alloc, &mut *state, at, checked)? {
                        return Ok(());
                    }
                }
                Next::Ends(outcome) => return self.end(outcome, state),
                Next::Asks(at, question) => {
                    return self.ask(exploration, state, tables, at, &question);
                }
                Next::Selects(at, term) => return self.select(exploration, state, at, term),
                Next::Reaches(at, _, offset) => return self.reach(exploration, state, at, offset),
            }
        }
        Err(AllocError)
    }

    // Adds an end of a state. No other end has this outcome, so the want of memory below is never returned: each check that splits a
    // state belongs to an operation with an event, directly before it (an operator's) or directly after it (when a pointer was inspected). So
    // between two events a place is checked once in such a way, and the faults of one kind are one part.
    fn end(&mut self, outcome: Outcome, state: Box<State>) -> Result<(), AllocError>
        ensures adds { OnOk result (Adds self.old self.new [] ((outcome, state) ∷ [])) }
        ensures apart { OnOk result (KeepApart self.old self.new) }
    {
        if self.has_end(outcome) {
            return Err(AllocError);
        }
        self.ends.push((outcome, state))?;
        Ok(())
    }

    // Whether there is an end with this outcome.
    fn has_end(&self, outcome: Outcome) -> bool
        ensures { result ≡ false → HaveOthers outcome self.now.ends.items }
    {
        for (found, _) in &self.ends {
            if is_same(*found, outcome) {
                return true;
            }
        }
        false
    }

    // Handles what checkers have found: the faulty parts of a state become ends, and the rest continues; false if there is no rest.
    #[inline(never)]
    fn checked(
        &mut self,
        alloc: Global,
        state: &mut State,
        at: Place,
        checked: Box<Checked>,
    ) -> Result<bool, AllocError>
        ensures adds { IfOk result (λ goes. AddsFaulty at checked.value.faults.items
            self.old self.new) }
        ensures rest { IfOk result (λ goes. GoesOn checked.value.rest goes
            state.old state.new) }
        ensures apart { IfOk result (λ goes. KeepApart self.old self.new) }
    {
        let Checked { faults, rest } = Box::into_inner(checked);
        self.end_faulty(alloc, at, faults)?;
        match rest {
            Rest::Whole => Ok(true),
            Rest::Part(rest) => {
                *state = Box::into_inner(rest);
                Ok(true)
            }
            Rest::Nothing => Ok(false),
        }
    }

    // Adds the faulty parts of a state as ends.
    fn end_faulty(
        &mut self,
        alloc: Global,
        at: Place,
        faults: Vec<FaultyPart>,
    ) -> Result<(), AllocError>
        ensures adds { OnOk result (AddsFaulty at faults.items self.old self.new) }
        ensures apart { OnOk result (KeepApart self.old self.new) }
    {
        for fault in faults {
            let FaultyPart { kind, state } = fault;
            let state = Box::new(alloc, state)?;
            self.end(Outcome::Fault(kind, at), state)?;
        }
        Ok(())
    }

    // Adds the successors of a state whose operation shows a label. The symbol of the guess isn't declared, since it is named by the number
    // of the next event, and a state declares the symbol of a guess only when it passes that event: so want of memory is never returned for it.
    #[inline(never)]
    fn ask(
        &mut self,
        exploration: &Exploration,
        state: Box<State>,
        tables: &mut Tables,
        at: Place,
        question: &Question,
    ) -> Result<(), AllocError>
        ensures extends { Extends (naming tables.old) (naming tables.new) }
        ensures adds { OnOk result (AddsPieces exploration.now.budgets.events
            exploration.now.rules.now state at (AreOfQuestion (model_of exploration.now)
            (naming tables.new) state.value question.now) self.old self.new) }
        ensures apart { OnOk result (KeepApart self.old self.new) }
    {
        let Some(number) = event_after(exploration, &*state) else {
            return self.end(over(at), state);
        };
        let alloc = exploration.context.alloc;
        let model = exploration.context.setting.program.model;
        let guess = tables.sym(SymName::Guess(number))?;
        if state.constraints.range_of(guess).is_some() {
            return Err(AllocError);
        }
        let pieces = answers(alloc, model, &state.constraints, question, guess)?;
        self.add_all(exploration, state, at, pieces, guess)
    }

    // Adds the successors of a state that is at a `switch`, which shows its case.
    #[inline(never)]
    fn select(
        &mut self,
        exploration: &Exploration,
        state: Box<State>,
        at: Place,
        term: Lin,
    ) -> Result<(), AllocError>
        ensures adds { OnOk result (AddsPieces exploration.now.budgets.events
            exploration.now.rules.now state at (AreOfSwitch (code_of exploration.now)
            state.value term) self.old self.new) }
        ensures apart { OnOk result (KeepApart self.old self.new) }
    {
        if event_after(exploration, &*state).is_none() {
            return self.end(over(at), state);
        }
        let context = exploration.context;
        let cases = match context.code.instruction_at(state.frame.spot) {
            Instruction::End(BlockEnd::Switch(_, _, cases, _)) => cases.as_slice(),
            _ => return Err(AllocError),
        };
        let pieces = select(context.alloc, &state.constraints, term, cases)?;
        self.add_all(exploration, state, at, pieces, Sym(0))
    }

    // Adds the states after all pieces. The last of them takes the state before as it is, and the others copy it.
    fn add_all(
        &mut self,
        exploration: &Exploration,
        before: Box<State>,
        place: Place,
        pieces: Vec<Piece>,
        guess: Sym,
    ) -> Result<(), AllocError>
        ensures { OnOk result (AddsChildren exploration.now.rules.now before.value place guess
            pieces.items self.old self.new) }
    {
        let mut pieces = pieces;
        let Some(last) = pieces.pop() else {
            return Ok(());
        };
        self.add_copies(exploration, &*before, place, pieces, guess)?;
        self.add(exploration, before, place, last, guess)
    }

    // Adds the states after pieces, each from a copy of the state before. Mostly there is none, and then no memory is reserved for it.
    #[inline]
    fn add_copies(
        &mut self,
        exploration: &Exploration,
        before: &State,
        place: Place,
        pieces: Vec<Piece>,
        guess: Sym,
    ) -> Result<(), AllocError>
        ensures { OnOk result (AddsChildren exploration.now.rules.now before.now place guess
            pieces.items self.old self.new) }
    {
        if pieces.is_empty() {
            return Ok(());
        }
        self.add_each(exploration, before, place, pieces, guess)
    }

    #[inline(never)]
    fn add_each(
        &mut self,
        exploration: &Exploration,
        before: &State,
        place: Place,
        pieces: Vec<Piece>,
        guess: Sym,
    ) -> Result<(), AllocError>
        ensures { OnOk result (AddsChildren exploration.now.rules.now before.now place guess
            pieces.items self.old self.new) }
    {
        let alloc = exploration.context.alloc;
        for piece in pieces {
            let state = Box::new(alloc, before.copy()?)?;
            self.add(exploration, state, place, piece, guess)?;
        }
        Ok(())
    }

    // Adds the state after one piece. Its answer is over a declared symbol, so the want of memory below is never returned: that symbol is
    // one of the operands', which the state mentions and so has declared, or that of the guess, which the piece declares. The answer depends
    // on its symbol, so a state mentions no symbols but those that the state before mentions and those of guesses.
    fn add(
        &mut self,
        exploration: &Exploration,
        state: Box<State>,
        place: Place,
        piece: Piece,
        guess: Sym,
    ) -> Result<(), AllocError>
        ensures { OnOk result (AddsChildren exploration.now.rules.now state.value place guess
            (piece ∷ []) self.old self.new) }
    {
        let Piece {
            label,
            constraints,
            answer,
            guessed,
        } = piece;
        let mut state = state;
        let event = Event { place, label };
        let given = leads_on(label, answer);
        let answer = settled(&state.constraints, guess_of(guessed, guess), given)?;
        state.constraints = constraints;
        if !is_declared(&*state, answer) {
            return Err(AllocError);
        }
        pass(exploration, &mut *state, &event, answer)?;
        if let Some(guessed) = guessed {
            let number = state.counters.events;
            state.guess(asked(number, guess, guessed))?;
            return self.add_child(event, Some(guess), state);
        }
        self.add_child(event, None, state)
    }

    fn add_child(
        &mut self,
        event: Event,
        guess: Option<Sym>,
        state: Box<State>,
    ) -> Result<(), AllocError>
        ensures { OnOk result (Adds self.old self.new
            (record { event = event; guess = guess; state = state } ∷ []) []) }
    {
        self.made.push(Child {
            event,
            guess,
            state,
        })?;
        Ok(())
    }

    // Adds the successors of a state whose access shows its offset.
    #[inline(never)]
    fn reach(
        &mut self,
        exploration: &Exploration,
        state: Box<State>,
        at: Place,
        offset: Lin,
    ) -> Result<(), AllocError> {
        if event_after(exploration, &*state).is_none() {
            return self.end(over(at), state);
        }
        if !is_known(&*state, offset) {
            return Err(AllocError);
        }
        let alloc = exploration.context.alloc;
        match reach(alloc, &*state, offset, exploration.budgets.splits)? {
            Reached::All(steps) => self.add_offsets(exploration, at, steps),
            Reached::TooMany(count, steps) => {
                self.cuts.push(Cut::Splits(at, count))?;
                self.add_offsets(exploration, at, steps)
            }
        }
    }

    // Adds the states after all offsets.
    fn add_offsets(
        &mut self,
        exploration: &Exploration,
        at: Place,
        steps: Vec<ReachedOffset>,
    ) -> Result<(), AllocError> {
        for step in steps {
            self.add_offset(exploration, at, step)?;
        }
        Ok(())
    }

    // Adds the state after one offset.
    fn add_offset(
        &mut self,
        exploration: &Exploration,
        place: Place,
        step: ReachedOffset,
    ) -> Result<(), AllocError> {
        let ReachedOffset { offset, state } = step;
        let mut state = Box::new(exploration.context.alloc, state)?;
        let event = pass_offset(exploration, &mut *state, place, offset)?;
        self.add_child(event, None, state)
    }
}

// Whether two outcomes are the same.
fn is_same(one: Outcome, other: Outcome) -> bool
    ensures { one ≡ other → result ≡ true }
{
    one == other
}

// The outcome of runs whose budget of events is used up.
fn over(at: Place) -> Outcome
    ensures { result ≡ Outcome.Over Budget.Events at }
{
    Outcome::Over(Budget::Events, at)
}

// The number of the next event, unless the budget of events is used up.
fn event_after(exploration: &Exploration, state: &State) -> Option<u64>
    ensures { MatchOption result
        (exploration.now.budgets.events ≤ state.now.counters.events)
        (IsNextEvent exploration.now.budgets.events state.now.counters.events) }
{
    if state.counters.events >= exploration.budgets.events {
        return None;
    }
    state.counters.events.checked_add(1)
}

// Advances a state past an event.
fn pass(
    exploration: &Exploration,
    state: &mut State,
    event: &Event,
    answer: Lin,
) -> Result<(), AllocError>
    ensures { OnOk result
        (IsPassed exploration.now.rules.now event.now answer state.old state.new) }
{
    state.answer(answer)?;
    let phase = phase_after(exploration.rules, state.phase, event);
    state.set_phase(phase);
    state.set_counters(Counters {
        events: state.counters.events.checked_add(1).ok_or(AllocError)?,
        ..state.counters
    });
    Ok(())
}

// Advances a state past the event that shows an offset.
fn pass_offset(
    exploration: &Exploration,
    state: &mut State,
    place: Place,
    offset: i128,
) -> Result<Event, AllocError> {
    let event = Event {
        place,
        label: Label::Offset(shown(offset)?),
    };
    pass(exploration, state, &event, constant(offset))?;
    Ok(event)
}

// The symbol of the guess, if something was guessed.
fn guess_of(guessed: Option<Guessed>, guess: Sym) -> Option<Sym>
    ensures { result ≡ option_map (λ what. guess) guessed }
{
    match guessed {
        Some(_) => Some(guess),
        None => None,
    }
}

// Whether the symbol of a term, if it has one, is declared.
fn is_declared(state: &State, term: Lin) -> bool
    ensures { result ≡ true → IsDeclared state.now.constraints term.sym }
{
    match term.sym {
        Some(sym) => state.constraints.range_of(sym).is_some(),
        None => true,
    }
}

// The note of a guess: the event, the symbol, and the operation whose result is guessed.
fn asked(event: u64, guess: Sym, guessed: Guessed) -> Asked
    ensures { result ≡ asked_for event guess guessed }
{
    Asked {
        event,
        guess,
        asks: guessed.asks,
        left: guessed.left,
        right: guessed.right,
        ends: guessed.ends,
        fact: guessed.fact,
    }
}

// The number that an offset shows.
fn shown(offset: i128) -> Result<u64, AllocError> {
    match u64::try_from(offset) {
        Ok(shown) => Ok(shown),
        Err(_) => Err(AllocError),
    }
}
