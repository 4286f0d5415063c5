//! Symbolic states.
ghost use Rattle.std.specs.Prelude.{◌≡◌, ◌++◌, [], ◌∷◌, IfOk, OnOk, OnErr};

use crate::asked::Asked;
use crate::block::Block;
use crate::callers::Callers;
use crate::frame::Frame;
use crate::read_cells::ReadCells;
use cs_constraints::Constraints;
use cs_pmap::PMap;
use cs_store::{Store, Value};
use cs_terms::Lin;
use cs_types::DataModel;
use std::alloc::{AllocError, Global};
use std::marker::Model;

/// The answers to the events of the operation in progress so far, in order. A contract sees a list of terms.
#[derive(Drop)]
pub struct Answers {
    list: Vec<Lin>,
}

impl Model for Answers {
    ghost use Rattle.std.specs.Prelude.{List};
    ghost use Rattle.cs_terms.specs.declared.term.Lin.{Lin};

    ghost Value = { List Lin };

    ghost view = { λ a. a.list.items };
}

impl Answers {
    /// Returns an empty list.
    pub fn new(alloc: Global) -> Answers
        ensures { result ≡ [] }
    {
        Answers {
            list: Vec::new(alloc),
        }
    }

    /// Returns the answers in order.
    pub fn as_slice(&self) -> &[Lin]
        ensures { result.now ≡ self.now }
    {
        self.list.as_slice()
    }

    /// Appends an answer.
    pub fn push(&mut self, answer: Lin) -> Result<(), AllocError>
        ensures ok { OnOk result (self.new ≡ self.old ++ answer ∷ []) }
        ensures err { OnErr result (self.new ≡ self.old) }
    {
        self.list.push(answer)?;
        Ok(())
    }

    /// Removes all answers.
    pub fn clear(&mut self)
        ensures { self.new ≡ [] }
    {
        self.list.clear();
    }
}

impl Clone for Answers {
    ghost is_clone = { λ answers copy. copy ≡ answers };

    fn clone(&self) -> Result<Answers, AllocError> {
        // Most copies get one more.
        let room = self.list.len().saturating_add(1);
        let mut list = Vec::with_capacity(*self.list.allocator(), room)?;
        list.extend_from_slice(self.list.as_slice())?;
        Ok(Answers { list })
    }
}

/// How many frames, allocations, calls of functions without a body, and events a run has had.
#[derive(Clone, Copy)]
pub struct Counters {
    pub frames: u64,
    pub allocations: u64,
    pub calls: u64,
    pub events: u64,
}

/// What is known about the runs that reach one position: the state of the run of the code before the
/// operation in progress, in terms over symbols, and the answers to this operation's events so far.
///
/// The fields are public to be read. Each write is a method.
#[derive(Drop)]
pub struct State {
    pub model: DataModel,
    /// The running frame.
    pub frame: Frame,
    pub callers: Callers,
    /// What was written to objects.
    pub store: Store,
    /// The start blocks and heap blocks, keyed by `(base region, 0)`.
    pub blocks: PMap<Block>,
    /// The cells that were read from inputs and not written since.
    pub read: ReadCells,
    /// The numbers that the symbols may have.
    pub constraints: Constraints,
    pub answers: Answers,
    pub counters: Counters,
    /// The guesses, keyed by `(event, 0)`.
    pub asked: PMap<Asked>,
    /// The phase of a watched protocol.
    pub phase: u32,
    /// The value that the entry has returned, if there is one.
    pub result: Option<Value>,
}

// The parts of a state that describe the position of a run.
#[derive(Drop)]
struct Position {
    frame: Frame,
    callers: Callers,
    answers: Answers,
}

// The parts of a state that describe memory.
#[derive(Drop)]
struct Held {
    store: Store,
    blocks: PMap<Block>,
    read: ReadCells,
}

impl State {
    /// Returns a copy.
    pub fn copy(&self) -> Result<State, AllocError>
        ensures { IfOk result (λ copy. copy ≡ self.now) }
    {
        let position = self.position()?;
        let memory = self.held()?;
        let constraints = self.constraints.copy()?;
        let asked = self.asked.copy()?;
        Ok(State {
            model: self.model,
            frame: position.frame,
            callers: position.callers,
            store: memory.store,
            blocks: memory.blocks,
            read: memory.read,
            constraints,
            answers: position.answers,
            counters: self.counters,
            asked,
            phase: self.phase,
            result: self.result,
        })
    }

    fn position(&self) -> Result<Position, AllocError>
        ensures frame { IfOk result (λ p. p.frame ≡ self.now.frame) }
        ensures callers { IfOk result (λ p. p.callers ≡ self.now.callers) }
        ensures answers { IfOk result (λ p. p.answers ≡ self.now.answers) }
    {
        let frame = self.frame.clone()?;
        let callers = self.callers.clone()?;
        let answers = self.answers.clone()?;
        Ok(Position {
            frame,
            callers,
            answers,
        })
    }

    fn held(&self) -> Result<Held, AllocError>
        ensures store { IfOk result (λ h. h.store ≡ self.now.store) }
        ensures blocks { IfOk result (λ h. h.blocks ≡ self.now.blocks) }
        ensures read { IfOk result (λ h. h.read ≡ self.now.read) }
    {
        let store = self.store.copy()?;
        let blocks = self.blocks.copy()?;
        let read = self.read.copy()?;
        Ok(Held {
            store,
            blocks,
            read,
        })
    }
}
