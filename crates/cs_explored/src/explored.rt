//! What an exploration has found.

use cs_events::{Event, Outcome};
use cs_results::Cut;
use cs_state::{State, Tables};
use cs_terms::Sym;

/// A row of the graph: a state directly after an event, and the row that this event follows.
#[derive(Drop)]
pub struct Row {
    /// The number of the row before it; the first row has its own number here.
    pub parent: u32,
    /// The event after which the state is; the first row has none.
    pub event: Option<Event>,
    /// The symbol of the number that was guessed at this event.
    pub guess: Option<Sym>,
    pub state: Box<State>,
}

/// An end of runs that pass a row.
#[derive(Drop)]
pub struct End {
    pub row: u32,
    pub outcome: Outcome,
    pub state: Box<State>,
}

/// All rows, in the order in which they were found, the ends, and where the exploration was cut.
#[derive(Drop)]
pub struct Explored {
    pub rows: Vec<Row>,
    pub ends: Vec<End>,
    pub cuts: Vec<Cut>,
    pub tables: Tables,
}
