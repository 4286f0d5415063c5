//! The children of a row.

use cs_events::Event;
use cs_state::State;
use cs_terms::Sym;

/// A state directly after an event, as a successor of a row.
#[derive(Drop)]
pub struct Child {
    pub event: Event,
    /// The symbol of the number that was guessed at the event.
    pub guess: Option<Sym>,
    pub state: Box<State>,
}
