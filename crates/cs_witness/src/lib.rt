//! The witness: from the suspects of an exploration of an entry to findings with their evidence.
//!
//! A suspect is a claim that a run ends in a certain way. The run is replayed and its guesses are judged, and only what is shown becomes a
//! finding. So the source of the suspects needn't be trusted.
#![tactic(auto)]

mod copies;
mod corners;
mod entry;
mod grounds;
mod kept;
mod listing;
mod neighbours;
mod order;
mod pools;
mod replaying;
mod showing;
mod witness;

pub use entry::Entry;
pub use showing::shown;
pub use witness::{Witnessed, result};
