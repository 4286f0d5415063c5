//! What an operation in progress does next.

use cs_access::Checked;
use cs_ast::Place;
use cs_eval::Question;
use cs_events::Outcome;
use cs_terms::Lin;

/// What an operation does next, under every valuation that fits the state.
#[derive(Drop)]
pub enum Next {
    /// The operation is done, without a further event: the state is the one after it, without answers.
    Done,
    /// The next event is that of an operation on terms.
    Asks(Place, Question),
    /// The next event is that of a `switch` on a term, which shows its case. The cases are those of the code at the spot of the state.
    Selects(Place, Lin),
    /// The next event is that of an access to a base region at an offset, which isn't below 0.
    Reaches(Place, u64, Lin),
    /// What comes next is a fault under some valuations: the faulty parts of the state, and the rest.
    Checks(Place, Box<Checked>),
    /// The run ends, at this state.
    Ends(Outcome),
}
