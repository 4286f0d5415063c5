//! The store of a state: the bindings of base regions. Copies share their common parts.
#![tactic(auto)]

mod listing;
mod region;
mod store;
mod value;
mod write;

pub use listing::{Listing, origin};
pub use region::{Bindings, Region};
pub use store::{EachRegion, Store};
pub use value::{Binding, Fill, Value};
pub use write::{Write, replayed};
