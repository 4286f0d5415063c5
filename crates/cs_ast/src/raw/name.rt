//! Names with their positions.

use crate::place::Place;
use cs_names::Name;

/// A name with its position.
#[derive(Drop)]
pub struct RawName {
    pub place: Place,
    pub name: Name,
}
