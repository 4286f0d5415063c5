//! Runs that pass the same events first.
ghost use Rattle.std.specs.Prelude.{◌≡◌, ◌↔◌, ◌<◌, ◌≤◌, IsTrue, length, slice_get};
ghost use Rattle.cs_compared.specs.Agreement.{AgreeTo};

use crate::same::same_event;
use cs_events::Event;

/// Whether two runs have the same first events, as many as `count`, if the first `known` are known to be the same.
pub fn agree(one: &[Event], other: &[Event], known: usize, count: usize) -> bool
    requires known { AgreeTo known one.now other.now }
    requires one { count ≤ length one.now }
    requires other { count ≤ length other.now }
    ensures { IsTrue result ↔ AgreeTo count one.now other.now }
{
    for index in known..count {
        if !same_at(one, other, index) {
            return false;
        }
    }
    true
}

/// Returns how many first events two runs share.
pub fn common(one: &[Event], other: &[Event]) -> usize
    ensures { AgreeTo result one.now other.now }
{
    let most = one.len().min(other.len());
    for index in 0..most {
        if !same_at(one, other, index) {
            return index;
        }
    }
    most
}

// Whether two runs have the same event at an index.
fn same_at(one: &[Event], other: &[Event], index: usize) -> bool
    requires one { index < length one.now }
    requires other { index < length other.now }
    ensures { IsTrue result ↔
        (slice_get one.now index ≡ slice_get other.now index) }
{
    same_event(&one[index], &other[index])
}
