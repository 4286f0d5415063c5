//! The number of visits by which rows are ordered: how often the frames of a state have reached loop heads and labels.

use cs_state::State;

/// The number of visits of loop heads and labels of all frames together, at most the greatest number of 64 bits.
pub(crate) fn visits_of(state: &State) -> u64 {
    let mut sum = sum_of(state.frame.visits.as_slice());
    for depth in 0..state.callers.depth() {
        if let Some(frame) = state.callers.at(depth) {
            sum = sum.saturating_add(sum_of(frame.visits.as_slice()));
        }
    }
    sum
}

fn sum_of(counts: &[u32]) -> u64 {
    let mut sum: u64 = 0;
    for count in counts {
        sum = sum.saturating_add(u64::from(*count));
    }
    sum
}
