//! How often a frame has reached each loop head and label.
ghost use Rattle.std.specs.Prelude.{◌≡◌, ◌+◌, ℕ, List, Some, slice_get, slice_set, replicate, IfOk};

use std::alloc::{AllocError, Global};
use std::marker::Model;
use std::rc::RcSlice;

/// The number of visits of each counted point of a function, by the point's number. Copies share the counts
/// until one is changed. A contract sees a list.
#[derive(Drop)]
pub struct Visits {
    counts: RcSlice<u32>,
}

impl Model for Visits {
    ghost use Rattle.std.specs.Prelude.{ℕ, List};
    ghost use Rattle.std.specs.Rc.{rc_slice_items};

    ghost Value = { List ℕ };

    ghost view = { λ v. rc_slice_items v.counts };
}

impl Visits {
    /// Returns counts of 0 for a number of counted points.
    pub fn none(alloc: Global, counted_points: usize) -> Result<Visits, AllocError>
        ensures { IfOk result (λ visits. visits ≡ replicate counted_points 0) }
    {
        Ok(Visits {
            counts: RcSlice::from_vec(Vec::from_elem(alloc, 0, counted_points)?)?,
        })
    }

    /// Returns the counts in order.
    pub fn as_slice(&self) -> &[u32]
        ensures { result.now ≡ self.now }
    {
        self.counts.as_slice()
    }

    /// Returns these counts with another one at a counted point.
    pub fn with(
        &self,
        alloc: Global,
        counted_point: usize,
        count: u32,
    ) -> Result<Visits, AllocError>
        ensures { IfOk result (λ visits. visits ≡ slice_set self.now counted_point count) }
    {
        let mut counts = Vec::from_slice(alloc, self.as_slice())?;
        if counted_point < counts.len() {
            counts[counted_point] = count;
        }
        Ok(Visits {
            counts: RcSlice::from_vec(counts)?,
        })
    }
}

impl Clone for Visits {
    ghost is_clone = { λ visits copy. copy ≡ visits };

    fn clone(&self) -> Result<Visits, AllocError> {
        Ok(Visits {
            counts: self.counts.clone()?,
        })
    }
}
