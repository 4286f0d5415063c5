//! The numbers that a symbol may have, with their words.
ghost use Rattle.std.specs.Prelude.{◌≡◌, OnOk, IfOk};
ghost use Rattle.cs_constraints.specs.SetWords.{with_interval, set_words};

use cs_ranges::{Interval, RangeSet};
use cs_word_lists::Words;
use std::alloc::{AllocError, Global};
use std::marker::Model;
use std::rc::Rc;

// Enough bytes for the words of most sets.
const BYTES: usize = 32;

// A set, and its words.
#[derive(Drop)]
struct Written {
    set: RangeSet,
    words: Words,
}

/// A set of numbers with its words. Copies share both. A contract sees the intervals.
#[derive(Drop)]
pub(crate) struct Numbers {
    written: Rc<Written>,
}

impl Model for Numbers {
    ghost use Rattle.std.specs.Prelude.{List, ◌≡◌};
    ghost use Rattle.cs_ranges.specs.declared.range_set.Interval.{Interval};
    ghost use Rattle.cs_constraints.specs.SetWords.{set_words};

    ghost Value = { List Interval };

    ghost view = { λ n. n.written.value.set };

    ghost invariant = { λ n. n.written.value.words ≡ set_words n.written.value.set };
}

impl Numbers {
    /// Makes the numbers of a set.
    pub fn new(alloc: Global, set: RangeSet) -> Result<Numbers, AllocError>
        ensures { IfOk result (λ numbers. numbers ≡ set) }
    {
        let words = words_of(alloc, &set)?;
        Ok(Numbers {
            written: Rc::new(alloc, Written { set, words })?,
        })
    }

    /// Returns the set.
    pub fn set(&self) -> &RangeSet
        ensures { result.now ≡ self.now }
    {
        &self.written.as_ref().set
    }

    /// Returns the words of the set.
    pub fn words(&self) -> &Words
        ensures { result.now ≡ set_words self.now }
    {
        &self.written.as_ref().words
    }
}

impl Clone for Numbers {
    ghost is_clone = { λ numbers copy. copy ≡ numbers };

    fn clone(&self) -> Result<Numbers, AllocError> {
        Ok(Numbers {
            written: self.written.clone()?,
        })
    }
}

// Returns the words of a set: its intervals, their number, and 1.
fn words_of(alloc: Global, set: &RangeSet) -> Result<Words, AllocError>
    ensures { IfOk result (λ words. words ≡ set_words set.now) }
{
    let mut words = Words::with_capacity(alloc, BYTES)?;
    let intervals = set.intervals();
    for interval in intervals {
        put(&mut words, interval)?;
    }
    words.word(intervals.len() as u64)?;
    words.word(1)?;
    Ok(words)
}

fn put(words: &mut Words, interval: &Interval) -> Result<(), AllocError>
    ensures { OnOk result (words.new ≡ with_interval words.old interval.now) }
{
    words.integer(interval.low)?;
    words.integer(interval.high)
}
