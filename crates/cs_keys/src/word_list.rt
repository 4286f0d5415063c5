//! Keys: lists of words that are compared and hashed.
ghost use Rattle.std.specs.Prelude.{◌≡◌, ◌++◌, [], ◌∷◌, nat_eq, IfOk, OnOk, OnErr};
ghost use Rattle.std.specs.Cmp.{partial_equiv_from_equiv};
ghost use Rattle.std.specs.Cmp.Lexicographic.{pointwise, bytes_decides, nat_list_eq_equiv};
ghost use Rattle.std.specs.List.{concat};
ghost use Rattle.std.specs.Hash as fed;
ghost use Rattle.std.specs.Hash.{same_Alike};
ghost use Rattle.cs_word_lists.specs.Bytes.{bytes_of};
ghost use Rattle.cs_word_lists.specs.Digest.{digest_of};
ghost use Rattle.cs_word_lists.specs.Written.{with_integer};
ghost use Rattle.cs_keys.specs.Runs.{bytes_left};

use crate::compared::{Left, are_same};
use cs_word_lists::{SharedWords, Words};
use std::alloc::{AllocError, Global};
use std::hash::{Hash, Hasher};
use std::marker::Model;
use std::mem;

// Enough bytes for the words of most keys.
const BYTES: usize = 256;

// From this number of bytes on, words are shared rather than copied.
const MANY: usize = 128;

/// The words of the live part of a state, each part after its own parts, so that they can be read from the
/// last word. A contract sees a list.
///
/// The words of a large region that many states share are shared between their keys too: a key is a list of
/// runs of words, and the words after the last run.
#[derive(Drop)]
pub struct Key {
    runs: Vec<SharedWords>,
    tail: Words,
}

impl Model for Key {
    ghost use Rattle.std.specs.Prelude.{ℕ, List};
    ghost use Rattle.cs_keys.specs.Runs.{all_words};

    ghost Value = { List ℕ };

    ghost view = { λ k. all_words k.runs.items k.tail };
}

impl Key {
    /// Returns a key without words.
    pub(crate) fn new(alloc: Global) -> Result<Key, AllocError>
        ensures { IfOk result (λ key. key ≡ []) }
    {
        Ok(Key {
            runs: Vec::new(alloc),
            tail: Words::with_capacity(alloc, BYTES)?,
        })
    }

    /// Returns the allocator of the key.
    pub(crate) fn alloc(&self) -> Global {
        *self.runs.allocator()
    }

    /// Appends a word.
    #[inline]
    pub(crate) fn word(&mut self, word: u64) -> Result<(), AllocError>
        ensures ok { OnOk result (self.new ≡ self.old ++ word ∷ []) }
        ensures err { OnErr result (self.new ≡ self.old) }
    {
        self.tail.word(word)?;
        Ok(())
    }

    /// Appends an integer.
    pub(crate) fn integer(&mut self, number: i128) -> Result<(), AllocError>
        ensures { OnOk result (self.new ≡ with_integer self.old number) }
    {
        self.tail.integer(number)?;
        Ok(())
    }

    /// Appends the words of another list.
    pub(crate) fn append(&mut self, words: &Words) -> Result<(), AllocError>
        ensures { OnOk result (self.new ≡ self.old ++ words.now) }
    {
        self.tail.append(words)?;
        Ok(())
    }

    /// Appends words that other keys have too: many are shared, few are copied.
    pub(crate) fn part(&mut self, words: &SharedWords) -> Result<(), AllocError>
        ensures { OnOk result (self.new ≡ self.old ++ words.now) }
    {
        if words.words().bytes().len() >= MANY {
            self.shared(words)
        } else {
            self.append(words.words())
        }
    }

    /// Appends words that other keys have too, as a shared run.
    pub(crate) fn shared(&mut self, words: &SharedWords) -> Result<(), AllocError>
        ensures { OnOk result (self.new ≡ self.old ++ words.now) }
    {
        let alloc = self.alloc();
        let before = mem::replace(&mut self.tail, Words::new(alloc));
        self.runs.push(SharedWords::new(alloc, before)?)?;
        self.runs.push(words.clone()?)?;
        Ok(())
    }

    /// Returns a hash: equal keys have the same one, other keys rarely.
    pub fn digest(&self) -> u64
        ensures { result ≡ digest_of self.now }
    {
        self.tail.digest_after(digest_of_runs(self.runs.as_slice()))
    }

    // Returns all bytes.
    fn left(&self) -> Left<'_>
        ensures { bytes_left result ≡ bytes_of self.now }
    {
        Left {
            run: &[],
            later: self.runs.as_slice(),
            last: self.tail.bytes(),
        }
    }
}

impl PartialEq for Key {
    ghost eq = { pointwise nat_eq };

    ghost laws = { partial_equiv_from_equiv nat_list_eq_equiv };

    fn eq(&self, other: &Key) -> bool {
        self.digest() == other.digest() && are_same(self.left(), other.left())
    }
}

impl Eq for Key {
    ghost laws = { nat_list_eq_equiv };
}

impl Hash for Key {
    ghost hash_input = { λ words. fed.u64 (digest_of words) };

    ghost respects_eq = { (same_Alike (λ words. fed.u64 (digest_of words)) bytes_decides).fed };

    fn hash<H: Hasher>(&self, state: &mut H) {
        state.write_u64(self.digest());
    }
}

// Returns the digest of the words of all runs.
fn digest_of_runs(runs: &[SharedWords]) -> u64
    ensures { result ≡ digest_of (concat runs.now) }
{
    let mut digest = 0;
    for run in runs {
        digest = run.words().digest_after(digest);
    }
    digest
}
