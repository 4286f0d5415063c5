//! Words: natural numbers less than 2^64, in order.
ghost use Rattle.std.specs.Prelude.{◌≡◌, ◌++◌, ℕ, List, [], ◌∷◌, IfOk, OnOk, OnErr};
ghost use Rattle.cs_word_lists.specs.Bytes.{bytes_of};
ghost use Rattle.cs_word_lists.specs.Digest.{digest_of, power_of};

use crate::bytes::append_digits;
use std::alloc::{AllocError, Global};
use std::marker::Model;

// The base of digests, an odd number whose bits are spread over all positions.
const BASE: u64 = 0x9e37_79b9_7f4a_7c15;

/// A list of words. A contract sees the list.
///
/// The words are kept as bytes, since most are small: a list is short, and is compared at once. With them are
/// kept a digest of the words, used as their hash, and the power of its base for a list of this length: from
/// both follows the digest of another list joined with this one.
#[derive(Drop)]
pub struct Words {
    bytes: Vec<u8>,
    digest: u64,
    power: u64,
}

impl Model for Words {
    ghost use Rattle.std.specs.Prelude.{ℕ, List, ◌≡◌, length};
    ghost use Rattle.cs_word_lists.specs.Bytes.{bytes_of, words_in};
    ghost use Rattle.cs_word_lists.specs.Digest.{digest_of, power_of, IsKept};

    ghost Value = { List ℕ };

    ghost view = { λ w. words_in w.bytes.items };

    ghost invariant = { λ w. IsKept w.bytes.items w.digest w.power };
}

impl Words {
    /// Returns an empty list.
    pub fn new(alloc: Global) -> Words
        ensures { result ≡ [] }
    {
        Words {
            bytes: Vec::new(alloc),
            digest: 0,
            power: 1,
        }
    }

    /// Returns an empty list, with memory for a number of bytes.
    pub fn with_capacity(alloc: Global, bytes: usize) -> Result<Words, AllocError>
        ensures { IfOk result (λ words. words ≡ []) }
    {
        Ok(Words {
            bytes: Vec::with_capacity(alloc, bytes)?,
            digest: 0,
            power: 1,
        })
    }

    /// Appends a word.
    #[inline]
    pub fn word(&mut self, word: u64) -> Result<(), AllocError>
        ensures ok { OnOk result (self.new ≡ self.old ++ word ∷ []) }
        ensures err { OnErr result (self.new ≡ self.old) }
    {
        if word < 128 && self.bytes.len() < self.bytes.capacity() {
            self.bytes.push_reserved(word as u8);
            self.digest = self
                .digest
                .wrapping_mul(BASE)
                .wrapping_add(word)
                .wrapping_add(1);
            self.power = self.power.wrapping_mul(BASE);
            return Ok(());
        }
        self.long(word)
    }

    /// Appends a word of any size. Most words are less than 128, and are appended without this call.
    pub(crate) fn long(&mut self, word: u64) -> Result<(), AllocError>
        ensures ok { OnOk result (self.new ≡ self.old ++ word ∷ []) }
        ensures err { OnErr result (self.new ≡ self.old) }
    {
        append_digits(&mut self.bytes, word)?;
        self.digest = self
            .digest
            .wrapping_mul(BASE)
            .wrapping_add(word)
            .wrapping_add(1);
        self.power = self.power.wrapping_mul(BASE);
        Ok(())
    }

    /// Appends the words of another list.
    pub fn append(&mut self, words: &Words) -> Result<(), AllocError>
        ensures { OnOk result (self.new ≡ self.old ++ words.now) }
    {
        self.bytes.extend_from_slice(words.bytes.as_slice())?;
        self.digest = words.digest_after(self.digest);
        self.power = self.power.wrapping_mul(words.power);
        Ok(())
    }

    /// Returns the bytes of the words.
    pub fn bytes(&self) -> &[u8]
        ensures { result.now ≡ bytes_of self.now }
    {
        self.bytes.as_slice()
    }

    /// Returns the digest of the words.
    pub fn digest(&self) -> u64
        ensures { result ≡ digest_of self.now }
    {
        self.digest
    }

    /// Returns the digest of other words followed by these, given the digest of the others.
    pub fn digest_after(&self, before: u64) -> u64
        ensures { (words : List ℕ) → before ≡ digest_of words
            → result ≡ digest_of (words ++ self.now) }
    {
        before.wrapping_mul(self.power).wrapping_add(self.digest)
    }
}
