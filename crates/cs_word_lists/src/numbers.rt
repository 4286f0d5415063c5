//! Numbers of 128 bits in words.
ghost use Rattle.std.specs.Prelude.{◌≡◌, ◌+◌, ◌<◌, ◌^◌, IfOk, OnOk};
ghost use Rattle.cs_word_lists.specs.Written.{zigzag, in_three_words, with_natural, with_integer};

use crate::words::Words;
use std::alloc::AllocError;

// Returns an integer as a natural number: integers near 0 stay small, whatever their sign.
fn as_natural(number: i128) -> u128
    ensures { result ≡ zigzag number }
{
    if number < 0 {
        2 * (-(number + 1)) as u128 + 1
    } else {
        2 * number as u128
    }
}

/// Returns the count increased by 1.
pub fn one_more(count: u64) -> Result<u64, AllocError>
    ensures { IfOk result (λ more. more ≡ count + 1) }
{
    match count.checked_add(1) {
        Some(more) => Ok(more),
        None => Err(AllocError),
    }
}

impl Words {
    /// Appends a natural number: in one word if it is less than the greatest word, else in two words followed
    /// by the greatest one.
    pub fn natural(&mut self, number: u128) -> Result<(), AllocError>
        ensures { OnOk result (self.new ≡ with_natural self.old number) }
    {
        if number < u64::MAX as u128 {
            return self.word(number as u64);
        }
        self.wide(number)
    }

    // Appends a natural number in three words.
    fn wide(&mut self, number: u128) -> Result<(), AllocError>
        ensures { OnOk result (self.new ≡ in_three_words self.old number) }
    {
        self.long((number / (1 << 64)) as u64)?;
        self.long((number % (1 << 64)) as u64)?;
        self.long(u64::MAX)
    }

    /// Appends an integer.
    pub fn integer(&mut self, number: i128) -> Result<(), AllocError>
        ensures { OnOk result (self.new ≡ with_integer self.old number) }
    {
        if -64 <= number && number < 64 {
            return self.word(as_natural(number) as u64);
        }
        self.natural(as_natural(number))
    }
}
