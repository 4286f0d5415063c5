//! Words as bytes.
ghost use Rattle.std.specs.Prelude.{◌≡◌, ◌++◌, OnOk, OnErr};
ghost use Rattle.cs_word_lists.specs.Bytes.{bytes_of_word};

use std::alloc::AllocError;

// The greatest number of bytes of a word.
const LONGEST: usize = 10;

/// Appends all bytes of a word, or none if the call runs out of memory.
pub(crate) fn append_digits(bytes: &mut Vec<u8>, word: u64) -> Result<(), AllocError>
    ensures ok { OnOk result (bytes.new.items ≡ bytes.old.items ++ bytes_of_word word) }
    ensures err { OnErr result (bytes.new.items ≡ bytes.old.items) }
{
    bytes.reserve(LONGEST)?;
    let mut rest = word;
    while rest >= 128 {
        bytes.push_reserved((rest % 128 + 128) as u8);
        rest /= 128;
    }
    bytes.push_reserved(rest as u8);
    Ok(())
}
