//! Texts split at a separator.
ghost use Rattle.std.specs.Prelude.{◌≡◌, ◌==◌};
ghost use Rattle.std.specs.List.{position_or_len};
ghost use Rattle.cs_inputs.specs.Reading.{SplitsBefore};

/// Returns the text before the first separator, and the rest, which begins with it; the whole text and nothing if there is none.
pub fn split_before(text: &[u8], separator: u8) -> (&[u8], &[u8])
    ensures { SplitsBefore separator text.now result.0.now result.1.now }
{
    text.split_at(length_before(text, separator))
}

// Returns the number of bytes before the first separator.
fn length_before(text: &[u8], separator: u8) -> usize
    ensures { result ≡ position_or_len (λ b. b == separator) text.now }
{
    text.iter().take_while(|byte| **byte != separator).count()
}
