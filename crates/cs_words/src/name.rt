//! Names of C.
ghost use Rattle.std.specs.Prelude.{◌≡◌};
ghost use Rattle.std.specs.List.{list_all};
ghost use Rattle.cs_inputs.specs.PathText as spelling;

/// Whether bytes are an identifier or a keyword of C (C11 6.4.2.1).
pub fn is_name(bytes: &[u8]) -> bool
    ensures { result ≡ spelling.is_name bytes.now }
{
    match bytes.split_first() {
        Some((first, rest)) => is_name_start(*first) && are_name_bytes(rest),
        None => false,
    }
}

// Whether each byte is a letter, a digit or `_`.
fn are_name_bytes(bytes: &[u8]) -> bool
    ensures { result ≡ list_all spelling.is_name_byte bytes.now }
{
    bytes.iter().all(|byte| is_name_start(*byte) || matches!(*byte, b'0'..=b'9'))
}

// Whether a byte is a letter or `_`.
fn is_name_start(byte: u8) -> bool
    ensures { result ≡ spelling.is_name_start byte }
{
    matches!(byte, b'A'..=b'Z' | b'a'..=b'z' | b'_')
}
