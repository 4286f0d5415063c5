//! Prefixes and suffixes of bytes.
ghost use Rattle.std.specs.Prelude.{◌≡◌, take, drop};
ghost use Rattle.cs_lexer.specs.Classes as classes;

/// Returns the bytes after the first `count`, none if there are no more than those.
pub fn following(bytes: &[u8], count: usize) -> &[u8]
    ensures { result.now ≡ drop count bytes.now }
{
    if count <= bytes.len() {
        &bytes[count..]
    } else {
        &[]
    }
}

/// Returns the first `count` bytes, all if there are no more.
pub fn front(bytes: &[u8], count: usize) -> &[u8]
    ensures { result.now ≡ take count bytes.now }
{
    if count <= bytes.len() {
        &bytes[..count]
    } else {
        bytes
    }
}

/// Whether the first byte is this one.
pub fn begins_with(bytes: &[u8], byte: u8) -> bool
    ensures { result ≡ classes.begins_with byte bytes.now }
{
    match bytes.split_first() {
        Some((first, _)) => *first == byte,
        None => false,
    }
}
