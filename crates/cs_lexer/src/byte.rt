//! Classes of bytes.
ghost use Rattle.std.specs.Prelude.{◌≡◌};
ghost use Rattle.cs_lexer.specs.Classes as classes;

/// Whether a byte is white space other than a line feed.
pub fn is_blank(byte: u8) -> bool
    ensures { result ≡ classes.is_blank byte }
{
    matches!(byte, b' ' | b'\t' | 11 | 12 | b'\r')
}

/// Whether a byte is white space.
pub fn is_space(byte: u8) -> bool
    ensures { result ≡ classes.is_space byte }
{
    is_blank(byte) || byte == b'\n'
}

/// Whether a byte is an ASCII letter or an underscore.
pub fn is_letter(byte: u8) -> bool
    ensures { result ≡ classes.is_letter byte }
{
    matches!(byte, b'a'..=b'z' | b'A'..=b'Z' | b'_')
}

/// Whether a byte is a decimal digit.
pub fn is_digit(byte: u8) -> bool
    ensures { result ≡ classes.is_digit byte }
{
    matches!(byte, b'0'..=b'9')
}

/// Whether a byte is an octal digit.
pub fn is_octal_digit(byte: u8) -> bool
    ensures { result ≡ classes.is_octal_digit byte }
{
    matches!(byte, b'0'..=b'7')
}

/// Whether a byte is a hexadecimal digit.
pub fn is_hexadecimal_digit(byte: u8) -> bool
    ensures { result ≡ classes.is_hexadecimal_digit byte }
{
    matches!(byte, b'0'..=b'9' | b'a'..=b'f' | b'A'..=b'F')
}

/// Whether a byte may be part of a name after its first byte.
pub fn is_name_byte(byte: u8) -> bool
    ensures { result ≡ classes.is_name_byte byte }
{
    is_letter(byte) || is_digit(byte)
}
