//! Source positions.

/// The source position of a token: that of its first byte.
///
/// Files are numbered in the order in which the text first names them; the file that was read from standard input is 0.
/// Lines and columns count from 1, and a column counts bytes.
#[derive(Clone, Copy, PartialEq, Eq, PartialOrd, Ord, Debug)]
pub struct Place {
    pub file: u32,
    pub line: u32,
    pub column: u32,
}
