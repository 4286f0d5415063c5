//! Lines that begin with `#`: linemarkers and pragmas.
ghost use Rattle.std.specs.Prelude.{◌≡◌, ◌<◌, ◌^◌, false, length, IfOk};
ghost use Rattle.std.specs.List.{list_all};
ghost use Rattle.std.specs.Str.{is_utf8};
ghost use Rattle.cs_lexer.specs.Classes as classes;
ghost use Rattle.cs_lexer.specs.Directives as spec;

use crate::byte::is_blank;
use crate::comment::line_length;
use crate::digits::{Base, digit_count, leading_value};
use crate::lexeme::{Fault, Lexeme};
use crate::part::{begins_with, following, front};
use crate::quoted::closing;
use cs_names::Name;
use std::alloc::{AllocError, Global};
use std::str;

/// The greatest line number that a linemarker may have.
const MOST_LINE: u64 = 2_147_483_647;

/// The file name of a linemarker.
#[derive(Drop)]
enum FileName {
    Absent,
    Given(Name),
    Bad,
}

// Returns the bytes after the leading blanks.
fn skip_blanks(bytes: &[u8]) -> &[u8]
    ensures { result.now ≡ spec.skip_blanks bytes.now }
{
    let count = blank_count(bytes);
    following(bytes, count)
}

// Returns the number of leading blanks.
fn blank_count(bytes: &[u8]) -> usize
    ensures { result ≡ spec.blank_count bytes.now }
{
    bytes.iter().take_while(|byte| is_blank(**byte)).count()
}

// Whether each byte is a blank.
fn is_all_blank(bytes: &[u8]) -> bool
    ensures { result ≡ list_all classes.is_blank bytes.now }
{
    bytes.iter().all(|byte| is_blank(*byte))
}

// Whether the first byte is a blank.
fn begins_blank(bytes: &[u8]) -> bool
    ensures { result ≡ spec.begins_blank bytes.now }
{
    match bytes.split_first() {
        Some((first, _)) => is_blank(*first),
        None => false,
    }
}

// Returns the bytes from a linemarker's number on. The word `line` and blanks may come before it.
fn number_part(bytes: &[u8]) -> &[u8]
    ensures { result.now ≡ spec.number_part bytes.now }
{
    if bytes.starts_with(b"line".as_slice()) && begins_blank(following(bytes, 4)) {
        skip_blanks(following(bytes, 4))
    } else {
        bytes
    }
}

// Returns the line number that the leading digits are.
fn line_number(bytes: &[u8]) -> Option<u32>
    ensures { result ≡ spec.line_number bytes.now }
{
    if digit_count(Base::Decimal, bytes) == 0 {
        return None;
    }
    match leading_value(Base::Decimal, bytes) {
        Some(value) => {
            if value <= MOST_LINE {
                Some(value as u32)
            } else {
                None
            }
        }
        None => None,
    }
}

// Returns the bytes with each backslash and the byte after it replaced by that byte.
fn unescaped(alloc: Global, bytes: &[u8]) -> Result<Vec<u8>, AllocError>
    ensures { IfOk result (λ made. made.items ≡ spec.unescaped false bytes.now) }
{
    let mut made = Vec::new(alloc);
    let mut escaped = false;
    for byte in bytes {
        if *byte == b'\\' && !escaped {
            escaped = true;
        } else {
            made.push(*byte)?;
            escaped = false;
        }
    }
    Ok(made)
}

// Whether bytes are valid UTF-8.
fn is_text(bytes: &[u8]) -> bool
    ensures { result ≡ is_utf8 bytes.now }
{
    match str::from_utf8(bytes) {
        Ok(_) => true,
        Err(_) => false,
    }
}

// Returns the file name with these bytes between its quotes.
fn name_of(alloc: Global, body: &[u8]) -> Result<FileName, AllocError>
    ensures { IfOk result (λ name. name ≡ spec.name_of body.now) }
{
    let bytes = unescaped(alloc, body)?;
    if is_text(bytes.as_slice()) {
        Ok(FileName::Given(Name::from_vec(bytes)))
    } else {
        Ok(FileName::Bad)
    }
}

// Returns the quoted file name that bytes begin with.
fn quoted_name(alloc: Global, bytes: &[u8]) -> Result<FileName, AllocError>
    ensures { IfOk result (λ name. name ≡ spec.quoted_name bytes.now) }
{
    if !begins_with(bytes, b'"') {
        return Ok(FileName::Bad);
    }
    let more = following(bytes, 1);
    match closing(b'"', more) {
        Some(count) => name_of(alloc, front(more, count)),
        None => Ok(FileName::Bad),
    }
}

// Returns the file name after the number of a linemarker: nothing, or blanks, a name and flags.
fn file_name(alloc: Global, bytes: &[u8]) -> Result<FileName, AllocError>
    ensures { IfOk result (λ name. name ≡ spec.file_name bytes.now) }
{
    if is_all_blank(bytes) {
        return Ok(FileName::Absent);
    }
    if !begins_blank(bytes) {
        return Ok(FileName::Bad);
    }
    quoted_name(alloc, skip_blanks(bytes))
}

// Returns the number of the line after a linemarker, which exists if the marker's own line ends with a line feed.
fn next_line(line: u32, is_ended: bool) -> Option<u32>
    ensures { result ≡ spec.next_line line is_ended }
{
    if is_ended { Some(line) } else { None }
}

// Returns the linemarker with these bytes after its `#` and blanks.
fn marker(alloc: Global, body: &[u8], size: usize, is_ended: bool) -> Result<Lexeme, AllocError>
    ensures { IfOk result (λ found. found ≡ spec.marker body.now size is_ended) }
{
    let number = number_part(body);
    let Some(line) = line_number(number) else {
        return Ok(Lexeme::Refused(Fault::BadLine, 0));
    };
    let next = next_line(line, is_ended);
    let rest = following(number, digit_count(Base::Decimal, number));
    match file_name(alloc, rest)? {
        FileName::Absent => Ok(Lexeme::Marker(size, next, None)),
        FileName::Given(name) => Ok(Lexeme::Marker(size, next, Some(name))),
        FileName::Bad => Ok(Lexeme::Refused(Fault::BadLine, 0)),
    }
}

// Returns the number of bytes of a line, with its line feed.
fn whole_length(length: usize, is_ended: bool) -> usize
    requires { length < 2 ^ 32 }
    ensures { result ≡ spec.whole_length length is_ended }
{
    if is_ended { length + 1 } else { length }
}

/// Returns the directive that bytes begin with; the first is its `#`.
pub fn directive(alloc: Global, bytes: &[u8]) -> Result<Lexeme, AllocError>
    requires { length bytes.now < 2 ^ 32 }
    ensures { IfOk result (λ found. found ≡ spec.directive_at bytes.now) }
{
    let length = line_length(bytes);
    let is_ended = length < bytes.len();
    let size = whole_length(length, is_ended);
    let body = skip_blanks(following(front(bytes, length), 1));
    if body.starts_with(b"pragma".as_slice()) {
        return Ok(Lexeme::Gap(size));
    }
    marker(alloc, body, size, is_ended)
}
