//! Roots of paths, parsed from their texts.
ghost use Rattle.std.specs.Prelude.{◌≡◌, ◌++◌, ◌≤◌, codes, IsTrue};
ghost use Rattle.std.specs.List.{list_all};
ghost use Rattle.cs_inputs.specs.PathText as spelling;
ghost use Rattle.cs_inputs.specs.PathText.{IsCount};
ghost use Rattle.cs_inputs.specs.Reading.{Finds, Reads, IsDecimalOf, IsRootOf};

use crate::decimals::number_with_text;
use crate::path::Root;
use crate::refusal::PathRefusal;
use crate::split::split_before;
use cs_names::Name;
use std::alloc::Global;

/// The greatest number of an argument.
const LAST_ARGUMENT: u64 = 400_000;

/// Returns the root with a text, or `BadPath` if there is none.
pub fn root_of(alloc: Global, text: &[u8]) -> Result<Root, PathRefusal>
    ensures { Reads (IsRootOf text.now) result }
{
    if let Some(name) = text.strip_prefix(b"$") {
        return Ok(Root::Global(name_of(alloc, name)?));
    }
    if let Some(numbers) = text.strip_prefix(b"call#") {
        return call_of(numbers).ok_or(PathRefusal::BadPath);
    }
    if let Some(number) = text.strip_prefix(b"malloc#") {
        return malloc_of(number).ok_or(PathRefusal::BadPath);
    }
    Ok(Root::Param(name_of(alloc, text)?))
}

// Returns the name with this text.
fn name_of(alloc: Global, text: &[u8]) -> Result<Name, PathRefusal>
    ensures { Reads (λ name. IsTrue (spelling.is_name name) × (name ≡ text.now)) result }
{
    if !is_name(text) {
        return Err(PathRefusal::BadPath);
    }
    Ok(Name::from_slice(alloc, text)?)
}

// Returns the result of a call, or what a call wrote, from the text after `call#`.
fn call_of(numbers: &[u8]) -> Option<Root>
    ensures { Finds (IsRootOf (codes "call#" ++ numbers.now)) result }
{
    let (call, following) = split_before(numbers, b'.');
    let call = count_of(call)?;
    match following.split_first() {
        None => Some(Root::Call(call)),
        Some((_, argument)) => Some(Root::Wrote(call, argument_of(argument)?)),
    }
}

// Returns an allocation from the text after `malloc#`.
fn malloc_of(number: &[u8]) -> Option<Root>
    ensures { Finds (IsRootOf (codes "malloc#" ++ number.now)) result }
{
    Some(Root::Malloc(count_of(number)?))
}

// Returns the number, from 1, with this text.
fn count_of(text: &[u8]) -> Option<u64>
    ensures { Finds (λ number. IsDecimalOf text.now number × IsCount number) result }
{
    let number = number_with_text(text)?;
    if number == 0 { None } else { Some(number) }
}

// Returns the number of an argument with this text.
fn argument_of(text: &[u8]) -> Option<u64>
    ensures { Finds (λ number. IsDecimalOf text.now number × (number ≤ 400000)) result }
{
    let number = number_with_text(text)?;
    if number <= LAST_ARGUMENT {
        Some(number)
    } else {
        None
    }
}

// Whether bytes are an identifier of C (C11 6.4.2.1).
fn is_name(bytes: &[u8]) -> bool
    ensures { result ≡ spelling.is_name bytes.now }
{
    match bytes.split_first() {
        Some((first, rest)) => is_name_start(*first) && are_name_bytes(rest),
        None => false,
    }
}

// Whether each byte is a letter, a digit or `_`.
fn are_name_bytes(bytes: &[u8]) -> bool
    ensures { result ≡ list_all spelling.is_name_byte bytes.now }
{
    bytes.iter().all(|byte| is_name_start(*byte) || matches!(*byte, b'0'..=b'9'))
}

// Whether a byte is a letter or `_`.
fn is_name_start(byte: u8) -> bool
    ensures { result ≡ spelling.is_name_start byte }
{
    matches!(byte, b'A'..=b'Z' | b'a'..=b'z' | b'_')
}
