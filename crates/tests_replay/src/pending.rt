//! What was pending at the events of a run: as text, and compared between two runs.

use cs_events::Lookup;
use cs_inputs::print;
use cs_names::Name;
use cs_report_parts::{append, append_place};
use cs_run_log::Pending;
use cs_values::Object;
use std::alloc::AllocError;

/// Appends a line of what was pending at an event: its position, and the operation with its operands, the path of the allocation, or the
/// object with the offset of the access.
pub fn append_pending(
    text: &mut Vec<u8>,
    files: &[Name],
    pending: &Pending,
) -> Result<(), AllocError> {
    match pending {
        Pending::Operates(place, operation) => {
            append_place(text, files, *place)?;
            append(text, format_args!(" {operation:?}\n"))
        }
        Pending::Tries(place, path) => {
            append_place(text, files, *place)?;
            append(text, " ")?;
            text.extend_from_slice(print(*text.allocator(), path)?.as_bytes())?;
            append(text, "\n")
        }
        Pending::Accesses(place, object, offset) => {
            append_place(text, files, *place)?;
            append_object(text, object)?;
            append(text, format_args!(" {offset}\n"))
        }
    }
}

// Appends a space and an object.
fn append_object(text: &mut Vec<u8>, object: &Object) -> Result<(), AllocError> {
    match object {
        Object::Start(path) => {
            append(text, " start ")?;
            text.extend_from_slice(print(*text.allocator(), path)?.as_bytes())
        }
        Object::Global(global) => append(text, format_args!(" global {global}")),
        Object::Literal(literal) => append(text, format_args!(" literal {literal}")),
        Object::Local(frame, declaration) => {
            append(text, format_args!(" local {frame} {declaration}"))
        }
        Object::Heap(allocation) => append(text, format_args!(" heap {allocation}")),
    }
}

/// Whether the same was pending at the events of two runs.
pub fn same_pending(one: &[Pending], other: &[Pending]) -> bool {
    if one.len() != other.len() {
        return false;
    }
    for (one, other) in one.iter().zip(other) {
        if !is_same(one, other) {
            return false;
        }
    }
    true
}

// Whether the same was pending at two events.
fn is_same(one: &Pending, other: &Pending) -> bool {
    match (one, other) {
        (Pending::Operates(place, operation), Pending::Operates(other_place, other)) => {
            place == other_place && operation == other
        }
        (Pending::Tries(place, path), Pending::Tries(other_place, other)) => {
            place == other_place && path == other
        }
        (
            Pending::Accesses(place, object, offset),
            Pending::Accesses(other_place, other, other_offset),
        ) => place == other_place && object.is_same(other) && offset == other_offset,
        _ => false,
    }
}

/// Whether two runs looked up the same inputs.
pub fn same_lookups(one: &[Lookup], other: &[Lookup]) -> bool {
    if one.len() != other.len() {
        return false;
    }
    for (one, other) in one.iter().zip(other) {
        if one.path != other.path || one.kind != other.kind {
            return false;
        }
    }
    true
}
