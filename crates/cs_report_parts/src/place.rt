//! Positions as text.
ghost use Rattle.std.specs.Prelude.{◌≡◌, ◌++◌, OnOk};
ghost use Rattle.cs_model.specs.Places.{located, place_text};

use crate::printing::append;
use cs_ast::Place;
use cs_names::Name;
use std::alloc::AllocError;

/// Appends `FILE:LINE:COLUMN`, given the file's number. The name of a file without one is omitted.
pub fn append_place(text: &mut Vec<u8>, files: &[Name], place: Place) -> Result<(), AllocError>
    ensures { OnOk result (text.new.items ≡ text.old.items ++ place_text files.now place) }
{
    match files.get(place.file as usize) {
        Some(file) => append_located(text, file.as_bytes(), place),
        None => append_located(text, &[], place),
    }
}

/// Appends `FILE:LINE:COLUMN`, given the file's name.
pub fn append_located(text: &mut Vec<u8>, file: &[u8], place: Place) -> Result<(), AllocError>
    ensures { OnOk result (text.new.items ≡ text.old.items ++ located file.now place) }
{
    text.extend_from_slice(file)?;
    append(text, format_args!(":{}:{}", place.line, place.column))
}
