//! The lines that refuse a file.
ghost use Rattle.std.specs.Prelude.{◌≡◌, ◌++◌, OnOk};
ghost use Rattle.cs_report.specs.RefusalLines.{refusal_line};

use cs_ast::Place;
use cs_names::Name;
use cs_report_parts::{append, append_located};
use std::alloc::AllocError;

/// Appends `WORDS FILE:LINE:COLUMN`, the line that refuses a file at a position. The words end with a space.
pub fn append_refusal(
    text: &mut Vec<u8>,
    words: &str,
    file: &Name,
    place: Place,
) -> Result<(), AllocError>
    ensures { OnOk result (text.new.items
        ≡ text.old.items ++ refusal_line words.now file.now place) }
{
    append(text, words)?;
    append_located(text, file.as_bytes(), place)?;
    append(text, "\n")
}
