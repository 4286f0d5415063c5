//! Cuts as text.
ghost use Rattle.std.specs.Prelude.{◌≡◌, ◌++◌, OnOk, codes};
ghost use Rattle.std.specs.List.{flat_map};
ghost use Rattle.cs_results.specs.declared.result.Cut.{Cut};
ghost use Rattle.cs_report.specs.AnalysisLines.{cut_line};

use cs_names::Name;
use cs_report_parts::{append, append_place};
use cs_results::Cut;
use std::alloc::AllocError;

/// Appends a line for each cut.
pub(crate) fn append_cuts(
    text: &mut Vec<u8>,
    files: &[Name],
    cuts: &[Cut],
) -> Result<(), AllocError>
    ensures { OnOk result (text.new.items ≡ text.old.items ++ flat_map
        (λ (cut : Cut). cut_line files.now cut ++ codes "\n") cuts.now) }
{
    for cut in cuts {
        append_cut(text, files, *cut)?;
    }
    Ok(())
}

/// Appends `cut nodes R` or `cut splits PLACE N`.
fn append_cut(text: &mut Vec<u8>, files: &[Name], cut: Cut) -> Result<(), AllocError>
    ensures { OnOk result (text.new.items
        ≡ text.old.items ++ (cut_line files.now cut ++ codes "\n")) }
{
    match cut {
        Cut::Nodes(nodes) => append(text, format_args!("cut nodes {nodes}\n")),
        Cut::Splits(place, offsets) => {
            append(text, "cut splits ")?;
            append_place(text, files, place)?;
            append(text, format_args!(" {offsets}\n"))
        }
    }
}
