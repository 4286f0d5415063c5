//! Inputs, parsed from their texts.
ghost use Rattle.std.specs.Prelude.{◌≡◌, ◌++◌, ◌⊎◌, ◌↔◌, ℕ, ℤ, List, codes, IsTrue, IfOk, IfErr, Ok, Err, MatchOption};
ghost use Rattle.std.specs.Fmt.{signed_decimal};
ghost use Rattle.cs_inputs.specs.declared.refusal.PathRefusal.TheVariants.{Memory};
ghost use Rattle.cs_inputs.specs.PathText.{path_text, HasText, TakesCells};
ghost use Rattle.cs_inputs.specs.InputText.{SpellsInput, IsInputNumber, IsRefusedFor, IsTextOf};
ghost use Rattle.cs_inputs.specs.Reading.{Reads, AreCellsOf, BeginsWithCell};

use crate::cells::Cells;
use crate::decimals::number_with_text;
use crate::number::number_of;
use crate::path::{Path, Root};
use crate::refusal::PathRefusal;
use crate::root_text::root_of;
use crate::split::split_before;
use std::alloc::Global;

/// Returns the path and the number of a text `PATH=NUMBER`, as `p@8=-1`. A number is an optional `-` and one to 39 digits, which may begin
/// with zeros.
///
/// The error is `BadPath` if there is no `=` or the text before the first one isn't that of a path, else `BadNumber` if the rest isn't a
/// number, else `TooWide` if the number is outside -2^63 to 2^64-1.
pub fn parse(alloc: Global, text: &[u8]) -> Result<(Path, i128), PathRefusal>
    ensures ok { IfOk result (λ input. SpellsInput text.now input.0 input.1) }
    ensures accepts { (path : Path) (number : ℤ) → SpellsInput text.now path number
        → (result ≡ Ok (path, number)) ⊎ (result ≡ Err PathRefusal.Memory) }
    ensures err { IfErr result (λ refusal.
        IsRefusedFor refusal text.now ⊎ (refusal ≡ PathRefusal.Memory)) }
    ensures refuses { (refusal : PathRefusal) → IsRefusedFor refusal text.now
        → (result ≡ Err refusal) ⊎ (result ≡ Err PathRefusal.Memory) }
    ensures round_trip { (path : Path) (number : ℤ) → HasText path → IsInputNumber number
        → text.now ≡ path_text path ++ codes "=" ++ signed_decimal number
        → (result ≡ Ok (path, number)) ⊎ (result ≡ Err PathRefusal.Memory) }
{
    let (before, following) = split_before(text, b'=');
    let Some((_, number)) = following.split_first() else {
        return Err(PathRefusal::BadPath);
    };
    let path = path_of(alloc, before)?;
    let number = number_of(number)?;
    Ok((path, number))
}

// Returns the path with a text, or `BadPath` if there is none.
fn path_of(alloc: Global, text: &[u8]) -> Result<Path, PathRefusal>
    ensures { Reads (IsTextOf text.now) result }
{
    let (root, cells) = split_before(text, b'@');
    let root = root_of(alloc, root)?;
    let cells = cells_of(alloc, cells)?;
    if !takes_cells(&root, &cells) {
        return Err(PathRefusal::BadPath);
    }
    Ok(Path { root, cells })
}

// Whether a path may consist of the root and these cells: the path of a global, or of what a call wrote, has cells; that of an
// allocation has none.
fn takes_cells(root: &Root, cells: &Cells) -> bool
    ensures { IsTrue result ↔ TakesCells root.now cells.now }
{
    match root {
        Root::Param(_) | Root::Call(_) => true,
        Root::Global(_) | Root::Wrote(_, _) => !cells.as_slice().is_empty(),
        Root::Malloc(_) => cells.as_slice().is_empty(),
    }
}

// Returns the cells with a text, or `BadPath` if there are none.
fn cells_of(alloc: Global, text: &[u8]) -> Result<Cells, PathRefusal>
    ensures { Reads (AreCellsOf text.now) result }
{
    let mut cells = Cells::new(alloc);
    let mut rest = text;
    while !rest.is_empty() {
        let Some((offset, following)) = first_cell(rest) else {
            return Err(PathRefusal::BadPath);
        };
        cells.push(offset)?;
        rest = following;
    }
    Ok(cells)
}

// Returns the offset of the cell at the beginning of a text, and the rest of the text.
fn first_cell(text: &[u8]) -> Option<(u64, &[u8])>
    ensures { MatchOption result ((offset : ℕ) (following : List ℕ)
        → BeginsWithCell text.now offset following
        → ⊥) (λ cell. BeginsWithCell text.now cell.0 cell.1.now) }
{
    let cell = text.strip_prefix(b"@")?;
    let (digits, following) = split_before(cell, b'@');
    Some((number_with_text(digits)?, following))
}
