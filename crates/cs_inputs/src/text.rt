//! The text of a path.
ghost use Rattle.std.specs.Prelude.{◌≡◌, ◌++◌, ◌∷◌, [], IfOk};
ghost use Rattle.std.specs.Fmt.{decimal};
ghost use Rattle.cs_inputs.specs.PathText.{path_text, root_text, cells_text};

use crate::path::{Path, Root};
use cs_names::Bytes;
use itoa::Buffer;
use std::alloc::{AllocError, Global};

/// Returns the text of a path, as `p@8`, `$g@0`, `call#1@4`, `call#1.0@0` or `malloc#2`.
pub fn print(alloc: Global, path: &Path) -> Result<Bytes, AllocError>
    ensures { IfOk result (λ text. text ≡ path_text path.now) }
{
    let mut text = print_root(alloc, &path.root)?;
    print_cells(&mut text, path.cells.as_slice())?;
    Ok(Bytes::from_vec(text))
}

// Returns the text of a root.
fn print_root(alloc: Global, root: &Root) -> Result<Vec<u8>, AllocError>
    ensures { IfOk result (λ text. text.items ≡ root_text root.now) }
{
    match root {
        Root::Param(name) => Vec::from_slice(alloc, name.as_bytes()),
        Root::Global(name) => {
            let mut text = Vec::from_slice(alloc, b"$")?;
            text.extend_from_slice(name.as_bytes())?;
            Ok(text)
        }
        Root::Call(call) => numbered(alloc, b"call#", *call),
        Root::Wrote(call, argument) => {
            let mut text = numbered(alloc, b"call#", *call)?;
            text.push(b'.')?;
            text.extend_from_slice(Buffer::new().format(*argument).as_bytes())?;
            Ok(text)
        }
        Root::Malloc(number) => numbered(alloc, b"malloc#", *number),
    }
}

// Returns a word followed by a number.
fn numbered(alloc: Global, word: &[u8], number: u64) -> Result<Vec<u8>, AllocError>
    ensures { IfOk result (λ text. text.items ≡ word.now ++ decimal number) }
{
    let mut text = Vec::from_slice(alloc, word)?;
    text.extend_from_slice(Buffer::new().format(number).as_bytes())?;
    Ok(text)
}

// Appends the text of a path's cells.
fn print_cells(text: &mut Vec<u8>, cells: &[u64]) -> Result<(), AllocError>
    ensures { IfOk result (λ _. text.new.items ≡ text.old.items ++ cells_text cells.now) }
{
    for cell in cells {
        text.push(b'@')?;
        text.extend_from_slice(Buffer::new().format(*cell).as_bytes())?;
    }
    Ok(())
}
