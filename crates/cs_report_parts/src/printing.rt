//! Appends printed values to a text.
ghost use Rattle.std.specs.Prelude.{OnOk};
ghost use Rattle.std.specs.Fmt.{AppendsText};

use std::alloc::AllocError;
use std::fmt::Display;

/// Appends what `{}` prints of a value.
pub fn append<D: Display + Drop>(text: &mut Vec<u8>, value: D) -> Result<(), AllocError>
    ensures { OnOk result (AppendsText text.old.items text.new.items (D.output value)) }
{
    let printed = value.to_string(*text.allocator())?;
    text.extend_from_slice(printed.as_bytes())
}
