//! Generated files.
ghost use Rattle.std.specs.Prelude.{◌≡◌, ◌++◌, IfOk, OnOk};
ghost use Rattle.cs_generate.specs.GeneratedFile as generated;
ghost use Rattle.cs_generate.specs.GeneratedFile.{line_of, generated_file};

use crate::template::Template;
use std::alloc::{AllocError, Global};

/// Returns the file of these two numbers: `size` functions, numbered from 0, each made from one of six templates. The seed and the
/// function's number determine the template, and the constant in it.
pub fn generate_text(alloc: Global, seed: u64, size: u64) -> Result<Vec<u8>, AllocError>
    ensures { IfOk result (λ text. text.items ≡ generated_file seed size) }
{
    let mut text = Vec::new(alloc);
    for number in 0..size {
        append_line(&mut text, seed, number)?;
    }
    Ok(text)
}

/// Appends the line of the function with this number.
fn append_line(text: &mut Vec<u8>, seed: u64, number: u64) -> Result<(), AllocError>
    ensures { OnOk result (text.new.items ≡ text.old.items ++ line_of seed number) }
{
    let alloc = *text.allocator();
    let name = format!(in alloc; "int f{number}")?;
    let body = Template::of(seed, number).body(alloc, constant_of(seed, number))?;
    text.extend_from_slice(name.as_bytes())?;
    text.extend_from_slice(body.as_bytes())?;
    text.extend_from_slice(b"\n")
}

/// Returns the constant of a function, from 2 to 98.
fn constant_of(seed: u64, number: u64) -> u8
    ensures { result ≡ generated.constant_of seed number }
{
    ((7 * u128::from(seed) + 13 * u128::from(number)) % 97 + 2) as u8
}
