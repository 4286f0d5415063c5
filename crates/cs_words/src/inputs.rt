//! The inputs after a function's name.
ghost use Rattle.std.specs.Prelude.{◌≤◌, length};
ghost use Rattle.cs_words.specs.Meaning.{words_text};
ghost use Rattle.cs_words.specs.Scan.{AreInputsRead, IsRefusalFor};

use crate::refusal::WordsRefusal;
use crate::scan::refused;
use cs_inputs::{Inputs, PathRefusal, parse};
use std::alloc::Global;

/// Returns the inputs of the words after a function's name, which are the last words. If a path occurs twice, its last number counts.
pub fn inputs_of(
    alloc: Global,
    words: &[String],
    following: &[String],
) -> Result<Inputs, WordsRefusal>
    requires { length following.now ≤ length words.now }
    ensures { AreInputsRead (words_text following.now) (length words.now) result }
{
    let mut inputs = Inputs::new(alloc);
    let mut rest = following;
    while let Some((word, others)) = rest.split_first() {
        match parse(alloc, word.as_bytes()) {
            Ok((path, number)) => inputs.set(path, number)?,
            Err(cause) => return Err(refused_for(cause, words, rest)),
        }
        rest = others;
    }
    Ok(inputs)
}

// Returns the refusal of the first word of the rest, unless memory ran out.
fn refused_for(cause: PathRefusal, words: &[String], rest: &[String]) -> WordsRefusal
    requires { length rest.now ≤ length words.now }
    ensures { IsRefusalFor cause (length words.now) (length rest.now) result }
{
    match cause {
        PathRefusal::Memory => WordsRefusal::Memory,
        PathRefusal::BadPath | PathRefusal::BadNumber | PathRefusal::TooWide => refused(
            words, rest,
        ),
    }
}
