//! The answer to a generated file.
ghost use Rattle.std.specs.Prelude.{◌≡◌, map, IfOk};
ghost use Rattle.cs_generate.specs.GeneratedFile.{generated_file};
ghost use Rattle.cs_words.specs.declared.command.Command.TheVariants.{Generate};
ghost use Rattle.cs_app.specs.Answers.{IsAnswer};

use crate::file::answer_to;
use cs_answers::Answer;
use cs_checker::Checker;
use cs_generate::generate_text;
use cs_words::{Command, GenerateWords};
use std::alloc::{AllocError, Global};

/// Returns the answer of a command to the file that its command line generates.
pub fn generated(
    alloc: Global,
    command: &Command,
    words: &GenerateWords,
    checkers: &mut Vec<Box<dyn Checker>>,
) -> Result<Answer, AllocError>
    requires { command.now ≡ Generate words.now }
    ensures answer { IfOk result (λ answer.
        IsAnswer (map (λ b. kind_of b) checkers.old.items) command.now
        (generated_file words.now.seed words.now.size) answer.status answer.text.items) }
    ensures kinds { map (λ b. kind_of b) checkers.new.items
        ≡ map (λ b. kind_of b) checkers.old.items }
{
    let file = generate_text(alloc, u64::from(words.seed), u64::from(words.size))?;
    let answer = answer_to(alloc, command, &file, checkers)?;
    Ok(answer)
}
