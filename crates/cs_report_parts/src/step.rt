//! The steps of a run as text.
ghost use Rattle.std.specs.Prelude.{◌≡◌, ◌++◌, ℕ, List, Option, OnOk, IfOk, option_map};
ghost use Rattle.std.specs.List.{flat_map};
ghost use Rattle.cs_ast.specs.TypedProgram.{typed_program};
ghost use Rattle.cs_events.specs.declared.event.Event.{Event};
ghost use Rattle.cs_report_parts.specs.RunLines as lines;
ghost use Rattle.cs_report_parts.specs.RunLines.{text_of, step_lines, truth_text, block_text};

use crate::name::function_name;
use crate::place::append_place;
use crate::printing::append;
use cs_ast::typed::program::Program;
use cs_events::{Event, Label};
use std::alloc::{AllocError, Global};

/// Appends a line for each event that is a step.
pub fn append_steps(
    text: &mut Vec<u8>,
    program: &Program,
    events: &[Event],
) -> Result<(), AllocError>
    ensures { OnOk result (text.new.items ≡ text.old.items ++ flat_map (λ (event : Event).
        text_of (step_lines (typed_program program.now).files event.place
        (lines.step_text (typed_program program.now) event.label))) events.now) }
{
    for event in events {
        append_step(text, program, *event)?;
    }
    Ok(())
}

/// Appends `  step PLACE TEXT` for an event that is a step, and nothing for other events.
fn append_step(text: &mut Vec<u8>, program: &Program, event: Event) -> Result<(), AllocError>
    ensures { OnOk result (text.new.items ≡ text.old.items ++ text_of
        (step_lines (typed_program program.now).files event.place
        (lines.step_text (typed_program program.now) event.label))) }
{
    match step_text(*text.allocator(), program, event.label)? {
        Some(step) => {
            append(text, "  step ")?;
            append_place(text, &program.files, event.place)?;
            append(text, " ")?;
            text.extend_from_slice(&step)?;
            append(text, "\n")
        }
        None => Ok(()),
    }
}

/// Returns what a step shows, or None for an event that isn't a step.
pub fn step_text(
    alloc: Global,
    program: &Program,
    label: Label,
) -> Result<Option<Vec<u8>>, AllocError>
    ensures { IfOk result (λ step. option_map (λ text. text.items) step
        ≡ lines.step_text (typed_program program.now) label) }
{
    let mut text = Vec::new(alloc);
    match label {
        Label::Branch(way) => append(&mut text, format_args!("branch {way}"))?,
        Label::Case(number) => append(&mut text, format_args!("case {number}"))?,
        Label::Callee(number) => {
            append(&mut text, "call ")?;
            text.extend_from_slice(function_name(program, number))?;
        }
        Label::Alloc(true) => append(&mut text, "allocation gives a block")?,
        Label::Alloc(false) => append(&mut text, "allocation gives null")?,
        Label::Truth(_) | Label::Wrap(_) | Label::Look(_) | Label::Offset(_) => return Ok(None),
    }
    Ok(Some(text))
}
