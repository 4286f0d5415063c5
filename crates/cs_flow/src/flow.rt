//! The flow of a program as text.
ghost use Rattle.std.specs.Prelude.{◌≡◌, ℕ, ◌++◌, IfOk, OnOk, OnErr, option_map};
ghost use Rattle.cs_ast.specs.TypedProgram.{routine, typed_program};
ghost use Rattle.cs_ast.specs.TypedView.{statement};
ghost use Rattle.cs_cfg.specs.FlowText as cfg;
ghost use Rattle.cs_flow.specs.WholeFlows.{first_flows};

use crate::function::control_points;
use crate::lines::append_points;
use cs_ast::typed::program::{Function, Program};
use cs_names::Name;
use cs_report_parts::append;
use std::alloc::{AllocError, Global};

/// Appends the flow of a program: for each function with a body its name and the lines of its control points, function by function.
///
/// If memory runs out, the flows of the first functions may have been appended.
pub fn append_flow(out: &mut Vec<u8>, program: &Program) -> Result<(), AllocError>
    ensures whole { OnOk result (out.new.items
        ≡ out.old.items ++ cfg.program_flow (typed_program program.now)) }
    ensures beginning { OnErr result ((count : ℕ)
        × (out.new.items ≡ out.old.items ++ first_flows (typed_program program.now) count)) }
{
    for function in &program.functions {
        let text = function_text(*out.allocator(), &program.files, function)?;
        out.extend_from_slice(&text)?;
    }
    Ok(())
}

/// Returns the flow of a function; empty if it has no body.
fn function_text(alloc: Global, files: &[Name], function: &Function) -> Result<Vec<u8>, AllocError>
    ensures { IfOk result (λ text.
        text.items ≡ cfg.routine_text files.now (routine function.now)
        (option_map statement function.now.body)) }
{
    let mut text = Vec::new(alloc);
    let Some(body) = &function.body else {
        return Ok(text);
    };
    let points = control_points(alloc, function, body)?;
    append(&mut text, "flow ")?;
    text.extend_from_slice(function.name.as_bytes())?;
    append(&mut text, "\n")?;
    append_points(&mut text, files, &points)?;
    Ok(text)
}
