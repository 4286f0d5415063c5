//! The answer to `flow`: the control points of a program's functions.
ghost use Rattle.std.specs.Prelude.{IfOk};
ghost use Rattle.cs_ast.specs.TypedProgram.{typed_program};
ghost use Rattle.cs_commands.specs.Flows.{IsFlowAnswer};

use cs_answers::{Answer, Status};
use cs_ast::typed::program::Program;
use cs_flow::append_flow;
use std::alloc::{AllocError, Global};

/// Returns the flow of a program.
pub fn flow(alloc: Global, program: &Program) -> Result<Answer, AllocError>
    ensures { IfOk result (λ answer.
        IsFlowAnswer (typed_program program.now) answer.status answer.text.items) }
{
    let mut text = Vec::new(alloc);
    append_flow(&mut text, program)?;
    Ok(Answer {
        status: Status::Clean,
        text,
    })
}
