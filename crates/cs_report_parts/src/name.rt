//! Names of functions in the text of results.
ghost use Rattle.std.specs.Prelude.{◌≡◌};
ghost use Rattle.cs_ast.specs.TypedProgram.{typed_program};
ghost use Rattle.cs_report_parts.specs.RunLines as lines;

use cs_ast::typed::program::Program;

/// Returns the name of the function with a number, or an empty name if there is no such function.
pub fn function_name(program: &Program, number: u32) -> &[u8]
    ensures { result.now ≡ lines.function_name (typed_program program.now) number }
{
    match program.functions.get(number as usize) {
        Some(function) => function.name.as_bytes(),
        None => &[],
    }
}
