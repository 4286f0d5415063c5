//! The witness's text for suspects of a function of a file.
ghost use Rattle.cs_ast.specs.TypedProgram.{HasLayouts, typed_program};
ghost use Rattle.cs_cfg.specs.GraphView as view;
ghost use Rattle.cs_cfg.specs.Lowered.{IsLowered};
ghost use Rattle.cs_objects.specs.Prepared.{IsPrepared};
ghost use Rattle.cs_well_formed.specs.Programs.{IsWellFormed};

use crate::printed::append_witnessed;
use crate::suspected::suspect;
use cs_ast::typed::program::Program;
use cs_cfg::Code;
use cs_findings::Budgets;
use cs_lower::lower;
use cs_objects::prepared::Prepared;
use cs_program::program_of;
use cs_suspect_types::Suspect;
use cs_types::DataModel;
use cs_witness::{Entry, result};
use std::alloc::{AllocError, Global};
use std::str;

const BUDGETS: Budgets = Budgets {
    visits: 4,
    depth: 5,
    events: 20_000,
    nodes: 150_000,
    splits: 64,
};

/// Returns the witness's text for the suspects of the last function of a file, one on each line.
pub fn witnessed(alloc: Global, file: &str, lines: &str) -> Result<Vec<u8>, AllocError> {
    match program_of(alloc, DataModel::Lp64, file.as_bytes()) {
        Ok(found) => of_program(alloc, &found.program, lines),
        Err(_) => Vec::from_slice(alloc, b"no program"),
    }
}

fn of_program(alloc: Global, program: &Program, lines: &str) -> Result<Vec<u8>, AllocError>
    requires { IsWellFormed (typed_program program.now) }
{
    let code = lower(alloc, program)?;
    match Prepared::new(alloc, program) {
        Ok(prepared) => prepared_said(alloc, program, &prepared, &code, lines),
        Err(_) => Err(AllocError),
    }
}

fn prepared_said(
    alloc: Global,
    program: &Program,
    prepared: &Prepared,
    code: &Code,
    lines: &str,
) -> Result<Vec<u8>, AllocError>
    requires laid_out { HasLayouts program.now }
    requires prepared { IsPrepared prepared.now program.now }
    requires lowered { IsLowered (view.code code.now) (typed_program program.now) }
{
    let last = program.functions.len().saturating_sub(1);
    let entry = Entry {
        program,
        prepared,
        code,
        function: u32::try_from(last).map_err(|_| AllocError)?,
        budgets: BUDGETS,
    };
    let suspects = suspects(alloc, lines)?;
    let witnessed = result(alloc, &entry, suspects.as_slice(), Vec::new(alloc))?;
    let mut text = Vec::new(alloc);
    append_witnessed(&mut text, program.files.as_slice(), &witnessed)?;
    Ok(text)
}

fn suspects(alloc: Global, lines: &str) -> Result<Vec<Suspect>, AllocError> {
    let mut suspects = Vec::new(alloc);
    for line in lines.lines() {
        if let Some(suspect) = suspect(alloc, line)? {
            suspects.push(suspect)?;
        }
    }
    Ok(suspects)
}
