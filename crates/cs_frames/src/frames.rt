//! New frames (C11 6.2.4, 6.9.1).
ghost use Rattle.std.specs.Prelude.{◌≡◌, ℕ, IfOk, map, option_map, option_copied, replicate, slice_get};
ghost use Rattle.cs_ast.specs.TypedProgram.{HasLayouts, typed_program, routine, variable};
ghost use Rattle.cs_meaning.specs.Calls as calls;
ghost use Rattle.cs_meaning.specs.Machine as machine;
ghost use Rattle.cs_values.specs.View.{operand_of};
ghost use Rattle.cs_objects.specs.BlockView.{block_of, block_at};
ghost use Rattle.cs_run_state.specs.MachineView.{frame_of, state_of};

use cs_ast::Place;
use cs_ast::typed::program::{Function, Local, Program};
use cs_objects::blocks::{Block, BlockType, Change, Fill};
use cs_objects::counted_points::counted_points;
use cs_run_state::items::{Item, StmtStep};
use cs_run_state::machine::{Frame, Machine};
use cs_values::Operand;
use cs_values::types::size_of;
use std::alloc::{AllocError, Global};

// A default source position.
const NOWHERE: Place = Place {
    file: 0,
    line: 0,
    column: 0,
};

/// Returns the number of the current frame.
#[tactic(auto, unfolding(cs_run_state::specs::MachineView::state_of))]
pub fn number_of(state: &Machine) -> u64
    ensures { result ≡ (state_of state.now).frame.number }
{
    state.frame.number
}

/// Returns a frame at the beginning of a function.
pub fn new_frame<'a>(
    alloc: Global,
    function: u32,
    number: u64,
    callee: &'a Function,
) -> Result<Frame<'a>, AllocError>
    ensures { IfOk result (λ frame.
        frame_of frame ≡ calls.new_frame function number (routine callee.now)) }
{
    let mut todo = Vec::new(alloc);
    todo.push(Item::End(callee.end, BlockType::Of(&callee.result)))?;
    let mut visits = Vec::new(alloc);
    match &callee.body {
        Some(body) => {
            todo.push(Item::Statement(StmtStep::Execute, body, 0))?;
            visits = zeros(alloc, counted_points(body)?)?;
        }
        None => todo.push(Item::Pass(callee.place))?,
    }
    todo.push(Item::Begin(callee.place))?;
    Ok(Frame {
        function,
        number,
        todo,
        stack: Vec::new(alloc),
        visits,
    })
}

/// Returns a frame of a function that doesn't exist: it has no body and returns nothing.
pub fn no_frame<'a>(alloc: Global, function: u32, number: u64) -> Result<Frame<'a>, AllocError>
    ensures { IfOk result (λ frame.
        frame_of frame ≡ calls.new_frame function number (machine.no_routine machine.NOWHERE)) }
{
    let mut todo = Vec::new(alloc);
    todo.push(Item::End(NOWHERE, BlockType::Void))?;
    todo.push(Item::Pass(NOWHERE))?;
    todo.push(Item::Begin(NOWHERE))?;
    Ok(Frame {
        function,
        number,
        todo,
        stack: Vec::new(alloc),
        visits: Vec::new(alloc),
    })
}

/// Returns `count` zeros.
pub fn zeros(alloc: Global, count: u64) -> Result<Vec<u32>, AllocError>
    ensures { IfOk result (λ made. made.items ≡ replicate count 0) }
{
    let mut made = Vec::new(alloc);
    while (made.len() as u64) < count {
        made.push(0)?;
    }
    Ok(made)
}

/// Returns the locals of a new frame with these arguments: they are unset, but a parameter holds its argument (C11 6.2.4, paragraph 6).
pub fn local_blocks<'a>(
    alloc: Global,
    program: &Program,
    locals: &'a [Local],
    arguments: &[Operand],
) -> Result<Vec<Block<'a>>, AllocError>
    requires { HasLayouts program.now }
    ensures { IfOk result (λ made.
        (n : ℕ) → block_at made.items n
        ≡ option_map (calls.local_block (typed_program program.now)
        (slice_get (map operand_of arguments.now) n)) (slice_get (map variable locals.now) n)) }
{
    let mut made = Vec::new(alloc);
    for (number, local) in locals.iter().enumerate() {
        let block = local_block(alloc, program, local, arguments.get(number))?;
        made.push(block)?;
    }
    Ok(made)
}

// Returns a local of a new frame, with its argument if it is a parameter.
#[tactic(auto, using(crate::proofs::NewLocals::locals))]
fn local_block<'a>(
    alloc: Global,
    program: &Program,
    local: &'a Local,
    argument: Option<&Operand>,
) -> Result<Block<'a>, AllocError>
    requires { HasLayouts program.now }
    ensures { IfOk result (λ made.
        block_of made ≡ calls.local_block (typed_program program.now)
        (option_map operand_of (option_copied argument.entry)) (variable local.now)) }
{
    let size = size_of(program, &local.ty)?;
    let mut block = Block::new(alloc, BlockType::Of(&local.ty), size, Fill::Unset);
    if let Some(argument) = argument {
        let cell = argument.copy()?.into_cell();
        block.change(Change::Write(0, cell))?;
    }
    Ok(block)
}
