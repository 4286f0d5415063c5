//! The lowering of functions, and of the whole program.
ghost use Rattle.std.specs.Prelude.{◌≡◌, IfOk, Some, option_map};
ghost use Rattle.cs_types.specs.Shape.{shape_of};
ghost use Rattle.cs_ast.specs.TypedProgram.{HasLayouts, typed_program, routine};
ghost use Rattle.cs_ast.specs.TypedView.{statement};
ghost use Rattle.cs_meaning.specs.Calls.{falls_off};
ghost use Rattle.cs_cfg.specs.GraphView as view;
ghost use Rattle.cs_cfg.specs.Working.{closed_with};
ghost use Rattle.cs_cfg.specs.Lowered.{IsLowered};
ghost use Rattle.cs_cfg.specs.Placed.{IsPlaced};
ghost use Rattle.cs_lower.specs.Allocations.{StatementHasArguments, AllocationsHaveArguments};
ghost use Rattle.cs_lower.specs.Building.{built_of};
ghost use Rattle.cs_lower.specs.Functions.{BeginsBody, IsGraphOf, WorksAs, HasGraph};
ghost use Rattle.cs_lower.specs.Integers.{KeepsIntegers};
ghost use Rattle.cs_lower.specs.Ready.{IsReady};
ghost use Rattle.cs_lower.specs.Builds.{program_of, function_of};

use crate::building::GraphBuilder;
use crate::context::Lowering;
use crate::labels::add_labels;
use crate::statements::Exits;
use crate::strips::Strip;
use cs_ast::typed::program::{Function, Program};
use cs_ast::typed::statement::Stmt;
use cs_cfg::{BlockEnd, Code, Flow, Work};
use cs_events::PointKind;
use cs_types::CType;
use std::alloc::{AllocError, Global};
use std::collections::BTreeMap;

/// Returns the code of a program: each function with a body has a flow graph that executes it and has exactly its control points, if each
/// allocation has the arguments that its function takes (C11 7.22.3). The graph of an integer function is integer code.
/// Its only error is running out of memory.
pub fn lower(alloc: Global, program: &Program) -> Result<Code, AllocError>
    requires { HasLayouts program.now }
    ensures placed { IfOk result (λ code.
        AllocationsHaveArguments (typed_program program.now)
        → IsPlaced (view.code code) (typed_program program.now)) }
    ensures lowered { IfOk result (λ code.
        AllocationsHaveArguments (typed_program program.now)
        → IsLowered (view.code code) (typed_program program.now)) }
    ensures integers { IfOk result (λ code.
        KeepsIntegers (view.code code) (typed_program program.now)) }
{
    let mut flows = Vec::new(alloc);
    for function in &program.functions {
        let flow = lower_function(alloc, program, function)?;
        flows.push(flow)?;
    }
    Ok(Code { flows })
}

// Returns the graph of a function, if it has a body.
fn lower_function(
    alloc: Global,
    program: &Program,
    function: &Function,
) -> Result<Option<Flow>, AllocError>
    requires { HasLayouts program.now }
    ensures { IfOk result (λ made.
        HasGraph (typed_program program.now) (routine function.now) (option_map view.flow made)) }
{
    match &function.body {
        None => Ok(None),
        Some(body) => {
            let flow = lower_body(alloc, program, function, body)?;
            Ok(Some(flow))
        }
    }
}

// Returns the graph that executes the body of a function.
fn lower_body(
    alloc: Global,
    program: &Program,
    function: &Function,
    body: &Stmt,
) -> Result<Flow, AllocError>
    requires laid_out { HasLayouts program.now }
    requires own { (routine function.now).body ≡ Some (statement body.now) }
    ensures graph { IfOk result (λ flow.
        StatementHasArguments (statement body.now)
        → IsGraphOf (typed_program program.now) (routine function.now) (statement body.now)
        (view.flow flow)) }
    ensures integers { IfOk result (λ flow. WorksAs (statement body.now) (view.flow flow)) }
{
    let mut labels = BTreeMap::new(alloc);
    let counted_points = add_labels(&mut labels, body, 0)?;
    let counted_points = narrowed(counted_points)?;
    let lowering = Lowering {
        alloc,
        program,
        function,
        labels,
    };
    let mut graph = GraphBuilder::new(alloc, counted_points);
    let entry = lowering.lower_whole(&mut graph, body)?;
    let flow = graph.finish(entry)?;
    Ok(flow)
}

// Converts a count to 32 bits.
fn narrowed(count: u64) -> Result<u32, AllocError>
    ensures { IfOk result (λ made. made ≡ count) }
{
    u32::try_from(count).map_err(|_| AllocError)
}

impl Lowering<'_> {
    // Lowers the body of a function between its beginning and its end. Returns the block where a call begins.
    fn lower_whole(&self, graph: &mut GraphBuilder, body: &Stmt) -> Result<u32, AllocError>
        requires { IsReady self.now }
        ensures { IfOk result (λ entry.
            BeginsBody (program_of self.now) (function_of self.now) (statement body.now)
            (built_of graph.old) (built_of graph.new) entry) }
    {
        let function = self.function;
        let finish = Strip::ending(self.alloc, BlockEnd::Finish);
        let finishing = graph.seal(finish)?;
        let exits = Exits {
            out: finishing,
            again: finishing,
        };
        let nothing = gives_nothing(&function.result);
        let leaving = Strip::ending(self.alloc, BlockEnd::Return(0));
        let following = leaving.prepend(function.end, 0, Work::Close(nothing))?;
        let inside = self.lower_statement(graph, body, exits, following)?;
        let enter = Work::Meet(PointKind::Enter);
        let entry = inside.prepend(function.place, 0, enter)?;
        let block = graph.seal(entry)?;
        Ok(block)
    }
}

// Whether a function with this result type returns nothing, rather than an unset value, at the end of its body.
fn gives_nothing(ty: &CType) -> bool
    ensures { closed_with result ≡ falls_off (shape_of ty.now) }
{
    match ty {
        CType::Void => true,
        CType::Int(_) | CType::Pointer(_) | CType::Array(_, _) | CType::Struct(_) => false,
    }
}
