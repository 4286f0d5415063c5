//! The state in which the exploration of an entry begins.
ghost use Rattle.std.specs.Prelude.{◌≡◌, ℤ, pos, IsTrue, [], length, map, replicate, slice_get, Some, option_map, unwrap_or, IfOk, OnOk};
ghost use Rattle.cs_types.specs.Shape.{shape_of};
ghost use Rattle.cs_ast.specs.TypedProgram.{HasLayouts, typed_program, variable, routine};
ghost use Rattle.cs_ranges.specs.Interval.{IsInside};
ghost use Rattle.cs_ranges.specs.RangeSet.{contains, IsInhabited};
ghost use Rattle.cs_events.specs.Operations as operations;
ghost use Rattle.cs_events.specs.InputCells.{lies_in};
ghost use Rattle.cs_meaning.specs.Types.{element_of};
ghost use Rattle.cs_meaning.specs.Machine.{routine_of};
ghost use Rattle.cs_meaning.specs.Steps.{parameters_of, parameter_path};
ghost use Rattle.cs_cfg.specs.Graph as graphs;
ghost use Rattle.cs_cfg.specs.Graph.{no_flow};
ghost use Rattle.cs_cfg.specs.GraphView as graph;
ghost use Rattle.cs_state.specs.Naming.{naming, Extends};
ghost use Rattle.cs_state.specs.Writes.{with_known};
ghost use Rattle.cs_state.specs.Starting as starting;
ghost use Rattle.cs_state.specs.Starting.{HaveSizes, HasSizes, DifferInName, path_of, frame_in, IsFresh, IsStart};
ghost use Rattle.cs_state.specs.Starting.{Gives, GivesNumber, GivesPointer, Receives, HasReceived};

use crate::block::{Block, TypeNumber};
use crate::callers::Callers;
use crate::frame::Frame;
use crate::read_cells::ReadCells;
use crate::start_block::start_bytes;
use crate::state::{Answers, Counters, State};
use crate::tables::Tables;
use crate::temporary::Temporaries;
use crate::visits::Visits;
use cs_ast::typed::program::{Function, Local, Program};
use cs_cfg::{Code, Flow, Spot};
use cs_constraints::Constraints;
use cs_events::numbers_of;
use cs_inputs::{Cells, Path, Root};
use cs_model::Standing;
use cs_names::Name;
use cs_pmap::PMap;
use cs_ranges::RangeSet;
use cs_regions::Base;
use cs_store::{Store, Value};
use cs_terms::{Lin, Sym, SymName};
use cs_types::{CType, DataModel, IntType};
use std::alloc::{AllocError, Global};

impl State {
    /// Returns the state of all runs of an entry at their beginning: its parameters hold any inputs.
    pub fn start(
        alloc: Global,
        code: &Code,
        program: &Program,
        entry: u32,
        tables: &mut Tables,
    ) -> Result<State, AllocError>
        requires laid_out { HasLayouts program.now }
        requires sizes { HaveSizes (typed_program program.now)
            (parameters_of (routine_of (typed_program program.now) entry)) }
        requires names { DifferInName
            (parameters_of (routine_of (typed_program program.now) entry)) }
        ensures tables { Extends (naming tables.old) (naming tables.new) }
        ensures start { IfOk result (IsStart (graph.code code.now) (typed_program program.now)
            entry (naming tables.new)) }
    {
        let mut state = State::fresh(alloc, code, program.model, entry)?;
        let Some(function) = function_at(program, entry) else {
            return Ok(state);
        };
        state.receive_all(alloc, program, parameters(function), tables)?;
        Ok(state)
    }

    // Returns a state at the beginning of a function, in which nothing is known.
    fn fresh(alloc: Global, code: &Code, model: DataModel, entry: u32) -> Result<State, AllocError>
        ensures { IfOk result (IsFresh (graph.code code.now) model entry) }
    {
        let frame = first_frame(alloc, code, entry)?;
        Ok(State {
            model,
            frame,
            callers: Callers::new(alloc),
            store: Store::new(alloc),
            blocks: PMap::new(alloc),
            read: ReadCells::new(alloc),
            constraints: Constraints::new(alloc),
            answers: Answers::new(alloc),
            counters: Counters {
                frames: 1,
                allocations: 0,
                calls: 0,
                events: 0,
            },
            asked: PMap::new(alloc),
            phase: 0,
            result: None,
        })
    }

    // Binds parameters to their inputs.
    fn receive_all(
        &mut self,
        alloc: Global,
        program: &Program,
        parameters: &[Local],
        tables: &mut Tables,
    ) -> Result<(), AllocError>
        requires laid_out { HasLayouts program.now }
        requires sizes { HaveSizes (typed_program program.now) (map variable parameters.now) }
        requires names { DifferInName (map variable parameters.now) }
        requires new { HasReceived (typed_program program.now) (naming tables.old)
            (map variable parameters.now) 0 self.old }
        ensures tables { Extends (naming tables.old) (naming tables.new) }
        ensures all { OnOk result (HasReceived (typed_program program.now) (naming tables.new)
            (map variable parameters.now) (length parameters.now) self.new) }
        ensures rest { OnOk result (self.new ≡ with_known self.new self.old) }
    {
        for number in 0..parameters.len() {
            self.receive(alloc, program, number, &parameters[number], tables)?;
        }
        Ok(())
    }

    // Binds a parameter to its input.
    fn receive(
        &mut self,
        alloc: Global,
        program: &Program,
        number: usize,
        parameter: &Local,
        tables: &mut Tables,
    ) -> Result<(), AllocError>
        requires laid_out { HasLayouts program.now }
        requires sizes { HasSizes (typed_program program.now) (shape_of parameter.now.ty) }
        ensures tables { Extends (naming tables.old) (naming tables.new) }
        ensures ok { OnOk result (Receives (typed_program program.now) (naming tables.new) number
            (variable parameter.now) self.old self.new) }
    {
        let value = self.received(alloc, program, parameter, tables)?;
        if number > u32::MAX as usize {
            return Err(AllocError);
        }
        let base = tables.base(Base::Local {
            frame: 0,
            decl: number as u32,
        })?;
        self.bind(base, 0, value)?;
        Ok(())
    }

    // Returns the value of a parameter's input.
    fn received(
        &mut self,
        alloc: Global,
        program: &Program,
        parameter: &Local,
        tables: &mut Tables,
    ) -> Result<Value, AllocError>
        requires laid_out { HasLayouts program.now }
        requires sizes { HasSizes (typed_program program.now) (shape_of parameter.now.ty) }
        ensures tables { Extends (naming tables.old) (naming tables.new) }
        ensures ok { IfOk result (λ value. Gives (typed_program program.now) (naming tables.new)
            (shape_of parameter.now.ty) (parameter_path (variable parameter.now))
            parameter.now.block value self.old self.new) }
    {
        match &parameter.ty {
            CType::Int(ty) => self.receive_number(
                alloc,
                program.model,
                *ty,
                &parameter.name,
                tables,
            ),
            CType::Pointer(target) => {
                let bytes = start_bytes(program, target, parameter.block)?;
                self.receive_pointer(alloc, target, bytes, &parameter.name, tables)
            }
            CType::Void => Ok(Value::Unset),
            CType::Array(_, _) => Ok(Value::Unset),
            CType::Struct(_) => Ok(Value::Unset),
        }
    }

    // Returns the symbol of an integer, which may have any number of its type.
    fn receive_number(
        &mut self,
        alloc: Global,
        model: DataModel,
        ty: IntType,
        name: &Name,
        tables: &mut Tables,
    ) -> Result<Value, AllocError>
        ensures tables { Extends (naming tables.old) (naming tables.new) }
        ensures ok { IfOk result (λ value. GivesNumber (naming tables.new) (path_of name.now)
            (operations.numbers_of model ty) value self.old self.new) }
    {
        let range = numbers_of(model, ty);
        let sym = tables.sym(SymName::Input(parameter_at(alloc, name)?))?;
        let numbers = numbers_in(alloc, &range)?;
        self.declare(sym, numbers)?;
        Ok(Value::Number(own(sym)))
    }

    // Returns a pointer that is null or points to a block of its own.
    fn receive_pointer(
        &mut self,
        alloc: Global,
        target: &CType,
        bytes: u64,
        name: &Name,
        tables: &mut Tables,
    ) -> Result<Value, AllocError>
        ensures tables { Extends (naming tables.old) (naming tables.new) }
        ensures ok { IfOk result (λ value. GivesPointer (naming tables.new) (path_of name.now)
            (element_of (shape_of target.now)) bytes value self.old self.new) }
    {
        let sym = tables.sym(SymName::Input(parameter_at(alloc, name)?))?;
        let truths = RangeSet::of(alloc, 0, 1)?;
        let base = tables.base(Base::Entry(parameter_at(alloc, name)?))?;
        let element = tables.element(target)?;
        self.declare(sym, truths)?;
        self.set_block(base, start_block_of(bytes, element, sym))?;
        Ok(Value::Start(base, 0))
    }
}

// Returns the function with a number.
fn function_at(program: &Program, number: u32) -> Option<&Function>
    ensures { option_map (λ function. routine function.now) result
        ≡ slice_get (typed_program program.now).routines number }
{
    program.functions.get(number as usize)
}

// Returns the parameters of a function.
fn parameters(function: &Function) -> &[Local]
    ensures { map variable result.now ≡ parameters_of (routine function.now) }
{
    let locals = function.locals.as_slice();
    let count = (function.parameters as usize).min(locals.len());
    &locals[..count]
}

// Returns the path of a parameter.
fn parameter_at(alloc: Global, name: &Name) -> Result<Path, AllocError>
    ensures { IfOk result (λ path. path ≡ path_of name.now) }
{
    Ok(Path {
        root: Root::Param(name.copy()?),
        cells: Cells::new(alloc),
    })
}

// Returns the numbers of a range that contains 0.
fn numbers_in(alloc: Global, range: &(i128, i128)) -> Result<RangeSet, AllocError>
    requires low { IsInside range.now.0 }
    requires high { IsInside range.now.1 }
    requires has_zero { IsTrue (lies_in range.now (pos 0)) }
    ensures numbers { IfOk result (λ set.
        (x : ℤ) → contains set x ≡ lies_in range.now x) }
    ensures inhabited { IfOk result (λ set. IsInhabited set) }
{
    RangeSet::of(alloc, range.0, range.1)
}

// Returns a symbol as a term.
fn own(sym: Sym) -> Lin
    ensures { result ≡ starting.own sym }
{
    Lin {
        sym: Some(sym),
        slope: 1,
        at: 0,
        value: 0,
    }
}

// Returns a start block of a size.
fn start_block_of(bytes: u64, element: TypeNumber, sym: Sym) -> Block
    ensures { result ≡ starting.start_block_of bytes element sym }
{
    Block {
        extent: Lin {
            sym: None,
            slope: 0,
            at: 0,
            value: bytes as i128,
        },
        standing: Standing::Live,
        element,
        sym,
        made_by: 0,
    }
}

// Returns the first frame of an entry.
fn first_frame(alloc: Global, code: &Code, entry: u32) -> Result<Frame, AllocError>
    ensures { IfOk result (λ frame. frame
        ≡ frame_in entry (unwrap_or (graphs.flow_of (graph.code code.now) entry) no_flow)) }
{
    match flow_of(code, entry) {
        Some(flow) => frame_at(alloc, entry, flow.entry, flow.counted_points as usize),
        None => frame_at(alloc, entry, 0, 0),
    }
}

// Returns the flow graph of a function.
fn flow_of(code: &Code, function: u32) -> Option<&Flow>
    ensures { option_map (λ flow. graph.flow flow.now) result
        ≡ graphs.flow_of (graph.code code.now) function }
{
    match code.flows.get(function as usize) {
        Some(Some(flow)) => Some(flow),
        Some(None) => None,
        None => None,
    }
}

// Returns a frame that begins at a basic block.
fn frame_at(
    alloc: Global,
    function: u32,
    block: u32,
    counted_points: usize,
) -> Result<Frame, AllocError>
    ensures { IfOk result (λ frame. frame ≡ record {
      number = 0;
      spot = record { function = function; block = block; operation = 0 };
      temporaries = [];
      visits = replicate counted_points 0;
    }) }
{
    let visits = Visits::none(alloc, counted_points)?;
    Ok(Frame {
        number: 0,
        spot: Spot {
            function,
            block,
            operation: 0,
        },
        temporaries: Temporaries::new(alloc),
        visits,
    })
}
