//! Operations on their operands, which are the newest temporaries.
ghost use Rattle.std.specs.Prelude.{◌≡◌, OnOk, IfErr};
ghost use Rattle.cs_events.specs.Acts.{Goes};
ghost use Rattle.cs_meaning.specs.Machine as machine;
ghost use Rattle.cs_cfg.specs.Graph as graph;
ghost use Rattle.cs_cfg.specs.GraphView as view;
ghost use Rattle.cs_cfg.specs.Working as working;
ghost use Rattle.cs_values.specs.View.{operand_of};
ghost use Rattle.cs_runner.specs.RunnerView.{program_of, budgets_of, state_in, IsReady, Performs};
ghost use Rattle.cs_replay.specs.Works.{works};

use crate::accesses::{assign, fetch_number, fetch_pointer, load, move_pointer, update};
use crate::declared::{clear, spell, store_local, zero};
use crate::values::{
    arrow, binary, compare, convert, difference, give, give_nothing, local_place, member, not, sum,
    unary,
};
use cs_ast::Place;
use cs_ast::typed::operator::Allocator;
use cs_cfg::Work;
use cs_events::PointKind;
use cs_run_log::{Stop, Touch};
use cs_runner::runner::Runner;
use cs_values::{Cell, Object, Operand};

/// Carries out an operation other than a call; for a call, which continues in another frame, it does nothing.
pub fn work<'a>(run: &mut Runner<'a>, place: Place, one: &'a Work) -> Result<(), Stop>
    requires { IsReady run.old }
    ensures { Performs run.old run.new result
        (works (program_of run.old) (budgets_of run.old) place (view.work one.now)
        (state_in run.old)) }
{
    match one {
        Work::Number(number) => give(run, Cell::Number(*number)),
        Work::Null => give(run, Cell::Null),
        Work::Text(literal) => give(run, Cell::Pointer(Object::Literal(*literal), 0)),
        Work::Local(declaration) => local_place(run, place, *declaration),
        Work::Global(global) => give(run, Cell::Pointer(Object::Global(*global), 0)),
        Work::Nothing => give_nothing(run, place),
        Work::Sum(bytes, direction, order) => sum(run, place, *bytes, *direction, *order),
        Work::Member(offset) => member(run, place, *offset),
        Work::Arrow(offset) => arrow(run, place, *offset),
        Work::Load(object) => load(run, place, object),
        Work::Convert(from, to) => convert(run, place, from, to),
        Work::Unary(operator, ty) => unary(run, place, *operator, *ty),
        Work::Not => not(run, place),
        Work::Binary(operator, ty) => binary(run, place, *operator, *ty),
        Work::Compare(operator) => compare(run, place, *operator),
        Work::Difference(bytes) => difference(run, place, *bytes),
        Work::Judge => run.machine.judge(&mut run.log, run.setting, place),
        Work::Store(object) => assign(run, place, object),
        Work::FetchNumber(object, works_in) => fetch_number(run, place, object, *works_in),
        Work::Update(op, object, ty, gives) => update(run, place, *op, object, *ty, *gives),
        Work::FetchPointer(object) => fetch_pointer(run, place, object),
        Work::Move(object, n, way, gives) => move_pointer(run, place, object, *n, *way, *gives),
        Work::Call(_, _) => Ok(()),
        Work::Allocate(allocator, element) => run.allocate(place, *allocator, element),
        Work::Free => free(run, place),
        Work::Use => run.machine.use_result(&run.log, run.setting, place),
        Work::Drop => drop_newest(run),
        Work::Clear(declaration, scalar) => clear(run, place, *declaration, *scalar),
        Work::Zero(declaration) => zero(run, place, *declaration),
        Work::StoreLocal(n, at, ty, scalar) => store_local(run, place, *n, *at, ty, *scalar),
        Work::Spell(n, at, bytes) => spell(run, place, *n, *at, bytes.as_bytes()),
        Work::Meet(kind) => meet(run, place, *kind),
        Work::Close(nothing) => close(run, place, *nothing),
    }
}

// The newest temporary is dropped.
fn drop_newest(run: &mut Runner) -> Result<(), Stop>
    ensures { Performs run.old run.new result (Goes (machine.pop (state_in run.old))) }
{
    run.machine.pop();
    Ok(())
}

// A call of `free`, whose argument is the newest temporary (C11 7.22.3.3).
fn free(run: &mut Runner, place: Place) -> Result<(), Stop>
    ensures { Performs run.old run.new result
        (works (program_of run.old) (budgets_of run.old) place graph.Free (state_in run.old)) }
{
    let pointer = run.machine.pop_cell();
    run.release(place, pointer)
}

// The run reaches a control point.
fn meet(run: &mut Runner, place: Place, kind: PointKind) -> Result<(), Stop>
    ensures { Performs run.old run.new result
        (works (program_of run.old) (budgets_of run.old) place (graph.Meet kind)
        (state_in run.old)) }
{
    run.log.touch(Touch::Meets(kind, place))?;
    Ok(())
}

// The run reaches the end of a function's body.
fn close(run: &mut Runner, place: Place, nothing: bool) -> Result<(), Stop>
    ensures { Performs run.old run.new result
        (works (program_of run.old) (budgets_of run.old) place (graph.Close nothing)
        (state_in run.old)) }
{
    run.log.touch(Touch::Meets(PointKind::End, place))?;
    run.machine.push(closed_with(nothing))?;
    Ok(())
}

// Returns the result at the end of a function's body: nothing, or an unset value (C11 6.9.1, paragraph 12).
fn closed_with(nothing: bool) -> Operand
    ensures { operand_of result ≡ working.closed_with nothing }
{
    if nothing {
        Operand::Nothing
    } else {
        Operand::Scalar(Cell::Unset)
    }
}

/// Returns the number of operands of an operation.
pub fn takes(work: &Work) -> u32
    ensures { result ≡ working.takes (view.work work.now) }
{
    match work {
        Work::Number(_) | Work::Null | Work::Text(_) | Work::Local(_) | Work::Global(_) => 0,
        Work::Nothing | Work::Clear(_, _) | Work::Zero(_) | Work::Spell(_, _, _) => 0,
        Work::Meet(_) | Work::Close(_) => 0,
        Work::Member(_) | Work::Arrow(_) | Work::Load(_) | Work::Convert(_, _) => 1,
        Work::Unary(_, _) | Work::Not | Work::Judge | Work::FetchNumber(_, _) => 1,
        Work::FetchPointer(_) | Work::Free | Work::Use | Work::Drop => 1,
        Work::StoreLocal(_, _, _, _) => 1,
        Work::Sum(_, _, _) | Work::Binary(_, _) | Work::Compare(_) | Work::Difference(_) => 2,
        Work::Store(_) => 2,
        Work::Move(_, _, _, _) => 3,
        Work::Update(_, _, _, _) => 4,
        Work::Call(_, count) => *count,
        Work::Allocate(allocator, _) => allocator_takes(*allocator),
    }
}

// Returns the number of arguments of an allocation function (C11 7.22.3).
fn allocator_takes(allocator: Allocator) -> u32
    ensures { result ≡ working.allocator_takes allocator }
{
    match allocator {
        Allocator::Malloc => 1,
        Allocator::Calloc => 2,
    }
}
