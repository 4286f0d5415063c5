//! The operations of expressions on their operands.
ghost use Rattle.std.specs.Prelude.{◌≡◌, IfOk, Some, option_map};
ghost use Rattle.cs_types.specs.Shape.{shape_of};
ghost use Rattle.cs_ast.specs.TypedProgram.{HasLayouts};
ghost use Rattle.cs_ast.specs.TypedView.{typed, typed_list, form};
ghost use Rattle.cs_meaning.specs.Access as meaning;
ghost use Rattle.cs_meaning.specs.Expressions.{count_all};
ghost use Rattle.cs_cfg.specs.Graph as graph;
ghost use Rattle.cs_cfg.specs.GraphView as view;
ghost use Rattle.cs_cfg.specs.Placing.{step_of};
ghost use Rattle.cs_cfg.specs.Standing as standing;
ghost use Rattle.cs_lower.specs.Building.{point_of};
ghost use Rattle.cs_lower.specs.Expressions.{acted, fetched, fetch_of};
ghost use Rattle.cs_lower.specs.Builds.{program_of};

use crate::context::Lowering;
use crate::strips::Strip;
use cs_ast::typed::expression::{Expr, ExprKind};
use cs_ast::typed::operator::{Allocator, BinOp, Direction, Gives};
use cs_cfg::{Access, Work};
use cs_objects::access::access_of;
use cs_types::{CType, IntType};
use cs_values::constants::{integer_of, target_size};
use cs_values::types::size_of;
use std::alloc::AllocError;

impl Lowering<'_> {
    /// Puts the operation of an expression on its operands before a strip.
    pub fn act(&self, e: &Expr, number: u32, following: Strip) -> Result<Strip, AllocError>
        requires { HasLayouts self.now.program.now }
        ensures { IfOk result (λ made.
            point_of made ≡ acted (program_of self.now) (typed e.now) number
            (point_of following)) }
    {
        match self.work_of(e)? {
            Some(work) => following.prepend(e.place, number, work),
            None => Ok(following),
        }
    }

    /// Puts the load of an update before a strip.
    pub fn fetch(&self, e: &Expr, number: u32, following: Strip) -> Result<Strip, AllocError>
        ensures { IfOk result (λ made.
            point_of made ≡ fetched (typed e.now) number (point_of following)) }
    {
        match self.fetch_of(e)? {
            Some(work) => following.prepend(e.place, number, work),
            None => Ok(following),
        }
    }

    // Returns the operation of an expression on its operands, if there is one.
    fn work_of(&self, e: &Expr) -> Result<Option<Work>, AllocError>
        requires { HasLayouts self.now.program.now }
        ensures { IfOk result (λ made.
            option_map view.work made ≡ standing.work_of (program_of self.now) (shape_of e.now.ty)
            (form e.now.kind.value)) }
    {
        match &*e.kind {
            ExprKind::Number(value) => Ok(Some(Work::Number(*value))),
            ExprKind::Null => Ok(Some(Work::Null)),
            ExprKind::Text(literal) => Ok(Some(Work::Text(*literal))),
            ExprKind::Local(declaration) => Ok(Some(Work::Local(*declaration))),
            ExprKind::Global(global) => Ok(Some(Work::Global(*global))),
            ExprKind::Index(_, _, order) => {
                let bytes = size_of(self.program, &e.ty)?;
                Ok(Some(Work::Sum(bytes, Direction::Forward, *order)))
            }
            ExprKind::Member(_, offset) => Ok(Some(Work::Member(*offset))),
            ExprKind::Arrow(_, offset) => Ok(Some(Work::Arrow(*offset))),
            ExprKind::Load(object) => Ok(Some(Work::Load(self.access(object)?))),
            ExprKind::Convert(value) => self.conversion(&value.ty, &e.ty),
            ExprKind::Unary(operator, _) => { Ok(Some(Work::Unary(*operator, integer_of(&e.ty)))) }
            ExprKind::Not(_) => Ok(Some(Work::Not)),
            ExprKind::Binary(op, _, _) => Ok(Some(Work::Binary(*op, integer_of(&e.ty)))),
            ExprKind::Compare(operator, _, _) => Ok(Some(Work::Compare(*operator))),
            ExprKind::Sum(_, _, direction, order) => {
                let bytes = target_size(self.program, &e.ty)?;
                Ok(Some(Work::Sum(bytes, *direction, *order)))
            }
            ExprKind::Difference(left, _) => {
                let bytes = target_size(self.program, &left.ty)?;
                Ok(Some(Work::Difference(bytes)))
            }
            ExprKind::Assign(object, _) => Ok(Some(Work::Store(self.access(object)?))),
            ExprKind::Update(op, object, _, ty, gives) => self.updating(*op, object, *ty, *gives),
            ExprKind::Move(object, _, direction, gives) => self.moving(object, *direction, *gives),
            ExprKind::Call(function, row) => Ok(Some(Work::Call(*function, count_of(row)?))),
            ExprKind::Allocate(allocator, _, element) => self.allocation(*allocator, element),
            ExprKind::Free(_) => Ok(Some(Work::Free)),
            ExprKind::Through(_) | ExprKind::Address(_) | ExprKind::Decay(_) => Ok(None),
            ExprKind::And(_, _) | ExprKind::Or(_, _) => Ok(None),
            ExprKind::Choice(_, _, _) | ExprKind::Comma(_, _) => Ok(None),
        }
    }

    // A conversion from one type to another.
    fn conversion(&self, from: &CType, to: &CType) -> Result<Option<Work>, AllocError>
        ensures { IfOk result (λ made.
            option_map view.work made
            ≡ Some (graph.Convert (shape_of from.now) (shape_of to.now))) }
    {
        let from = from.copy(self.alloc)?;
        let to = to.copy(self.alloc)?;
        Ok(Some(Work::Convert(from, to)))
    }

    // A store of the result of an operator, which is computed in a type.
    fn updating(
        &self,
        operator: BinOp,
        object: &Expr,
        works_in: IntType,
        gives: Gives,
    ) -> Result<Option<Work>, AllocError>
        ensures { IfOk result (λ made.
            option_map view.work made
            ≡ Some (graph.Update operator (meaning.access_of (typed object.now)) works_in
            gives)) }
    {
        let access = self.access(object)?;
        Ok(Some(Work::Update(operator, access, works_in, gives)))
    }

    // A store of a moved pointer.
    fn moving(
        &self,
        object: &Expr,
        direction: Direction,
        gives: Gives,
    ) -> Result<Option<Work>, AllocError>
        requires { HasLayouts self.now.program.now }
        ensures { IfOk result (λ made.
            option_map view.work made
            ≡ Some (graph.Move (meaning.access_of (typed object.now))
            (step_of (program_of self.now) (shape_of object.now.ty)) direction gives)) }
    {
        let bytes = target_size(self.program, &object.ty)?;
        let access = self.access(object)?;
        Ok(Some(Work::Move(access, bytes, direction, gives)))
    }

    // An allocation of elements of a type.
    fn allocation(&self, allocator: Allocator, element: &CType) -> Result<Option<Work>, AllocError>
        ensures { IfOk result (λ made.
            option_map view.work made ≡ Some (graph.Allocate allocator (shape_of element.now))) }
    {
        let element = element.copy(self.alloc)?;
        Ok(Some(Work::Allocate(allocator, element)))
    }

    // The load of an update.
    fn fetch_of(&self, e: &Expr) -> Result<Option<Work>, AllocError>
        ensures { IfOk result (λ made.
            option_map view.work made ≡ fetch_of (form e.now.kind.value)) }
    {
        match &*e.kind {
            ExprKind::Update(_, object, _, works_in, _) => {
                let access = self.access(object)?;
                Ok(Some(Work::FetchNumber(access, *works_in)))
            }
            ExprKind::Move(object, _, _, _) => {
                let access = self.access(object)?;
                Ok(Some(Work::FetchPointer(access)))
            }
            ExprKind::Number(_) | ExprKind::Null | ExprKind::Text(_) => Ok(None),
            ExprKind::Local(_) | ExprKind::Global(_) | ExprKind::Through(_) => Ok(None),
            ExprKind::Index(_, _, _) | ExprKind::Member(_, _) | ExprKind::Arrow(_, _) => Ok(None),
            ExprKind::Load(_) | ExprKind::Address(_) | ExprKind::Decay(_) => Ok(None),
            ExprKind::Convert(_) | ExprKind::Unary(_, _) | ExprKind::Not(_) => Ok(None),
            ExprKind::Binary(_, _, _) | ExprKind::Compare(_, _, _) => Ok(None),
            ExprKind::Sum(_, _, _, _) | ExprKind::Difference(_, _) => Ok(None),
            ExprKind::And(_, _) | ExprKind::Or(_, _) | ExprKind::Choice(_, _, _) => Ok(None),
            ExprKind::Comma(_, _) | ExprKind::Assign(_, _) => Ok(None),
            ExprKind::Call(_, _) | ExprKind::Allocate(_, _, _) | ExprKind::Free(_) => Ok(None),
        }
    }

    // Returns the access to the object that an expression designates.
    fn access(&self, object: &Expr) -> Result<Access, AllocError>
        ensures { IfOk result (λ made. view.access made ≡ meaning.access_of (typed object.now)) }
    {
        let access = access_of(object);
        let ty = access.ty.copy(self.alloc)?;
        Ok(Access {
            place: access.place,
            ty,
            direct: access.direct,
            local: access.local,
        })
    }
}

// Returns the number of arguments.
#[tactic(auto, using(cs_objects::proofs::StatementForms::counted))]
fn count_of(arguments: &[Expr]) -> Result<u32, AllocError>
    ensures { IfOk result (λ count. count ≡ count_all (typed_list arguments.now)) }
{
    u32::try_from(arguments.len()).map_err(|_| AllocError)
}
