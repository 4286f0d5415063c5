//! The nodes of typed trees, each made from its parts.
ghost use Rattle.std.specs.Prelude.{◌≡◌, IfOk};
ghost use Rattle.cs_types.specs.Shape.{shape_of, integer, pointer, void};
ghost use Rattle.cs_types.specs.declared.int_type.IntType.TheVariants.{Int as PlainInt};
ghost use Rattle.cs_ast.specs.TypedTree.{Of, Number as NumberForm, Null as NullForm, Through as ThroughForm, Index as IndexForm, Member as MemberForm, Arrow as ArrowForm, Load as LoadForm, Address as AddressForm, Decay as DecayForm, Convert as ConvertForm, Unary as UnaryForm, Not as NotForm, Binary as BinaryForm, Compare as CompareForm, Sum as SumForm, Difference as DifferenceForm, And as AndForm, Or as OrForm, Choice as ChoiceForm, Comma as CommaForm, Assign as AssignForm, Update as UpdateForm, Move as MoveForm, Free as FreeForm, Call as CallForm, Allocate as AllocateForm};
ghost use Rattle.cs_ast.specs.TypedView.{typed, typed_list};

use cs_ast::Place;
use cs_ast::typed::expression::{Expr, ExprKind};
use cs_ast::typed::operator::{Allocator, BinOp, CmpOp, Direction, Gives, Order, UnOp};
use cs_types::{CType, IntType};
use std::alloc::{AllocError, Global};

/// Returns a number of an integer type.
pub fn number(alloc: Global, place: Place, ty: IntType, value: i128) -> Result<Expr, AllocError>
    ensures { IfOk result (λ made. typed made ≡ Of place (integer ty) (NumberForm value)) }
{
    Ok(Expr {
        place,
        ty: CType::Int(ty),
        kind: Box::new(alloc, ExprKind::Number(value))?,
    })
}

/// Returns the null pointer of a pointer type.
pub fn null(alloc: Global, place: Place, ty: &CType) -> Result<Expr, AllocError>
    ensures { IfOk result (λ made. typed made ≡ Of place (shape_of ty.now) NullForm) }
{
    let ty = ty.copy(alloc)?;
    Ok(Expr {
        place,
        ty,
        kind: Box::new(alloc, ExprKind::Null)?,
    })
}

/// Returns the type of pointers to a type.
pub fn pointer_to(alloc: Global, target: &CType) -> Result<CType, AllocError>
    ensures { IfOk result (λ made. shape_of made ≡ pointer (shape_of target.now)) }
{
    let target = Box::new(alloc, target.copy(alloc)?)?;
    Ok(CType::Pointer(target))
}

/// Returns a conversion to a type.
pub fn convert(alloc: Global, place: Place, ty: CType, value: Expr) -> Result<Expr, AllocError>
    ensures { IfOk result (λ made.
        typed made ≡ Of place (shape_of ty) (ConvertForm (typed value))) }
{
    Ok(Expr {
        place,
        ty,
        kind: Box::new(alloc, ExprKind::Convert(value))?,
    })
}

/// Returns a load: the value of an object.
pub fn load(alloc: Global, place: Place, ty: CType, object: Expr) -> Result<Expr, AllocError>
    ensures { IfOk result (λ made.
        typed made ≡ Of place (shape_of ty) (LoadForm (typed object))) }
{
    Ok(Expr {
        place,
        ty,
        kind: Box::new(alloc, ExprKind::Load(object))?,
    })
}

/// Returns the pointer to the first element of an array; `ty` is the pointer's type.
pub fn decay(alloc: Global, place: Place, ty: CType, array: Expr) -> Result<Expr, AllocError>
    ensures { IfOk result (λ made.
        typed made ≡ Of place (shape_of ty) (DecayForm (typed array))) }
{
    Ok(Expr {
        place,
        ty,
        kind: Box::new(alloc, ExprKind::Decay(array))?,
    })
}

/// Returns the address of an object; `ty` is the pointer's type.
pub fn address(alloc: Global, place: Place, ty: CType, object: Expr) -> Result<Expr, AllocError>
    ensures { IfOk result (λ made.
        typed made ≡ Of place (shape_of ty) (AddressForm (typed object))) }
{
    Ok(Expr {
        place,
        ty,
        kind: Box::new(alloc, ExprKind::Address(object))?,
    })
}

/// Returns the object that a pointer points to.
pub fn through(alloc: Global, place: Place, ty: CType, target: Expr) -> Result<Expr, AllocError>
    ensures { IfOk result (λ made.
        typed made ≡ Of place (shape_of ty) (ThroughForm (typed target))) }
{
    Ok(Expr {
        place,
        ty,
        kind: Box::new(alloc, ExprKind::Through(target))?,
    })
}

/// Returns an element, from a pointer and an index.
pub fn index(
    alloc: Global,
    place: Place,
    ty: CType,
    array: Expr,
    number: Expr,
    order: Order,
) -> Result<Expr, AllocError>
    ensures { IfOk result (λ made.
        typed made ≡ Of place (shape_of ty) (IndexForm (typed array) (typed number) order)) }
{
    Ok(Expr {
        place,
        ty,
        kind: Box::new(alloc, ExprKind::Index(array, number, order))?,
    })
}

/// Returns the member of an object at an offset.
pub fn member(
    alloc: Global,
    place: Place,
    ty: CType,
    object: Expr,
    offset: u64,
) -> Result<Expr, AllocError>
    ensures { IfOk result (λ made.
        typed made ≡ Of place (shape_of ty) (MemberForm (typed object) offset)) }
{
    Ok(Expr {
        place,
        ty,
        kind: Box::new(alloc, ExprKind::Member(object, offset))?,
    })
}

/// Returns the member at an offset of the object that a pointer points to.
pub fn arrow(
    alloc: Global,
    place: Place,
    ty: CType,
    object: Expr,
    offset: u64,
) -> Result<Expr, AllocError>
    ensures { IfOk result (λ made.
        typed made ≡ Of place (shape_of ty) (ArrowForm (typed object) offset)) }
{
    Ok(Expr {
        place,
        ty,
        kind: Box::new(alloc, ExprKind::Arrow(object, offset))?,
    })
}

/// Returns an operator on one integer.
pub fn unary(
    alloc: Global,
    place: Place,
    operator: UnOp,
    ty: IntType,
    operand: Expr,
) -> Result<Expr, AllocError>
    ensures { IfOk result (λ made.
        typed made ≡ Of place (integer ty) (UnaryForm operator (typed operand))) }
{
    Ok(Expr {
        place,
        ty: CType::Int(ty),
        kind: Box::new(alloc, ExprKind::Unary(operator, operand))?,
    })
}

/// Returns `!`: whether a value is 0 or null.
pub fn not(alloc: Global, place: Place, operand: Expr) -> Result<Expr, AllocError>
    ensures { IfOk result (λ made.
        typed made ≡ Of place (integer PlainInt) (NotForm (typed operand))) }
{
    Ok(Expr {
        place,
        ty: CType::Int(IntType::Int),
        kind: Box::new(alloc, ExprKind::Not(operand))?,
    })
}

/// Returns an operator between two integers of one type.
pub fn binary(
    alloc: Global,
    place: Place,
    operator: BinOp,
    ty: IntType,
    left: Expr,
    right: Expr,
) -> Result<Expr, AllocError>
    ensures { IfOk result (λ made.
        typed made ≡ Of place (integer ty) (BinaryForm operator (typed left) (typed right))) }
{
    Ok(Expr {
        place,
        ty: CType::Int(ty),
        kind: Box::new(alloc, ExprKind::Binary(operator, left, right))?,
    })
}

/// Returns a comparison of two values of one type.
pub fn compare(
    alloc: Global,
    place: Place,
    operator: CmpOp,
    left: Expr,
    right: Expr,
) -> Result<Expr, AllocError>
    ensures { IfOk result (λ made.
        typed made ≡ Of place (integer PlainInt)
        (CompareForm operator (typed left) (typed right))) }
{
    Ok(Expr {
        place,
        ty: CType::Int(IntType::Int),
        kind: Box::new(alloc, ExprKind::Compare(operator, left, right))?,
    })
}

/// Returns a pointer moved by a number of elements.
pub fn sum(
    alloc: Global,
    place: Place,
    ty: CType,
    base: Expr,
    amount: Expr,
    direction: Direction,
    order: Order,
) -> Result<Expr, AllocError>
    ensures { IfOk result (λ made.
        typed made ≡ Of place (shape_of ty)
        (SumForm (typed base) (typed amount) direction order)) }
{
    Ok(Expr {
        place,
        ty,
        kind: Box::new(alloc, ExprKind::Sum(base, amount, direction, order))?,
    })
}

/// Returns the number of elements between two pointers.
pub fn difference(
    alloc: Global,
    place: Place,
    ty: IntType,
    left: Expr,
    right: Expr,
) -> Result<Expr, AllocError>
    ensures { IfOk result (λ made.
        typed made ≡ Of place (integer ty) (DifferenceForm (typed left) (typed right))) }
{
    Ok(Expr {
        place,
        ty: CType::Int(ty),
        kind: Box::new(alloc, ExprKind::Difference(left, right))?,
    })
}

/// Returns `&&`.
pub fn and(alloc: Global, place: Place, left: Expr, right: Expr) -> Result<Expr, AllocError>
    ensures { IfOk result (λ made.
        typed made ≡ Of place (integer PlainInt) (AndForm (typed left) (typed right))) }
{
    Ok(Expr {
        place,
        ty: CType::Int(IntType::Int),
        kind: Box::new(alloc, ExprKind::And(left, right))?,
    })
}

/// Returns `||`.
pub fn or(alloc: Global, place: Place, left: Expr, right: Expr) -> Result<Expr, AllocError>
    ensures { IfOk result (λ made.
        typed made ≡ Of place (integer PlainInt) (OrForm (typed left) (typed right))) }
{
    Ok(Expr {
        place,
        ty: CType::Int(IntType::Int),
        kind: Box::new(alloc, ExprKind::Or(left, right))?,
    })
}

/// Returns `?:`.
pub fn choice(
    alloc: Global,
    place: Place,
    ty: CType,
    test: Expr,
    one: Expr,
    other: Expr,
) -> Result<Expr, AllocError>
    ensures { IfOk result (λ made.
        typed made ≡ Of place (shape_of ty) (ChoiceForm (typed test) (typed one) (typed other))) }
{
    Ok(Expr {
        place,
        ty,
        kind: Box::new(alloc, ExprKind::Choice(test, one, other))?,
    })
}

/// Returns `,`: two expressions, evaluated in order.
pub fn comma(
    alloc: Global,
    place: Place,
    ty: CType,
    first: Expr,
    second: Expr,
) -> Result<Expr, AllocError>
    ensures { IfOk result (λ made.
        typed made ≡ Of place (shape_of ty) (CommaForm (typed first) (typed second))) }
{
    Ok(Expr {
        place,
        ty,
        kind: Box::new(alloc, ExprKind::Comma(first, second))?,
    })
}

/// Returns an assignment of a value to an object.
pub fn assign(
    alloc: Global,
    place: Place,
    ty: CType,
    object: Expr,
    value: Expr,
) -> Result<Expr, AllocError>
    ensures { IfOk result (λ made.
        typed made ≡ Of place (shape_of ty) (AssignForm (typed object) (typed value))) }
{
    Ok(Expr {
        place,
        ty,
        kind: Box::new(alloc, ExprKind::Assign(object, value))?,
    })
}

/// Returns an update of an object by an operator that is computed in the type `works_in`.
pub fn update(
    alloc: Global,
    place: Place,
    ty: IntType,
    operator: BinOp,
    object: Expr,
    value: Expr,
    works_in: IntType,
    gives: Gives,
) -> Result<Expr, AllocError>
    ensures { IfOk result (λ made.
        typed made ≡ Of place (integer ty)
        (UpdateForm operator (typed object) (typed value) works_in gives)) }
{
    Ok(Expr {
        place,
        ty: CType::Int(ty),
        kind: Box::new(
            alloc,
            ExprKind::Update(operator, object, value, works_in, gives),
        )?,
    })
}

/// Returns an update that moves a pointer object by a number of elements.
pub fn shift(
    alloc: Global,
    place: Place,
    ty: CType,
    object: Expr,
    amount: Expr,
    direction: Direction,
    gives: Gives,
) -> Result<Expr, AllocError>
    ensures { IfOk result (λ made.
        typed made ≡ Of place (shape_of ty)
        (MoveForm (typed object) (typed amount) direction gives)) }
{
    Ok(Expr {
        place,
        ty,
        kind: Box::new(alloc, ExprKind::Move(object, amount, direction, gives))?,
    })
}

/// Returns a call of `free`.
pub fn free(alloc: Global, place: Place, block: Expr) -> Result<Expr, AllocError>
    ensures { IfOk result (λ made. typed made ≡ Of place void (FreeForm (typed block))) }
{
    Ok(Expr {
        place,
        ty: CType::Void,
        kind: Box::new(alloc, ExprKind::Free(block))?,
    })
}

/// Returns a call of a function of the program.
pub fn call(
    alloc: Global,
    place: Place,
    ty: CType,
    function: u32,
    arguments: Vec<Expr>,
) -> Result<Expr, AllocError>
    ensures { IfOk result (λ made.
        typed made ≡ Of place (shape_of ty) (CallForm function (typed_list arguments.items))) }
{
    Ok(Expr {
        place,
        ty,
        kind: Box::new(alloc, ExprKind::Call(function, arguments))?,
    })
}

/// Returns an allocation of a block for elements of a type, as a pointer to it.
pub fn allocate(
    alloc: Global,
    place: Place,
    ty: CType,
    allocator: Allocator,
    arguments: Vec<Expr>,
    element: CType,
) -> Result<Expr, AllocError>
    ensures { IfOk result (λ made.
        typed made ≡ Of place (shape_of ty)
        (AllocateForm allocator (typed_list arguments.items) (shape_of element))) }
{
    Ok(Expr {
        place,
        ty,
        kind: Box::new(alloc, ExprKind::Allocate(allocator, arguments, element))?,
    })
}
