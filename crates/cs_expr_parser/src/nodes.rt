//! Builds the nodes of trees from their parts.
ghost use Rattle.std.specs.Prelude.{◌≡◌, ◌<◌, ◌∷◌, List, drop, IfOk, IsSome, length};
ghost use Rattle.cs_ast.specs.declared.token.Token.{Token as OneToken};
ghost use Rattle.cs_expr_parser.specs.Places.{IsFoundPlaced, IsPlacedAnywhere, PlacesForm, PlacesBefore, PlacesAfter, PlacesBetween, PlacesMember, PlacesCall, PlacesChoice, PlacesSizeOfType, PlacesCast};
ghost use Rattle.cs_ast.specs.RawTree.{Enclosed, Index as IndexNode, Call as CallNode, Member as MemberNode, Arrow as ArrowNode, StepAfter as StepAfterNode, StepBefore as StepBeforeNode, Prefix as PrefixNode, SizeOf as SizeOfNode, SizeOfType as SizeOfTypeNode, Cast as CastNode, Infix as InfixNode, Choice as ChoiceNode, Assign as AssignNode, Comma as CommaNode};
ghost use Rattle.cs_ast.specs.RawView.{written, written_kind, written_list};
ghost use Rattle.cs_expr_parser.specs.Leaves.{IsLeafOf, IsLeafKindOf};
ghost use Rattle.cs_expr_parser.specs.Positions.{kind_or_end};

use cs_ast::raw::expression::{RawExpr, RawExprKind};
use cs_ast::raw::name::RawName;
use cs_ast::raw::operator::{AssignOp, InfixOp, PrefixOp, Step};
use cs_ast::raw::written_type::WrittenType;
use cs_ast::{Place, Token, TokenKind};
use cs_grammar::TypedefNames;
use std::alloc::{AllocError, Global};

/// Returns the expression of the one token at an index, if that is an expression.
#[tactic(auto, using(std::proofs::lemmas::Option::slice_get_within))]
pub fn leaf_at(
    alloc: Global,
    tokens: &[Token],
    names: &TypedefNames,
    at: usize,
) -> Result<Option<RawExpr>, AllocError>
    ensures leaf { IfOk result (IsLeafOf names.now (kind_or_end tokens.now at)) }
    ensures within { IfOk result (λ tree. IsSome tree → at < length tokens.now) }
    ensures placed { IfOk result (λ found. IsFoundPlaced found (drop at tokens.now)) }
{
    match tokens.get(at) {
        Some(token) => leaf(alloc, token, names),
        None => Ok(None),
    }
}

/// Returns the expression of one token: a name that is no typedef name, a constant or a string literal.
fn leaf(alloc: Global, token: &Token, names: &TypedefNames) -> Result<Option<RawExpr>, AllocError>
    ensures leaf { IfOk result (IsLeafOf names.now token.now.kind) }
    ensures placed { IfOk result (λ found.
        (others : List OneToken) → IsFoundPlaced found (token.now ∷ others)) }
{
    let Some(kind) = leaf_kind(&token.kind, names)? else {
        return Ok(None);
    };
    Ok(Some(node(alloc, token.place, kind)?))
}

fn leaf_kind(kind: &TokenKind, names: &TypedefNames) -> Result<Option<RawExprKind>, AllocError>
    ensures leaf { IfOk result (IsLeafKindOf names.now kind.now) }
    ensures placed { IfOk result IsPlacedAnywhere }
{
    match kind {
        TokenKind::Name(name) => {
            if names.contains(name) {
                return Ok(None);
            }
            Ok(Some(RawExprKind::Name(name.copy()?)))
        }
        TokenKind::Number(constant) => Ok(Some(RawExprKind::Number(*constant))),
        TokenKind::Character(value) => Ok(Some(RawExprKind::Character(*value))),
        TokenKind::Text(bytes) => Ok(Some(RawExprKind::Text(bytes.copy()?))),
        _ => Ok(None),
    }
}

/// Returns the node of this form at this position.
fn node(alloc: Global, place: Place, kind: RawExprKind) -> Result<RawExpr, AllocError>
    ensures tree { IfOk result (λ tree. written tree ≡ written_kind kind) }
    ensures placed { IfOk result (PlacesForm place kind) }
{
    let kind = Box::new(alloc, kind)?;
    Ok(RawExpr { place, kind })
}

/// `( inner )`
pub fn parenthesis(alloc: Global, place: Place, inner: RawExpr) -> Result<RawExpr, AllocError>
    ensures tree { IfOk result (λ tree. written tree ≡ Enclosed (written inner)) }
    ensures placed { IfOk result (PlacesBefore place inner) }
{
    node(alloc, place, RawExprKind::Parenthesis(inner))
}

/// `array [ number ]`
pub fn index(
    alloc: Global,
    place: Place,
    array: RawExpr,
    number: RawExpr,
) -> Result<RawExpr, AllocError>
    ensures tree { IfOk result (λ tree.
        written tree ≡ IndexNode (written array) (written number)) }
    ensures placed { IfOk result (PlacesBetween place array number) }
{
    node(alloc, place, RawExprKind::Index(array, number))
}

/// `function ( arguments )`
pub fn call(
    alloc: Global,
    place: Place,
    function: RawExpr,
    arguments: Vec<RawExpr>,
) -> Result<RawExpr, AllocError>
    ensures tree { IfOk result
        (λ tree. written tree ≡ CallNode (written function) (written_list arguments.items)) }
    ensures placed { IfOk result (PlacesCall place function arguments.items) }
{
    node(alloc, place, RawExprKind::Call(function, arguments))
}

/// `object . name`
pub fn member(
    alloc: Global,
    place: Place,
    object: RawExpr,
    name: RawName,
) -> Result<RawExpr, AllocError>
    ensures tree { IfOk result (λ tree. written tree ≡ MemberNode (written object) name.name) }
    ensures placed { IfOk result (PlacesMember place object name) }
{
    node(alloc, place, RawExprKind::Member(object, name))
}

/// `pointer -> name`
pub fn arrow(
    alloc: Global,
    place: Place,
    pointer: RawExpr,
    name: RawName,
) -> Result<RawExpr, AllocError>
    ensures tree { IfOk result (λ tree. written tree ≡ ArrowNode (written pointer) name.name) }
    ensures placed { IfOk result (PlacesMember place pointer name) }
{
    node(alloc, place, RawExprKind::Arrow(pointer, name))
}

/// `object ++` or `object --`
pub fn step_after(
    alloc: Global,
    place: Place,
    step: Step,
    object: RawExpr,
) -> Result<RawExpr, AllocError>
    ensures tree { IfOk result (λ tree. written tree ≡ StepAfterNode step (written object)) }
    ensures placed { IfOk result (PlacesAfter place object) }
{
    node(alloc, place, RawExprKind::StepAfter(step, object))
}

/// `++ object` or `-- object`
pub fn step_before(
    alloc: Global,
    place: Place,
    step: Step,
    object: RawExpr,
) -> Result<RawExpr, AllocError>
    ensures tree { IfOk result (λ tree. written tree ≡ StepBeforeNode step (written object)) }
    ensures placed { IfOk result (PlacesBefore place object) }
{
    node(alloc, place, RawExprKind::StepBefore(step, object))
}

/// A prefix operator with its operand.
pub fn prefix(
    alloc: Global,
    place: Place,
    operator: PrefixOp,
    operand: RawExpr,
) -> Result<RawExpr, AllocError>
    ensures tree { IfOk result (λ tree. written tree ≡ PrefixNode operator (written operand)) }
    ensures placed { IfOk result (PlacesBefore place operand) }
{
    node(alloc, place, RawExprKind::Prefix(operator, operand))
}

/// `sizeof operand`
pub fn size_of(alloc: Global, place: Place, operand: RawExpr) -> Result<RawExpr, AllocError>
    ensures tree { IfOk result (λ tree. written tree ≡ SizeOfNode (written operand)) }
    ensures placed { IfOk result (PlacesBefore place operand) }
{
    node(alloc, place, RawExprKind::SizeOf(operand))
}

/// `sizeof ( type )`
pub fn size_of_type(
    alloc: Global,
    place: Place,
    ty: WrittenType,
    bounds: Vec<RawExpr>,
) -> Result<RawExpr, AllocError>
    ensures tree { IfOk result
        (λ tree.
        written tree ≡ SizeOfTypeNode ty.words.items ty.pointers.items
        (written_list bounds.items)) }
    ensures placed { IfOk result (PlacesSizeOfType place ty bounds.items) }
{
    node(alloc, place, RawExprKind::SizeOfType(ty, bounds))
}

/// `( type ) operand`
pub fn cast(
    alloc: Global,
    place: Place,
    ty: WrittenType,
    bounds: Vec<RawExpr>,
    operand: RawExpr,
) -> Result<RawExpr, AllocError>
    ensures tree { IfOk result
        (λ tree.
        written tree ≡ CastNode ty.words.items ty.pointers.items (written_list bounds.items)
        (written operand)) }
    ensures placed { IfOk result (PlacesCast place ty bounds.items operand) }
{
    node(alloc, place, RawExprKind::Cast(ty, bounds, operand))
}

/// An infix operator with its operands.
pub fn infix(
    alloc: Global,
    place: Place,
    operator: InfixOp,
    left: RawExpr,
    right: RawExpr,
) -> Result<RawExpr, AllocError>
    ensures tree { IfOk result
        (λ tree. written tree ≡ InfixNode operator (written left) (written right)) }
    ensures placed { IfOk result (PlacesBetween place left right) }
{
    node(alloc, place, RawExprKind::Infix(operator, left, right))
}

/// `test ? one : other`
pub fn choice(
    alloc: Global,
    place: Place,
    test: RawExpr,
    one: RawExpr,
    other: RawExpr,
) -> Result<RawExpr, AllocError>
    ensures tree { IfOk result
        (λ tree. written tree ≡ ChoiceNode (written test) (written one) (written other)) }
    ensures placed { IfOk result (PlacesChoice place test one other) }
{
    node(alloc, place, RawExprKind::Choice(test, one, other))
}

/// An assignment operator with the object and the value.
pub fn assign(
    alloc: Global,
    place: Place,
    operator: AssignOp,
    object: RawExpr,
    value: RawExpr,
) -> Result<RawExpr, AllocError>
    ensures tree { IfOk result
        (λ tree. written tree ≡ AssignNode operator (written object) (written value)) }
    ensures placed { IfOk result (PlacesBetween place object value) }
{
    node(alloc, place, RawExprKind::Assign(operator, object, value))
}

/// `first , second`
pub fn comma(
    alloc: Global,
    place: Place,
    first: RawExpr,
    second: RawExpr,
) -> Result<RawExpr, AllocError>
    ensures tree { IfOk result (λ tree.
        written tree ≡ CommaNode (written first) (written second)) }
    ensures placed { IfOk result (PlacesBetween place first second) }
{
    node(alloc, place, RawExprKind::Comma(first, second))
}
