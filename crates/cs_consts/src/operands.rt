//! What an operator with two operands requires of the type of its left operand, whatever the right one is (C11 6.5.5 to 6.5.14).
ghost use Rattle.std.specs.Prelude.{◌≡◌};
ghost use Rattle.cs_types.specs.Shape.{shape_of};
ghost use Rattle.cs_consts.specs.Operands.{scalar_fault, moved_fault, integer_fault, left_operand_fault};

use cs_ast::raw::operator::InfixOp;
use cs_scopes::TypeCode;
use cs_types::{CType, StructTable, is_complete, is_scalar};

/// Returns the code with which an operator refuses its left operand whatever the right one is, if it does.
#[tactic(auto, unfolding(crate::specs::Operands::left_operand_fault))]
pub fn left_operand_fault(table: &StructTable, operator: InfixOp, ty: &CType) -> Option<TypeCode>
    ensures { result ≡ left_operand_fault table.now.list operator (shape_of ty.now) }
{
    match operator {
        InfixOp::Or
        | InfixOp::And
        | InfixOp::Equal
        | InfixOp::Differs
        | InfixOp::Less
        | InfixOp::AtMost
        | InfixOp::More
        | InfixOp::AtLeast => scalar_fault(ty),
        InfixOp::Add | InfixOp::Subtract => moved_fault(table, ty),
        InfixOp::BitOr
        | InfixOp::BitXor
        | InfixOp::BitAnd
        | InfixOp::ShiftLeft
        | InfixOp::ShiftRight
        | InfixOp::Multiply
        | InfixOp::Divide
        | InfixOp::Remainder => integer_fault(ty),
    }
}

/// Returns the code for an operand that is tested or compared, if it isn't a scalar.
pub fn scalar_fault(ty: &CType) -> Option<TypeCode>
    ensures { result ≡ scalar_fault (shape_of ty.now) }
{
    if is_scalar(ty) {
        None
    } else {
        Some(TypeCode::OperandTypes)
    }
}

// The code for an operand of `+` or `-`: a pointer has to point to a complete type.
fn moved_fault(table: &StructTable, ty: &CType) -> Option<TypeCode>
    ensures { result ≡ moved_fault table.now.list (shape_of ty.now) }
{
    match ty {
        CType::Int(_) => None,
        CType::Pointer(target) if is_complete(table, target) => None,
        CType::Pointer(_) => Some(TypeCode::IncompleteType),
        _ => Some(TypeCode::OperandTypes),
    }
}

// The code for an operand that has to be an integer.
fn integer_fault(ty: &CType) -> Option<TypeCode>
    ensures { result ≡ integer_fault (shape_of ty.now) }
{
    match ty {
        CType::Int(_) => None,
        _ => Some(TypeCode::OperandTypes),
    }
}
