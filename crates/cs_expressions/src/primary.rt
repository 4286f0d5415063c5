//! Names, constants and string literals (C11 6.4.4.1, 6.4.5, 6.5.1).
ghost use Rattle.std.specs.Prelude.{◌≡◌, ◌++◌, ◌∷◌, [], ◌≤◌, OnOk, IfOk, length, option_copied};
ghost use Rattle.std.specs.Option.{option_map};
ghost use Rattle.cs_types.specs.Shape.{shape_of};
ghost use Rattle.cs_ast.specs.TypedView.{typed};
ghost use Rattle.cs_scopes.specs.Verdicts.{Yields};
ghost use Rattle.cs_scopes.specs.Meanings.{meaning_of};
ghost use Rattle.cs_expressions.specs.Primary.{can_represent, first_representing, unsigned_types, decimal_types, other_types, constant_type, named, text_at};
ghost use Rattle.cs_types.specs.declared.int_type.IntType.TheVariants.{LLong, ULLong};

use crate::nodes::number;
use cs_ast::typed::expression::{Expr, ExprKind};
use cs_ast::{IntegerConstant, Length, Place};
use cs_names::Bytes;
use cs_scopes::{Meaning, TypeCode, TypeRefusal};
use cs_types::{CType, DataModel, IntType, in_range};
use std::alloc::{AllocError, Global};

/// The greatest number of bytes of a string literal, without its zero byte.
const LONGEST_TEXT: usize = 65535;

// Whether a type can represent a number.
fn can_represent(model: DataModel, ty: IntType, number: u64) -> bool
    ensures { result ≡ can_represent model ty number }
{
    in_range(model, ty, i128::from(number))
}

/// Returns the type of an integer constant: the first type of its list that can represent it.
#[tactic(auto, unfolding(crate::specs::Primary::constant_type))]
pub fn constant_type(model: DataModel, constant: IntegerConstant) -> IntType
    ensures { result ≡ constant_type model constant }
{
    let number = constant.value;
    if constant.unsigned {
        unsigned_type(model, number, constant.length)
    } else if constant.decimal {
        decimal_type(model, number, constant.length)
    } else {
        other_type(model, number, constant.length)
    }
}

// The type of a constant with `u` in its suffix.
fn unsigned_type(model: DataModel, number: u64, length: Length) -> IntType
    ensures { result ≡ first_representing model number ULLong (unsigned_types length) }
{
    match length {
        Length::Plain if can_represent(model, IntType::UInt, number) => IntType::UInt,
        Length::Plain | Length::Long if can_represent(model, IntType::ULong, number) =>
            IntType::ULong,
        _ => IntType::ULLong,
    }
}

// The type of a decimal constant.
fn decimal_type(model: DataModel, number: u64, length: Length) -> IntType
    ensures { result ≡ first_representing model number LLong (decimal_types length) }
{
    match length {
        Length::Plain if can_represent(model, IntType::Int, number) => IntType::Int,
        Length::Plain | Length::Long if can_represent(model, IntType::Long, number) =>
            IntType::Long,
        _ => IntType::LLong,
    }
}

// The type of an octal or hexadecimal constant.
fn other_type(model: DataModel, number: u64, length: Length) -> IntType
    ensures { result ≡ first_representing model number ULLong (other_types length) }
{
    match length {
        Length::Plain if can_represent(model, IntType::Int, number) => IntType::Int,
        Length::Plain if can_represent(model, IntType::UInt, number) => IntType::UInt,
        Length::Plain | Length::Long if can_represent(model, IntType::Long, number) =>
            IntType::Long,
        Length::Plain | Length::Long if can_represent(model, IntType::ULong, number) =>
            IntType::ULong,
        _ if can_represent(model, IntType::LLong, number) => IntType::LLong,
        _ => IntType::ULLong,
    }
}

/// Returns the expression that a name declares: an object or an enumeration constant. A function's name may
/// only be called.
#[tactic(auto, unfolding(crate::specs::Primary::named))]
pub fn named(alloc: Global, place: Place, meaning: Option<&Meaning>) -> Result<Expr, TypeRefusal>
    ensures { Yields (named place (option_map meaning_of (option_copied meaning.entry))) result }
{
    match meaning {
        Some(Meaning::Constant(value)) => {
            let made = number(alloc, place, IntType::Int, *value)?;
            Ok(made)
        }
        Some(Meaning::Global(object, ty)) => {
            let ty = ty.copy(alloc)?;
            let kind = Box::new(alloc, ExprKind::Global(*object))?;
            Ok(Expr { place, ty, kind })
        }
        Some(Meaning::Local(object, ty)) => {
            let ty = ty.copy(alloc)?;
            let kind = Box::new(alloc, ExprKind::Local(*object))?;
            Ok(Expr { place, ty, kind })
        }
        Some(Meaning::Function(_)) => Err(TypeRefusal::Code(TypeCode::FunctionName, place)),
        Some(Meaning::Typedef(_)) | None => Err(TypeRefusal::Code(TypeCode::UnknownName, place)),
    }
}

/// Returns a string literal, which gets the next number.
#[tactic(auto, unfolding(crate::specs::Primary::text_at))]
pub fn text(
    alloc: Global,
    literals: &mut Vec<Bytes>,
    place: Place,
    bytes: &Bytes,
) -> Result<Expr, TypeRefusal>
    ensures reported { Yields (text_at literals.old.items place bytes.now) result }
    ensures added { OnOk result (literals.new.items ≡ literals.old.items ++ bytes.now ∷ []) }
{
    let length = bytes.as_bytes().len();
    if length > LONGEST_TEXT {
        return Err(TypeRefusal::Code(TypeCode::Size, place));
    }
    let element = Box::new(alloc, CType::Int(IntType::Char))?;
    let number = add_literal(literals, bytes)?;
    Ok(Expr {
        place,
        ty: CType::Array(element, length as u64 + 1),
        kind: Box::new(alloc, ExprKind::Text(number))?,
    })
}

// Appends a literal and returns its number. More literals than there are numbers count as running out of memory.
fn add_literal(literals: &mut Vec<Bytes>, bytes: &Bytes) -> Result<u32, AllocError>
    ensures number { IfOk result (λ number. number ≡ length literals.old.items) }
    ensures added { OnOk result (literals.new.items ≡ literals.old.items ++ bytes.now ∷ []) }
{
    let Ok(number) = u32::try_from(literals.len()) else {
        return Err(AllocError);
    };
    literals.push(bytes.copy()?)?;
    Ok(number)
}
