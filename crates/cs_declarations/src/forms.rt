//! The forms of written initializers (C11 6.7.9).
ghost use Rattle.std.specs.Prelude.{◌≡◌};
ghost use Rattle.cs_types.specs.Shape.{shape_of};
ghost use Rattle.cs_declarations.specs.Initializers.{is_character, takes_expression, has_form, list_has_forms, elements_given};
ghost use Rattle.cs_declarations.specs.View as view;
ghost use Rattle.cs_scopes.specs.Parts.{types_of};

use crate::storage::Storage;
use cs_ast::raw::declaration::RawInitial;
use cs_ast::raw::expression::RawExprKind;
use cs_scopes::{Parts, parts_of};
use cs_types::{CType, IntType, StructTable};

// Whether the type is a character type, whose arrays string literals can initialize.
fn is_character(ty: &CType) -> bool
    ensures { result ≡ is_character (shape_of ty.now) }
{
    match ty {
        CType::Int(IntType::Char) | CType::Int(IntType::SChar) | CType::Int(IntType::UChar) => true,
        _ => false,
    }
}

// Whether an expression has the form that the type requires.
fn takes_expression(storage: Storage, ty: &CType, tree: &RawExprKind) -> bool
    ensures { result ≡ takes_expression (view.storage storage) (shape_of ty.now) tree.now }
{
    match (ty, tree) {
        (CType::Array(element, count), RawExprKind::Text(bytes)) => {
            is_character(element) && bytes.as_bytes().len() as u64 <= *count
        }
        (CType::Array(_, _), _) => false,
        (CType::Struct(_), _) => storage == Storage::Function,
        _ => true,
    }
}

/// Whether a written initializer has the form that a type requires, as far as its braces and the number of its items show.
#[cycle(forms)]
pub fn has_form(table: &StructTable, storage: Storage, ty: &CType, written: &RawInitial) -> bool
    ensures { result ≡ has_form table.now.list (view.storage storage) (shape_of ty.now)
        written.now }
{
    match written {
        RawInitial::Value(tree) => takes_expression(storage, ty, &*tree.kind),
        RawInitial::List(items, _) => match parts_of(table, ty) {
            Some(parts) => have_forms(table, storage, parts, items),
            None => false,
        },
    }
}

// The same for each item of a list, which may have as many items as there are parts.
#[cycle(forms)]
fn have_forms(table: &StructTable, storage: Storage, parts: Parts, items: &[RawInitial]) -> bool
    ensures { result ≡ list_has_forms table.now.list (view.storage storage) (types_of parts.entry)
        items.now }
{
    let mut number = 0;
    for item in items {
        match parts.ty(number) {
            Some(ty) if has_form(table, storage, ty, item) => number += 1,
            _ => return false,
        }
    }
    true
}

/// Returns how many elements a written initializer gives an array without a size: those of its list, or of its string
/// literal with the zero byte.
///
/// Another expression has the wrong form for every array, so that any supported size is right: 1.
pub fn elements_given(written: &RawInitial) -> usize
    ensures { result ≡ elements_given written.now }
{
    match written {
        RawInitial::Value(tree) => match &*tree.kind {
            RawExprKind::Text(bytes) => bytes.as_bytes().len() + 1,
            _ => 1,
        },
        RawInitial::List(items, _) => items.len(),
    }
}
