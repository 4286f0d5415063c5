//! How many scalars an initializer stores, whatever its values are.
ghost use Rattle.std.specs.Prelude.{◌≡◌, is_some, length};
ghost use Rattle.cs_types.specs.Shape.{shape_of};
ghost use Rattle.cs_declarations.specs.Initializers.{text_of, bytes_stored, value_stored, stored, list_stored};
ghost use Rattle.cs_scopes.specs.Parts.{types_of};

use cs_ast::raw::declaration::RawInitial;
use cs_ast::raw::expression::RawExprKind;
use cs_scopes::{Parts, few, parts_of, scalars_in};
use cs_types::{CType, StructTable};

// The number of bytes of an expression that is a string literal.
fn text_length(tree: &RawExprKind) -> u64
    ensures { result ≡ length (text_of tree.now) }
{
    match tree {
        RawExprKind::Text(bytes) => bytes.as_bytes().len() as u64,
        _ => 0,
    }
}

// The number of bytes that a string literal stores in an array of `count`: with its zero byte if that fits.
fn bytes_stored(count: u64, bytes: u64) -> Option<u64>
    ensures { result ≡ bytes_stored count bytes }
{
    if bytes < count {
        few(bytes + 1)
    } else {
        few(bytes)
    }
}

// The number of scalars that a value stores.
fn value_stored(table: &StructTable, ty: &CType, tree: &RawExprKind) -> Option<u64>
    ensures { result ≡ value_stored table.now.list (shape_of ty.now) tree.now }
{
    match ty {
        CType::Array(_, count) => bytes_stored(*count, text_length(tree)),
        _ => scalars_in(table, ty),
    }
}

// How many scalars an initializer stores, if they are few; parts without an item aren't counted.
#[cycle(stored)]
fn stored(table: &StructTable, ty: &CType, written: &RawInitial) -> Option<u64>
    ensures { result ≡ stored table.now.list (shape_of ty.now) written.now }
{
    match written {
        RawInitial::Value(tree) => value_stored(table, ty, &*tree.kind),
        RawInitial::List(items, _) => match parts_of(table, ty) {
            Some(parts) => stored_parts(table, parts, items),
            None => Some(0),
        },
    }
}

// The same for the items of a list.
#[cycle(stored)]
fn stored_parts(table: &StructTable, parts: Parts, items: &[RawInitial]) -> Option<u64>
    ensures { result ≡ list_stored table.now.list (types_of parts.entry) items.now }
{
    let mut all = 0;
    let mut number = 0;
    for item in items {
        let Some(ty) = parts.ty(number) else {
            return Some(all);
        };
        number += 1;
        all = few(all.saturating_add(stored(table, ty, item)?))?;
    }
    Some(all)
}

/// Whether an initializer stores so few scalars that one declaration may store them.
pub fn stores_few(table: &StructTable, ty: &CType, written: &RawInitial) -> bool
    ensures { result ≡ is_some (stored table.now.list (shape_of ty.now) written.now) }
{
    stored(table, ty, written).is_some()
}
