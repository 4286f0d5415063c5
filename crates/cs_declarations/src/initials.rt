//! The initial values of objects (C11 6.7.9).
ghost use Rattle.std.specs.Prelude.{◌≡◌, IfOk, Err};
ghost use Rattle.cs_types.specs.Shape.{shape_of};
ghost use Rattle.cs_ast.specs.declared.place.Place.{Place as AnyPlace};
ghost use Rattle.cs_scopes.specs.Faults.{least, least_code, unless_fault, unless_stopped};
ghost use Rattle.cs_scopes.specs.declared.refusal.TypeRefusal.TheVariants.{Memory};
ghost use Rattle.cs_scopes.specs.Verdicts.{Verdict, Fine, Fault};
ghost use Rattle.cs_scopes.specs.declared.refusal.TypeCode.TheVariants.{Initializer};
ghost use Rattle.cs_expressions.specs.Primary.{Literals};
ghost use Rattle.cs_declarations.specs.Answered.{AnswersWith, UnlessMemory};
ghost use Rattle.cs_declarations.specs.Initializers.{Reading, text_of, expression_read, reading_fault, initial_read, item_fault, list_read, list_fault, part_judged, initial_judged, initial_fault, whole_fault, scalar_limit, whole_read, initial_typed};
ghost use Rattle.cs_declarations.specs.View as view;
ghost use Rattle.cs_declarations.specs.View.{reading, readings};
ghost use Rattle.cs_scopes.specs.Parts.{types_of};

use crate::forms::has_form;
use crate::judging::{item_fault, judged, value_fault};
use crate::storage::Storage;
use crate::stored::stores_few;
use cs_ast::Place;
use cs_ast::raw::declaration::RawInitial;
use cs_ast::raw::expression::{RawExpr, RawExprKind};
use cs_ast::typed::statement::Initial;
use cs_consts::operand;
use cs_names::Bytes;
use cs_scopes::{Context, Parts, TypeCode, TypeRefusal, least, least_code, parts_of};
use cs_types::{CType, StructTable};
use std::alloc::{AllocError, Global};

// An expression that initializes something of a type: a string literal that initializes an array isn't one of the
// program's literals.
fn expression_read(
    alloc: Global,
    context: &Context,
    literals: &mut Vec<Bytes>,
    ty: &CType,
    tree: &RawExpr,
) -> Result<Initial, TypeRefusal>
    ensures { AnswersWith reading
        (expression_read context.now literals.old.items (shape_of ty.now) tree.now) result
        literals.new.items }
{
    if let CType::Array(_, _) = ty {
        let text = text_of(alloc, &*tree.kind)?;
        return Ok(Initial::Text(text));
    }
    let value = operand(alloc, context, literals, Some(ty), tree)?;
    Ok(Initial::Value(value))
}

// The bytes of an expression that is a string literal.
fn text_of(alloc: Global, tree: &RawExprKind) -> Result<Bytes, AllocError>
    ensures { IfOk result (λ text. text ≡ text_of tree.now) }
{
    match tree {
        RawExprKind::Text(bytes) => bytes.copy(),
        _ => Bytes::from_slice(alloc, b""),
    }
}

// The same for an item of a list. A code at the `=` for its value is joined to those of the items before.
fn value_read(
    alloc: Global,
    context: &Context,
    literals: &mut Vec<Bytes>,
    storage: Storage,
    fault: &mut Option<TypeCode>,
    ty: &CType,
    tree: &RawExpr,
) -> Result<Initial, TypeRefusal>
    ensures values { AnswersWith reading
        (expression_read context.now literals.old.items (shape_of ty.now) tree.now) result
        literals.new.items }
    ensures codes { (at : AnyPlace) → UnlessMemory result (fault.new ≡ least_code fault.old
        (reading_fault (part_judged context.now (view.storage storage) at (shape_of ty.now))
        (expression_read context.now literals.old.items (shape_of ty.now) tree.now))) }
{
    let read = expression_read(alloc, context, literals, ty, tree)?;
    if let Initial::Value(value) = &read {
        *fault = least_code(*fault, item_fault(context, storage, ty, value));
    }
    Ok(read)
}

// The values of an item of the form that the type requires, in their order, not converted yet. The codes at the `=` for
// them are joined to those of the items before.
#[cycle(initials)]
fn item_read(
    alloc: Global,
    context: &Context,
    literals: &mut Vec<Bytes>,
    storage: Storage,
    fault: &mut Option<TypeCode>,
    ty: &CType,
    written: &RawInitial,
) -> Result<Initial, TypeRefusal>
    ensures values { AnswersWith reading
        (initial_read context.now literals.old.items (shape_of ty.now) written.now) result
        literals.new.items }
    ensures codes { (at : AnyPlace) → UnlessMemory result (fault.new ≡ least_code fault.old
        (item_fault context.now literals.old.items (view.storage storage) at (shape_of ty.now)
        written.now)) }
{
    match written {
        RawInitial::Value(tree) => value_read(alloc, context, literals, storage, fault, ty, tree),
        RawInitial::List(items, _) => {
            let list = match parts_of(&context.table, ty) {
                Some(parts) => {
                    items_read(alloc, context, literals, storage, fault, parts, items)?
                }
                None => Vec::new(alloc),
            };
            Ok(Initial::List(list))
        }
    }
}

// The same for each item of a list. After an item that is refused, the others are only read for their codes at the `=`.
#[cycle(initials)]
fn items_read(
    alloc: Global,
    context: &Context,
    literals: &mut Vec<Bytes>,
    storage: Storage,
    fault: &mut Option<TypeCode>,
    parts: Parts,
    items: &[RawInitial],
) -> Result<Vec<Initial>, TypeRefusal>
    ensures values { AnswersWith (λ list following. readings list.items following)
        (list_read context.now literals.old.items (types_of parts.entry) items.now) result
        literals.new.items }
    ensures codes { (at : AnyPlace) → UnlessMemory result (fault.new ≡ least_code fault.old
        (list_fault context.now literals.old.items (view.storage storage) at (types_of parts.entry)
        items.now)) }
{
    let mut list = Vec::new(alloc);
    let mut refused = None;
    for i in 0..items.len() {
        let Some(ty) = parts.ty(i) else {
            return unless_stopped(refused, list);
        };
        match item_read(alloc, context, literals, storage, fault, ty, &items[i]) {
            Ok(read) => list.push(read)?,
            Err(TypeRefusal::Code(code, at)) => {
                refused = refused.or(Some((code, at)));
                literals.clear();
            }
            Err(TypeRefusal::Memory) => return Err(TypeRefusal::Memory),
        }
    }
    unless_stopped(refused, list)
}

// The items of a list, unless one of them is refused.
fn unless_stopped(
    refused: Option<(TypeCode, Place)>,
    list: Vec<Initial>,
) -> Result<Vec<Initial>, TypeRefusal>
    ensures { (following : Literals)
        → AnswersWith (λ list following. readings list.items following)
        (unless_stopped refused (Fine (readings list.items following))) result following }
{
    match refused {
        Some((code, at)) => Err(TypeRefusal::Code(code, at)),
        None => Ok(list),
    }
}

// A single value. A code at the `=` for it is joined to the one that is reported there whatever the value is.
fn single_read(
    alloc: Global,
    context: &Context,
    literals: &mut Vec<Bytes>,
    storage: Storage,
    fault: &mut Option<TypeCode>,
    ty: &CType,
    tree: &RawExpr,
) -> Result<Initial, TypeRefusal>
    ensures values { AnswersWith reading
        (expression_read context.now literals.old.items (shape_of ty.now) tree.now) result
        literals.new.items }
    ensures codes { (at : AnyPlace) → UnlessMemory result (fault.new ≡ least_code fault.old
        (reading_fault (initial_judged context.now (view.storage storage) at (shape_of ty.now))
        (expression_read context.now literals.old.items (shape_of ty.now) tree.now))) }
{
    let read = expression_read(alloc, context, literals, ty, tree)?;
    if let Initial::Value(value) = &read {
        *fault = least_code(*fault, value_fault(context, storage, ty, value));
    }
    Ok(read)
}

// The values of an initializer of the right form: a single one, or those of a list. The codes at the `=` for them are
// joined to the one that is reported there whatever they are.
fn values_read(
    alloc: Global,
    context: &Context,
    literals: &mut Vec<Bytes>,
    storage: Storage,
    fault: &mut Option<TypeCode>,
    ty: &CType,
    written: &RawInitial,
) -> Result<Initial, TypeRefusal>
    ensures values { AnswersWith reading
        (initial_read context.now literals.old.items (shape_of ty.now) written.now) result
        literals.new.items }
    ensures codes { (at : AnyPlace) → UnlessMemory result (fault.new ≡ least_code fault.old
        (whole_fault context.now literals.old.items (view.storage storage) at (shape_of ty.now)
        written.now)) }
{
    match written {
        RawInitial::Value(tree) => single_read(alloc, context, literals, storage, fault, ty, tree),
        RawInitial::List(_, _) => item_read(alloc, context, literals, storage, fault, ty, written),
    }
}

// The values of a whole initializer, unless there is a code at the `=`: it is reported before a value that is refused.
fn whole_read(
    alloc: Global,
    context: &Context,
    literals: &mut Vec<Bytes>,
    storage: Storage,
    place: Place,
    ty: &CType,
    written: &RawInitial,
) -> Result<Initial, TypeRefusal>
    ensures { AnswersWith reading
        (whole_read context.now literals.old.items (view.storage storage) place (shape_of ty.now)
        written.now) result literals.new.items }
{
    let mut fault = scalar_limit(&context.table, storage, ty, written);
    let read = values_read(alloc, context, literals, storage, &mut fault, ty, written);
    unless_fault(place, fault, read)
}

// The code at the `=` that doesn't depend on the values: the initializer of a local may only store few scalars.
fn scalar_limit(
    table: &StructTable,
    storage: Storage,
    ty: &CType,
    written: &RawInitial,
) -> Option<TypeCode>
    ensures { result ≡ scalar_limit table.now.list (view.storage storage) (shape_of ty.now)
        written.now }
{
    match storage {
        Storage::File => None,
        Storage::Function => {
            if stores_few(table, ty, written) {
                None
            } else {
                Some(TypeCode::TooManyScalars)
            }
        }
    }
}

// The refusal of a wrong form: the least of its code and the codes at the `=` for the items of a list that have types.
fn form_refused(
    alloc: Global,
    context: &Context,
    literals: &mut Vec<Bytes>,
    storage: Storage,
    place: Place,
    ty: &CType,
    written: &RawInitial,
) -> Result<Initial, TypeRefusal>
    ensures { AnswersWith reading
        (Fault (least Initializer (initial_fault context.now literals.old.items
        (view.storage storage) place (shape_of ty.now) written.now)) place) result
        literals.new.items }
{
    let RawInitial::Value(_) = written else {
        let mut fault = None;
        let read = item_read(alloc, context, literals, storage, &mut fault, ty, written);
        return unless_fault(place, Some(least(TypeCode::Initializer, fault)), read);
    };
    Err(TypeRefusal::Code(TypeCode::Initializer, place))
}

// What is read after a position, unless there is a code at the position.
fn unless_fault(
    place: Place,
    fault: Option<TypeCode>,
    read: Result<Initial, TypeRefusal>,
) -> Result<Initial, TypeRefusal>
    ensures answers { (v : Verdict Reading) (following : Literals)
        → AnswersWith reading v read following
        → AnswersWith reading (unless_fault place fault v) result following }
    ensures memory { read ≡ Err Memory → result ≡ Err Memory }
{
    match (fault, read) {
        (_, Err(TypeRefusal::Memory)) => Err(TypeRefusal::Memory),
        (Some(code), _) => Err(TypeRefusal::Code(code, place)),
        (None, read) => read,
    }
}

/// Types the initializer after an `=`: its form, its values in their order, and their conversions, reported at the `=`.
pub fn initial_typed(
    alloc: Global,
    context: &Context,
    literals: &mut Vec<Bytes>,
    storage: Storage,
    place: Place,
    ty: &CType,
    written: &RawInitial,
) -> Result<Initial, TypeRefusal>
    ensures { AnswersWith reading
        (initial_typed context.now literals.old.items (view.storage storage) place (shape_of ty.now)
        written.now) result literals.new.items }
{
    if !has_form(&context.table, storage, ty, written) {
        return form_refused(alloc, context, literals, storage, place, ty, written);
    }
    let read = whole_read(alloc, context, literals, storage, place, ty, written)?;
    judged(alloc, context, storage, place, ty, read)
}
