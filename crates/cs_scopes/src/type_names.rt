//! Type names: types that are written between parentheses (C11 6.7.2, 6.7.6, 6.7.7).
ghost use Rattle.std.specs.Prelude.{◌≡◌, IfOk, option_copied};
ghost use Rattle.cs_types.specs.Shape.{shape_of};
ghost use Rattle.cs_scopes.specs.Verdicts.{Answers};
ghost use Rattle.cs_scopes.specs.Scopes.{newest, tagged};
ghost use Rattle.cs_scopes.specs.TypeNames.{times, is_star, typedef_at, struct_at, enum_at, integer_type, whole_word, tag_place, based, starred, type_named, is_array_size, array_of, arrayed, complete_at};

use crate::context::Scope;
use crate::integer_words::{IntegerWords, is_word};
use crate::refusal::{TypeCode, TypeRefusal};
use crate::scope::{Meaning, TagMeaning};
use crate::sizes::bytes_in;
use cs_ast::Place;
use cs_ast::raw::written_type::{IntegerWord, PointerWord, TypeWord, WrittenType};
use cs_names::Name;
use cs_types::{CType, DataModel, IntType, StructTable, is_complete};
use std::alloc::{AllocError, Global};

// How often a word of an integer type occurs among these.
fn times(kind: IntegerWord, words: &[TypeWord]) -> usize
    ensures { result ≡ times kind words.now }
{
    words.iter().filter(|word| is_word(kind, word)).count()
}

// The integer type that words name.
#[tactic(auto, unfolding(crate::specs::TypeNames::integer_type))]
fn integer_type(words: &[TypeWord]) -> IntType
    ensures { result ≡ integer_type words.now }
{
    let counts = IntegerWords {
        char: times(IntegerWord::Char, words),
        short: times(IntegerWord::Short, words),
        long: times(IntegerWord::Long, words),
        signed: times(IntegerWord::Signed, words),
        unsigned: times(IntegerWord::Unsigned, words),
    };
    counts.named()
}

// The word that names a type that isn't an integer type, if there is one.
fn whole_word(words: &[TypeWord]) -> Option<&TypeWord>
    ensures { option_copied result ≡ whole_word words.now }
{
    for word in words {
        match word {
            TypeWord::Const | TypeWord::Integer(_) => {}
            _ => return Some(word),
        }
    }
    None
}

/// Returns the type of a typedef name.
pub fn typedef_type(
    alloc: Global,
    scope: &Scope,
    place: Place,
    name: &Name,
) -> Result<CType, TypeRefusal>
    ensures { Answers shape_of (typedef_at place (newest name.now scope.now.declarations)) result }
{
    match scope.declarations.newest(name) {
        Some(Meaning::Typedef(ty)) => {
            let ty = ty.copy(alloc)?;
            Ok(ty)
        }
        _ => Err(TypeRefusal::Code(TypeCode::UnknownName, place)),
    }
}

// The struct with a tag; the tag of an enum is an error, as it would be declared a second time.
fn struct_type(scope: &Scope, place: Place, name: &Name) -> Result<CType, TypeRefusal>
    ensures { Answers shape_of (struct_at place (tagged name.now scope.now.tags)) result }
{
    match scope.tags.meaning(name) {
        Some(TagMeaning::Struct(number)) => Ok(CType::Struct(number)),
        Some(TagMeaning::Enum) => Err(TypeRefusal::Code(TypeCode::DeclaredTwice, place)),
        None => Err(TypeRefusal::Code(TypeCode::UnknownName, place)),
    }
}

/// Returns the type of an enum with a tag, which is `int`.
pub fn enum_type(scope: &Scope, place: Place, name: &Name) -> Result<CType, TypeRefusal>
    ensures { Answers shape_of (enum_at place (tagged name.now scope.now.tags)) result }
{
    match scope.tags.meaning(name) {
        Some(TagMeaning::Struct(_)) => Err(TypeRefusal::Code(TypeCode::DeclaredTwice, place)),
        Some(TagMeaning::Enum) => Ok(CType::Int(IntType::Int)),
        None => Err(TypeRefusal::Code(TypeCode::UnknownName, place)),
    }
}

// The type that specifiers name.
#[tactic(auto, unfolding(crate::specs::TypeNames::based))]
fn based(alloc: Global, scope: &Scope, place: Place, ty: &WrittenType) -> Result<CType, TypeRefusal>
    ensures { Answers shape_of
        (based scope.now.declarations scope.now.tags place ty.now (whole_word ty.now.words.items))
        result }
{
    let tag_place = ty.tag.unwrap_or(place);
    match whole_word(&ty.words) {
        None => Ok(CType::Int(integer_type(&ty.words))),
        Some(TypeWord::Typedef(name)) => typedef_type(alloc, scope, place, name),
        Some(TypeWord::Struct(name)) => struct_type(scope, tag_place, name),
        Some(TypeWord::Enum(name)) => enum_type(scope, tag_place, name),
        Some(_) => Ok(CType::Void),
    }
}

/// Returns a type after as many pointers as there are stars.
pub fn starred(alloc: Global, words: &[PointerWord], base: CType) -> Result<CType, AllocError>
    ensures { IfOk result (λ made. shape_of made ≡ starred words.now (shape_of base)) }
{
    let mut ty = base;
    for word in words {
        if is_star(*word) {
            ty = CType::Pointer(Box::new(alloc, ty)?);
        }
    }
    Ok(ty)
}

// Whether the word is a star.
fn is_star(word: PointerWord) -> bool
    ensures { result ≡ is_star word }
{
    match word {
        PointerWord::Star => true,
        PointerWord::Const => false,
    }
}

/// Returns a written type without its arrays.
#[tactic(auto, unfolding(crate::specs::TypeNames::type_named), using(crate::proofs::Lifting::lifts))]
pub fn type_named(
    alloc: Global,
    scope: &Scope,
    place: Place,
    ty: &WrittenType,
) -> Result<CType, TypeRefusal>
    ensures { Answers shape_of (type_named scope.now.declarations scope.now.tags place ty.now)
        result }
{
    let base = based(alloc, scope, place, ty)?;
    let made = starred(alloc, &ty.pointers, base)?;
    Ok(made)
}

// Whether an array may have this number of elements.
fn is_array_size(number: i128) -> bool
    ensures { result ≡ is_array_size number }
{
    1 <= number && number <= 65536
}

/// Returns an array of a number of elements, if it isn't too large.
#[tactic(auto, unfolding(crate::specs::TypeNames::array_of))]
pub fn array_of(
    alloc: Global,
    model: DataModel,
    table: &StructTable,
    place: Place,
    number: i128,
    element: CType,
) -> Result<CType, TypeRefusal>
    ensures { Answers shape_of (array_of model table.now.list place number (shape_of element))
        result }
{
    if !is_array_size(number) {
        return Err(TypeRefusal::Code(TypeCode::Size, place));
    }
    let element = Box::new(alloc, element)?;
    let made = CType::Array(element, number as u64);
    match bytes_in(model, table, &made) {
        Some(_) => Ok(made),
        None => Err(TypeRefusal::Code(TypeCode::Size, place)),
    }
}

/// Returns arrays of these sizes, the outermost first, whose innermost elements have the type `base`.
pub fn arrayed(
    alloc: Global,
    model: DataModel,
    table: &StructTable,
    place: Place,
    base: CType,
    numbers: &[i128],
) -> Result<CType, TypeRefusal>
    ensures { Answers shape_of (arrayed model table.now.list place (shape_of base) numbers.now)
        result }
{
    let mut ty = base;
    let mut i = numbers.len();
    while i > 0 {
        i -= 1;
        ty = array_of(alloc, model, table, place, numbers[i], ty)?;
    }
    Ok(ty)
}

/// Returns a type that has to be complete, as the elements of arrays and the operands of `sizeof` have to be.
#[tactic(auto, unfolding(crate::specs::TypeNames::complete_at))]
pub fn complete_at(table: &StructTable, place: Place, ty: CType) -> Result<CType, TypeRefusal>
    ensures { Answers shape_of (complete_at table.now.list place (shape_of ty)) result }
{
    if is_complete(table, &ty) {
        Ok(ty)
    } else {
        Err(TypeRefusal::Code(TypeCode::IncompleteType, place))
    }
}
