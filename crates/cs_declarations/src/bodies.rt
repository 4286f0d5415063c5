//! The types that specifiers name, with the bodies of structs (C11 6.7.2).
ghost use Rattle.std.specs.Prelude.{◌≡◌, ◌++◌, [], ◌∷◌, Some, OnOk, IfOk};
ghost use Rattle.cs_types.specs.Shape.{shape_of};
ghost use Rattle.cs_declarations.specs.Answered.{AnswersWith, Leaves};
ghost use Rattle.cs_declarations.specs.Bodies.{plain_words, word_type, specs_type, tag_in, struct_named, opening, struct_body, members_of_list, group_of, first_name, nothing_laid};
ghost use Rattle.cs_declarations.specs.LaidOut.{IsSound};
ghost use Rattle.cs_declarations.specs.View.{environment_of, typing, opened_as, body, laying};
ghost use Rattle.cs_scopes.specs.TypeNames.{whole_word, tag_place};

use crate::enums::enum_body;
use crate::environment::Environment;
use crate::laying::{Laying, add_members};
use crate::words::{integer_type, whole_word};
use cs_ast::Place;
use cs_ast::raw::declaration::{RawDeclarator, RawMember, RawSpecs, SpecWord};
use cs_ast::raw::written_type::TypeWord;
use cs_names::Name;
use cs_scopes::{TagMeaning, TypeCode, TypeRefusal, enum_type, typedef_type};
use cs_types::{CType, Members};
use std::alloc::Global;

/// Returns the type of the specifiers before declarators, of which the one at `place` requires it (C11 6.7.2).
#[cycle(specs)]
pub fn specs_type(
    alloc: Global,
    known: &mut Environment,
    place: Place,
    specs: &RawSpecs,
) -> Result<CType, TypeRefusal>
    ensures reported { AnswersWith typing (specs_type (environment_of known.old) place specs.now)
        result known.new }
    ensures reading { OnOk result (known.new.reading.items ≡ known.old.reading.items) }
    ensures laid_out { IsSound (environment_of known.old)
        → OnOk result (IsSound (environment_of known.new)) }
{
    let tag_place = specs.tag.unwrap_or(place);
    for word in &specs.words {
        match word {
            SpecWord::Struct(tag, members) => {
                return struct_body(alloc, known, tag_place, tag, members);
            }
            SpecWord::Enum(tag, constants, _) => {
                return enum_body(alloc, known, tag_place, tag, constants);
            }
            SpecWord::Static | SpecWord::Plain(_) => {}
        }
    }
    word_type(alloc, known, tag_place, place, &specs.words)
}

// The type of specifiers without a body.
fn word_type(
    alloc: Global,
    known: &mut Environment,
    tag: Place,
    place: Place,
    words: &[SpecWord],
) -> Result<CType, TypeRefusal>
    ensures reported { AnswersWith typing
        (word_type (environment_of known.old) (Some tag) place (plain_words words.now)
        (whole_word (plain_words words.now))) result known.new }
    ensures reading { OnOk result (known.new.reading.items ≡ known.old.reading.items) }
{
    match whole_word(words) {
        None => Ok(CType::Int(integer_type(words))),
        Some(TypeWord::Typedef(name)) => typedef_type(alloc, &known.context.scope, place, name),
        Some(TypeWord::Struct(name)) => struct_named(known, tag, name),
        Some(TypeWord::Enum(name)) => enum_type(&known.context.scope, tag, name),
        Some(_) => Ok(CType::Void),
    }
}

// The struct with a tag that no body follows: the tag may be new (C11 6.7.2.3, paragraph 8).
fn struct_named(known: &mut Environment, place: Place, name: &Name) -> Result<CType, TypeRefusal>
    ensures reported { AnswersWith typing
        (struct_named place name.now (environment_of known.old)
        (tag_in (environment_of known.old) name.now)) result known.new }
    ensures reading { OnOk result (known.new.reading.items ≡ known.old.reading.items) }
{
    match known.context.scope.tags.meaning(name) {
        Some(TagMeaning::Struct(number)) => Ok(CType::Struct(number)),
        Some(TagMeaning::Enum) => Err(TypeRefusal::Code(TypeCode::DeclaredTwice, place)),
        None => {
            let number = known.add_tagged_struct(name)?;
            Ok(CType::Struct(number))
        }
    }
}

// The struct whose body begins: its tag is new, or has no body yet, not even one that is being read.
fn begin_struct(
    alloc: Global,
    known: &mut Environment,
    place: Place,
    tag: &Option<Name>,
) -> Result<u32, TypeRefusal>
    ensures reported { AnswersWith opened_as (opening place tag.now (environment_of known.old))
        result known.new }
    ensures reading { IfOk result (λ number.
        known.new.reading.items ≡ known.old.reading.items ++ number ∷ []) }
{
    let number = match tag {
        None => known.add_struct(Name::from_slice(alloc, b"")?)?,
        Some(name) => match known.context.scope.tags.meaning(name) {
            None => known.add_tagged_struct(name)?,
            Some(TagMeaning::Struct(number)) if !known.has_body(number) => number,
            Some(_) => return Err(TypeRefusal::Code(TypeCode::DeclaredTwice, place)),
        },
    };
    known.reading.push(number)?;
    Ok(number)
}

// The struct that its body completes.
#[cycle(specs)]
fn struct_body(
    alloc: Global,
    known: &mut Environment,
    place: Place,
    tag: &Option<Name>,
    members: &[RawMember],
) -> Result<CType, TypeRefusal>
    ensures reported { AnswersWith typing
        (struct_body (environment_of known.old) place tag.now members.now) result known.new }
    ensures reading { OnOk result (known.new.reading.items ≡ known.old.reading.items) }
{
    let number = begin_struct(alloc, known, place, tag)?;
    let laying = members_read(alloc, known, members)?;
    known.complete_struct(alloc, number, tag, laying)?;
    Ok(CType::Struct(number))
}

// The members of a body, group by group.
#[cycle(specs)]
fn members_read(
    alloc: Global,
    known: &mut Environment,
    groups: &[RawMember],
) -> Result<Laying, TypeRefusal>
    ensures reported { AnswersWith body
        (members_of_list (environment_of known.old) groups.now nothing_laid) result known.new }
    ensures reading { OnOk result (known.new.reading.items ≡ known.old.reading.items) }
{
    let mut so_far = Laying {
        members: Members::new(alloc),
        size: 0,
        align: 1,
    };
    for group in groups {
        so_far = group_read(alloc, known, group, so_far)?;
    }
    Ok(so_far)
}

// Members of one type, appended to others.
#[cycle(specs)]
fn group_read(
    alloc: Global,
    known: &mut Environment,
    group: &RawMember,
    before: Laying,
) -> Result<Laying, TypeRefusal>
    ensures reported { AnswersWith body
        (group_of (environment_of known.old) group.now (laying before)) result known.new }
    ensures reading { OnOk result (known.new.reading.items ≡ known.old.reading.items) }
{
    let place = first_name(&group.declarators);
    let base = specs_type(alloc, known, place, &group.specs)?;
    add_members(alloc, &known.context, &base, &group.declarators, before)
}

// The position of the first of some declarators, which requires their type.
fn first_name(declarators: &[RawDeclarator]) -> Place
    ensures { result ≡ first_name declarators.now }
{
    match declarators {
        [] => Place {
            file: 0,
            line: 0,
            column: 0,
        },
        [first, ..] => first.place,
    }
}
