//! The layout of members of structs, one after another (C11 6.7.2.1).
ghost use Rattle.std.specs.Prelude.{◌≡◌};
ghost use Rattle.cs_types.specs.Shape.{shape_of};
ghost use Rattle.cs_scopes.specs.Verdicts.{Answers};
ghost use Rattle.cs_declarations.specs.Answered.{Leaves};
ghost use Rattle.cs_declarations.specs.Bodies.{align_in, has_member, placed, member_added, member_declared, members_declared};
ghost use Rattle.cs_declarations.specs.View.{laying};

use crate::sizes::declarator_type;
use cs_ast::Place;
use cs_ast::raw::declaration::RawDeclarator;
use cs_names::Name;
use cs_scopes::{Context, TypeCode, TypeRefusal, bytes_in, complete_at, end_of};
use cs_types::{
    CType, DataModel, Member, Members, StructTable, bytes, complete_struct, pointer_bytes,
};
use std::alloc::Global;

/// The members of a struct so far, with their size and alignment in bytes.
#[derive(Drop)]
pub struct Laying {
    pub members: Members,
    pub size: u64,
    pub align: u64,
}

// The alignment of a complete type (C11 6.2.8).
fn align_in(model: DataModel, table: &StructTable, ty: &CType) -> u64
    ensures { result ≡ align_in model table.now.list (shape_of ty.now) }
{
    match ty {
        CType::Void => 1,
        CType::Int(ty) => bytes(model, *ty),
        CType::Pointer(_) => pointer_bytes(model),
        CType::Array(element, _) => align_in(model, table, element),
        CType::Struct(number) => match complete_struct(table, *number) {
            Some(laid) => laid.align,
            None => 1,
        },
    }
}

// Whether one of the members has this name.
fn has_member(members: &Members, name: &Name) -> bool
    ensures { result ≡ has_member name.now members.now }
{
    members
        .as_slice()
        .iter()
        .any(|member| *member.name() == *name)
}

impl Laying {
    // Appends a member, whose type has to be complete.
    #[tactic(auto, using(cs_scopes::proofs::Lifting::lifts))]
    fn add(
        &mut self,
        context: &Context,
        place: Place,
        name: &Name,
        ty: CType,
    ) -> Result<(), TypeRefusal>
        ensures { Leaves (member_added context.now place name.now (laying self.old) (shape_of ty))
            result (laying self.new) }
    {
        let whole = complete_at(&context.table, place, ty)?;
        match bytes_in(context.model, &context.table, &whole) {
            Some(bytes) => {
                let align = align_in(context.model, &context.table, &whole);
                self.put(place, name, whole, bytes, align)
            }
            None => Err(TypeRefusal::Code(TypeCode::Size, place)),
        }
    }

    // Appends a member of this size and alignment in bytes.
    fn put(
        &mut self,
        place: Place,
        name: &Name,
        ty: CType,
        bytes: u64,
        align: u64,
    ) -> Result<(), TypeRefusal>
        ensures { Leaves (placed place name.now (shape_of ty) bytes align (laying self.old)) result
            (laying self.new) }
    {
        match end_of(self.size, bytes, align) {
            Some((offset, end)) => {
                self.members.push(Member::new(name.copy()?, ty, offset))?;
                self.size = end;
                self.align = self.align.max(align);
                Ok(())
            }
            None => Err(TypeRefusal::Code(TypeCode::Size, place)),
        }
    }
}

// Appends the member of a declarator, whose name is new in the struct; `base` is the type of the specifiers.
#[tactic(auto, using(cs_scopes::proofs::Lifting::lifts))]
fn add_member(
    alloc: Global,
    context: &Context,
    base: &CType,
    declarator: &RawDeclarator,
    so_far: &mut Laying,
) -> Result<(), TypeRefusal>
    ensures { Leaves (member_declared context.now (shape_of base.now) declarator.now
        (laying so_far.old)) result (laying so_far.new) }
{
    if has_member(&so_far.members, &declarator.name) {
        return Err(TypeRefusal::Code(TypeCode::DeclaredTwice, declarator.place));
    }
    let ty = declarator_type(alloc, context, base, None, declarator)?;
    so_far.add(context, declarator.place, &declarator.name, ty)
}

/// Appends the members of declarators; `base` is the type of the specifiers.
pub fn add_members(
    alloc: Global,
    context: &Context,
    base: &CType,
    declarators: &[RawDeclarator],
    before: Laying,
) -> Result<Laying, TypeRefusal>
    ensures { Answers laying
        (members_declared context.now (shape_of base.now) declarators.now (laying before)) result }
{
    let mut so_far = before;
    for declarator in declarators {
        add_member(alloc, context, base, declarator, &mut so_far)?;
    }
    Ok(so_far)
}
