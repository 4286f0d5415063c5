//! Scalars and structs at an offset of an object's type.
ghost use Rattle.std.specs.Prelude.{◌≡◌, ◌==◌, ◌&&◌, ℕ, Bool, nat_lt, IfOk, option_map, if◌then◌else◌};
ghost use Rattle.cs_types.specs.Shape.{shape_of, integer, struct, same_shape};
ghost use Rattle.cs_types.specs.Layout.{complete_count, members_of};
ghost use Rattle.cs_ast.specs.TypedProgram.{HasLayouts, typed_program};
ghost use Rattle.cs_meaning.specs.Types as types;
ghost use Rattle.cs_objects.specs.BlockView.{type_of};
ghost use Rattle.cs_objects.specs.TypeView.{in_found, in_member};

use crate::blocks::BlockType;
use cs_ast::typed::program::Program;
use cs_types::{CType, IntType, Member, bytes, leaf_at};
use cs_values::types::{is_small, size_of};
use std::alloc::AllocError;

impl<'a> BlockType<'a> {
    /// Returns the size of the type in bytes; 0 for an incomplete one (C11 6.5.3.4).
    pub fn size(self, program: &Program) -> Result<u64, AllocError>
        requires { HasLayouts program.now }
        ensures { IfOk result (λ bytes.
            bytes ≡ types.size_of (typed_program program.now) (type_of self.entry)) }
    {
        match self {
            BlockType::Of(ty) => size_of(program, ty),
            BlockType::Integer(ty) => Ok(bytes(program.model, ty)),
            BlockType::Text(count) => Ok(count),
            BlockType::Void => Ok(0),
        }
    }

    /// Returns the scalar that begins at an offset of the type, if there is one.
    pub fn scalar(
        self,
        program: &'a Program,
        offset: u64,
    ) -> Result<Option<BlockType<'a>>, AllocError>
        requires { HasLayouts program.now }
        ensures { IfOk result (λ found.
            option_map type_of found ≡ types.scalar_of (typed_program program.now)
            (type_of self.entry) offset) }
    {
        match self {
            BlockType::Of(ty) => {
                if !is_small(program.model, &program.table, ty) {
                    return Err(AllocError);
                }
                Ok(leaf_at(program.model, &program.table, ty, offset).map(BlockType::Of))
            }
            BlockType::Integer(ty) => {
                if offset == 0 {
                    Ok(Some(BlockType::Integer(ty)))
                } else {
                    Ok(None)
                }
            }
            BlockType::Text(count) => Ok(character(count, offset)),
            BlockType::Void => Ok(None),
        }
    }

    /// Whether it is this type.
    pub fn is_type(self, ty: &CType) -> bool
        ensures { result ≡ same_shape (shape_of ty.now) (type_of self.entry) }
    {
        match self {
            BlockType::Of(other) => *ty == *other,
            BlockType::Integer(other) => match ty {
                CType::Int(ty) => *ty as u8 == other as u8,
                CType::Void | CType::Pointer(_) | CType::Array(_, _) | CType::Struct(_) => false,
            },
            BlockType::Text(count) => match ty {
                CType::Array(element, number) => *number == count && is_char(element),
                CType::Void | CType::Pointer(_) | CType::Int(_) | CType::Struct(_) => false,
            },
            BlockType::Void => matches!(ty, CType::Void),
        }
    }

    /// Whether an object of a type begins at an offset of this one: a scalar of exactly that type, or that struct.
    pub fn begins(self, program: &'a Program, ty: &CType, offset: u64) -> Result<bool, AllocError>
        requires { HasLayouts program.now }
        ensures { IfOk result (λ holds.
            holds ≡ types.begins (typed_program program.now) (shape_of ty.now)
            (type_of self.entry) offset) }
    {
        match ty {
            CType::Struct(wanted) => self.begins_struct(program, *wanted, offset),
            CType::Void | CType::Int(_) | CType::Pointer(_) | CType::Array(_, _) => {
                let found = self.scalar(program, offset)?;
                Ok(is_of(ty, found))
            }
        }
    }

    // Whether a struct begins at an offset of this type.
    fn begins_struct(self, program: &Program, wanted: u32, offset: u64) -> Result<bool, AllocError>
        requires { HasLayouts program.now }
        ensures { IfOk result (λ holds.
            holds ≡ types.begins (typed_program program.now) (struct wanted) (type_of self.entry)
            offset) }
    {
        match self {
            BlockType::Of(ty) => {
                let depth = complete_structs(program);
                match struct_at(program, ty, offset)? {
                    Some((number, rest)) => begins_in_struct(program, wanted, depth, number, rest),
                    None => Ok(false),
                }
            }
            BlockType::Integer(_) | BlockType::Text(_) | BlockType::Void => Ok(false),
        }
    }
}

// Returns the character that begins at an offset of an array of `count` characters, if there is one.
fn character<'a>(count: u64, offset: u64) -> Option<BlockType<'a>>
    ensures { option_map type_of result
        ≡ (if nat_lt offset count then Some (integer IntType.Char) else None) }
{
    if offset < count {
        Some(BlockType::Integer(IntType::Char))
    } else {
        None
    }
}

// Whether a type is `char`.
fn is_char(ty: &CType) -> bool
    ensures { result ≡ same_shape (shape_of ty.now) (shape_of (CType.Int IntType.Char)) }
{
    match ty {
        CType::Int(ty) => *ty as u8 == IntType::Char as u8,
        CType::Void | CType::Pointer(_) | CType::Array(_, _) | CType::Struct(_) => false,
    }
}

// Whether there is a scalar, and it has a type.
fn is_of(ty: &CType, found: Option<BlockType>) -> bool
    ensures { result ≡ types.is_of (shape_of ty.now) (option_map type_of found.entry) }
{
    match found {
        Some(found) => found.is_type(ty),
        None => false,
    }
}

// Returns the number of complete structs, which bounds how deep they can be nested.
fn complete_structs(program: &Program) -> usize
    ensures { result ≡ complete_count program.now.table.list }
{
    let structs = program.table.list.as_slice();
    structs.iter().filter(|s| s.members.is_some()).count()
}

// Returns the members of a struct; `None` if it is incomplete.
pub fn members_of(program: &Program, number: u32) -> Option<&[Member]>
    ensures { option_map (λ members. members.now) result
        ≡ members_of program.now.table.list number }
{
    let structs = program.table.list.as_slice();
    let members = structs.get(number as usize)?.members.as_ref()?;
    Some(members.as_slice())
}

// Returns the struct that contains an offset of a type, after indexing the arrays around it, and the offset in the struct.
fn struct_at(program: &Program, ty: &CType, offset: u64) -> Result<Option<(u32, u64)>, AllocError>
    requires { HasLayouts program.now }
    ensures { IfOk result (λ found.
        (in_struct : ℕ → ℕ → Bool)
        → types.begins_in (typed_program program.now) in_struct (shape_of ty.now) offset
        ≡ in_found in_struct found) }
{
    match ty {
        CType::Void => Ok(None),
        CType::Int(_) => Ok(None),
        CType::Pointer(_) => Ok(None),
        CType::Array(element, count) => {
            let size = size_of(program, element)?;
            let bytes = count.checked_mul(size).ok_or(AllocError)?;
            if size == 0 || bytes <= offset {
                return Ok(None);
            }
            struct_at(program, element, offset % size)
        }
        CType::Struct(number) => Ok(Some((*number, offset))),
    }
}

// Whether a struct begins at an offset of another: at its beginning if they are the same, or in the type of a member.
#[cycle(begins)]
fn begins_in_struct(
    program: &Program,
    wanted: u32,
    depth: usize,
    number: u32,
    offset: u64,
) -> Result<bool, AllocError>
    requires { HasLayouts program.now }
    ensures { IfOk result (λ holds.
        holds ≡ types.begins_in_struct (typed_program program.now) wanted depth number offset) }
{
    if depth == 0 {
        return Ok(false);
    }
    if is_at(number, wanted, offset) {
        return Ok(true);
    }
    match members_of(program, number) {
        Some(members) => begins_in_members(program, wanted, depth - 1, members, offset),
        None => Ok(false),
    }
}

// Whether this is the wanted struct, at its beginning.
fn is_at(number: u32, wanted: u32, offset: u64) -> bool
    ensures { result ≡ ((number == wanted) && (offset == 0)) }
{
    number == wanted && offset == 0
}

// Whether a struct begins in one of these members of a struct, at an offset of that struct.
#[cycle(begins)]
fn begins_in_members(
    program: &Program,
    wanted: u32,
    depth: usize,
    members: &[Member],
    offset: u64,
) -> Result<bool, AllocError>
    requires { HasLayouts program.now }
    ensures { IfOk result (λ holds.
        holds ≡ types.some_member (in_member (typed_program program.now) wanted depth offset)
        members.now) }
{
    for member in members {
        if member.offset() <= offset {
            let found = struct_at(program, member.ty(), offset - member.offset())?;
            if let Some((number, rest)) = found
                && begins_in_struct(program, wanted, depth, number, rest)?
            {
                return Ok(true);
            }
        }
    }
    Ok(false)
}
