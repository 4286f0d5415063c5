//! Which scalars of a struct are integers. They are requested in the order of their offsets, so the members are traversed once, and the
//! scalars of an array are inspected at once.
ghost use Rattle.cs_objects.specs.Prepared.{IsReady};

use cs_objects::blocks::BlockType;
use cs_progress::Context;
use cs_types::{CType, Member, members_of};
use std::alloc::AllocError;

/// The scalars of a type, as far as they were requested.
#[derive(Clone, Copy)]
pub struct Integers<'a> {
    ty: &'a CType,
    // The member reached last, and the members after it.
    member: Option<&'a Member>,
    rest: &'a [Member],
    // Whether the scalars from the offset inspected last up to `end` are integers.
    answer: bool,
    end: u64,
}

impl<'a> Integers<'a> {
    /// Returns the scalars of a type before the first request.
    pub fn of(context: &Context<'a>, ty: &'a CType) -> Integers<'a> {
        Integers {
            ty,
            member: None,
            rest: members(context, ty),
            answer: false,
            end: 0,
        }
    }

    /// Whether the scalar at an offset is an integer. Each offset has to be greater than those before it.
    pub fn has(&mut self, context: &Context<'a>, offset: u64) -> Result<bool, AllocError>
        requires { IsReady context.now.setting.now }
    {
        if offset >= self.end {
            self.come_to(offset);
            self.look(context, offset)?;
        }
        Ok(self.answer)
    }

    // Advances to the member in which an offset is.
    fn come_to(&mut self, offset: u64) {
        let mut rest = self.rest;
        while let Some((next, after)) = rest.split_first() {
            if next.offset() > offset {
                break;
            }
            self.member = Some(next);
            rest = after;
        }
        self.rest = rest;
    }

    // Inspects the scalar at an offset; in an array of scalars, all of them.
    fn look(&mut self, context: &Context<'a>, offset: u64) -> Result<(), AllocError>
        requires { IsReady context.now.setting.now }
    {
        let row = match self.member {
            Some(member) => row_of(member.ty()),
            None => None,
        };
        match row {
            Some(integers) => {
                self.answer = integers;
                self.end = match self.rest.first() {
                    Some(next) => next.offset(),
                    None => u64::MAX,
                };
            }
            None => {
                let scalar = context.scalar(BlockType::Of(self.ty), offset)?;
                self.answer = matches!(scalar, Some(BlockType::Of(CType::Int(_))));
                self.end = offset.saturating_add(1);
            }
        }
        Ok(())
    }
}

// The members of a struct.
fn members<'a>(context: &Context<'a>, ty: &CType) -> &'a [Member] {
    let CType::Struct(number) = ty else {
        return &[];
    };
    match members_of(&context.program().table, *number) {
        Some(members) => members.as_slice(),
        None => &[],
    }
}

// Whether a type's scalars are integers, if they all have the same type.
fn row_of(ty: &CType) -> Option<bool> {
    match ty {
        CType::Int(_) => Some(true),
        CType::Pointer(_) => Some(false),
        CType::Array(element, _) => row_of(element),
        CType::Void | CType::Struct(_) => None,
    }
}
