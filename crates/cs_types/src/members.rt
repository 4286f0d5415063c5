//! The members of structs, each with its type and its offset.
ghost use Rattle.std.specs.Prelude.{◌≡◌, ◌++◌, [], ◌∷◌, OnOk, OnErr};
ghost use Rattle.cs_types.specs.Shape.{shape_of};

use crate::ctype::CType;
use cs_names::Name;
use std::alloc::{AllocError, Global};
use std::marker::Model;

/// A member of a struct, with its offset in bytes from the struct's start. In contracts it has the shape of its type.
#[derive(Drop)]
pub struct Member {
    name: Name,
    ty: CType,
    offset: u64,
}

impl Model for Member {
    ghost use Rattle.cs_types.specs.Members.{Member as MemberOf};
    ghost use Rattle.cs_types.specs.Shape.{shape_of};
    ghost use Rattle.cs_types.specs.Codes.{member_code};

    ghost Value = { MemberOf };

    ghost coded = { member_code };

    ghost view = { λ m. record { name = m.name; ty = shape_of m.ty; offset = m.offset } };
}

impl Member {
    /// Returns a member with these parts.
    pub fn new(name: Name, ty: CType, offset: u64) -> Member
        ensures { result ≡ record { name = name; ty = shape_of ty; offset = offset } }
    {
        Member { name, ty, offset }
    }

    /// Returns the member's name.
    pub fn name(&self) -> &Name
        ensures { result.now ≡ self.now.name }
    {
        &self.name
    }

    /// Returns the member's type.
    pub fn ty(&self) -> &CType
        ensures { shape_of result.now ≡ self.now.ty }
    {
        &self.ty
    }

    /// Returns the member's offset in bytes from the struct's start.
    pub fn offset(&self) -> u64
        ensures { result ≡ self.now.offset }
    {
        self.offset
    }
}

/// The members of a struct in their order. In contracts it is a list.
#[derive(Drop)]
pub struct Members {
    list: Vec<Member>,
}

impl Model for Members {
    ghost use Rattle.std.specs.Prelude.{List};
    ghost use Rattle.cs_types.specs.Members.{Member as MemberOf};
    ghost use Rattle.cs_types.specs.Codes.{members_code};

    ghost Value = { List MemberOf };

    ghost coded = { members_code };

    ghost view = { λ m. m.list.items };
}

impl Members {
    /// Returns the empty list of members.
    pub fn new(alloc: Global) -> Members
        ensures { result ≡ [] }
    {
        Members {
            list: Vec::new(alloc),
        }
    }

    /// Adds a member after the others.
    pub fn push(&mut self, member: Member) -> Result<(), AllocError>
        ensures ok { OnOk result (self.new ≡ self.old ++ member ∷ []) }
        ensures err { OnErr result (self.new ≡ self.old) }
    {
        self.list.push(member)?;
        Ok(())
    }

    /// Returns the members in order.
    pub fn as_slice(&self) -> &[Member]
        ensures { result.now ≡ self.now }
    {
        self.list.as_slice()
    }
}
