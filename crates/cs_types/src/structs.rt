//! The structs of a program, and the table of them by number.
ghost use Rattle.std.specs.Prelude.{◌≡◌, ◌<◌, ◌++◌, [], ◌∷◌, OnOk, OnErr, length, slice_set, option_copied};
ghost use Rattle.cs_types.specs.Layout.{members_of, complete_of};

use crate::members::Members;
use cs_names::Name;
use std::alloc::{AllocError, Global};
use std::marker::Model;

/// A struct by its tag, with its size and alignment in bytes. An incomplete struct has no members yet, and its size and
/// alignment have no meaning.
#[derive(Drop)]
pub struct StructType {
    pub tag: Name,
    pub members: Option<Members>,
    pub size: u64,
    pub align: u64,
}

/// Structs by number. In contracts it is a list.
#[derive(Drop)]
pub struct Structs {
    list: Vec<StructType>,
}

impl Model for Structs {
    ghost use Rattle.std.specs.Prelude.{List};
    ghost use Rattle.cs_types.specs.declared.structs.StructType.{StructType};
    ghost use Rattle.cs_types.specs.StructCodes.{structs_code};

    ghost Value = { List StructType };

    ghost coded = { structs_code };

    ghost view = { λ s. s.list.items };
}

impl Structs {
    /// Returns the empty list of structs.
    pub fn new(alloc: Global) -> Structs
        ensures { result ≡ [] }
    {
        Structs {
            list: Vec::new(alloc),
        }
    }

    /// Adds a struct; its number is the length before.
    pub fn push(&mut self, added: StructType) -> Result<(), AllocError>
        ensures ok { OnOk result (self.new ≡ self.old ++ added ∷ []) }
        ensures err { OnErr result (self.new ≡ self.old) }
    {
        self.list.push(added)?;
        Ok(())
    }

    /// Replaces the struct with this number, for instance when the body of a declared tag is read.
    pub fn set(&mut self, number: usize, changed: StructType)
        requires { number < length self.old }
        ensures { self.new ≡ slice_set self.old number changed }
    {
        self.list[number] = changed;
    }

    /// Returns the structs in order of number.
    pub fn as_slice(&self) -> &[StructType]
        ensures { result.now ≡ self.now }
    {
        self.list.as_slice()
    }
}

/// The structs of a program: a struct's number is its index in the list.
#[derive(Drop)]
pub struct StructTable {
    pub list: Structs,
}

/// Returns the members of a struct, if it has them.
pub fn members_of(table: &StructTable, number: u32) -> Option<&Members>
    ensures { option_copied result ≡ members_of table.now.list number }
{
    let structs = table.list.as_slice();
    let found = structs.get(number as usize)?;
    match &found.members {
        Some(members) => Some(members),
        None => None,
    }
}

/// Returns the struct with this number, if it has its members.
pub fn complete_struct(table: &StructTable, number: u32) -> Option<&StructType>
    ensures { option_copied result ≡ complete_of table.now.list number }
{
    let structs = table.list.as_slice();
    let found = structs.get(number as usize)?;
    match &found.members {
        Some(_) => Some(found),
        None => None,
    }
}
