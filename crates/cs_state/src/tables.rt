//! The tables that the states of an exploration share: they only grow, and a number names the same thing in
//! each state.
ghost use Rattle.std.specs.Prelude.{◌≡◌, [], Some, map, slice_get, IfOk, OnErr, MatchOption};
ghost use Rattle.std.specs.List.{Contains};
ghost use Rattle.std.specs.Option.{option_map};
ghost use Rattle.indexmap.specs.IndexMap.{keys};
ghost use Rattle.cs_types.specs.Shape.{shape_of};
ghost use Rattle.cs_terms.specs.Table.{IsNumbered as IsPlaced, HasEachOnce};
ghost use Rattle.cs_regions.specs.Numbering.{IsNumbered};
ghost use Rattle.cs_meaning.specs.Types.{element_of};
ghost use Rattle.cs_state.specs.Naming.{naming, Extends};

use crate::block::TypeNumber;
use cs_regions::{Base, BaseTable};
use cs_terms::{Sym, SymName, SymTable};
use cs_types::{CType, IntType};
use std::alloc::{AllocError, Global};
use std::marker::Model;

/// Types in the order in which they were first seen, each once. A type's number is its index.
#[derive(Drop)]
pub struct TypeTable {
    alloc: Global,
    list: Vec<CType>,
}

impl Model for TypeTable {
    ghost use Rattle.std.specs.Prelude.{List, map};
    ghost use Rattle.cs_types.specs.Shape.{Shape, shape_of};
    ghost use Rattle.cs_state.specs.TypeCodes.{shapes_code};

    ghost Value = { List Shape };

    ghost coded = { shapes_code };

    ghost view = { λ t. map shape_of t.list.items };
}

impl TypeTable {
    /// Returns an empty table.
    pub fn new(alloc: Global) -> TypeTable
        ensures { result ≡ [] }
    {
        TypeTable {
            alloc,
            list: Vec::new(alloc),
        }
    }

    /// Returns the number of a type: the one that it has, or the next one.
    pub fn number_of(&mut self, ty: &CType) -> Result<TypeNumber, AllocError>
        ensures number { IfOk result (λ number.
            slice_get self.new number.0 ≡ Some (shape_of ty.now)) }
        ensures place { IfOk result (λ number.
            IsPlaced self.old (shape_of ty.now) number.0 self.new) }
        ensures err { OnErr result (self.new ≡ self.old) }
    {
        if let Some(place) = place_of(&self.list, ty) {
            return Ok(TypeNumber(place as u64));
        }
        let place = self.list.len();
        let added = ty.copy(self.alloc)?;
        self.list.push(added)?;
        Ok(TypeNumber(place as u64))
    }

    /// Returns the type with a number.
    pub fn ty(&self, number: TypeNumber) -> Option<&CType>
        ensures { option_map (λ ty. shape_of ty.now) result ≡ slice_get self.now number.0 }
    {
        self.list.get(number.0 as usize)
    }
}

// Returns the first index of a type in a list, if it is there.
fn place_of(types: &[CType], ty: &CType) -> Option<usize>
    ensures { MatchOption result (¬ Contains (map shape_of types.now) (shape_of ty.now))
        (λ place. slice_get (map shape_of types.now) place ≡ Some (shape_of ty.now)) }
{
    for (place, known) in types.iter().enumerate() {
        if known == ty {
            return Some(place);
        }
    }
    None
}

/// What the numbers in states name.
#[derive(Drop)]
pub struct Tables {
    pub syms: SymTable,
    pub bases: BaseTable,
    pub types: TypeTable,
}

impl Tables {
    /// Returns empty tables.
    pub fn new(alloc: Global) -> Tables
        ensures syms { keys result.syms.names ≡ [] }
        ensures bases { keys result.bases.names ≡ [] }
        ensures types { result.types ≡ [] }
    {
        Tables {
            syms: SymTable::new(alloc),
            bases: BaseTable::new(alloc),
            types: TypeTable::new(alloc),
        }
    }

    /// Returns the symbol with a name, a new one if there is none.
    pub fn sym(&mut self, name: SymName) -> Result<Sym, AllocError>
        ensures named { IfOk result (λ sym.
            slice_get (naming self.new).syms sym.0 ≡ Some name) }
        ensures once { HasEachOnce (naming self.new).syms }
        ensures extends { Extends (naming self.old) (naming self.new) }
    {
        self.syms.number_of(name)
    }

    /// Returns the number of a base region, a new one if it has none.
    pub fn base(&mut self, base: Base) -> Result<u64, AllocError>
        ensures named { IfOk result (λ number.
            slice_get (naming self.new).bases number ≡ Some base) }
        ensures once { IsNumbered (naming self.new).bases }
        ensures extends { Extends (naming self.old) (naming self.new) }
    {
        self.bases.number_of(base)
    }

    /// Returns the number of the type that a pointer points to; a `void *` points to bytes.
    pub fn element(&mut self, target: &CType) -> Result<TypeNumber, AllocError>
        ensures named { IfOk result (λ number.
            slice_get (naming self.new).types number.0
            ≡ Some (element_of (shape_of target.now))) }
        ensures extends { Extends (naming self.old) (naming self.new) }
    {
        match target {
            CType::Void => self.types.number_of(&CType::Int(IntType::UChar)),
            CType::Int(_) => self.types.number_of(target),
            CType::Pointer(_) => self.types.number_of(target),
            CType::Array(_, _) => self.types.number_of(target),
            CType::Struct(_) => self.types.number_of(target),
        }
    }
}
