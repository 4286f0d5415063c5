//! C types.
ghost use Rattle.std.specs.Prelude.{◌≡◌, IfOk};
ghost use Rattle.cs_types.specs.Shape.{shape_of, same_shape};

use crate::int_type::IntType;
use std::alloc::{AllocError, Global};

/// A type of C (C11 6.2.5). An enum is `int`; a struct is its number in the table of structs.
#[derive(Drop)]
pub enum CType {
    Void,
    Int(IntType),
    Pointer(Box<CType>),
    /// An array of a number of elements.
    Array(Box<CType>, u64),
    Struct(u32),
}

impl CType {
    /// Returns a copy of the type.
    pub fn copy(&self, alloc: Global) -> Result<CType, AllocError>
        ensures { IfOk result (λ made. shape_of made ≡ shape_of self.now) }
    {
        match self {
            CType::Void => Ok(CType::Void),
            CType::Int(ty) => Ok(CType::Int(*ty)),
            CType::Pointer(target) => Ok(CType::Pointer(Box::new(alloc, target.copy(alloc)?)?)),
            CType::Array(element, count) => {
                Ok(CType::Array(Box::new(alloc, element.copy(alloc)?)?, *count))
            }
            CType::Struct(number) => Ok(CType::Struct(*number)),
        }
    }

    // Whether two types are the same.
    fn is_same(&self, other: &CType) -> bool
        ensures { result ≡ same_shape (shape_of self.now) (shape_of other.now) }
    {
        match (self, other) {
            (CType::Void, CType::Void) => true,
            (CType::Int(left), CType::Int(right)) => *left as u8 == *right as u8,
            (CType::Pointer(left), CType::Pointer(right)) => left.is_same(right),
            (CType::Array(left, count), CType::Array(right, other_count)) => {
                count == other_count && left.is_same(right)
            }
            (CType::Struct(left), CType::Struct(right)) => left == right,
            _ => false,
        }
    }
}

impl PartialEq for CType {
    ghost use Rattle.cs_types.specs.Shape.{shape_of, same_shape};
    ghost use Rattle.cs_types.specs.ShapeEquality.{same_shape-equivalence};
    ghost use Rattle.std.specs.Cmp.{on_per, partial_equiv_from_equiv};

    ghost eq = { λ a b. same_shape (shape_of a) (shape_of b) };

    ghost laws = { on_per shape_of (partial_equiv_from_equiv same_shape-equivalence) };

    fn eq(&self, other: &CType) -> bool {
        self.is_same(other)
    }
}

impl Eq for CType {
    ghost use Rattle.cs_types.specs.Shape.{shape_of};
    ghost use Rattle.cs_types.specs.ShapeEquality.{same_shape-equivalence};
    ghost use Rattle.std.specs.Cmp.{on_equiv};

    ghost laws = { on_equiv shape_of same_shape-equivalence };
}
