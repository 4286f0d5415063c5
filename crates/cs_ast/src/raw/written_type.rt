//! The words of written types (C11 6.7.2, 6.7.3, 6.7.6.1).

use crate::place::Place;
use cs_names::Name;

/// A word of a type without a body: `const`, a word of an integer type, or a word that is a whole type.
#[derive(Drop)]
pub enum TypeWord {
    /// `const`
    Const,
    /// A word of an integer type.
    Integer(IntegerWord),
    /// `void`
    Void,
    /// The name of a typedef.
    Typedef(Name),
    /// `struct` and a tag.
    Struct(Name),
    /// `enum` and a tag.
    Enum(Name),
}

/// The words of integer types.
#[derive(Clone, Copy)]
pub enum IntegerWord {
    Char,
    Short,
    Int,
    Long,
    Signed,
    Unsigned,
}

/// A word of a pointer.
#[derive(Clone, Copy)]
pub enum PointerWord {
    /// `*`
    Star,
    /// `const` after a star.
    Const,
}

/// A type's words and its pointers, without the bounds of arrays.
#[derive(Drop)]
pub struct WrittenType {
    pub words: Vec<TypeWord>,
    /// The position of the tag, if the type is named by `struct` or `enum` and a tag.
    pub tag: Option<Place>,
    pub pointers: Vec<PointerWord>,
}
