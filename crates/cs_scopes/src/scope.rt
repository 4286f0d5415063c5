//! What a declaration declares (C11 6.2.1).

use cs_names::Name;
use cs_types::CType;

/// A declared name and its meaning.
#[derive(Drop)]
pub struct Declaration {
    pub name: Name,
    pub meaning: Meaning,
}

/// What a name denotes.
#[derive(Drop)]
pub enum Meaning {
    /// A type.
    Typedef(CType),
    /// A constant of an enum: a number of `int`.
    Constant(i128),
    /// A file-scope object, by its number in the program.
    Global(u32, CType),
    /// An object of the function that is typed, by its declaration's number.
    Local(u32, CType),
    Function(DeclaredFunction),
}

/// A function: what a call of it does, and the types of its result and its parameters.
#[derive(Drop)]
pub struct DeclaredFunction {
    pub callee: Callee,
    pub result: CType,
    pub parameters: Vec<CType>,
}

/// What is called.
#[derive(Clone, Copy, PartialEq, Eq)]
pub enum Callee {
    /// A function of the program, by its number.
    Numbered(u32),
    Malloc,
    Calloc,
    Free,
}

/// A tag and its meaning.
#[derive(Drop)]
pub struct Tag {
    pub name: Name,
    pub meaning: TagMeaning,
}

/// What a tag denotes.
#[derive(Clone, Copy, PartialEq, Eq)]
pub enum TagMeaning {
    /// A struct, by its number in the table.
    Struct(u32),
    /// An enum whose list of constants precedes.
    Enum,
}
