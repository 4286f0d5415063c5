//! Written declarations (C11 6.7).

use crate::place::Place;
use crate::raw::expression::RawExpr;
use crate::raw::name::RawName;
use crate::raw::written_type::{PointerWord, TypeWord};
use cs_names::Name;

/// Declaration specifiers: the words before the declarators, of which one may be a type with its body.
#[cycle(raw_specs)]
#[derive(Drop)]
pub struct RawSpecs {
    pub words: Vec<SpecWord>,
    /// The position of the tag, if the type has one.
    pub tag: Option<Place>,
}

/// A word before the declarators, or a type with its body.
#[cycle(raw_specs)]
#[derive(Drop)]
pub enum SpecWord {
    /// `static`
    Static,
    /// A word of a type without a body.
    Plain(TypeWord),
    /// `struct`, a tag, and the members between braces (C11 6.7.2.1).
    Struct(Option<Name>, Vec<RawMember>),
    /// `enum`, a tag, and the constants between braces (C11 6.7.2.2); the flag is whether a comma ends the list.
    Enum(Option<Name>, Vec<RawEnumerator>, bool),
}

/// Members that are declared with one list of specifiers.
#[cycle(raw_specs)]
#[derive(Drop)]
pub struct RawMember {
    pub specs: RawSpecs,
    pub declarators: Vec<RawDeclarator>,
}

/// An enumeration constant, and the expression after its `=`.
#[derive(Drop)]
pub struct RawEnumerator {
    /// The position of the name.
    pub place: Place,
    pub name: Name,
    pub value: Option<RawExpr>,
}

/// A declarator: a name with the pointers before it and the array bounds after it. In C only the first bound may be
/// empty; here any may be.
#[derive(Drop)]
pub struct RawDeclarator {
    pub pointers: Vec<PointerWord>,
    /// The position of the name.
    pub place: Place,
    pub name: Name,
    pub bounds: Vec<Option<RawExpr>>,
}

/// A declarator of an object, with its initializer.
#[derive(Drop)]
pub struct RawInit {
    pub declarator: RawDeclarator,
    pub initial: Option<RawFirstValue>,
}

/// An initializer of a declaration, with its `=`.
#[derive(Drop)]
pub struct RawFirstValue {
    /// The position of the `=`.
    pub place: Place,
    pub initial: RawInitial,
}

/// An initializer (C11 6.7.9).
#[cycle(raw_initial)]
#[derive(Drop)]
pub enum RawInitial {
    /// An assignment expression: one without a comma.
    Value(RawExpr),
    /// A list between braces; the flag is whether a comma ends it.
    List(Vec<RawInitial>, bool),
}

/// The declarator of a function: its name and its parameters (C11 6.7.6.3).
#[derive(Drop)]
pub struct RawFunction {
    pub pointers: Vec<PointerWord>,
    /// The position of the name.
    pub place: Place,
    pub name: Name,
    pub parameters: RawParameters,
}

/// The parameters between a function's parentheses.
#[derive(Drop)]
pub enum RawParameters {
    /// Nothing.
    Empty,
    /// Only `void`.
    Void,
    /// At least one parameter.
    List(Vec<RawParameter>),
}

/// A parameter, whose name may be absent in a declaration.
#[derive(Drop)]
pub struct RawParameter {
    /// The position of its first token.
    pub place: Place,
    pub specs: RawSpecs,
    pub pointers: Vec<PointerWord>,
    pub name: Option<RawName>,
    pub bounds: Vec<Option<RawExpr>>,
}
