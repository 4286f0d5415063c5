//! External declarations and files (C11 6.9).

use crate::place::Place;
use crate::raw::declaration::{RawDeclarator, RawFunction, RawInit, RawSpecs};
use crate::raw::statement::RawItem;

/// An external declaration, at the position of its first token.
#[derive(Drop)]
pub struct RawExternal {
    pub place: Place,
    pub kind: RawExternalKind,
}

/// The form of an external declaration.
#[derive(Drop)]
pub enum RawExternalKind {
    /// Only a type, followed by `;`.
    Type(RawSpecs),
    /// `typedef` and at least one name that it declares (C11 6.7.8).
    Typedef(RawSpecs, Vec<RawDeclarator>),
    /// At least one object, each with its initializer.
    Objects(RawSpecs, Vec<RawInit>),
    /// A function without a body.
    Function(RawSpecs, RawFunction),
    /// A function with its body (C11 6.9.1).
    Definition(RawSpecs, RawFunction, RawBody),
}

/// The body of a function, with the positions of its braces.
#[derive(Drop)]
pub struct RawBody {
    pub opening: Place,
    pub items: Vec<RawItem>,
    pub closing: Place,
}

/// A translation unit.
#[derive(Drop)]
pub struct Tree {
    pub externals: Vec<RawExternal>,
}
