//! The typed program.

use crate::place::Place;
use crate::typed::statement::{Initial, Stmt};
use cs_names::{Bytes, Name};
use cs_types::{CType, DataModel, StructTable};

/// A typed program.
#[derive(Drop)]
pub struct Program {
    pub model: DataModel,
    /// The names of the files that positions refer to.
    pub files: Vec<Name>,
    pub table: StructTable,
    pub globals: Vec<Global>,
    /// The bytes of each string literal, without the terminating zero byte.
    pub literals: Vec<Bytes>,
    /// In the order in which their names occur in the file; without `malloc`, `calloc` and `free`.
    pub functions: Vec<Function>,
    /// The distinct values of the file's integer constants, in order of first occurrence.
    pub constants: Vec<i128>,
}

/// A file-scope object.
#[derive(Drop)]
pub struct Global {
    pub name: Name,
    /// The position of its name in its first declaration.
    pub place: Place,
    pub ty: CType,
    /// Whether it may not be stored to.
    pub constant: bool,
    pub initial: Option<Initial>,
}

/// A function.
#[derive(Drop)]
pub struct Function {
    pub name: Name,
    /// The position of its name, in its definition if there is one, else in its first declaration.
    pub place: Place,
    pub result: CType,
    /// How many of the locals are parameters: the first ones, in order.
    pub parameters: u32,
    pub locals: Vec<Local>,
    pub body: Option<Stmt>,
    /// The position of the body's closing brace, or `place` if there is no body.
    pub end: Place,
    /// For each parameter, whether a function without a body may write through it.
    pub written: Vec<bool>,
}

/// A parameter or a local object of a function.
#[derive(Drop)]
pub struct Local {
    pub name: Name,
    pub ty: CType,
    /// For a parameter that is declared with an array bound, the number of elements of the block that it points to.
    pub block: Option<u64>,
}
