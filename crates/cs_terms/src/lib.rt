//! Symbols for unknown numbers, and terms that are affine in one of them.
#![tactic(auto)]

mod arithmetic;
mod bounds;
mod near;
mod pieces;
mod product;
mod symbol;
mod table;
mod term;
mod type_range;

pub use arithmetic::{add, diff, merged, scale};
pub use bounds::{stays_between, stays_within};
pub use pieces::{Pieces, wrap_pieces};
pub use product::{Piece, ProductPieces, product_pieces};
pub use symbol::{Sym, SymName};
pub use table::SymTable;
pub use term::{Lin, Lin2};
pub use type_range::{greatest_of_type, least_of_type};
