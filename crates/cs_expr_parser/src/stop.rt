//! The results that the parts of the parser return to one another.
ghost use Rattle.cs_expr_parser.specs.declared.stop.Stop.TheVariants.{Memory};
ghost use Rattle.std.specs.Prelude.{◌≡◌};

use cs_ast::raw::expression::RawExpr;
use cs_grammar::Reason;
use std::alloc::{AllocError, AllocFailed};

/// An expression that tokens begin with, as a part of the parser returns it to another.
#[derive(Drop)]
pub struct Taken {
    pub tree: RawExpr,
    /// The height of the tree.
    pub height: u32,
    /// The index of the token after the expression.
    pub next: usize,
    /// Whether an expression of the same level, but higher than the limit, continues with the token after this one.
    pub deep: bool,
}

/// Why a part of the parser returns no expression.
#[derive(Drop)]
pub enum Stop {
    /// The token with this index is refused, for this reason.
    Refused(usize, Reason),
    /// Memory ran out.
    Memory,
}

impl From<AllocError> for Stop {
    ghost from_gives = { λ _ stop. stop ≡ Memory };

    fn from(_error: AllocError) -> Stop {
        Stop::Memory
    }
}

impl<T: Drop> From<AllocFailed<T>> for Stop {
    ghost from_gives = { λ _ stop. stop ≡ Memory };

    fn from(_error: AllocFailed<T>) -> Stop {
        Stop::Memory
    }
}
