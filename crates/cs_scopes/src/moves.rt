//! The directions in which operators move pointers (C11 6.5.6).
ghost use Rattle.std.specs.Prelude.{◌≡◌};
ghost use Rattle.cs_scopes.specs.Moves.{direction_of};

use cs_ast::typed::operator::{BinOp, Direction};

/// Returns the direction in which an operator moves a pointer to which it adds a number or from which it subtracts one.
pub fn direction_of(operator: BinOp) -> Direction
    ensures { result ≡ direction_of operator }
{
    match operator {
        BinOp::Sub => Direction::Back,
        _ => Direction::Forward,
    }
}
