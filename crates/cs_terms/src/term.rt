//! Terms: constants, and affine functions of one symbol.
ghost use Rattle.std.specs.Prelude.{◌≡◌, pos, IsNone};
ghost use Rattle.cs_terms.specs.Term.{Valuation, value_of, value_with, IsTerm, HasNoOtherSymbol};

use crate::symbol::Sym;

/// The term `value + slope * (sym - at)`, or the constant `value` without a symbol.
///
/// A term has no symbol exactly if its slope is 0.
#[derive(Clone, Copy, PartialEq, Eq, Debug)]
pub struct Lin {
    pub sym: Option<Sym>,
    pub slope: i128,
    pub at: i128,
    pub value: i128,
}

impl Lin {
    /// Returns the affine function of the symbol, a constant if the slope is 0.
    pub(crate) fn affine(sym: Option<Sym>, slope: i128, at: i128, value: i128) -> Lin
        requires { IsNone sym → slope ≡ pos 0 }
        ensures value { (v : Valuation) → value_of v result ≡ value_with v sym slope at value }
        ensures term { IsTerm result }
        ensures symbol { HasNoOtherSymbol result.sym sym }
        ensures parts { (result.slope ≡ slope) × (result.at ≡ at) × (result.value ≡ value) }
    {
        Lin {
            sym: if slope == 0 { None } else { sym },
            slope,
            at,
            value,
        }
    }
}

/// The sum of two terms.
#[derive(Clone, Copy, PartialEq, Eq, Debug)]
pub struct Lin2 {
    pub first: Lin,
    pub second: Lin,
}
