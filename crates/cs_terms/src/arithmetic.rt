//! Sums, multiples and differences of terms.
ghost use Rattle.std.specs.Prelude.{◌≡◌, ◌↔◌, ◌⊎◌, Some, ◌+ℤ◌, ◌-ℤ◌, ◌*ℤ◌, neg_ℤ, IfSome, IsNone};
ghost use Rattle.cs_ranges.specs.Interval.{IsInside};
ghost use Rattle.cs_terms.specs.declared.symbol.Sym.{Sym};
ghost use Rattle.cs_terms.specs.Conditions.{CanAdd, CanScale};
ghost use Rattle.cs_terms.specs.Term.{Valuation, value_of, value_of_sum, IsTerm, HaveTwoSymbols, HasNoOtherSymbol};

use crate::symbol::Sym;
use crate::term::{Lin, Lin2};
use cs_ranges::affine_value;

/// Returns the sum, or none if the terms have two different symbols.
pub fn add(left: Lin, right: Lin) -> Option<Lin>
    requires left { IsTerm left }
    requires right { IsTerm right }
    requires room { CanAdd left right }
    ensures value { IfSome result (λ sum.
        (v : Valuation) → value_of v sum ≡ value_of v left +ℤ value_of v right) }
    ensures none { IsNone result ↔ HaveTwoSymbols left.sym right.sym }
    ensures term { IfSome result IsTerm }
    ensures symbol { IfSome result (λ sum.
        (s : Sym) → sum.sym ≡ Some s → (left.sym ≡ Some s) ⊎ (right.sym ≡ Some s)) }
{
    match (left.sym, right.sym) {
        (Some(sym), Some(other)) => {
            if sym == other {
                Some(add_over_one(left, right, sym))
            } else {
                None
            }
        }
        (Some(_), None) => Some(Lin {
            value: left.value + right.value,
            ..left
        }),
        (None, _) => Some(Lin {
            value: left.value + right.value,
            ..right
        }),
    }
}

// Returns the sum of two terms over the same symbol, given by its value at the left one's number.
fn add_over_one(left: Lin, right: Lin, sym: Sym) -> Lin
    requires left { left.sym ≡ Some sym }
    requires right { right.sym ≡ Some sym }
    requires room { CanAdd left right }
    ensures value { (v : Valuation)
        → value_of v result ≡ value_of v left +ℤ value_of v right }
    ensures term { IsTerm result }
    ensures symbol { HasNoOtherSymbol result.sym left.sym }
{
    let right_there = affine_value(right.slope, right.at, right.value, left.at);
    Lin::affine(
        Some(sym),
        left.slope + right.slope,
        left.at,
        left.value + right_there,
    )
}

/// Returns the term times the factor.
pub fn scale(term: Lin, factor: i128) -> Lin
    requires term { IsTerm term }
    requires room { CanScale term factor }
    ensures value { (v : Valuation) → value_of v result ≡ value_of v term *ℤ factor }
    ensures term { IsTerm result }
    ensures symbol { HasNoOtherSymbol result.sym term.sym }
    ensures slope { result.slope ≡ term.slope *ℤ factor }
    ensures place { result.at ≡ term.at }
    ensures value_there { result.value ≡ term.value *ℤ factor }
{
    Lin::affine(term.sym, term.slope * factor, term.at, term.value * factor)
}

/// Returns the difference, as the sum of the left term and the negative of the right one.
pub fn diff(left: Lin, right: Lin) -> Lin2
    requires left { IsTerm left }
    requires right { IsTerm right }
    requires slope_inside { IsInside right.slope }
    requires value_inside { IsInside right.value }
    ensures value { (v : Valuation)
        → value_of_sum v result ≡ value_of v left -ℤ value_of v right }
    ensures first { result.first ≡ left }
    ensures second { IsTerm result.second }
    ensures symbol { result.second.sym ≡ right.sym }
    ensures slope { result.second.slope ≡ neg_ℤ right.slope }
    ensures place { result.second.at ≡ right.at }
    ensures value_there { result.second.value ≡ neg_ℤ right.value }
{
    Lin2 {
        first: left,
        second: Lin {
            slope: -right.slope,
            value: -right.value,
            ..right
        },
    }
}

/// Returns the sum as one term, or none if the two have different symbols.
pub fn merged(term: Lin2) -> Option<Lin>
    requires first { IsTerm term.first }
    requires second { IsTerm term.second }
    requires room { CanAdd term.first term.second }
    ensures value { IfSome result (λ sum.
        (v : Valuation) → value_of v sum ≡ value_of_sum v term) }
    ensures none { IsNone result ↔ HaveTwoSymbols term.first.sym term.second.sym }
    ensures term { IfSome result IsTerm }
    ensures symbol { IfSome result (λ sum.
        (s : Sym) → sum.sym ≡ Some s → (term.first.sym ≡ Some s)
        ⊎ (term.second.sym ≡ Some s)) }
{
    add(term.first, term.second)
}
