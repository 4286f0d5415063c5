//! Terms added, scaled and cut by wrap quotients, and the numbers of symbols.
use cs_ranges::{Interval, RangeSet};
use cs_terms::{
    Lin, Piece, Pieces, ProductPieces, Sym, SymName, SymTable, add, diff, greatest_of_type,
    least_of_type, merged, product_pieces, scale, stays_between, stays_within, wrap_pieces,
};
use cs_types::{DataModel, IntType};
use std::process::Abort;
use std::test::Fail;

fn interval(low: i128, high: i128) -> Interval {
    Interval { low, high }
}

#[test]
fn numbers_names_in_order(rt: HostRuntime) -> Result<(), Fail> {
    let mut symbols = SymTable::new(rt.alloc());
    let first = symbols.number_of(SymName::Guess(7))?;
    let second = symbols.number_of(SymName::Guess(2))?;
    let again = symbols.number_of(SymName::Guess(7))?;
    assert_eq!(rt; (first, second, again), (Sym(0), Sym(1), Sym(0)));
    assert_eq!(rt; symbols.name(second), Some(&SymName::Guess(2)));
    assert_eq!(rt; symbols.name(Sym(2)), None);
    Ok(())
}

#[test]
fn adds_and_scales(rt: HostRuntime) -> Result<(), Fail> {
    let x_plus_1 = Lin {
        sym: Some(Sym(0)),
        slope: 1,
        at: 3,
        value: 4,
    };
    let twice = add(x_plus_1, x_plus_1);
    assert_eq!(rt; twice, Some(scale(x_plus_1, 2)));
    let none_left = merged(diff(x_plus_1, x_plus_1));
    assert_eq!(rt;
        none_left,
        Some(Lin {
            sym: None,
            slope: 0,
            at: 3,
            value: 0,
        })
    );
    let y = Lin {
        sym: Some(Sym(1)),
        slope: 1,
        at: 0,
        value: 0,
    };
    assert_eq!(rt; add(x_plus_1, y), None);
    Ok(())
}

#[test]
fn cuts_a_sum(rt: HostRuntime) -> Result<(), Fail> {
    let ints = RangeSet::of(rt.alloc(), -2147483648, 2147483647)?;
    let x_plus_1 = Lin {
        sym: Some(Sym(0)),
        slope: 1,
        at: 0,
        value: 1,
    };
    let pieces = wrap_pieces(rt.alloc(), DataModel::Lp64, IntType::Int, x_plus_1, &ints)?;
    assert_cut(&rt, &pieces);
    Ok(())
}

fn assert_cut(rt: &impl Abort, pieces: &Pieces) {
    assert!(rt; pieces.under.is_empty() && pieces.far.is_empty());
    assert!(rt; pieces.same.intervals() == [interval(-2147483648, 2147483646)].as_slice());
    assert!(rt; pieces.past.intervals() == [interval(2147483647, 2147483647)].as_slice());
}

#[test]
fn cuts_a_product(rt: HostRuntime) -> Result<(), Fail> {
    let words = RangeSet::of(rt.alloc(), 0, 18446744073709551615)?;
    let x = Lin {
        sym: Some(Sym(0)),
        slope: 1,
        at: 0,
        value: 0,
    };
    let pieces = product_pieces(
        rt.alloc(),
        DataModel::Lp64,
        IntType::ULong,
        x,
        18446744073709551615,
        &words,
    )?;
    assert_product_cut(&rt, &pieces);
    Ok(())
}

// Tests the pieces of a product: 0 and 1 with no wrap, 2 with one, and more from 3 on.
fn assert_product_cut(rt: &impl Abort, pieces: &ProductPieces) {
    assert!(rt; pieces.under.is_none());
    let kept = Lin {
        sym: Some(Sym(0)),
        slope: 18446744073709551615,
        at: 0,
        value: 0,
    };
    let wrapped = Lin {
        sym: None,
        slope: 0,
        at: 2,
        value: 18446744073709551614,
    };
    assert_piece(rt, pieces.same.as_ref(), interval(0, 1), kept);
    assert_piece(rt, pieces.past.as_ref(), interval(2, 2), wrapped);
    assert!(rt; pieces.far.intervals() == [interval(3, 18446744073709551615)].as_slice());
}

fn assert_piece(rt: &impl Abort, piece: Option<&Piece>, range: Interval, product: Lin) {
    match piece {
        Some(piece) => {
            assert!(rt; piece.range.intervals() == [range].as_slice());
            assert!(rt; piece.product == product);
        }
        None => assert!(rt; false, "a piece is empty"),
    }
}

#[test]
fn a_sum_stays_or_wraps(rt: HostRuntime) -> Result<(), Fail> {
    let x_plus_1 = Lin {
        sym: Some(Sym(0)),
        slope: 1,
        at: 0,
        value: 1,
    };
    let all = RangeSet::of(rt.alloc(), -2147483648, 2147483647)?;
    let most = RangeSet::of(rt.alloc(), -2147483648, 2147483646)?;
    let model = DataModel::Lp64;
    assert!(rt; !stays_within(model, IntType::Int, x_plus_1, &all));
    assert!(rt; stays_within(model, IntType::Int, x_plus_1, &most));
    assert!(rt; !stays_within(model, IntType::UInt, x_plus_1, &most));
    assert!(rt; stays_within(model, IntType::Long, x_plus_1, &all));
    assert!(rt; !stays_within(DataModel::Ilp32, IntType::Long, x_plus_1, &all));
    Ok(())
}

#[test]
fn both_ends_decide(rt: HostRuntime) -> Result<(), Fail> {
    // 10 - 2x falls from 10 to -8.
    let falling = Lin {
        sym: Some(Sym(0)),
        slope: -2,
        at: 5,
        value: 0,
    };
    let digits = RangeSet::of(rt.alloc(), 0, 9)?;
    assert!(rt; stays_between(falling, &digits, -8, 10));
    assert!(rt; !stays_between(falling, &digits, -7, 10));
    assert!(rt; !stays_between(falling, &digits, -8, 9));
    assert!(rt; stays_between(falling, &digits.minus(&digits)?, 1, 0));
    Ok(())
}

#[test]
fn types_have_least_and_greatest_numbers(rt: HostRuntime) {
    let both = |model, ty| (least_of_type(model, ty), greatest_of_type(model, ty));
    assert_eq!(rt; both(DataModel::Lp64, IntType::Char), (-128, 127));
    assert_eq!(rt; both(DataModel::Lp64, IntType::UShort), (0, 65535));
    assert_eq!(rt;
        both(DataModel::Ilp32, IntType::Long),
        (-2147483648, 2147483647)
    );
    assert_eq!(rt;
        both(DataModel::Lp64, IntType::ULLong),
        (0, 18446744073709551615)
    );
}
