//! Constraints on one symbol.
use cs_constraints::Constraints;
use cs_ranges::{Interval, RangeSet};
use cs_terms::{Lin, Sym};
use std::alloc::AllocError;
use std::process::Abort;
use std::test::Fail;

const X: Sym = Sym(0);

const X_PLUS_1: Lin = Lin {
    sym: Some(X),
    slope: 1,
    at: 0,
    value: 1,
};

#[test]
fn assumes(rt: HostRuntime) -> Result<(), Fail> {
    let mut constraints = Constraints::new(rt.alloc());
    let digits = RangeSet::of(rt.alloc(), 0, 9)?;
    assert!(rt; !digits.is_empty());
    constraints.declare(X, digits)?;
    let zero = RangeSet::of(rt.alloc(), 0, 0)?;
    assert!(rt; constraints.assume(X_PLUS_1, &zero)?.is_none());
    let ten = RangeSet::of(rt.alloc(), 10, 10)?;
    match constraints.assume(X_PLUS_1, &ten)? {
        Some(narrowed) => assert_narrowed(&rt, &narrowed, &constraints)?,
        None => assert!(rt; false, "10 is 9 + 1"),
    }
    Ok(())
}

// Tests that `x` has one number after `x + 1` was 10, and had the numbers from 0 before.
fn assert_narrowed(
    rt: &impl Abort,
    narrowed: &Constraints,
    constraints: &Constraints,
) -> Result<(), AllocError> {
    let left = narrowed.range_of(X).map(|range| range.intervals());
    assert!(rt; left == Some([Interval { low: 9, high: 9 }].as_slice()));
    let copy = narrowed.copy()?;
    assert_eq!(rt; copy.solution(X), Some(9));
    assert_eq!(rt; constraints.solution(X), Some(0));
    Ok(())
}

#[test]
fn collapses(rt: HostRuntime) -> Result<(), Fail> {
    let mut constraints = Constraints::new(rt.alloc());
    let nine = RangeSet::of(rt.alloc(), 9, 9)?;
    assert!(rt; !nine.is_empty());
    constraints.declare(X, nine)?;
    let collapsed = constraints.collapse(X_PLUS_1);
    assert_eq!(rt; (collapsed.sym, collapsed.value), (None, 10));
    Ok(())
}

#[test]
fn prepares(rt: HostRuntime) -> Result<(), Fail> {
    let mut constraints = Constraints::new(rt.alloc());
    let small = RangeSet::of(rt.alloc(), -3, 9)?;
    assert!(rt; !small.is_empty());
    constraints.declare(X, small)?;
    let prepared = constraints.prepared(X_PLUS_1);
    assert_eq!(rt;
        prepared,
        Lin {
            sym: Some(X),
            slope: 1,
            at: -3,
            value: -2,
        }
    );
    Ok(())
}

#[test]
fn prepares_a_constant(rt: HostRuntime) -> Result<(), Fail> {
    let mut constraints = Constraints::new(rt.alloc());
    let nine = RangeSet::of(rt.alloc(), 9, 9)?;
    assert!(rt; !nine.is_empty());
    constraints.declare(X, nine)?;
    let prepared = constraints.prepared(X_PLUS_1);
    assert_eq!(rt;
        (prepared.sym, prepared.slope, prepared.value),
        (None, 0, 10)
    );
    Ok(())
}
