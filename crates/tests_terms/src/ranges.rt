//! Sets of integers: cut, joined, counted, and mapped back along lines. A set is written as its intervals.
use cs_ranges::{GREATEST, LEAST, RangeSet, affine_preimage};
use std::alloc::{AllocError, Global};
use std::process::Abort;
use std::test::Fail;

// Returns the intervals of a set as text.
fn written(alloc: Global, set: &RangeSet) -> Result<String, AllocError> {
    let mut text = String::new(alloc);
    for interval in set.intervals() {
        write!(text, "{}..{} ", interval.low, interval.high)?;
    }
    Ok(text)
}

// Returns the set of the numbers of an interval in this notation.
fn interval(rt: &impl Abort, alloc: Global, text: &str) -> Result<RangeSet, AllocError> {
    let (low, high) = text.split_once("..").unwrap_or(("", ""));
    let low = low.parse::<i128>().unwrap_or(i128::MAX);
    let high = high.parse::<i128>().unwrap_or(i128::MAX);
    assert!(rt;
        LEAST <= low && low <= GREATEST && LEAST <= high && high <= GREATEST,
        "{text}"
    );
    RangeSet::of(alloc, low, high)
}

// Returns the union of all intervals in this notation.
fn set(rt: &impl Abort, alloc: Global, text: &str) -> Result<RangeSet, AllocError> {
    let mut all = RangeSet::of(alloc, 1, 0)?;
    for word in text.split_ascii_whitespace() {
        let more = interval(rt, alloc, word)?;
        all = all.union(&more)?;
    }
    Ok(all)
}

fn combined(name: &str, left: &RangeSet, right: &RangeSet) -> Result<RangeSet, AllocError> {
    match name {
        " without " => left.minus(right),
        " and " => left.intersect(right),
        _ => left.union(right),
    }
}

// Tests that two sets combine to a third.
fn assert_combined(
    rt: &impl Abort,
    alloc: Global,
    operands: (&str, &str, &str),
    wanted: &str,
) -> Result<(), AllocError> {
    let (left, name, right) = operands;
    let left = set(rt, alloc, left)?;
    let right = set(rt, alloc, right)?;
    let made = combined(name, &left, &right)?;
    let text = written(alloc, &made)?;
    assert_eq!(rt; text.as_str(), wanted, "{name}");
    Ok(())
}

#[test]
fn intersects_and_cuts_out(rt: HostRuntime) -> Result<(), Fail> {
    for (left, name, right, wanted) in [
        ("1..5", " without ", "3..3", "1..2 4..5 "),
        ("1..2 4..5", " and ", "2..9", "2..2 4..5 "),
        ("-3..3", " without ", "-2..2", "-3..-3 3..3 "),
        ("-3..-3 3..3", " without ", "-3..3", ""),
    ] {
        assert_combined(&rt, rt.alloc(), (left, name, right), wanted)?;
    }
    Ok(())
}

// Returns the number nearest to 0, the only one, the least, the greatest, how many there are, and whether -3 and 0 are among them.
fn numbers(alloc: Global, set: &RangeSet) -> Result<String, AllocError> {
    let (nearest, single) = (set.least_abs(), set.is_single());
    let (least, greatest) = (set.least(), set.greatest());
    let (count, empty) = (set.count(), set.is_empty());
    let (minus_three, zero) = (set.contains(-3), set.contains(0));
    format!(in alloc;
        "{nearest:?} {single:?} {least:?} {greatest:?} {count} {empty} {minus_three} {zero}"
    )
}

fn assert_numbers(
    rt: &impl Abort,
    alloc: Global,
    text: &str,
    wanted: &str,
) -> Result<(), AllocError> {
    let set = set(rt, alloc, text)?;
    let copy = set.copy()?;
    let found = numbers(alloc, &copy)?;
    assert_eq!(rt; found.as_str(), wanted, "{text}");
    let again = written(alloc, &copy)?;
    assert_eq!(rt; again.as_str().trim(), text);
    Ok(())
}

#[test]
fn yields_numbers(rt: HostRuntime) -> Result<(), Fail> {
    for (text, wanted) in [
        (
            "-3..-3 3..3",
            "Some(3) None Some(-3) Some(3) 2 false true false",
        ),
        ("-3..3", "Some(0) None Some(-3) Some(3) 7 false true true"),
        ("", "None None None None 0 true false false"),
    ] {
        assert_numbers(&rt, rt.alloc(), text, wanted)?;
    }
    Ok(())
}

#[test]
fn joins_and_counts(rt: HostRuntime) -> Result<(), Fail> {
    for (left, right, wanted) in [
        ("-3..-3", "3..3", "-3..-3 3..3 "),
        ("-3..-3 3..3", "-2..2", "-3..3 "),
    ] {
        assert_combined(&rt, rt.alloc(), (left, " or ", right), wanted)?;
    }
    let all = RangeSet::of(rt.alloc(), LEAST, GREATEST)?;
    assert_eq!(rt; all.count(), (1 << 127) + 1);
    let least = RangeSet::of(rt.alloc(), LEAST, LEAST)?;
    assert_eq!(rt; least.is_single(), Some(LEAST));
    Ok(())
}

#[test]
fn takes_affine_preimages(rt: HostRuntime) -> Result<(), Fail> {
    let within = RangeSet::of(rt.alloc(), -10, 10)?;
    let five_to_nine = RangeSet::of(rt.alloc(), 5, 9)?;
    let rising = affine_preimage(rt.alloc(), 2, 0, 1, &five_to_nine, &within)?;
    let falling = affine_preimage(rt.alloc(), -2, 0, 1, &five_to_nine, &within)?;
    let constant = affine_preimage(rt.alloc(), 0, 0, 7, &five_to_nine, &within)?;
    assert_written(
        &rt,
        rt.alloc(),
        [&rising, &falling, &constant],
        "2..4 , -4..-2 , -10..10 ",
    )?;
    Ok(())
}

#[test]
fn takes_the_steepest_preimage(rt: HostRuntime) -> Result<(), Fail> {
    let ends = RangeSet::of(rt.alloc(), 0, 1)?;
    let all = RangeSet::of(rt.alloc(), LEAST, GREATEST)?;
    let steepest = affine_preimage(rt.alloc(), i128::MIN, 0, GREATEST, &all, &ends)?;
    assert_eq!(rt; steepest.intervals(), ends.intervals());
    Ok(())
}

fn assert_written(
    rt: &impl Abort,
    alloc: Global,
    sets: [&RangeSet; 3],
    wanted: &str,
) -> Result<(), AllocError> {
    let [first, second, third] = sets;
    let first = written(alloc, first)?;
    let second = written(alloc, second)?;
    let third = written(alloc, third)?;
    let text = format!(in alloc; "{first}, {second}, {third}")?;
    assert_eq!(rt; text.as_str(), wanted);
    Ok(())
}
