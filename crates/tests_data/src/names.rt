//! Names and texts with known orders, and copies of them.
use cs_names::{Bytes, Name};
use std::alloc::{AllocError, Global};
use std::cmp::Ordering;
use std::process::Abort;
use std::test::Fail;

fn assert_names(
    rt: &impl Abort,
    alloc: Global,
    texts: (&str, &str),
    order: Ordering,
) -> Result<(), AllocError> {
    let (left, right) = texts;
    let first = Name::from_slice(alloc, left.as_bytes())?;
    let second = Name::from_vec(right.as_bytes().to_vec(alloc)?);
    assert_eq!(rt; first.cmp(&second), order, "{left} and {right}");
    assert!(rt;
        (first == second) == (order == Ordering::Equal),
        "{left} and {right}"
    );
    assert_copied(rt, &second, right)
}

fn assert_copied(rt: &impl Abort, name: &Name, text: &str) -> Result<(), AllocError> {
    let copy = name.copy()?;
    assert!(rt; copy.as_bytes() == text.as_bytes());
    let clone = name.clone()?;
    assert!(rt; clone == *name);
    Ok(())
}

#[test]
fn names_are_ordered_as_their_bytes(rt: HostRuntime) -> Result<(), Fail> {
    for (left, right, order) in [
        ("", "", Ordering::Equal),
        ("", "a", Ordering::Less),
        ("ab", "a", Ordering::Greater),
        ("ab", "b", Ordering::Less),
        ("Z", "a", Ordering::Less),
        ("a_1", "a_1", Ordering::Equal),
    ] {
        assert_names(&rt, rt.alloc(), (left, right), order)?;
    }
    Ok(())
}

#[test]
fn texts_are_ordered_as_their_bytes(rt: HostRuntime) -> Result<(), Fail> {
    let first = Bytes::from_slice(rt.alloc(), b"x = 1\n".as_slice())?;
    let second = Bytes::from_vec(b"x = 2\n".to_vec(rt.alloc())?);
    assert!(rt; first < second && first != second);
    let copy = first.copy()?;
    assert!(rt; copy.as_bytes() == b"x = 1\n".as_slice());
    let clone = second.clone()?;
    assert!(rt; clone == second);
    Ok(())
}
