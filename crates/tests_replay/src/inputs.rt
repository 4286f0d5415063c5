//! Paths printed and ordered, inputs set and read, with enough memory.
use cs_inputs::{Cells, Inputs, Path, Root, parse, print};
use cs_names::Name;
use std::alloc::{AllocError, Global};
use std::cmp::Ordering;
use std::process::Abort;
use std::test::Fail;

fn path(alloc: Global, root: Root, offsets: &[u64]) -> Result<Path, AllocError> {
    let mut cells = Cells::new(alloc);
    for offset in offsets {
        cells.push(*offset)?;
    }
    Ok(Path { root, cells })
}

fn parameter(alloc: Global, name: &str) -> Result<Root, AllocError> {
    Ok(Root::Param(Name::from_slice(alloc, name.as_bytes())?))
}

fn assert_printed(
    rt: &impl Abort,
    alloc: Global,
    path: &Path,
    wanted: &str,
) -> Result<(), AllocError> {
    let text = print(alloc, path)?;
    assert!(rt; text.as_bytes() == wanted.as_bytes(), "{wanted}");
    Ok(())
}

fn assert_root(
    rt: &impl Abort,
    alloc: Global,
    root: Root,
    offsets: &[u64],
    wanted: &str,
) -> Result<(), AllocError> {
    let path = path(alloc, root, offsets)?;
    assert_printed(rt, alloc, &path, wanted)
}

#[test]
fn prints_each_kind_of_root(rt: HostRuntime) -> Result<(), Fail> {
    let alloc = rt.alloc();
    let global = Root::Global(Name::from_slice(alloc, b"g")?);
    assert_root(&rt, alloc, global, &[0], "$g@0")?;
    assert_root(&rt, alloc, parameter(alloc, "p")?, &[8, 0], "p@8@0")?;
    assert_root(&rt, alloc, Root::Call(1), &[4], "call#1@4")?;
    assert_root(&rt, alloc, Root::Wrote(1, 0), &[0], "call#1.0@0")?;
    assert_root(&rt, alloc, Root::Malloc(2), &[], "malloc#2")?;
    Ok(())
}

// Returns inputs for the first path and for the third, which is set twice.
fn filled(alloc: Global, first: &Path, third: &Path) -> Result<Inputs, AllocError> {
    let mut inputs = Inputs::new(alloc);
    inputs.set(third.copy()?, 3)?;
    inputs.set(first.copy()?, 1)?;
    inputs.set(third.copy()?, -7)?;
    Ok(inputs)
}

fn assert_order(
    rt: &impl Abort,
    alloc: Global,
    paths: (&Path, &Path, &Path),
) -> Result<(), AllocError> {
    let (first, second, third) = paths;
    assert!(rt; first.order(second) == Ordering::Less);
    assert!(rt; third.order(second) == Ordering::Greater);
    let inputs = filled(alloc, first, third)?;
    assert!(rt; inputs.get(first) == 1 && inputs.get(second) == 0 && inputs.get(third) == -7);
    assert_eq!(rt; inputs.list().len(), 2);
    assert!(rt; inputs.list()[0].0 == *first && inputs.list()[1].0 == *third);
    Ok(())
}

#[test]
fn inputs_stand_in_the_order_of_their_paths(rt: HostRuntime) -> Result<(), Fail> {
    let alloc = rt.alloc();
    let third = path(alloc, Root::Call(2), &[])?;
    let first = path(alloc, parameter(alloc, "a")?, &[])?;
    let second = path(alloc, parameter(alloc, "a")?, &[4])?;
    assert_order(&rt, alloc, (&first, &second, &third))?;
    Ok(())
}

fn assert_read(rt: &impl Abort, alloc: Global, text: &str, number: i128) -> Result<(), Fail> {
    let (path, read) = parse(alloc, text.as_bytes())?;
    assert_eq!(rt; read, number, "{text}");
    let printed = text.split_once('=').map(|(printed, _number)| printed);
    assert_printed(rt, alloc, &path, printed.unwrap_or("no path"))?;
    Ok(())
}

#[test]
fn reads_inputs_from_their_text(rt: HostRuntime) -> Result<(), Fail> {
    for (text, number) in [
        ("p@8@0=-1", -1),
        ("int=007", 7),
        ("call=-0", 0),
        ("$g@0=18446744073709551615", 18_446_744_073_709_551_615),
        (
            "call#18446744073709551615=-9223372036854775808",
            -9_223_372_036_854_775_808,
        ),
        ("call#1@4=000000000000000000000000000000000000001", 1),
        ("call#2.400000@18446744073709551615=3", 3),
        ("call#1.0@0@16=4", 4),
        ("malloc#2=1", 1),
    ] {
        assert_read(&rt, rt.alloc(), text, number)?;
    }
    Ok(())
}

/// Texts that aren't inputs, and why.
const REFUSED: &str = " => BadPath
=1 => BadPath
p => BadPath
p@8 => BadPath
1p=1 => BadPath
 p=1 => BadPath
p@=1 => BadPath
p@08=1 => BadPath
p@+8=1 => BadPath
p@-8=1 => BadPath
p@18446744073709551616=1 => BadPath
p@@0=1 => BadPath
$g=1 => BadPath
$@0=1 => BadPath
$1@0=1 => BadPath
$call#1@0=1 => BadPath
call#0=1 => BadPath
call#01=1 => BadPath
call#=1 => BadPath
call#1.=1 => BadPath
call#1.0=1 => BadPath
call#1.00@0=1 => BadPath
call#1.400001@0=1 => BadPath
call#1.0.0@0=1 => BadPath
malloc#0=1 => BadPath
malloc#1@0=1 => BadPath
malloc#1.0@0=1 => BadPath
p$=x => BadPath
p= => BadNumber
p=- => BadNumber
p=+1 => BadNumber
p=--1 => BadNumber
p= 1 => BadNumber
p=1  => BadNumber
p=0x1 => BadNumber
p=q=1 => BadNumber
p=0000000000000000000000000000000000000001 => BadNumber
p=18446744073709551616 => TooWide
p=-9223372036854775809 => TooWide
p=-18446744073709551616 => TooWide
p=999999999999999999999999999999999999999 => TooWide";

// Returns why a text isn't an input.
fn refusal(alloc: Global, text: &str) -> Result<String, AllocError> {
    match parse(alloc, text.as_bytes()) {
        Ok(_) => String::from_str(alloc, "an input"),
        Err(refusal) => format!(in alloc; "{refusal:?}"),
    }
}

// Returns those texts of a table of texts and refusals that aren't refused for the stated reason.
fn refused_otherwise(alloc: Global, table: &str) -> Result<String, AllocError> {
    let mut found = String::new(alloc);
    for row in table.lines() {
        let (text, wanted) = row.split_once(" => ").unwrap_or((row, ""));
        let refusal = refusal(alloc, text)?;
        if refusal.as_str() != wanted {
            found.push_str(text)?;
            found.push('\n')?;
        }
    }
    Ok(found)
}

#[test]
fn refuses_what_is_no_input(rt: HostRuntime) -> Result<(), Fail> {
    let found = refused_otherwise(rt.alloc(), REFUSED)?;
    assert_eq!(rt; found.as_str(), "");
    Ok(())
}
