//! Whole findings.

use crate::guessed::GUESSED;
use crate::witnessed::witnessed;
use crate::wrong::WRONG;
use std::alloc::{AllocError, Global};
use std::str;
use std::test::Fail;

// Adds a file with the witness's text for its suspects, if that isn't the wanted text.
fn add_if_otherwise(
    alloc: Global,
    found: &mut String,
    row: (&str, &str),
    wanted: &str,
) -> Result<(), AllocError> {
    let (file, suspects) = row;
    let said = witnessed(alloc, file, suspects)?;
    let said = str::from_utf8(said.as_slice()).unwrap_or("no text");
    if said.strip_suffix('\n') == Some(wanted) {
        return Ok(());
    }
    found.push_str(file)?;
    found.push_str("\n")?;
    found.push_str(said)
}

// Returns those rows of a table of files, suspects and texts for which the witness's text differs, with that text.
fn differing(alloc: Global, table: &str) -> Result<String, AllocError> {
    let mut found = String::new(alloc);
    for row in table.split("\n\n") {
        let (file, rest) = row.split_once('\n').unwrap_or((row, ""));
        let (suspects, text) = rest.split_once("\n--\n").unwrap_or((rest, "no text"));
        add_if_otherwise(alloc, &mut found, (file, suspects), text)?;
    }
    Ok(found)
}

const FINDINGS: &str = "int f(int x){return 10/x;}
divide 1:23 0 x=0
--
complete dropped 0
report divide <input>:1:23 confirmed
  input x = 0

int f(int x){return 10/x;}
divide 1:23 0 a=1 x=0
--
complete dropped 0
report divide <input>:1:23 confirmed
  input x = 0

int f(int z,int x,int y){if(z==4){if(x*y==7){if(x==2)return 1/0;}}return 0;}
divide 1:62 7 y=0 z=4 x=2 a=1 guess 3 7 x=-2147483648..2147483647 y=-2147483648..2147483647
--
complete dropped 0
report divide <input>:1:62 assumed
  input x = 2
  input y = 0
  input z = 4
  guess 3 = 7 at <input>:1:39
    other 1 x = -2147483648
    other 1 y = -2147483648
    other 1 z = 4

int f(int x,int y){if(x<y){if(y<x)return 1/0;}return 0;}
divide 1:43 4 x=0 y=0 guess 1 1 x=-2147483648..2147483647 y=-2147483648..2147483647 guess 3 1 y=-2147483648..2147483647 x=-2147483648..2147483647
--
complete dropped 0
report divide <input>:1:43 assumed
  input x = 0
  input y = 0
  guess 1 = 1 at <input>:1:24
    other 1 x = -2147483648
    other 1 y = -2147483648
    other 2 x = -2147483648
    other 2 y = 2147483647
  guess 3 = 1 at <input>:1:32
    other 1 x = -2147483648
    other 1 y = -2147483648
    other 1 guess 1 = 1
    other 2 x = 2147483647
    other 2 y = -2147483648
    other 2 guess 1 = 1

int f(int x,int y){if(x*y==7)return 1/(x-1);return 0;}
divide 1:38 4 x=1 y=0 guess 1 7 x=-2147483648..2147483647 y=-2147483648..2147483647
--
complete dropped 0
report divide <input>:1:38 confirmed
  input x = 1
  input y = 7";

#[test]
fn findings_are_whole(rt: HostRuntime) -> Result<(), Fail> {
    let found = differing(rt.alloc(), FINDINGS)?;
    assert_eq!(rt; found.as_str(), "");
    Ok(())
}

#[test]
fn guesses_of_each_kind_keep_their_grounds(rt: HostRuntime) -> Result<(), Fail> {
    let found = differing(rt.alloc(), GUESSED)?;
    assert_eq!(rt; found.as_str(), "");
    Ok(())
}

// Returns those rows of a table of files and lines of suspects for which not all suspects are dropped, with the witness's text.
fn taken(alloc: Global, table: &str) -> Result<String, AllocError> {
    let mut found = String::new(alloc);
    for row in table.split("\n\n") {
        let (file, suspects) = row.split_once('\n').unwrap_or((row, ""));
        let count = suspects.lines().count();
        let text = format!(in alloc; "complete dropped {count}")?;
        add_if_otherwise(alloc, &mut found, (file, suspects), &text)?;
    }
    Ok(found)
}

#[test]
fn wrong_suspects_are_dropped(rt: HostRuntime) -> Result<(), Fail> {
    let found = taken(rt.alloc(), WRONG)?;
    assert_eq!(rt; found.as_str(), "");
    Ok(())
}
