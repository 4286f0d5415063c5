//! The order of a program's functions.

use cs_ast::typed::program::Function;
use cs_program::program_of;
use cs_types::DataModel;
use std::alloc::{AllocError, Global};
use std::str;
use std::test::Fail;

/// Files with the names of their functions: each is where it is defined, or else where it is first declared.
const ORDERED: &str = "int f(int x){return x;}int g(int y){return y;} => f g
int g(int x);int f(int x){return g(x);}int g(int y){return y;} => f g
int g(int x);int f(int x){return g(x);} => g f
int f(int x);int g(int x);int f(int x);int h(int x);int g(int x); => f g h
int h(int x);int a(int x);int g(int x);int f(int x){return x;}int b(int x);int g(int x){return x;}int f(int x);int h(int x){return x;} => a f b g h
void*malloc(unsigned long n);int f(int x){return x;}void free(void*p); => f
int x;typedef int t;struct s{int a;}; => ";

/// Returns the names of functions, with a space between them.
fn names_of(alloc: Global, functions: &[Function]) -> Result<String, AllocError> {
    let mut names = String::new(alloc);
    for function in functions {
        if !names.is_empty() {
            names.push_str(" ")?;
        }
        names.push_str(str::from_utf8(function.name.as_bytes()).unwrap_or("?"))?;
    }
    Ok(names)
}

/// Returns the names of a file's functions, or words if it is refused.
fn names(alloc: Global, file: &str) -> Result<String, AllocError> {
    match program_of(alloc, DataModel::Lp64, file.as_bytes()) {
        Ok(found) => names_of(alloc, &found.program.functions),
        Err(_) => String::from_str(alloc, "no program"),
    }
}

/// Returns those files of a table of files and names whose functions differ, with the actual ones.
fn ordered_otherwise(alloc: Global, table: &str) -> Result<String, AllocError> {
    let mut found = String::new(alloc);
    for row in table.lines() {
        let (file, expected) = row.split_once(" => ").unwrap_or((row, "no row"));
        let names = names(alloc, file)?;
        if names.as_str() != expected {
            let reported = format!(in alloc; "{file} gives {names}")?;
            found.push_str(reported.as_str())?;
        }
    }
    Ok(found)
}

#[test]
fn functions_stand_in_the_order_of_their_definitions(rt: HostRuntime) -> Result<(), Fail> {
    let found = ordered_otherwise(rt.alloc(), ORDERED)?;
    assert_eq!(rt; found.as_str(), "");
    Ok(())
}
