//! The front end's result for whole files: how many parts they have, or which token is refused and why.

use crate::front::{Reported, front, in_words};
use std::alloc::{AllocError, Global};
use std::test::Fail;

/// Files with the front end's result.
const FILES: &str = " => 0 parts
int f(int x){return 1/x;} => 1 parts
typedef int T;T x; => 2 parts
int f(int x){if(x)if(x)x;else x;} => 1 parts
int f(void){T:;T:T:;} => 1 parts
enum{A,B,};int a[]={1,2,}; => 2 parts
struct S{int a;struct S*b;}*p; => 1 parts
int a[sizeof(int*[2])]; => 1 parts
int x; /* a => no tokens
int x => syntax 1:6
; => syntax 1:1
int f(int x){return x} => syntax 1:22
int T;T x; => syntax 1:7
int f(int){} => syntax 1:11
int f(void,int); => 1 parts
int f(int x){else x;} => syntax 1:14
int f(int x){x=;} => syntax 1:16
int f(int x){(int x)1;} => syntax 1:19
int f(int x){x+1=x;} => syntax 1:17
int f(int x){case 1:;} => syntax 1:14
int f(int x){do x;while(x)} => syntax 1:27
float x; => left out float 1:1
int f(int a,...); => left out ... 1:13
int f(int ( => left out ( 1:11
int (*f); => left out ( 1:5
int*const( => left out ( 1:10
struct S( => left out ( 1:9
struct( => syntax 1:7
struct S{int a,( => left out ( 1:16
enum{( => syntax 1:6
enum{A,( => syntax 1:8
int x=(int( => syntax 1:11
int x=sizeof(int)( => syntax 1:18
int f(int[]( => syntax 1:12
int f(void){goto( => syntax 1:17
typedef int T;int f(void){T( => left out ( 1:28
typedef int T;int f(int x){if(x)T( => syntax 1:34
struct S{int a:3;}; => left out : 1:15
int a[2]={[0]=1}; => left out [ 1:11
struct S{int a;}s={.a=1}; => left out . 1:20
int a[2]={1,[1]=1}; => left out [ 1:13
int a,[3]; => syntax 1:7
int f(int x){return f(1,.5);} => syntax 1:25
int x={{. => left out . 1:9
int f(void){static int x;} => left out static 1:13
int f(void){typedef int T;} => left out typedef 1:13
int f(void){struct S{int a;}s;} => left out { 1:21
int x=(int){3}; => left out { 1:12
typedef int T;int x=(T){3}; => left out { 1:24
int T;int x=(T){3}; => syntax 1:16
int f(int x){return sizeof(int){ => left out { 1:32
int f(int x){if(x){}else(x){ => syntax 1:28
int x=sizeof(struct S{ => left out { 1:22";

/// Returns the front end's result for a file, in words.
fn verdict(alloc: Global, file: &str) -> Result<String, AllocError> {
    match front(alloc, file) {
        Reported::NoTokens => String::from_str(alloc, "no tokens"),
        Reported::Refused(refusal) => in_words(alloc, &refusal),
        Reported::File(tree) => {
            let count = tree.externals.len();
            format!(in alloc; "{count} parts")
        }
    }
}

/// Returns those files of a table of files and results for which the result differs, with the actual one.
fn judged_otherwise(alloc: Global, table: &str) -> Result<String, AllocError> {
    let mut found = String::new(alloc);
    for row in table.lines() {
        let (file, expected) = row.split_once(" => ").unwrap_or((row, "no row"));
        let said = verdict(alloc, file)?;
        if said.as_str() != expected {
            let reported = format!(in alloc; "{file} gives {said}")?;
            found.push_str(reported.as_str())?;
        }
    }
    Ok(found)
}

#[test]
fn parses_files_or_yields_the_first_refused_token(rt: HostRuntime) -> Result<(), Fail> {
    let found = judged_otherwise(rt.alloc(), FILES)?;
    assert_eq!(rt; found.as_str(), "");
    Ok(())
}
