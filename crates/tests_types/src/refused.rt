//! Expressions that are refused, each with its code and position, and similar ones that are accepted.

use crate::said::{Question, said_otherwise};
use cs_types::DataModel;
use std::test::Fail;

/// Expressions that would be evaluated in a run.
const TYPES: &str = r#"
z => code 1 at 1
i => int
sizeof(struct Q) => code 1 at 15
sizeof(struct S) => unsigned long
n->a => code 1 at 4
t->a => int
sizeof(enum S) => code 2 at 13
sizeof(enum E) => unsigned long
sizeof(struct E) => code 2 at 15
1=i => code 3 at 2
i=1 => int
a=a => code 3 at 2
s=s => struct S
&1 => code 3 at 1
&i => int *
f(1)++ => code 3 at 5
i++ => int
p+p => code 4 at 2
p-p => long
p==q => code 4 at 2
p==v => int
s+1 => code 4 at 2
i+1 => int
*i => code 4 at 1
*p => int
i(1) => code 4 at 2
(struct S)s => code 4 at 1
(void)s => void
i?s:1 => code 4 at 2
i?s:*t => struct S
f() => code 5 at 2
f(1,2) => code 5 at 2
f(1) => int
*v => code 6 at 1
v+1 => code 6 at 2
p+1 => int *
sizeof(struct N) => code 6 at 1
sizeof(int[0]) => code 7 at 1
sizeof(int[1]) => unsigned long
sizeof(int[65537]) => code 7 at 1
sizeof(int[65536]) => unsigned long
sizeof(int[65536][5]) => code 7 at 1
sizeof(int[65536][4]) => unsigned long
malloc(4) => code 8 at 7
p=malloc(4) => int *
i=malloc(4) => code 8 at 9
(int*)calloc(4,4) => int *
p=q => code 9 at 2
p=v => code 9 at 2
v=p => void *
p=1 => code 9 at 2
p=0 => int *
i=p => code 9 at 2
(int)p => code 9 at 1
(char*)p => code 9 at 1
(char*)v => code 9 at 1
(void*)q => void *
free(i) => code 9 at 5
free(p) => void
s.x => code 12 at 3
s.a => int
t->x => code 12 at 4
f => code 14 at 1
(f)(1) => int
&f => code 14 at 2
g()+1 => code 16 at 2
f(1)+1 => int
f(g()) => code 16 at 4
g() => void
b=b => code 18 at 2
*t=s => struct S
"#;

/// Constant expressions.
const CONSTANTS: &str = r#"
1/0 => code 15 at 2
1/1 => int 1
i => code 15 at 1
sizeof i => unsigned long 4
2147483647+1 => code 15 at 11
2147483647u+1 => unsigned int 2147483648
-2147483647-2 => code 15 at 12
1<<32 => code 15 at 2
1<<31 => code 15 at 2
1<<30 => int 1073741824
1u>>32 => code 15 at 3
1u>>31 => unsigned int 0
1<<-1 => code 15 at 2
(1,2) => code 15 at 3
(2) => int 2
5%0 => code 15 at 2
1?1/0:2 => code 15 at 4
0?1/0:2 => int 2
1&&1/0 => code 15 at 5
0&&1/0 => int 0
0&&i => code 15 at 4
i+1/0 => code 15 at 1
(void*)0 => code 15 at 1
f(1) => code 15 at 2
1+f(1) => code 15 at 4
"#;

#[test]
fn the_first_fault_is_reported_with_its_place(rt: HostRuntime) -> Result<(), Fail> {
    let found = said_otherwise(rt.alloc(), DataModel::Lp64, Question::Type, TYPES)?;
    assert_eq!(rt; found.as_str(), "");
    Ok(())
}

#[test]
fn the_first_fault_in_a_constant_is_reported_with_its_place(rt: HostRuntime) -> Result<(), Fail> {
    let found = said_otherwise(rt.alloc(), DataModel::Lp64, Question::Constant, CONSTANTS)?;
    assert_eq!(rt; found.as_str(), "");
    Ok(())
}
