//! Expressions with the types of their values according to gcc (`data/gcc.py`).

use crate::said::{Question, said_otherwise};
use cs_types::DataModel;
use std::test::Fail;

/// Under `gcc -m64`.
const LP64: &str = r#"
i => int
c => char
+c => int
c+c => int
h+i => int
i+u => unsigned int
u+l => long
l+w => unsigned long
w+o => unsigned long long
u*h => unsigned int
u<<l => unsigned int
c<<u => int
-h => int
~u => unsigned int
!p => int
i<u => int
p==v => int
p-p => long
a => int *
m => int (*)[3]
*m => int *
m[1] => int *
m[1][2] => int
2[a] => int
&a => int (*)[3]
&i => int *
&a[1] => int *
*p => int
*t => struct S
t->c => char
t->a => int
s => struct S
s.c => char
&s.c => char *
(*t).a => int
d->a => int *
b.a => int *
&b.a => int (*)[5000]
i=c => int
c=i => char
c+=1 => char
c<<=1 => char
c++ => char
--h => short
p++ => int *
p+=1 => int *
p+1 => int *
1+p => int *
p-1 => int *
i,c => char
1?c:h => int
i?p:0 => int *
i?v:p => void *
i?s:*t => struct S
i?i:u => unsigned int
p=0 => int *
v=p => void *
f(1) => int
(char)i => char
(long)c => long
(void*)t => void *
(void*)0 => void *
K => int
'a' => int
"ab" => char *
"ab"[1] => char
*"ab" => char
sizeof a => unsigned long
&*p => int *
(p) => int *
i&&p => int
i||u => int
"#;

/// Those with another type under `gcc -m32`.
const ILP32: &str = r#"
u+l => unsigned long
w+o => long long
p-p => int
sizeof a => unsigned int
"#;

#[test]
fn values_have_gccs_types(rt: HostRuntime) -> Result<(), Fail> {
    let found = said_otherwise(rt.alloc(), DataModel::Lp64, Question::Type, LP64)?;
    assert_eq!(rt; found.as_str(), "");
    let found = said_otherwise(rt.alloc(), DataModel::Ilp32, Question::Type, ILP32)?;
    assert_eq!(rt; found.as_str(), "");
    Ok(())
}
