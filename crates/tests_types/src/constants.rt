//! Constant expressions with their types and values according to gcc (`data/gcc.py`).

use crate::said::{Question, said_otherwise};
use cs_types::DataModel;
use std::test::Fail;

/// Operators under `gcc -m64`.
const OPERATORS: &str = r#"
7/2 => int 3
-7/2 => int -3
-7%2 => int -1
10%3u => unsigned int 1
-1/2u => unsigned int 2147483647
1-2u => unsigned int 4294967295
0u-1 => unsigned int 4294967295
4294967295u+2 => unsigned int 1
65535*65537u => unsigned int 4294967295
-2147483647-1 => int -2147483648
2147483647 => int 2147483647
2147483648 => long 2147483648
9223372036854775807 => long 9223372036854775807
0x7fffffff => int 2147483647
0x80000000 => unsigned int 2147483648
0xffffffffffffffff => unsigned long 18446744073709551615
4294967295u => unsigned int 4294967295
4294967296u => unsigned long 4294967296
1l => long 1
1ul => unsigned long 1
1ll => long long 1
1ull => unsigned long long 1
010 => int 8
0x10 => int 16
1u<<31 => unsigned int 2147483648
1<<30 => int 1073741824
1l<<30 => long 1073741824
1ull<<63 => unsigned long long 9223372036854775808
5>>1 => int 2
-5>>1 => int -3
1u>>31 => unsigned int 0
1<<3>>1 => int 4
1<2 => int 1
-1<0u => int 0
-1l<0u => int 1
2>=3 => int 0
1==1u => int 1
1!=1 => int 0
3<2<1 => int 1
1==2==0 => int 1
12^10u => unsigned int 6
3|4 => int 7
6&3 => int 2
7&~2 => int 5
1|2^3 => int 1
~0 => int -1
~0u => unsigned int 4294967295
!5 => int 0
!0 => int 1
- -1 => int 1
+'a' => int 97
-'a' => int -97
'a' => int 97
'\377' => int -1
0&&1/0 => int 0
1||1/0 => int 1
0||0 => int 0
1&&2 => int 1
1?2:1/0 => int 2
0?1/0:3 => int 3
1?2:3u => unsigned int 2
1?-1:0u => unsigned int 4294967295
1?'a':2ll => long long 97
"#;

/// Casts, sizes, names and orders of operators under `gcc -m64`.
const CASTS: &str = r#"
(char)300 => char 44
(signed char)200 => signed char -56
(unsigned char)-1 => unsigned char 255
(short)65535 => short -1
(unsigned short)70000 => unsigned short 4464
(int)2147483648u => int -2147483648
(unsigned)-1 => unsigned int 4294967295
(long)-1 => long -1
(unsigned long long)-1 => unsigned long long 18446744073709551615
(T)7 => int 7
1l+1u => long 2
1ul+1ll => unsigned long long 2
K => int 5
K+1 => int 6
sizeof(char) => unsigned long 1
sizeof(int) => unsigned long 4
sizeof(long) => unsigned long 8
sizeof(int*) => unsigned long 8
sizeof(int[3]) => unsigned long 12
sizeof(struct S) => unsigned long 8
sizeof(struct B) => unsigned long 20000
sizeof i => unsigned long 4
sizeof a => unsigned long 12
sizeof m[0] => unsigned long 12
sizeof(c+c) => unsigned long 4
sizeof "abc" => unsigned long 4
sizeof 'a' => unsigned long 4
sizeof(sizeof 1) => unsigned long 8
sizeof(c=300) => unsigned long 1
sizeof f(1) => unsigned long 4
sizeof(int)-5 => unsigned long 18446744073709551615
1+2*3 => int 7
(1+2)*3 => int 9
100-10-1 => int 89
6/4*4 => int 4
0x1ful&0xf0 => unsigned long 16
(1>2)+(3>2) => int 1
"#;

/// Those with another type or value under `gcc -m32`.
const ILP32: &str = r#"
2147483648 => long long 2147483648
9223372036854775807 => long long 9223372036854775807
0xffffffffffffffff => unsigned long long 18446744073709551615
4294967296u => unsigned long long 4294967296
-1l<0u => int 0
1l+1u => unsigned long 2
1ul+1ll => long long 2
sizeof(char) => unsigned int 1
sizeof(int) => unsigned int 4
sizeof(long) => unsigned int 4
sizeof(int*) => unsigned int 4
sizeof(int[3]) => unsigned int 12
sizeof(struct S) => unsigned int 8
sizeof(struct B) => unsigned int 20000
sizeof i => unsigned int 4
sizeof a => unsigned int 12
sizeof m[0] => unsigned int 12
sizeof(c+c) => unsigned int 4
sizeof "abc" => unsigned int 4
sizeof 'a' => unsigned int 4
sizeof(sizeof 1) => unsigned int 4
sizeof(c=300) => unsigned int 1
sizeof f(1) => unsigned int 4
sizeof(int)-5 => unsigned int 4294967295
"#;

#[test]
fn operators_have_gccs_types_and_values(rt: HostRuntime) -> Result<(), Fail> {
    let found = said_otherwise(rt.alloc(), DataModel::Lp64, Question::Constant, OPERATORS)?;
    assert_eq!(rt; found.as_str(), "");
    Ok(())
}

#[test]
fn casts_have_gccs_types_and_values(rt: HostRuntime) -> Result<(), Fail> {
    let found = said_otherwise(rt.alloc(), DataModel::Lp64, Question::Constant, CASTS)?;
    assert_eq!(rt; found.as_str(), "");
    Ok(())
}

#[test]
fn constants_of_32_bits_have_gccs_types_and_values(rt: HostRuntime) -> Result<(), Fail> {
    let found = said_otherwise(rt.alloc(), DataModel::Ilp32, Question::Constant, ILP32)?;
    assert_eq!(rt; found.as_str(), "");
    Ok(())
}
