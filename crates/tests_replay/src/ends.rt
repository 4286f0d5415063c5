//! Outcomes of runs.

use crate::machines::differing;
use std::test::Fail;

/// Words and a file, each with the line of the run's outcome: each kind of fault, the order of checks at one access, budgets, and what an
/// entry returns; what a function without a body writes; data models; inputs.
const ENDS: &str = r#"
replay f: int f(int*p){return *p;} => fault null <input>:1:21
replay f: int f(int*p){return p[0];} => fault null <input>:1:22
replay f: int f(int*p){return p[5];} => fault null <input>:1:22
replay f: struct s{int a;};int f(struct s*p){return p->a;} => fault null <input>:1:44
replay f: int f(int x){return 10/x;} => fault divide <input>:1:23
replay f: int f(int x){return 10%x;} => fault divide <input>:1:23
replay f: int f(void){int x;return x;} => fault unset <input>:1:26
replay f malloc#1=1: int f(void){int*p=malloc(4);return *p;} => fault unset <input>:1:36
replay f: int g(int x){if(x)return 1;}int f(void){return g(0)+1;} => fault unset <input>:1:49
replay f: int f(void){int a[2];a[0]=1;return a[2];} => fault bounds <input>:1:37
replay f x=-1: int f(int x){int a[2];return a[x];} => fault bounds <input>:1:31
replay f malloc#1=1: int f(void){int*p=malloc(6);if(!p)return 1;p[1]=2;return 0;} => fault bounds <input>:1:45
replay f p=1: void f(int*p){free(p);free(p);} => fault double-free <input>:1:27
replay f p=1: int f(int*p){free(p);return *p;} => fault freed <input>:1:29
replay f: void f(void){int x;free(&x);} => fault bad-free <input>:1:24
replay f p=1: void f(int*p){free(p+1);} => fault bad-free <input>:1:19
replay f: int*g(void){int x=1;return &x;}int f(void){int*p=g();return *p;} => fault dead-local <input>:1:61
replay f x=-1: int f(int x){return 1<<x;} => fault shift <input>:1:22
replay f x=32: int f(int x){return 1>>x;} => fault shift <input>:1:22
replay f: long f(void){int a;int b;return &a-&b;} => fault unrelated <input>:1:35
replay f: int f(void){int a;int b;return &a<&b;} => fault unrelated <input>:1:34
replay f: const int t=1;void f(void){int*p=&t;*p=2;} => fault const-write <input>:1:37
replay f: void f(void){char*s="ab";s[0]='x';} => fault const-write <input>:1:27
replay f p=1: int f(int*p){free(p);return p[2000000];} => fault freed <input>:1:30
replay f: int*g(void){int x=1;return &x;}int f(void){int*p=g();return p[7];} => fault dead-local <input>:1:62
replay f: int*g(void){int x=1;return &x;}int f(void){int*p=g();free(p);return 1;} => fault bad-free <input>:1:58
replay f p=1 q=1: struct e{};int f(struct e*p,struct e*q){*p=*q;return 1;} => fault bounds <input>:1:44
replay f: int a[3];int*const p=&a[1000000000000];int f(void){return *p;} => fault bounds <input>:1:59
replay f n=18446744073709551615 m=18446744073709551615 malloc#1=1: int*f(unsigned long n,unsigned long m){int*p=calloc(n,m);return p;} => done null
replay f: const int t=1;void f(void){int*p=&t;p[3]=2;} => fault bounds <input>:1:38
replay f: void f(void){int a[2];free(a+1);} => fault bad-free <input>:1:27
replay f p=1: void f(int*p){free(p);free(p+1);} => fault double-free <input>:1:27
replay f: int f(int x){int y;return y/x;} => fault unset <input>:1:27
replay f: int f(int*p,int x){p[0]=1/x;return 0;} => fault divide <input>:1:26
replay f: int f(int*p,int x){p[1]=1/x;return 0;} => fault null <input>:1:21
replay f n=5: int f(int n){if(n<=0)return 0;return f(n-1);} => over depth <input>:1:39
replay f: int f(void){int i=0;while(i<9)i++;return i;} => over visits <input>:1:21
replay f: int f(void){int i=0;again:i++;if(i<9)goto again;return i;} => over visits <input>:1:21
replay --events 1 f: int f(void){return 1+1+1;} => over events <input>:1:23
replay --visits 9 --events 12 f m=2: int f(int m){int i;i=0;while(i<3)i=i+1;return 10/m;} => done 5
replay --visits 9 --events 11 f m=2: int f(int m){int i;i=0;while(i<3)i=i+1;return 10/m;} => over events <input>:1:49
replay --visits 9 --events 11 f: int f(int m){int i;i=0;while(i<3)i=i+1;return 10/m;} => fault divide <input>:1:49
replay --visits 9 --events 10 f: int f(int m){int i;i=0;while(i<3)i=i+1;return 10/m;} => over events <input>:1:24
replay --visits 3 --events 9 f m=2: int f(int m){int i;i=0;while(i<3)i=i+1;return 10/m;} => over visits <input>:1:24
replay --visits 3 --events 8 f m=2: int f(int m){int i;i=0;while(i<3)i=i+1;return 10/m;} => over events <input>:1:37
replay --events 2 f m=5: int g(int m);int f(int m){return g(m+1);}int g(int m){goto in;while(0){in:return m;}return 0;} => done 6
replay --events 1 f m=5: int g(int m);int f(int m){return g(m+1);}int g(int m){goto in;while(0){in:return m;}return 0;} => over events <input>:1:35
replay f malloc#1=1: int f(void){int*p=malloc(4);free(p);return 1;} => done 1
replay f malloc#1=1: int f(void){int*p=malloc(4);free(p);free(p);return 1;} => fault double-free <input>:1:41
replay f x=3: int f(int x){return 10/x;} => done 3
replay --depth 6 f n=5: int f(int n){if(n<=0)return 0;return f(n-1);} => done 0
replay f: void f(void){free(0);} => done
replay f: int*f(int*p){return p;} => done null
replay f p=7: int*f(int*p){return p;} => done object
replay f: int f(int x){if(x)return 1;} => done unset
replay f call#1.0@0=2: int ext(int*p);int f(void){int a;ext(&a);return 1/a;} => done 0
replay f: int ext(int*p);int f(void){int a;ext(&a);return 1/a;} => fault divide <input>:1:50
replay f: int ext(const int*p);int f(void){int a;ext(&a);return 1/a;} => fault unset <input>:1:57
replay f: unsigned long f(void){return sizeof(char*);} => done 8
replay --model ilp32 f: unsigned long f(void){return sizeof(char*);} => done 4
replay --model=ilp32 f x=2147483647: int f(long x){if(x+1<x)return 1/(x-2147483647);return 0;} => fault divide <input>:1:32
replay f x=2147483647: int f(long x){if(x+1<x)return 1/(x-2147483647);return 0;} => done 0
replay f $g@4=9: int g[2];int f(void){return g[1];} => done 9
replay f p=1 p@8=5: struct s{long a;int b;};int f(struct s*p){return p->b;} => done 5
replay f x=7: int g(int x);int f(int x){return g(x);}int g(int y){return y;} => done 7
replay h x=7: int g(int x);int f(int x);int h(int x){return g(x)+1;}int f(int x){return x/0;}int g(int x){return x*10;}int g(int y); => done 71
replay even n=2: int odd(int n);int even(int n){if(n==0)return 1;return odd(n-1);}int odd(int n){if(n==0)return 0;return even(n-1);} => done 1
replay f call#1=5: int g(int x);int e(void);void free(void*p);int f(int x){free(0);return g(e());}int g(int x){return x+100;} => done 105
replay f x=1 x=2: int f(int x){return x;} => done 2
replay f x=300: int f(char x){return x;} => done 0
"#;

#[test]
fn both_machines_end_these_runs_alike(rt: HostRuntime) -> Result<(), Fail> {
    let found = differing(rt.alloc(), ENDS)?;
    assert_eq!(rt; found.as_str(), "");
    Ok(())
}
