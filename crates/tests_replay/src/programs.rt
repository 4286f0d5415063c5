//! Programs that were run with gcc.

use crate::machines::differing;
use std::test::Fail;

/// Words and a file, whose function returns what it does with gcc 12 (-fwrapv, `data/gcc.py`): integer types, updates,
/// arrays, pointers, structs, statements, jumps, calls, constant objects, the heap.
const PROGRAMS: &str = r#"
replay --visits 1000 --events 100000 --depth 60 f: int f(void){signed char c=127;c=c+1;return c;} => done -128
replay --visits 1000 --events 100000 --depth 60 f: int f(void){char c=300;return c;} => done 44
replay --visits 1000 --events 100000 --depth 60 f: int f(void){unsigned char c=255;c++;return c;} => done 0
replay --visits 1000 --events 100000 --depth 60 f: int f(void){short s=32767;s+=2;return s;} => done -32767
replay --visits 1000 --events 100000 --depth 60 f: int f(void){unsigned short s=1;s=s<<15;s=s<<1;return s;} => done 0
replay --visits 1000 --events 100000 --depth 60 f: int f(void){int x=2147483647;x=x+1;return x;} => done -2147483648
replay --visits 1000 --events 100000 --depth 60 f: unsigned f(void){unsigned x=0;x=x-1;return x;} => done 4294967295
replay --visits 1000 --events 100000 --depth 60 f: long f(void){long x=9223372036854775807;x=x+1;return x;} => done -9223372036854775808
replay --visits 1000 --events 100000 --depth 60 f: unsigned long f(void){unsigned long x=6364136223846793005u;return x*x+1;} => done 7520897724310334954
replay --visits 1000 --events 100000 --depth 60 f: long long f(void){long long x=-5;return x/2*10+x%2;} => done -21
replay --visits 1000 --events 100000 --depth 60 f: unsigned long long f(void){unsigned long long x=0;return ~x;} => done 18446744073709551615
replay --visits 1000 --events 100000 --depth 60 f: int f(void){int a=-1;unsigned b=1;return (a<b)*2+(a<(long)b);} => done 1
replay --visits 1000 --events 100000 --depth 60 f: int f(void){unsigned char a=200;unsigned char b=100;return a+b;} => done 300
replay --visits 1000 --events 100000 --depth 60 f: int f(void){int x=-17;return x>>2;} => done -5
replay --visits 1000 --events 100000 --depth 60 f: int f(void){int x=1;return x<<31;} => done -2147483648
replay --visits 1000 --events 100000 --depth 60 f: int f(void){int a=-7;int b=2;return a/b*100+a%b;} => done -301
replay --visits 1000 --events 100000 --depth 60 f: int f(void){int a=-2147483647-1;unsigned b=3;return a/(int)b;} => done -715827882
replay --visits 1000 --events 100000 --depth 60 f: unsigned f(void){unsigned a=4294967290u;return a/7*10+a%7;} => done 1840700259
replay --visits 1000 --events 100000 --depth 60 f: int f(void){int a=0x5a5a;int b=0x0ff0;return (a&b)*3+(a|b)*2+(a^b)+~a;} => done 55859
replay --visits 1000 --events 100000 --depth 60 f: int f(void){unsigned short s=5;return ~s;} => done -6
replay --visits 1000 --events 100000 --depth 60 f: long f(void){return 'A'+'\xff'+010+0x10+2147483648;} => done 2147483736
replay --visits 1000 --events 100000 --depth 60 f: int f(void){int a=3;int b=0;return (!a)+(!b)*2+(a&&b)*4+(a||b)*8+(a&&!b)*16;} => done 26
replay --visits 1000 --events 100000 --depth 60 f: int f(void){int a;int b;b=(a=3,a+4);return a*10+b;} => done 37
replay --visits 1000 --events 100000 --depth 60 f: int f(void){int a=5;return (a>3?a<6?1:2:3)*10+(a?7:8);} => done 17
replay --visits 1000 --events 100000 --depth 60 f: int f(void){int a=0;int b=0;b=a&&(b=5);return b*10+(a||(a=2))+a;} => done 3
replay --visits 1000 --events 100000 --depth 60 f: int f(void){int a=5;int b=a++;int c=++a;int d=a--;return a*1000+b*100+c*10+d;} => done 6577
replay --visits 1000 --events 100000 --depth 60 f: int f(void){int a=100;a-=7;a*=3;a/=4;a%=50;a<<=3;a>>=1;a|=5;a&=0x3f;a^=9;return a;} => done 4
replay --visits 1000 --events 100000 --depth 60 f: int f(void){char c=100;c*=3;c-=1;return c;} => done 43
replay --visits 1000 --events 100000 --depth 60 f: int f(void){int a=-5;a/=2u;return a;} => done 2147483645
replay --visits 1000 --events 100000 --depth 60 f: int f(void){int a;char c;a=(c=300);return a;} => done 44
replay --visits 1000 --events 100000 --depth 60 f: int f(void){int a[5]={1,2,3,4,5};int s=0;int i;for(i=0;i<5;i++)s+=a[i];return s;} => done 15
replay --visits 1000 --events 100000 --depth 60 f: int f(void){int a[6]={7,8};return a[0]*100+a[1]*10+a[5];} => done 780
replay --visits 1000 --events 100000 --depth 60 f: int f(void){int a[2][3]={{1,2,3},{4,5,6}};return a[1][2]*10+a[0][1];} => done 62
replay --visits 1000 --events 100000 --depth 60 f: int f(void){int a[4]={5,6,7,8};int*p=a;int s=0;while(p<a+4)s=s*10+*p++;return s;} => done 5678
replay --visits 1000 --events 100000 --depth 60 f: long f(void){int a[10];int*p=&a[7];int*q=a+2;return (p-q)*10+(q-p);} => done 45
replay --visits 1000 --events 100000 --depth 60 f: int f(void){int a[3]={1,2,3};int*p=a+2;return p[-1]*10+*(p-2);} => done 21
replay --visits 1000 --events 100000 --depth 60 f: int f(void){int a[3]={4,5,6};return 2[a]*10+(a+1)[0];} => done 65
replay --visits 1000 --events 100000 --depth 60 f: int f(void){int x=3;int*p=&x;int**q=&p;**q=9;return x+*p;} => done 18
replay --visits 1000 --events 100000 --depth 60 f: void swap(int*a,int*b){int t=*a;*a=*b;*b=t;}int f(void){int x=3;int y=8;swap(&x,&y);return x*10+y;} => done 83
replay --visits 1000 --events 100000 --depth 60 f: int f(void){char*s="hello";int n=0;while(s[n])n++;return n;} => done 5
replay --visits 1000 --events 100000 --depth 60 f: int f(void){char s[]="ab\n";return s[0]*10000+s[2]*100+sizeof(s);} => done 971004
replay --visits 1000 --events 100000 --depth 60 f: int f(void){int x=7;int*q=&x;void*p=q;return (p==&x)*10+(p!=0);} => done 11
replay --visits 1000 --events 100000 --depth 60 f: int f(void){int x=1;int y=2;int*a[2];a[0]=&y;a[1]=&x;return *a[0]*10+*a[1];} => done 21
replay --visits 1000 --events 100000 --depth 60 f: struct s{char a;int b;short c;};int f(void){struct s x;x.a=1;x.b=2;x.c=3;return x.a*100+x.b*10+x.c+sizeof(struct s)*1000;} => done 12123
replay --visits 1000 --events 100000 --depth 60 f: struct s{int a;int b[2];};int f(void){struct s x={1,{2,3}};struct s y=x;y.b[1]=9;x=y;return x.a*100+x.b[0]*10+x.b[1];} => done 129
replay --visits 1000 --events 100000 --depth 60 f: struct s{int a;struct s*n;};int f(void){struct s x;struct s y;x.a=1;x.n=&y;y.a=2;y.n=0;return x.n->a*10+(x.n->n==0);} => done 21
replay --visits 1000 --events 100000 --depth 60 f: struct p{int x;int y;};struct r{struct p a;struct p b;};int f(void){struct r r={{1,2},{3,4}};return r.a.x*1000+r.a.y*100+r.b.x*10+r.b.y;} => done 1234
replay --visits 1000 --events 100000 --depth 60 f: struct p{int x;int y;};int f(void){struct p a[2]={{1,2},{3,4}};struct p*q=a;q++;return q->x*10+(q-1)->y;} => done 32
replay --visits 1000 --events 100000 --depth 60 f: struct s{int a;int b;int c;};int f(void){struct s x={5};return x.a*100+x.b*10+x.c;} => done 500
replay --visits 1000 --events 100000 --depth 60 f: enum e{A,B=5,C};int f(void){enum e x=C;return x*100+B*10+A;} => done 650
replay --visits 1000 --events 100000 --depth 60 f: int f(void){int i=0;while(1){if(i==7)break;i++;}return i;} => done 7
replay --visits 1000 --events 100000 --depth 60 f: int f(void){int s=0;int i;for(i=0;i<10;i++){if(i%3==0)continue;s+=i;}return s;} => done 27
replay --visits 1000 --events 100000 --depth 60 f: int f(void){int i=10;do i++;while(i<5);return i;} => done 11
replay --visits 1000 --events 100000 --depth 60 f: int f(void){int s=0;int i;int j;for(i=0;i<4;i++)for(j=0;j<4;j++){if(j>i)break;s+=i*j;}return s;} => done 25
replay --visits 1000 --events 100000 --depth 60 f: int g(int x){int s=0;switch(x){case 1:s+=1;case 2:s+=2;break;case 3:s+=4;default:s+=8;}return s;}int f(void){return g(1)*1000+g(2)*100+g(3)*10+g(9);} => done 3328
replay --visits 1000 --events 100000 --depth 60 f: int g(int x){switch(x){default:return 9;case -1:return 1;case 5:return 2;}}int f(void){return g(-1)*100+g(5)*10+g(0);} => done 129
replay --visits 1000 --events 100000 --depth 60 f: int f(void){int s=0;int i;for(i=0;i<6;i++)switch(i%3){case 0:continue;case 1:s+=10;break;default:s+=1;}return s;} => done 22
replay --visits 1000 --events 100000 --depth 60 f: int f(void){int i=0;again:i++;if(i<5)goto again;return i;} => done 5
replay --visits 1000 --events 100000 --depth 60 f: int f(void){int i=3;int s=0;goto middle;while(i<6){s+=100;middle:s+=i;i++;}return s;} => done 212
replay --visits 1000 --events 100000 --depth 60 f: int f(void){int i;int j;for(i=0;i<5;i++)for(j=0;j<5;j++)if(i*j==6)goto out;out:return i*10+j;} => done 23
replay --visits 1000 --events 100000 --depth 60 f: int g(int x){while(1){if(x>20)return x;x*=2;}}int f(void){return g(3);} => done 24
replay --visits 1000 --events 100000 --depth 60 f: int f(void){int x=1;{int x=2;{int x=3;x++;}x+=10;if(x!=12)return 0;}return x;} => done 1
replay --visits 1000 --events 100000 --depth 60 f: int g(int n){if(n<2)return 1;return n*g(n-1);}int f(void){return g(6);} => done 720
replay --visits 1000 --events 100000 --depth 60 f: int g(int n){return n<2?n:g(n-1)+g(n-2);}int f(void){return g(9);} => done 34
replay --visits 1000 --events 100000 --depth 60 f: int odd(int n);int even(int n){return n==0?1:odd(n-1);}int odd(int n){return n==0?0:even(n-1);}int f(void){return even(10)*10+odd(7);} => done 11
replay --visits 1000 --events 100000 --depth 60 f: int g(char c,unsigned u){return c+(u>10);}int f(void){return g(300,-1);} => done 45
replay --visits 1000 --events 100000 --depth 60 f: int x(int*p){*p=*p*10+1;return 1;}int y(int*p){*p=*p*10+2;return 2;}int g(int a,int b){return a*10+b;}int f(void){int n=0;int r;r=x(&n)+y(&n)*2;return n*100+r;} => done 1205
replay --visits 1000 --events 100000 --depth 60 f: void g(int a){a=9;}int f(void){int a=4;g(a);return a;} => done 4
replay --visits 1000 --events 100000 --depth 60 f: const int t[4]={2,3,5,7};int f(void){int s=0;int i;for(i=0;i<4;i++)s=s*10+t[i];return s;} => done 2357
replay --visits 1000 --events 100000 --depth 60 f: struct p{int x;char*s;};const struct p t={4,"xyz"};int f(void){return t.x*1000+t.s[1];} => done 4121
replay --visits 1000 --events 100000 --depth 60 f: struct in{char t[3];int n;};struct all{int a[3];struct in s[2];char*p;long z;};const struct all w={{1,2},{{"xy",3},{"z"}},"pq",9};int f(void){unsigned s=0;int i;int j;for(i=0;i<3;i++)s=s*31+w.a[i];for(i=0;i<2;i++){for(j=0;j<3;j++)s=s*31+w.s[i].t[j];s=s*31+w.s[i].n;}for(i=0;i<3;i++)s=s*31+w.p[i];s=s*31+w.z;return s%1000003;} => done 217387
replay --visits 1000 --events 100000 --depth 60 f: struct in{char t[3];int n;};struct all{int a[2];struct in s[2];long z;};struct all g;int f(void){struct all x={{1,2},{{"ab",3},{"c",4}},5};struct all y;y.z=8;g=x;y=g;g.s[1].n=7;return y.a[1]*100000+y.s[0].t[1]*1000+y.s[1].n*100+y.z*10+g.s[1].n;} => done 298457
replay --visits 1000 --events 100000 --depth 60 f: struct e{char c;long l;};struct big{struct e r[2048];};int f(void){struct big x;struct big y;x.r[2047].c=3;x.r[2047].l=4;y=x;return y.r[2047].c*10+y.r[2047].l;} => done 34
replay --visits 1000 --events 100000 --depth 60 f malloc#1=1 malloc#2=1: void*malloc(unsigned long);void free(void*);int f(void){int*p=malloc(3*sizeof(int));int s;if(!p)return -1;p[0]=1;p[2]=5;s=p[0]+p[2];free(p);return s;} => done 6
replay --visits 1000 --events 100000 --depth 60 f malloc#1=1 malloc#2=1: void*calloc(unsigned long,unsigned long);void free(void*);int f(void){int*p=calloc(4,sizeof(int));int s;if(!p)return -1;s=p[0]+p[3]+1;free(p);return s;} => done 1
replay --visits 1000 --events 100000 --depth 60 f malloc#1=1 malloc#2=1: void*malloc(unsigned long);void free(void*);struct n{int v;struct n*next;};int f(void){struct n*a=malloc(sizeof(struct n));struct n*b=malloc(sizeof(struct n));int s;if(!a||!b)return -1;a->v=3;a->next=b;b->v=4;b->next=0;s=a->next->v*10+a->v;free(b);free(a);return s;} => done 43
replay --visits 1000 --events 100000 --depth 60 f: int f(void){char c[7];long*p=0;return sizeof(c)*1000+sizeof(p)*100+sizeof(*p)*10+sizeof(short);} => done 7882
"#;

#[test]
fn both_machines_run_these_programs_alike(rt: HostRuntime) -> Result<(), Fail> {
    let found = differing(rt.alloc(), PROGRAMS)?;
    assert_eq!(rt; found.as_str(), "");
    Ok(())
}
