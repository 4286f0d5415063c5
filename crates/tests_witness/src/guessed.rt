//! A suspect with a guess of each kind of operation, and the witness's text for it.

/// Files, each with the lines of its suspects, `--`, and the witness's text for them, separated by empty lines.
pub const GUESSED: &str =
    "int f(int z,unsigned long x,unsigned long y){if(z==4){if(x+y==5){if(x==11)return 1/0;}}return 0;}
divide 1:83 9 y=11 z=4 x=11 guess 3 5 x=0..18446744073709551615 y=0..18446744073709551615
--
complete dropped 0
report divide <input>:1:83 assumed
  input x = 11
  input y = 11
  input z = 4
  guess 3 = 5 at <input>:1:59
    other 1 x = 0
    other 1 y = 0
    other 1 z = 4
    other 2 x = 0
    other 2 y = 18446744073709551615
    other 2 z = 4

int f(int z,int x,int y){if(z==4){if(x*y==7){if(x==2)return 1/0;}}return 0;}
divide 1:62 7 y=0 z=4 x=2 guess 3 7 x=-2147483648..2147483647 y=-2147483648..2147483647
--
complete dropped 0
report divide <input>:1:62 assumed
  input x = 2
  input y = 0
  input z = 4
  guess 3 = 7 at <input>:1:39
    other 1 x = -2147483648
    other 1 y = -2147483648
    other 1 z = 4

int f(int z,int x,int y){if(z==4){if(x/y==7){if(x==1)return 1/0;}}return 0;}
divide 1:62 7 y=1 z=4 x=1 guess 3 7 x=-2147483648..2147483647 y=-2147483648..2147483647
--
complete dropped 0
report divide <input>:1:62 assumed
  input x = 1
  input y = 1
  input z = 4
  guess 3 = 7 at <input>:1:39
    other 1 x = -2147483648
    other 1 y = -2147483648
    other 1 z = 4

int f(int z,int x,int y){if(z==4){if(x%10==7){if(x==1)return 1/0;}}return 0;}
divide 1:63 7 y=0 z=4 x=1 guess 3 7 x=-2147483648..2147483647 -
--
complete dropped 0
report divide <input>:1:63 assumed
  input x = 1
  input y = 0
  input z = 4
  guess 3 = 7 at <input>:1:39
    other 1 x = -2147483648
    other 1 y = 0
    other 1 z = 4

int f(int z,int x,int y){if(z==4){if((x&12)==8){if(x==1)return 1/0;}}return 0;}
divide 1:65 7 y=0 z=4 x=1 guess 3 8 x=-2147483648..2147483647 -
--
complete dropped 0
report divide <input>:1:65 assumed
  input x = 1
  input y = 0
  input z = 4
  guess 3 = 8 at <input>:1:40
    other 1 x = -2147483648
    other 1 y = 0
    other 1 z = 4

int f(int z,int x,int y){if(z==4){if((x|y)==7){if(x==8)return 1/0;}}return 0;}
divide 1:64 7 y=0 z=4 x=8 guess 3 7 x=-2147483648..2147483647 y=-2147483648..2147483647
--
complete dropped 0
report divide <input>:1:64 assumed
  input x = 8
  input y = 0
  input z = 4
  guess 3 = 7 at <input>:1:40
    other 1 x = -2147483648
    other 1 y = -2147483648
    other 1 z = 4

int f(int z,int x,int y){if(z==4){if((x^y)==7){if(x==8)return 1/0;}}return 0;}
divide 1:64 7 y=0 z=4 x=8 guess 3 7 x=-2147483648..2147483647 y=-2147483648..2147483647
--
complete dropped 0
report divide <input>:1:64 assumed
  input x = 8
  input y = 0
  input z = 4
  guess 3 = 7 at <input>:1:40
    other 1 x = -2147483648
    other 1 y = -2147483648
    other 1 z = 4

int f(int z,int x,int y){if(z==4){if((x>>y)==7){if(x==1)return 1/0;}}return 0;}
divide 1:65 7 y=0 z=4 x=1 guess 3 7 x=-2147483648..2147483647 y=0..31
--
complete dropped 0
report divide <input>:1:65 assumed
  input x = 1
  input y = 0
  input z = 4
  guess 3 = 7 at <input>:1:40
    other 1 x = -2147483648
    other 1 y = 0
    other 1 z = 4

int f(int z,int x,int y){if(z==4){if((x<<y)==7){if(x==2)return 1/0;}}return 0;}
divide 1:65 7 y=0 z=4 x=2 guess 3 7 x=-2147483648..2147483647 y=0..31
--
complete dropped 0
report divide <input>:1:65 assumed
  input x = 2
  input y = 0
  input z = 4
  guess 3 = 7 at <input>:1:40
    other 1 x = -2147483648
    other 1 y = 31
    other 1 z = 4

int f(int z,long x,int y){if(z==4){if((char)x==7){if(x==1000)return 1/0;}}return 0;}
divide 1:70 7 y=0 z=4 x=1000 guess 3 7 x=-9223372036854775808..9223372036854775807 -
--
complete dropped 0
report divide <input>:1:70 assumed
  input x = 1000
  input y = 0
  input z = 4
  guess 3 = 7 at <input>:1:39
    other 1 x = -9223372036854775808
    other 1 y = 0
    other 1 z = 4

int f(int z,int x,int y){if(z==4){if(x<y){if(x==1000)return 1/0;}}return 0;}
divide 1:62 6 y=0 z=4 x=1000 guess 3 1 x=-2147483648..2147483647 y=-2147483648..2147483647
--
complete dropped 0
report divide <input>:1:62 assumed
  input x = 1000
  input y = 0
  input z = 4
  guess 3 = 1 at <input>:1:39
    other 1 x = -2147483648
    other 1 y = -2147483648
    other 1 z = 4
    other 2 x = -2147483648
    other 2 y = 2147483647
    other 2 z = 4

int f(int z,int x,int y){if(z==4){if(x+1==y){if(x==1000)return 1/0;}}return 0;}
divide 1:65 7 y=0 z=4 x=1000 guess 4 1 x=-2147483648..2147483646 y=-2147483648..2147483647
--
complete dropped 0
report divide <input>:1:65 assumed
  input x = 1000
  input y = 0
  input z = 4
  guess 4 = 1 at <input>:1:41
    other 1 x = -2147483648
    other 1 y = -2147483648
    other 1 z = 4
    other 2 x = -2147483648
    other 2 y = 2147483647
    other 2 z = 4

int f(int z,int x,int y,int*p){if(z==4){if(p+x+y==p){if(x==1)return 1/0;}}return 0;}
divide 1:70 16 y=1 p=1 z=4 x=1 guess 10 0 x=-2147483648..2147483647 y=-2147483648..2147483647
--
complete dropped 0
report divide <input>:1:70 assumed
  input p = 1
  input x = 1
  input y = 1
  input z = 4
  guess 10 = 0 at <input>:1:47
    other 1 p = 1
    other 1 x = -2147483648
    other 1 y = -2147483648
    other 1 z = 4
    other 2 p = 1
    other 2 x = -2147483648
    other 2 y = 2147483647
    other 2 z = 4

int f(int z,int x,int y,int*p){if(z==4){if((p+x)-(p+y)==5){if(x==1)return 1/0;}}return 0;}
divide 1:76 17 y=0 p=1 z=4 x=1 guess 13 5 x=-2147483648..2147483647 y=-2147483648..2147483647
--
complete dropped 0
report divide <input>:1:76 assumed
  input p = 1
  input x = 1
  input y = 0
  input z = 4
  guess 13 = 5 at <input>:1:49
    other 1 p = 1
    other 1 x = -2147483648
    other 1 y = -2147483648
    other 1 z = 4

int f(int z,unsigned long x,unsigned long y){int*p;if(z==4){if(!(p=calloc(x,y))){if(x==1)return 1/0;}}return 0;}
divide 1:98 9 y=1 z=4 x=1 guess 3 0 x=0..18446744073709551615 y=0..18446744073709551615
--
complete dropped 0
report divide <input>:1:98 confirmed
  input x = 1
  input y = 1
  input z = 4
  input malloc#1 = 0

int f(int z,unsigned long x,unsigned long y){int*p;if(z==4){if((p=calloc(x,y))){if(x==9223372036854775808u)if(y==4)return 1/0;}}return 0;}
divide 1:124 12 y=4 malloc#1=1 z=4 x=9223372036854775808 guess 3 1 x=0..18446744073709551615 y=0..18446744073709551615 guess 4 0 x=0..18446744073709551615 y=0..18446744073709551615
--
complete dropped 0
report divide <input>:1:124 assumed
  input x = 9223372036854775808
  input y = 4
  input z = 4
  input malloc#1 = 1
  guess 3 = 1 at <input>:1:73
    other 1 x = 0
    other 1 y = 0
    other 1 z = 4
    other 1 malloc#1 = 1
  guess 4 = 0 at <input>:1:73
    other 1 x = 0
    other 1 y = 0
    other 1 z = 4
    other 1 malloc#1 = 1
    other 1 guess 3 = 1";
