//! Runs in which results are guessed.

use crate::machines::add_if_otherwise;
use cs_events::Guess;
use std::alloc::{AllocError, Global};
use std::test::Fail;

/// An event, the number that is guessed there, words and a file, with the line of the run's outcome, and a line of what was pending at each
/// event. No event has the number 0.
const GUESSED: &str = "
1 9 replay f x=5: int f(int x){return x+1;}
done 9
<input>:1:22 Binary(Add, Int, 5, 1)

1 7 replay f x=5: char f(int x){return x;}
done 7
<input>:1:15 Convert(Char, 5)

1 1 replay f x=5: int f(int x){return x<3;}
done 1
<input>:1:22 Compare(Less, 5, 3)

2 0 replay f p=1: int f(int*p){return *p;}
fault bounds <input>:1:21
<input>:1:21 Show(Look(true))
<input>:1:21 Order(0, 0)

1 0 replay f n=2 m=3 malloc#1=1: int f(unsigned long n,unsigned long m){int*p=calloc(n,m);if(p)return 1;return 0;}
done 0
<input>:1:52 Product(2, 3)
<input>:1:58 Show(Look(false))
<input>:1:58 Show(Branch(false))

4 8 replay f p=1 p@8=7: int f(int*p){return *(p+1);}
done 7
<input>:1:24 Show(Look(true))
<input>:1:24 Order(1099511627776, 4)
<input>:1:24 Order(1099511627776, -4)
<input>:1:24 Sum(0, 1, 4)
<input>:1:21 Show(Look(true))
<input>:1:21 Order(8, 0)
<input>:1:21 Order(-8, 4194300)
<input>:1:21 start p 8

7 9 replay f p=1: long f(int*p){return (p+1)-p;}
done 9
<input>:1:24 Show(Look(true))
<input>:1:24 Order(1099511627776, 4)
<input>:1:24 Order(1099511627776, -4)
<input>:1:24 Sum(0, 1, 4)
<input>:1:27 Show(Look(true))
<input>:1:27 Show(Look(true))
<input>:1:27 Difference(4, 0, 4)

0 0 replay f: int f(int x){int a=1;a/=0;return a;}
fault divide <input>:1:23

0 0 replay f x=2: int f(int x){int a=6;a/=x;return a;}
done 3
<input>:1:23 Binary(Div, Int, 6, 2)

0 0 replay f malloc#1=1: int f(void){char*p=malloc(1);if(!p)return 1;*p=2;return *p;}
done 2
<input>:1:26 Convert(ULong, 1)
<input>:1:26 malloc#1
<input>:1:33 Show(Look(true))
<input>:1:33 Show(Truth(false))
<input>:1:30 Show(Branch(false))
<input>:1:47 Convert(Char, 2)
<input>:1:45 Show(Look(true))
<input>:1:45 Order(0, 0)
<input>:1:45 Order(0, 0)
<input>:1:45 heap 1 0
<input>:1:57 Show(Look(true))
<input>:1:57 Order(0, 0)
<input>:1:57 Order(0, 0)
<input>:1:57 heap 1 0
";

/// Adds the file of a row with the text of its run, if the run has another text.
fn add_row(alloc: Global, found: &mut String, row: &str) -> Result<(), AllocError> {
    let (run, text) = row.split_once('\n').unwrap_or((row, ""));
    let (event, run) = run.split_once(' ').unwrap_or(("", run));
    let (number, run) = run.split_once(' ').unwrap_or(("", run));
    let guess = Guess {
        event: event.parse::<u64>().unwrap_or(0),
        number: number.parse::<i128>().unwrap_or(0),
    };
    add_if_otherwise(alloc, found, (run, text), &[guess], true)
}

#[test]
fn both_machines_keep_what_was_pending(rt: HostRuntime) -> Result<(), Fail> {
    let mut found = String::new(rt.alloc());
    for row in GUESSED.trim().split("\n\n") {
        add_row(rt.alloc(), &mut found, row)?;
    }
    assert_eq!(rt; found.as_str(), "");
    Ok(())
}
