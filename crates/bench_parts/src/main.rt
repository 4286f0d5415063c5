//! Times maps, terms, states and the judge: each line of standard input begins with the name of one of these parts, and the rest of the line
//! states which call is made how often. With the argument `timed` the time of one call follows each result of terms and states.
#![tactic(auto)]

mod judge;
mod pmap;
mod state;
mod terms;

use cs_pmap::PMap;
use std::{env, io};

// Whether the program has to print times.
fn is_timed(rt: &HostRuntime) -> bool {
    match env::args(rt) {
        Ok(mut arguments) => match arguments.nth(1) {
            Some(word) => word.as_str() == "timed",
            None => false,
        },
        Err(_) => false,
    }
}

fn main(rt: HostRuntime) -> io::Result<()> {
    let timed = is_timed(&rt);
    let mut map = PMap::new(rt.alloc());
    for line in rt.lines(rt.alloc()) {
        let line = line?;
        let Some((part, words)) = line.as_str().split_once(' ') else {
            continue;
        };
        match part {
            "pmap" => pmap::run(&rt, &mut map, words)?,
            "terms" => terms::run(&rt, words, timed)?,
            "state" => state::run(&rt, words, timed)?,
            "judge" => judge::run(&rt, words)?,
            _ => {}
        }
    }
    Ok(())
}
