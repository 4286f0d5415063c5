//! Times the crates that work on whole files: the first word names a benchmark, and the words after it are its arguments. The word `all`
//! reads one file, and prints what the three benchmarks print for it without arguments.
#![tactic(auto)]

ghost use Rattle.std.specs.Prelude.{◌≤◌, length};

mod analysis;
mod counts;
mod front;
mod replay;

use crate::front::Stage;
use crate::replay::REPLAYS;
use cs_io::{StdSource, read_all};
use cs_limits::MOST_BYTES;
use std::{env, io};

fn main(rt: HostRuntime) -> io::Result<()> {
    let words = env::args(&rt)?.skip(1).collect::<Vec<String>>(rt.alloc())?;
    let Some((benchmark, words)) = words.as_slice().split_first() else {
        return println!(rt; "no benchmark");
    };
    match benchmark.as_str() {
        "front" => front::run(&rt, words),
        "replay" => replay::run(&rt, words),
        "analysis" => analysis::run(&rt, words),
        "all" => all(&rt),
        _ => println!(rt; "no benchmark"),
    }
}

// Runs the three benchmarks on standard input.
fn all(rt: &HostRuntime) -> io::Result<()> {
    let mut source = StdSource::new(rt.stdin());
    match read_all(rt.alloc(), &mut source) {
        Ok(file) => each(rt, file.as_slice()),
        Err(_) => println!(rt; "not read"),
    }
}

// Runs the three benchmarks on a file.
fn each(rt: &HostRuntime, file: &[u8]) -> io::Result<()>
    requires { length file.now ≤ MOST_BYTES }
{
    front::cut(rt, file, Stage::Lower)?;
    replay::timed(rt, file, REPLAYS)?;
    analysis::with_defaults(rt, file)
}
