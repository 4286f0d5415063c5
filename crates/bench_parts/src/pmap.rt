//! Times the shared map: a line names a call and how often it is made.

use cs_pmap::PMap;
use std::alloc::AllocError;
use std::io;

// Returns different keys for different numbers, in no particular order.
fn key(number: u64) -> (u64, u64) {
    let mixed = number.wrapping_mul(0x9e37_79b9_7f4a_7c15);
    (mixed >> 32, mixed & 0xffff_ffff)
}

fn insert(map: &mut PMap<u64>, count: u64) -> Result<u64, AllocError> {
    for number in 0..count {
        map.insert(key(number), number)?;
    }
    Ok(count)
}

// Returns the sum of the values that are found.
fn get(map: &PMap<u64>, count: u64) -> u64 {
    let mut sum = 0u64;
    for number in 0..count {
        if let Some(value) = map.get(key(number)) {
            sum = sum.wrapping_add(*value);
        }
    }
    sum
}

// Returns the sum of the values of the first key in copies.
fn copy(map: &PMap<u64>, count: u64) -> Result<u64, AllocError> {
    let mut sum = 0u64;
    for _ in 0..count {
        sum = sum.wrapping_add(get(&map.copy()?, 1));
    }
    Ok(sum)
}

/// Makes the calls that the words request, and prints their results. Each line works on the map as the previous line left it.
pub fn run(rt: &HostRuntime, map: &mut PMap<u64>, words: &str) -> io::Result<()> {
    let Some((call, count)) = words.split_once(' ') else {
        return Ok(());
    };
    let count = count.parse::<u64>().unwrap_or(0);
    let answer = match call {
        "insert" => insert(map, count)?,
        "get" => get(map, count),
        "copy" => copy(map, count)?,
        _ => 0,
    };
    println!(rt; "{call} {count} gives {answer}")
}
