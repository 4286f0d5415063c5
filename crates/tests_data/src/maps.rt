//! Maps that copies share: that the calls succeed, and that copies share their branches.
use cs_pmap::PMap;
use std::alloc::{AllocError, Global};
use std::cell::Cell;
use std::process::Abort;
use std::test::Fail;

// A number whose clones a shared counter counts down, and refuses when it is 0.
#[derive(Drop)]
struct Counted<'a> {
    number: u64,
    clones_left: &'a Cell<u64>,
}

impl Clone for Counted<'_> {
    ghost use Rattle.std.specs.Prelude.{◌≡◌};

    ghost is_clone = { λ original clone. clone ≡ original };

    fn clone(&self) -> Result<Self, AllocError> {
        let left = self.clones_left.get();
        if left == 0 {
            return Err(AllocError);
        }
        self.clones_left.set(left - 1);
        Ok(Counted {
            number: self.number,
            clones_left: self.clones_left,
        })
    }
}

// Returns a map of this many keys, each with its own number. From then on values may be cloned without limit.
fn counted_map<'a>(
    alloc: Global,
    size: u64,
    clones_left: &'a Cell<u64>,
) -> Result<PMap<Counted<'a>>, AllocError> {
    clones_left.set(u64::MAX);
    let mut map = PMap::new(alloc);
    for index in 0..size {
        let (first, second) = shuffled(index, size);
        let number = first.wrapping_mul(10).wrapping_add(second);
        let value = Counted {
            number,
            clones_left,
        };
        map.insert((first, second), value)?;
    }
    Ok(map)
}

// Returns the keys of a table of `size` entries, in another order than theirs.
fn shuffled(index: u64, size: u64) -> (u64, u64) {
    let spread = index.wrapping_mul(7919) % size.max(1);
    (spread / 10, spread % 10)
}

// Each key of a map made by `counted_map` has its own number.
fn assert_all_there(rt: &impl Abort, map: &PMap<Counted<'_>>, size: u64) {
    for number in 0..size {
        let found = map
            .get((number / 10, number % 10))
            .map(|value| value.number);
        assert_eq!(rt; found, Some(number));
    }
}

#[test]
fn gives_entries_in_key_order(rt: HostRuntime) -> Result<(), Fail> {
    let mut map = PMap::new(rt.alloc());
    for (key, value) in [((2, 1), 5u64), ((1, 9), 6), ((2, 0), 7), ((1, 9), 8)] {
        map.insert(key, value)?;
    }
    map.remove((2, 1))?;
    map.remove((3, 3))?;
    let mut seen = Vec::new(rt.alloc());
    for (key, value) in map.iter()? {
        seen.push((key, *value))?;
    }
    assert_eq!(rt; seen.as_slice(), [((1, 9), 8), ((2, 0), 7)].as_slice());
    assert_eq!(rt; map.get((2, 0)).copied(), Some(7));
    assert_eq!(rt; map.get((2, 1)).copied(), None);
    Ok(())
}

#[test]
fn inserts_lists_in_any_order(rt: HostRuntime) -> Result<(), Fail> {
    let mut map = PMap::new(rt.alloc());
    map.insert_all(&[((1, 0), 10u64), ((2, 0), 20), ((4, 0), 40)])?;
    map.insert_all(&[((3, 0), 30), ((2, 0), 21), ((3, 0), 31)])?;
    map.insert_all(&[((0, 5), 5), ((2, 0), 22), ((5, 0), 50)])?;
    let mut seen = Vec::new(rt.alloc());
    for (key, value) in map.iter()? {
        seen.push((key.0, *value))?;
    }
    assert_eq!(rt;
        seen.as_slice(),
        [(0, 5), (1, 10), (2, 22), (3, 31), (4, 40), (5, 50)].as_slice()
    );
    Ok(())
}

// Returns the entries of every third number below `size`, in the order of their keys.
fn thirds<'a>(
    alloc: Global,
    size: u64,
    clones_left: &'a Cell<u64>,
) -> Result<Vec<((u64, u64), Counted<'a>)>, AllocError> {
    let mut entries = Vec::new(alloc);
    for third in 0..size / 3 {
        let number = third * 3;
        let value = Counted {
            number,
            clones_left,
        };
        entries.push(((number / 10, number % 10), value))?;
    }
    Ok(entries)
}

#[test]
fn an_ascending_list_clones_few_values(rt: HostRuntime) -> Result<(), Fail> {
    let clones_left = Cell::new(0);
    let map = counted_map(rt.alloc(), 10_000, &clones_left)?;
    let entries = thirds(rt.alloc(), 10_000, &clones_left)?;
    let mut copy = map.copy()?;
    clones_left.set(10_000);
    copy.insert_all(entries.as_slice())?;
    assert_all_there(&rt, &copy, 10_000);
    let mut built = PMap::new(rt.alloc());
    clones_left.set(3_333);
    built.insert_all(entries.as_slice())?;
    assert_eq!(rt; clones_left.get(), 0);
    clones_left.set(100);
    assert!(rt; copy.insert_all(entries.as_slice()).is_err());
    assert_all_there(&rt, &copy, 10_000);
    Ok(())
}

#[test]
fn copies_where_no_value_can_be_cloned(rt: HostRuntime) -> Result<(), Fail> {
    let clones_left = Cell::new(0);
    let map = counted_map(rt.alloc(), 100, &clones_left)?;
    clones_left.set(0);
    let copy = map.copy()?;
    assert_all_there(&rt, &copy, 100);
    assert_all_there(&rt, &map, 100);
    Ok(())
}

// Inserts a value while only this many values can be cloned.
fn insert_with<'a>(
    map: &mut PMap<Counted<'a>>,
    key: (u64, u64),
    clones_left: &'a Cell<u64>,
    clones: u64,
) -> Result<(), AllocError> {
    clones_left.set(clones);
    let value = Counted {
        number: 1,
        clones_left,
    };
    map.insert(key, value)
}

fn remove_with(
    map: &mut PMap<Counted<'_>>,
    key: (u64, u64),
    clones_left: &Cell<u64>,
    clones: u64,
) -> Result<(), AllocError> {
    clones_left.set(clones);
    map.remove(key)
}

#[test]
fn a_change_clones_few_values(rt: HostRuntime) -> Result<(), Fail> {
    let clones_left = Cell::new(0);
    let map = counted_map(rt.alloc(), 10_000, &clones_left)?;
    for key in [(0, 0), (333, 3), (500, 5), (999, 9), (1000, 0)] {
        let mut copy = map.copy()?;
        insert_with(&mut copy, key, &clones_left, 64)?;
        remove_with(&mut copy, key, &clones_left, 64)?;
    }
    assert_all_there(&rt, &map, 10_000);
    Ok(())
}

// Returns how often an insertion was refused before it had enough clones. Each refusal leaves all keys unchanged.
fn refused_insertions<'a>(
    rt: &impl Abort,
    map: &mut PMap<Counted<'a>>,
    clones_left: &'a Cell<u64>,
) -> u64 {
    for clones in 0..64 {
        if insert_with(map, (20, 0), clones_left, clones).is_ok() {
            return clones;
        }
        assert_all_there(rt, map, 100);
    }
    64
}

fn refused_removals(rt: &impl Abort, map: &mut PMap<Counted<'_>>, clones_left: &Cell<u64>) -> u64 {
    for clones in 0..64 {
        if remove_with(map, (0, 0), clones_left, clones).is_ok() {
            return clones;
        }
        assert_all_there(rt, map, 100);
    }
    64
}

#[test]
fn a_refused_change_leaves_the_map(rt: HostRuntime) -> Result<(), Fail> {
    let clones_left = Cell::new(0);
    let mut map = counted_map(rt.alloc(), 100, &clones_left)?;
    let insertions = refused_insertions(&rt, &mut map, &clones_left);
    assert!(rt; insertions > 0 && insertions < 64);
    let mut map = counted_map(rt.alloc(), 100, &clones_left)?;
    let removals = refused_removals(&rt, &mut map, &clones_left);
    assert!(rt; removals > 0 && removals < 64);
    Ok(())
}

fn numbered_map(alloc: Global, size: u64) -> Result<PMap<u64>, AllocError> {
    let mut map = PMap::new(alloc);
    for number in 0..size {
        map.insert((number, 0), number)?;
    }
    Ok(map)
}

// Returns copies of the map, the n-th with `size` under the key 7 n.
fn changed_copies(alloc: Global, map: &PMap<u64>, size: u64) -> Result<Vec<PMap<u64>>, AllocError> {
    let mut copies = Vec::new(alloc);
    for index in 0..1000u64 {
        let mut copy = map.copy()?;
        copy.insert((index.wrapping_mul(7), 0), size)?;
        copies.push(copy)?;
    }
    Ok(copies)
}

#[test]
fn a_write_to_a_copy_changes_no_other(rt: HostRuntime) -> Result<(), Fail> {
    let size = 10_000;
    let map = numbered_map(rt.alloc(), size)?;
    let copies = changed_copies(rt.alloc(), &map, size)?;
    let mut changed = 0u64;
    for copy in &copies {
        assert_one_changed(&rt, copy, changed, size)?;
        changed = changed.wrapping_add(7);
    }
    assert_one_changed(&rt, &map, size, size)?;
    Ok(())
}

// Tests that each number is under its key, and `size` under the changed one.
fn assert_one_changed(
    rt: &impl Abort,
    map: &PMap<u64>,
    changed: u64,
    size: u64,
) -> Result<(), AllocError> {
    let mut count = 0u64;
    for (key, value) in map.iter()? {
        let expected = if count == changed { size } else { count };
        assert_eq!(rt; key, (count, 0));
        assert_eq!(rt; *value, expected);
        count = count.saturating_add(1);
    }
    assert_eq!(rt; count, size);
    Ok(())
}
