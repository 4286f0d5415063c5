//! Keys and rows, which are kept in the same order.
ghost use Rattle.std.specs.Prelude.{◌≡◌, ◌<◌, ◌++◌, [], ◌∷◌, None, vec_len, vec_capacity, OnOk};
ghost use Rattle.indexmap.specs.IndexMap.{get, spare};

use indexmap::IndexMap;
use std::alloc::AllocError;
use std::hash::Hash;

// The first capacity, large enough that few explorations reserve twice.
const FIRST: usize = 8;

// The number of the row that has a key.
pub(crate) fn number_of<K: Eq + Hash>(keys: &IndexMap<K, u32>, key: &K) -> Option<u32>
    ensures { result ≡ get K.eq keys.now key.now }
{
    Some(*keys.get(key)?)
}

// Reserves capacity for one more key and one more row.
pub(crate) fn reserve<K: Eq + Hash, R>(
    keys: &mut IndexMap<K, u32>,
    rows: &mut Vec<R>,
) -> Result<(), AllocError>
    ensures keys { keys.new.entries ≡ keys.old.entries }
    ensures rows { rows.new.items ≡ rows.old.items }
    ensures has_spare { OnOk result (0 < spare keys.new) }
    ensures place { OnOk result (vec_len rows.new < vec_capacity rows.new) }
{
    let more = if rows.is_empty() { FIRST } else { 1 };
    keys.reserve(more)?;
    rows.reserve(more)
}

// Appends a row, with its key and its number.
pub(crate) fn put<K: Eq + Hash + Drop, R: Drop>(
    keys: &mut IndexMap<K, u32>,
    rows: &mut Vec<R>,
    key: K,
    number: u32,
    row: R,
)
    requires new { get K.eq keys.old key ≡ None }
    requires has_spare { 0 < spare keys.old }
    requires place { vec_len rows.old < vec_capacity rows.old }
    ensures keys { keys.new.entries ≡ keys.old.entries ++ (key, number) ∷ [] }
    ensures rows { rows.new.items ≡ rows.old.items ++ row ∷ [] }
{
    let Ok(_) = keys.insert(key, number) else {
        unreachable!()
    };
    let Ok(()) = rows.push(row) else {
        unreachable!()
    };
}
