//! Writes as data, and the store after a list of them: for tests, and for the law of a store over whole runs.
ghost use Rattle.std.specs.Prelude.{◌≡◌, ℕ, IfOk, OnOk, OnErr};
ghost use Rattle.std.specs.Option.{unwrap_or};
ghost use Rattle.cs_store.specs.Held.{held};
ghost use Rattle.cs_store.specs.Writes.{decided, held_after};

use crate::store::Store;
use crate::value::{Fill, Value};
use std::alloc::{AllocError, Global};

/// A write to a store.
#[derive(Debug, Drop)]
pub enum Write {
    /// A value at an offset of a base region.
    Bind {
        base: u64,
        offset: u64,
        value: Value,
    },
    /// A fill for a base region.
    Default {
        base: u64,
        fill: Fill,
    },
    /// The leaves of a struct, in order.
    Leaves {
        base: u64,
        leaves: Vec<(u64, Value)>,
    },
    /// The contents of these base regions are dropped.
    Drop {
        bases: Vec<u64>,
    },
}

/// Returns the store after writes, in order, to an empty one.
pub fn replayed(alloc: Global, writes: &[Write]) -> Result<Store, AllocError>
    ensures { IfOk result (λ store.
        (base offset : ℕ) → held store base offset ≡ held_after writes.now base offset) }
{
    let mut store = Store::new(alloc);
    for write in writes {
        apply(&mut store, write)?;
    }
    Ok(store)
}

fn apply(store: &mut Store, write: &Write) -> Result<(), AllocError>
    ensures { OnOk result ((base offset : ℕ)
        → held store.new base offset
        ≡ unwrap_or (decided write.now base offset) (held store.old base offset)) }
{
    match write {
        Write::Bind {
            base,
            offset,
            value,
        } => store.bind(*base, *offset, *value),
        Write::Default { base, fill } => store.bind_default(*base, *fill),
        Write::Leaves { base, leaves } => store.copy_leaves(leaves, *base),
        Write::Drop { bases } => store.drop_frame(bases),
    }
}
