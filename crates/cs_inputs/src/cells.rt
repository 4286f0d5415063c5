//! The cells of a path: the offsets that it follows.
ghost use Rattle.std.specs.Prelude.{◌≡◌, ◌++◌, [], ◌∷◌, nat_eq, OnOk, OnErr};
ghost use Rattle.std.specs.Hash as fed;
ghost use Rattle.std.specs.Cmp.{partial_equiv_from_equiv};
ghost use Rattle.std.specs.Cmp.Lexicographic.{pointwise, slice_cmp, nat_list_eq_equiv, nat_list_cmp_total, texts_ties, texts_po};
ghost use Rattle.std.specs.Cmp.Rules.{hashing};
ghost use Rattle.std.specs.Ordering.{nat_cmp, as_partial_cmp};
ghost use Rattle.std.proofs.Common.{refl, rules};

use std::alloc::{AllocError, Global};
use std::cmp::Ordering;
use std::hash::{Hash, Hasher};
use std::marker::Model;

/// Byte offsets, each in the block to which the pointer at the previous one points. A contract sees them as a list.
///
/// They are ordered by the first offset that differs, a prefix first.
#[derive(Debug, Drop)]
pub struct Cells {
    offsets: Vec<u64>,
}

impl Model for Cells {
    ghost use Rattle.std.specs.Prelude.{ℕ, List};

    ghost Value = { List ℕ };

    ghost view = { λ c. c.offsets.items };
}

impl Cells {
    /// Returns an empty list of offsets.
    pub fn new(alloc: Global) -> Cells
        ensures { result ≡ [] }
    {
        Cells {
            offsets: Vec::new(alloc),
        }
    }

    /// Appends an offset.
    pub fn push(&mut self, offset: u64) -> Result<(), AllocError>
        ensures ok { OnOk result (self.new ≡ self.old ++ offset ∷ []) }
        ensures err { OnErr result (self.new ≡ self.old) }
    {
        self.offsets.push(offset)?;
        Ok(())
    }

    /// Returns the offsets in order.
    pub fn as_slice(&self) -> &[u64]
        ensures { result.now ≡ self.now }
    {
        self.offsets.as_slice()
    }
}

impl Clone for Cells {
    ghost is_clone = { λ cells copy. copy ≡ cells };

    fn clone(&self) -> Result<Cells, AllocError> {
        Ok(Cells {
            offsets: Vec::from_slice(*self.offsets.allocator(), self.offsets.as_slice())?,
        })
    }
}

impl PartialEq for Cells {
    ghost eq = { pointwise nat_eq };

    ghost laws = { partial_equiv_from_equiv nat_list_eq_equiv };

    fn eq(&self, other: &Cells) -> bool {
        self.as_slice() == other.as_slice()
    }
}

impl Eq for Cells {
    ghost laws = { nat_list_eq_equiv };
}

impl PartialOrd for Cells {
    ghost partial_cmp = { as_partial_cmp (slice_cmp nat_cmp) };

    ghost laws = { texts_po };

    fn partial_cmp(&self, other: &Cells) -> Option<Ordering> {
        Some(self.cmp(other))
    }
}

impl Ord for Cells {
    ghost cmp = { slice_cmp nat_cmp };

    ghost total = { nat_list_cmp_total };

    ghost matches_partial_cmp = { λ a b. refl };

    ghost matches_eq = { texts_ties };

    fn cmp(&self, other: &Cells) -> Ordering {
        self.as_slice().cmp(other.as_slice())
    }
}

impl Hash for Cells {
    ghost hash_input = { fed.slice fed.u64 };

    ghost respects_eq = { Prim.search (hashing, rules) };

    fn hash<H: Hasher>(&self, state: &mut H) {
        self.as_slice().hash(state);
    }
}
