//! The contents of one base region: a default binding for all its cells, and direct bindings of single cells,
//! as in the stores of Clang's analyzer.
ghost use Rattle.std.specs.Prelude.{◌≡◌, ℕ, IfOk, IfSome, OnOk, OnErr};
ghost use Rattle.std.specs.Iterator.{YieldsFirstBy, item_count};
ghost use Rattle.cs_store.specs.Contents.{filled, held_in, with_binding, keyed, after_leaves, bindings_of, HasOffsets, IsListing};
ghost use Rattle.cs_store.specs.Listings.{listing_of};

use crate::listing::Listing;
use crate::value::{Binding, Fill, Value};
use cs_pmap::{Entries, PMap};
use std::alloc::{AllocError, Global};
use std::marker::Model;

// Trees of 32 bindings or more have at least this height; trees of less than 20 don't.
const HIGH: u64 = 6;

/// The default binding and the direct bindings of a base region.
#[derive(Drop)]
pub struct Region {
    fill: Fill,
    // Keyed by `(offset, 0)`.
    direct: PMap<Value>,
    // The listing of the direct bindings, if they were listed since the last write. Copies share it.
    listing: Option<Listing>,
}

impl Model for Region {
    ghost use Rattle.cs_store.specs.Contents.{Contents, contents_code};
    ghost use Rattle.cs_store.specs.contracts.value.Fill.{the_row as fill_row};
    ghost use Rattle.cs_store.specs.contracts.value.Value.{the_row as value_row};

    ghost Value = { Contents };

    ghost coded = { contents_code fill_row.coded value_row.coded };

    ghost use Rattle.cs_store.specs.Contents.{HasOffsets};
    ghost use Rattle.cs_store.specs.Listings.{IsListed};

    ghost view = { λ r. record { fill = r.fill; direct = r.direct } };

    ghost invariant = { λ r. HasOffsets r.direct × IsListed r.direct r.listing };
}

impl Region {
    /// Returns a region with a fill and no direct bindings.
    pub(crate) fn filled(alloc: Global, fill: Fill) -> Region
        ensures { result ≡ filled fill }
    {
        Region {
            fill,
            direct: PMap::new(alloc),
            listing: None,
        }
    }

    /// The second number of the key of each direct binding is 0.
    pub(crate) fn has_offsets(&self)
        ensures { HasOffsets self.now.direct }
    {
        let _ = &self.direct;
    }

    /// Returns the default binding.
    pub fn fill(&self) -> Fill
        ensures { result ≡ self.now.fill }
    {
        self.fill
    }

    /// Returns what the region holds at an offset.
    pub fn at(&self, offset: u64) -> Binding
        ensures { result ≡ held_in self.now offset }
    {
        match self.direct.get((offset, 0)) {
            Some(value) => Binding::Direct(*value),
            None => Binding::Fill(self.fill),
        }
    }

    /// Binds a value at an offset.
    pub(crate) fn bind(&mut self, offset: u64, value: Value) -> Result<(), AllocError>
        ensures ok { OnOk result (self.new ≡ with_binding self.old offset value) }
        ensures err { OnErr result (self.new ≡ self.old) }
    {
        self.direct.insert((offset, 0), value)?;
        self.listing = None;
        Ok(())
    }

    /// Returns the region after the leaves are bound, in order.
    pub(crate) fn with_leaves(
        &self,
        alloc: Global,
        leaves: &[(u64, Value)],
    ) -> Result<Region, AllocError>
        ensures { IfOk result (λ region.
            (offset : ℕ) → held_in region offset
            ≡ after_leaves leaves.now offset (held_in self.now offset)) }
    {
        let entries = keyed(alloc, leaves)?;
        let mut direct = self.direct.copy()?;
        direct.insert_all(&entries)?;
        Ok(Region {
            fill: self.fill,
            direct,
            listing: None,
        })
    }

    /// Returns the direct bindings in order of offset. The iterator allocates its memory here and none later.
    pub fn bindings(&self) -> Result<Bindings<'_>, AllocError>
        ensures listing { IfOk result (IsListing self.now) }
        ensures entries { IfOk result (λ bindings. bindings ≡ bindings_of self.now) }
    {
        Ok(Bindings {
            entries: self.direct.iter()?,
        })
    }

    /// Whether the words of the direct bindings are worth keeping.
    pub(crate) fn is_large(&self) -> bool {
        self.direct.height() >= HIGH
    }

    /// Returns the listing of the direct bindings, if it is kept.
    pub fn listing(&self) -> Option<&Listing>
        ensures { IfSome result (λ listing. listing.now ≡ listing_of (bindings_of self.now)) }
    {
        self.listing.as_ref()
    }

    /// Lists the direct bindings, unless the region is large. What it holds doesn't change.
    pub(crate) fn list_if_small(&mut self, alloc: Global) -> Result<(), AllocError>
        ensures { self.new ≡ self.old }
    {
        if !self.is_large() {
            self.listing = Some(self.list(alloc)?);
        }
        Ok(())
    }

    /// Returns the same region with its bindings listed, if it is large and they aren't listed yet.
    pub(crate) fn listed(&self, alloc: Global) -> Result<Option<Region>, AllocError>
        ensures { IfOk result (λ listed. IfSome listed (λ region. region ≡ self.now)) }
    {
        if self.listing.is_some() || !self.is_large() {
            return Ok(None);
        }
        Ok(Some(Region {
            fill: self.fill,
            direct: self.direct.copy()?,
            listing: Some(self.list(alloc)?),
        }))
    }
}

// Returns the leaves as entries of the map of direct bindings.
fn keyed(alloc: Global, leaves: &[(u64, Value)]) -> Result<Vec<((u64, u64), Value)>, AllocError>
    ensures { IfOk result (λ entries. entries.items ≡ keyed leaves.now) }
{
    let mut entries = Vec::with_capacity(alloc, leaves.len())?;
    for (offset, value) in leaves {
        entries.push(((*offset, 0), *value))?;
    }
    Ok(entries)
}

impl Clone for Region {
    ghost is_clone = { λ region copy. copy ≡ region };

    fn clone(&self) -> Result<Region, AllocError> {
        Ok(Region {
            fill: self.fill,
            direct: self.direct.copy()?,
            listing: self.listing.clone()?,
        })
    }
}

/// An iterator over direct bindings, in order of offset. A contract sees the remaining ones as a list of
/// offsets with their values.
#[derive(Drop)]
pub struct Bindings<'a> {
    entries: Entries<'a, Value>,
}

impl<'a> Model for Bindings<'a> {
    ghost use Rattle.std.specs.Prelude.{ℕ, List};
    ghost use Rattle.cs_store.specs.declared.value.Value.{Value as CellValue};
    ghost use Rattle.cs_store.specs.Contents.{by_number};

    ghost Value = { List (ℕ × CellValue) };

    ghost view = { λ b. by_number b.entries };
}

impl<'a> Iterator for Bindings<'a> {
    type Item = (u64, Value);

    ghost next_gives = { YieldsFirstBy (λ item. item) (λ bindings. bindings) };

    ghost remaining = { item_count (λ bindings. bindings) };

    fn next(&mut self) -> Option<(u64, Value)> {
        let ((offset, _), value) = self.entries.next()?;
        Some((offset, *value))
    }
}
