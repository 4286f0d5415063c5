//! The store: the bindings of all base regions.
ghost use Rattle.std.specs.Prelude.{◌≡◌, ◌≢◌, ◌⊎◌, ℕ, nat_eq, Some, if◌then◌else◌, IfOk, OnOk, OnErr};
ghost use Rattle.std.specs.FinMap.{get, insert};
ghost use Rattle.std.specs.Iterator.{YieldsFirstBy, item_count};
ghost use Rattle.std.specs.List.{Contains, list_any};
ghost use Rattle.cs_store.specs.Contents.{Contents, HoldsNothing, after_leaves, IsListing};
ghost use Rattle.cs_store.specs.Held.{contents_of, held, regions_of, HasPlainKeys, IsRegionListing};

use crate::region::{Bindings, Region};
use crate::value::{Binding, Fill, Value};
use cs_pmap::{Entries, PMap};
use std::alloc::{AllocError, Global};
use std::marker::Model;

/// What the cells of base regions hold: for each base region a fill, and the values that were bound at
/// offsets since. The cells of a base region that was never written are unset.
///
/// Copies share their common parts; a write to one doesn't change another.
#[derive(Drop)]
pub struct Store {
    alloc: Global,
    // Keyed by `(base region, 0)`. Each region has its own map, so that a fill drops its direct bindings at
    // once. A region that holds nothing isn't kept.
    regions: PMap<Region>,
    // The contents of each region without a key.
    unwritten: Region,
    // Whether no large region was written since they were listed.
    listed: bool,
}

impl Model for Store {
    ghost use Rattle.std.specs.Prelude.{◌≡◌};
    ghost use Rattle.std.specs.Coded.{coded×, coded_ℕ};
    ghost use Rattle.std.specs.FinMap.{code};
    ghost use Rattle.cs_store.specs.Contents.{contents_code};
    ghost use Rattle.cs_store.specs.Held.{Regions};
    ghost use Rattle.cs_store.specs.contracts.value.Fill.{the_row as fill_row};
    ghost use Rattle.cs_store.specs.contracts.value.Value.{the_row as value_row};

    ghost Value = { Regions };

    ghost coded = { code (coded× coded_ℕ coded_ℕ) (contents_code fill_row.coded value_row.coded) };

    ghost use Rattle.cs_store.specs.declared.value.Fill.TheVariants.{Unset};
    ghost use Rattle.cs_store.specs.Contents.{filled};
    ghost use Rattle.cs_store.specs.Held.{AreInUse};

    ghost view = { λ s. s.regions };

    ghost invariant = { λ s. (s.unwritten ≡ filled Unset) × AreInUse s.regions };
}

impl Store {
    /// Returns an empty store.
    pub fn new(alloc: Global) -> Store
        ensures { (base offset : ℕ) → held result base offset ≡ Binding.Fill Fill.Unset }
    {
        Store {
            alloc,
            regions: PMap::new(alloc),
            unwritten: Region::filled(alloc, Fill::Unset),
            listed: true,
        }
    }

    /// Returns the value that was last bound at the offset since the region's last fill or drop, or else its fill.
    pub fn load(&self, base: u64, offset: u64) -> Binding
        ensures { result ≡ held self.now base offset }
    {
        self.region(base).at(offset)
    }

    /// Returns a copy.
    pub fn copy(&self) -> Result<Store, AllocError>
        ensures { IfOk result (λ copy. copy ≡ self.now) }
    {
        Ok(Store {
            alloc: self.alloc,
            regions: self.regions.copy()?,
            unwritten: self.unwritten.clone()?,
            listed: self.listed,
        })
    }

    /// Binds a value at an offset.
    pub fn bind(&mut self, base: u64, offset: u64, value: Value) -> Result<(), AllocError>
        ensures here { OnOk result (held self.new base offset ≡ Binding.Direct value) }
        ensures elsewhere { OnOk result ((b o : ℕ) → (b ≢ base) ⊎ (o ≢ offset)
            → held self.new b o ≡ held self.old b o) }
        ensures err { OnErr result (self.new ≡ self.old) }
    {
        let mut region = self.region(base).clone()?;
        region.bind(offset, value)?;
        self.put(base, region)
    }

    /// Fills a base region, and drops its direct bindings.
    pub fn bind_default(&mut self, base: u64, fill: Fill) -> Result<(), AllocError>
        ensures here { OnOk result ((o : ℕ) → held self.new base o ≡ Binding.Fill fill) }
        ensures elsewhere { OnOk result ((b o : ℕ) → b ≢ base
            → held self.new b o ≡ held self.old b o) }
        ensures err { OnErr result (self.new ≡ self.old) }
    {
        if let Fill::Unset = fill {
            self.regions.remove((base, 0))?;
            return Ok(());
        }
        let region = Region::filled(self.alloc, fill);
        self.regions.insert((base, 0), region)?;
        Ok(())
    }

    /// Binds the leaves of a struct, in order. If the call runs out of memory, none is bound.
    pub fn copy_leaves(&mut self, leaves: &[(u64, Value)], base: u64) -> Result<(), AllocError>
        ensures here { OnOk result ((o : ℕ)
            → held self.new base o ≡ after_leaves leaves.now o (held self.old base o)) }
        ensures elsewhere { OnOk result ((b o : ℕ) → b ≢ base
            → held self.new b o ≡ held self.old b o) }
        ensures err { OnErr result (self.new ≡ self.old) }
    {
        if leaves.is_empty() {
            return Ok(());
        }
        let region = self.region(base).with_leaves(self.alloc, leaves)?;
        self.put(base, region)
    }

    /// Drops the contents of base regions, as of the locals of a frame that has ended. If the call runs out
    /// of memory, none is dropped.
    pub fn drop_frame(&mut self, bases: &[u64]) -> Result<(), AllocError>
        ensures dropped { OnOk result ((b o : ℕ) → Contains bases.now b
            → held self.new b o ≡ Binding.Fill Fill.Unset) }
        ensures others { OnOk result ((b o : ℕ) → (Contains bases.now b → ⊥)
            → held self.new b o ≡ held self.old b o) }
        ensures err { OnErr result (self.new ≡ self.old) }
    {
        self.regions = without(&self.regions, bases)?;
        Ok(())
    }

    /// Returns the direct bindings of a base region, in order of offset. The iterator allocates its memory
    /// here and none later.
    pub fn bindings(&self, base: u64) -> Result<Bindings<'_>, AllocError>
        ensures { IfOk result (IsListing (contents_of self.now base)) }
    {
        self.region(base).bindings()
    }

    /// Returns the base regions that hold something, with their contents, in order of number. The iterator
    /// allocates its memory here and none later.
    pub fn regions(&self) -> Result<EachRegion<'_>, AllocError>
        ensures listing { IfOk result (IsRegionListing self.now) }
        ensures entries { IfOk result (λ regions. regions ≡ regions_of self.now) }
    {
        Ok(EachRegion {
            entries: self.regions.iter()?,
        })
    }

    /// Lists the bindings of large regions, so that copies share their words; small ones are listed when they
    /// are written. What the store holds doesn't change.
    pub fn list_large(&mut self) -> Result<(), AllocError>
        ensures { self.new ≡ self.old }
    {
        if self.listed {
            return Ok(());
        }
        self.regions = listed(self.alloc, &self.regions)?;
        self.listed = true;
        Ok(())
    }

    /// The second number of each key is 0, for regions and for direct bindings.
    pub fn has_plain_keys(&self)
        ensures { HasPlainKeys self.now }
    {
        let _ = &self.regions;
    }

    // Replaces the contents of a base region, after a write.
    fn put(&mut self, base: u64, region: Region) -> Result<(), AllocError>
        requires { ¬ HoldsNothing region }
        ensures ok { OnOk result (self.new ≡ insert self.old (base, 0) region) }
        ensures err { OnErr result (self.new ≡ self.old) }
    {
        let mut region = region;
        region.has_offsets();
        region.list_if_small(self.alloc)?;
        let is_listed = self.listed && !region.is_large();
        self.regions.insert((base, 0), region)?;
        self.listed = is_listed;
        Ok(())
    }

    fn region(&self, base: u64) -> &Region
        ensures { result.now ≡ contents_of self.now base }
    {
        match self.regions.get((base, 0)) {
            Some(region) => region,
            None => &self.unwritten,
        }
    }
}

/// An iterator over base regions, in order of number. A contract sees the remaining ones as a list of numbers
/// with contents.
#[derive(Drop)]
pub struct EachRegion<'a> {
    entries: Entries<'a, Region>,
}

impl<'a> Model for EachRegion<'a> {
    ghost use Rattle.std.specs.Prelude.{ℕ, List};
    ghost use Rattle.std.specs.Coded.{coded×, coded_list, coded_ℕ};
    ghost use Rattle.cs_store.specs.Contents.{Contents, by_number, contents_code};
    ghost use Rattle.cs_store.specs.contracts.value.Fill.{the_row as fill_row};
    ghost use Rattle.cs_store.specs.contracts.value.Value.{the_row as value_row};

    ghost Value = { List (ℕ × Contents) };

    ghost coded = { coded_list (coded× coded_ℕ (contents_code fill_row.coded value_row.coded)) };

    ghost view = { λ r. by_number r.entries };
}

impl<'a> Iterator for EachRegion<'a> {
    type Item = (u64, &'a Region);

    ghost next_gives = { YieldsFirstBy (λ item. (item.0, item.1.now)) (λ regions. regions) };

    ghost remaining = { item_count (λ regions. regions) };

    fn next(&mut self) -> Option<(u64, &'a Region)> {
        let ((base, _), region) = self.entries.next()?;
        Some((base, region))
    }
}

// Returns the same regions, with the bindings of large ones listed.
fn listed(alloc: Global, regions: &PMap<Region>) -> Result<PMap<Region>, AllocError>
    ensures { IfOk result (λ listed. listed ≡ regions.now) }
{
    let mut listed = regions.copy()?;
    for (key, region) in regions.iter()? {
        if let Some(same) = region.listed(alloc)? {
            listed.insert(key, same)?;
        }
    }
    Ok(listed)
}

// Returns all other regions.
fn without(regions: &PMap<Region>, bases: &[u64]) -> Result<PMap<Region>, AllocError>
    ensures others { IfOk result (λ others.
        (b : ℕ) → get others (b, 0)
        ≡ (if list_any (λ x. nat_eq b x) bases.now then None else get regions.now (b, 0))) }
    ensures kept { IfOk result (λ others.
        (key : ℕ × ℕ) (contents : Contents) → get others key ≡ Some contents
        → get regions.now key ≡ Some contents) }
{
    let mut others = regions.copy()?;
    for base in bases {
        others.remove((*base, 0))?;
    }
    Ok(others)
}
