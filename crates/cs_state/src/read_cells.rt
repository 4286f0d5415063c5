//! The cells that were read from inputs.
ghost use Rattle.std.specs.Prelude.{◌≡◌, ◌≢◌, ◌⊎◌, ◌++◌, ℕ, nat_eq, if◌then◌else◌, None, Some, IfOk, OnOk, OnErr};
ghost use Rattle.cs_terms.specs.declared.symbol.Sym as terms;
ghost use Rattle.std.specs.FinMap.{get};
ghost use Rattle.std.specs.List.{Contains, list_any};
ghost use Rattle.std.specs.Option.{option_or};
ghost use Rattle.cs_state.specs.ReadCells.{SymMap, cells_of, read_at, keyed, last_read, has_leaf, HasPlainCells};
ghost use Rattle.cs_state.specs.ReadLists.{cells_at, cells_in_order};

use cs_pmap::PMap;
use cs_store::Value;
use cs_terms::Sym;
use std::alloc::{AllocError, Global};
use std::marker::Model;

/// A cell that was read from an input, with the symbol of the input.
#[derive(Clone, Copy)]
pub struct ReadCell {
    pub base: u64,
    pub offset: u64,
    pub sym: Sym,
}

// The cells of one base region.
#[derive(Drop)]
pub(crate) struct Cells {
    // Keyed by `(offset, 0)`.
    syms: PMap<Sym>,
}

impl Model for Cells {
    ghost use Rattle.cs_state.specs.ReadCells.{SymMap, sym_map_code};

    ghost Value = { SymMap };

    ghost coded = { sym_map_code };

    ghost view = { λ c. c.syms };
}

impl Clone for Cells {
    ghost is_clone = { λ cells copy. copy ≡ cells };

    fn clone(&self) -> Result<Cells, AllocError> {
        Ok(Cells {
            syms: self.syms.copy()?,
        })
    }
}

/// The cells of base regions that were read from inputs and not written since, each with the symbol of its
/// input. Copies share their common parts.
#[derive(Drop)]
pub struct ReadCells {
    alloc: Global,
    // Keyed by `(base region, 0)`. Each region has its own map, so that all its cells can be removed at once.
    bases: PMap<Cells>,
}

impl Model for ReadCells {
    ghost use Rattle.cs_state.specs.ReadCells.{ReadMap, read_map_code};

    ghost Value = { ReadMap };

    ghost coded = { read_map_code };

    ghost use Rattle.cs_state.specs.ReadCells.{HasPlainCells};

    ghost view = { λ r. r.bases };

    ghost invariant = { λ r. HasPlainCells r.bases };
}

impl ReadCells {
    /// Returns a set without cells.
    pub fn new(alloc: Global) -> ReadCells
        ensures { (base offset : ℕ) → read_at result base offset ≡ None }
    {
        ReadCells {
            alloc,
            bases: PMap::new(alloc),
        }
    }

    /// Returns the symbol of the cell at an offset of a base region, if the cell was read.
    pub fn at(&self, base: u64, offset: u64) -> Option<Sym>
        ensures { result ≡ read_at self.now base offset }
    {
        match self.bases.get((base, 0)) {
            Some(cells) => cells.at(offset),
            None => None,
        }
    }

    /// Adds a cell.
    pub fn add(&mut self, base: u64, offset: u64, sym: Sym) -> Result<(), AllocError>
        ensures here { OnOk result (read_at self.new base offset ≡ Some sym) }
        ensures elsewhere { OnOk result ((b o : ℕ) → (b ≢ base) ⊎ (o ≢ offset)
            → read_at self.new b o ≡ read_at self.old b o) }
        ensures err { OnErr result (self.new ≡ self.old) }
    {
        let mut cells = self.cells(base)?;
        cells.syms.insert((offset, 0), sym)?;
        self.bases.insert((base, 0), cells)?;
        Ok(())
    }

    /// Adds cells of a base region, one after another.
    pub fn add_all(&mut self, base: u64, read: &[(u64, Sym)]) -> Result<(), AllocError>
        ensures here { OnOk result ((o : ℕ) → read_at self.new base o
            ≡ option_or (last_read read.now o) (read_at self.old base o)) }
        ensures elsewhere { OnOk result ((b o : ℕ) → b ≢ base
            → read_at self.new b o ≡ read_at self.old b o) }
        ensures err { OnErr result (self.new ≡ self.old) }
    {
        let entries = keyed(self.alloc, read)?;
        let mut syms = self.cells(base)?.syms;
        syms.insert_all(&entries)?;
        self.bases.insert((base, 0), Cells { syms })?;
        Ok(())
    }

    /// Removes a cell, which was written.
    pub fn forget(&mut self, base: u64, offset: u64) -> Result<(), AllocError>
        ensures here { OnOk result (read_at self.new base offset ≡ None) }
        ensures elsewhere { OnOk result ((b o : ℕ) → (b ≢ base) ⊎ (o ≢ offset)
            → read_at self.new b o ≡ read_at self.old b o) }
        ensures err { OnErr result (self.new ≡ self.old) }
    {
        if self.at(base, offset).is_none() {
            return Ok(());
        }
        let mut cells = self.cells(base)?;
        cells.syms.remove((offset, 0))?;
        self.bases.insert((base, 0), cells)?;
        Ok(())
    }

    /// Removes the cells of these leaves, which were written.
    pub fn forget_leaves(&mut self, base: u64, leaves: &[(u64, Value)]) -> Result<(), AllocError>
        ensures here { OnOk result ((o : ℕ) → read_at self.new base o
            ≡ (if has_leaf leaves.now o then None else read_at self.old base o)) }
        ensures elsewhere { OnOk result ((b o : ℕ) → b ≢ base
            → read_at self.new b o ≡ read_at self.old b o) }
        ensures err { OnErr result (self.new ≡ self.old) }
    {
        let Some(cells) = self.bases.get((base, 0)) else {
            return Ok(());
        };
        let syms = without_leaves(&cells.syms, leaves)?;
        self.bases.insert((base, 0), Cells { syms })?;
        Ok(())
    }

    /// Removes all cells of a base region, which was written as a whole.
    pub fn forget_all(&mut self, base: u64) -> Result<(), AllocError>
        ensures here { OnOk result ((o : ℕ) → read_at self.new base o ≡ None) }
        ensures elsewhere { OnOk result ((b o : ℕ) → b ≢ base
            → read_at self.new b o ≡ read_at self.old b o) }
        ensures err { OnErr result (self.new ≡ self.old) }
    {
        self.bases.remove((base, 0))?;
        Ok(())
    }

    /// Removes all cells of these base regions.
    pub fn forget_regions(&mut self, bases: &[u64]) -> Result<(), AllocError>
        ensures gone { OnOk result ((b o : ℕ) → Contains bases.now b
            → read_at self.new b o ≡ None) }
        ensures others { OnOk result ((b o : ℕ) → (Contains bases.now b → ⊥)
            → read_at self.new b o ≡ read_at self.old b o) }
        ensures err { OnErr result (self.new ≡ self.old) }
    {
        self.bases = without(&self.bases, bases)?;
        Ok(())
    }

    /// Returns the cells in order of base region and offset.
    pub fn in_order(&self) -> Result<Vec<ReadCell>, AllocError>
        ensures { IfOk result (λ cells. cells.items ≡ cells_in_order self.now) }
    {
        let mut list = Vec::new(self.alloc);
        for ((base, _), cells) in self.bases.iter()? {
            cells.append_to(&mut list, base)?;
        }
        Ok(list)
    }

    /// Returns a copy.
    pub fn copy(&self) -> Result<ReadCells, AllocError>
        ensures { IfOk result (λ copy. copy ≡ self.now) }
    {
        Ok(ReadCells {
            alloc: self.alloc,
            bases: self.bases.copy()?,
        })
    }

    /// The second number of each key is 0, for base regions and for cells.
    pub fn has_plain_cells(&self)
        ensures { HasPlainCells self.now }
    {
        let _ = &self.bases;
    }

    // Returns a copy of the cells of a base region.
    fn cells(&self, base: u64) -> Result<Cells, AllocError>
        ensures { IfOk result (λ cells. cells ≡ cells_of self.now base) }
    {
        match self.bases.get((base, 0)) {
            Some(cells) => cells.clone(),
            None => Ok(Cells {
                syms: PMap::new(self.alloc),
            }),
        }
    }
}

// Returns the cells of all other base regions.
fn without(cells: &PMap<Cells>, bases: &[u64]) -> Result<PMap<Cells>, AllocError>
    ensures others { IfOk result (λ others.
        (b : ℕ) → get others (b, 0)
        ≡ (if list_any (λ x. nat_eq b x) bases.now then None else get cells.now (b, 0))) }
    ensures kept { IfOk result (λ others. (key : ℕ × ℕ) (found : SymMap)
        → get others key ≡ Some found → get cells.now key ≡ Some found) }
{
    let mut others = cells.copy()?;
    for base in bases {
        others.remove((*base, 0))?;
    }
    Ok(others)
}

// Returns the cells except those at the offsets of leaves.
fn without_leaves(syms: &PMap<Sym>, leaves: &[(u64, Value)]) -> Result<PMap<Sym>, AllocError>
    ensures others { IfOk result (λ others.
        (o : ℕ) → get others (o, 0)
        ≡ (if has_leaf leaves.now o then None else get syms.now (o, 0))) }
    ensures kept { IfOk result (λ others. (key : ℕ × ℕ) (sym : terms.Sym)
        → get others key ≡ Some sym → get syms.now key ≡ Some sym) }
{
    let mut others = syms.copy()?;
    for (offset, _) in leaves {
        others.remove((*offset, 0))?;
    }
    Ok(others)
}

// Returns cells as entries of a map.
fn keyed(alloc: Global, read: &[(u64, Sym)]) -> Result<Vec<((u64, u64), Sym)>, AllocError>
    ensures { IfOk result (λ entries. entries.items ≡ keyed read.now) }
{
    let mut entries = Vec::with_capacity(alloc, read.len())?;
    for (offset, sym) in read {
        entries.push(((*offset, 0), *sym))?;
    }
    Ok(entries)
}

impl Cells {
    // Appends these cells of a base region to a list.
    fn append_to(&self, list: &mut Vec<ReadCell>, base: u64) -> Result<(), AllocError>
        ensures { OnOk result (list.new.items ≡ list.old.items ++ cells_at base self.now) }
    {
        for ((offset, _), sym) in self.syms.iter()? {
            list.push(ReadCell {
                base,
                offset,
                sym: *sym,
            })?;
        }
        Ok(())
    }

    fn at(&self, offset: u64) -> Option<Sym>
        ensures { result ≡ get self.now (offset, 0) }
    {
        match self.syms.get((offset, 0)) {
            Some(sym) => Some(*sym),
            None => None,
        }
    }
}
