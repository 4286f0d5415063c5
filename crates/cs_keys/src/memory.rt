//! The contents of memory in words.
ghost use Rattle.std.specs.Prelude.{◌≡◌, ℕ, List, map, OnOk};
ghost use Rattle.cs_store.specs.declared.value.Value.{Value};
ghost use Rattle.cs_store.specs.Contents.{bindings_of};
ghost use Rattle.cs_store.specs.Listings.{listing_of};
ghost use Rattle.cs_keys.specs.Live.{live_binding, live_region, live_regions, live_block, live_blocks, live_read, live_reads};
ghost use Rattle.cs_word_lists.specs.Written.{with_list};
ghost use Rattle.cs_keys.specs.Words.{with_fill, with_bindings, with_region, with_standing, with_block, with_read};

use crate::word_list::Key;
use cs_constraints::Constraints;
use cs_model::Standing;
use cs_pmap::PMap;
use cs_state::{Block, ReadCell, ReadCells};
use cs_store::{Fill, Listing, Region, Store};
use cs_word_lists::one_more;
use std::alloc::AllocError;

impl Key {
    fn fill(&mut self, fill: Fill) -> Result<(), AllocError>
        ensures { OnOk result (self.new ≡ with_fill self.old fill) }
    {
        match fill {
            Fill::Unset => self.word(0),
            Fill::Zero => self.word(1),
            Fill::Input => self.word(2),
            Fill::Wrote(call, argument) => {
                self.word(call)?;
                self.word(argument)?;
                self.word(3)
            }
        }
    }

    // Writes the direct bindings of a region.
    fn bindings(&mut self, constraints: &Constraints, region: &Region) -> Result<(), AllocError>
        ensures { OnOk result
            (self.new ≡ with_bindings self.old
            (map (live_binding constraints.now) (bindings_of region.now))) }
    {
        if let Some(listing) = region.listing() {
            return self.listing(constraints, listing);
        }
        let listing = region.list(self.alloc())?;
        self.listing(constraints, &listing)
    }

    // Writes the words of a listing, and then the numbers of the symbols that it mentions.
    fn listing(&mut self, constraints: &Constraints, listing: &Listing) -> Result<(), AllocError>
        ensures { OnOk result ((bindings : List (ℕ × Value)) → listing.now ≡ listing_of bindings
            → self.new ≡ with_bindings self.old (map (live_binding constraints.now) bindings)) }
    {
        self.part(listing.words())?;
        self.all_numbers(constraints, listing.symbols())
    }

    fn region(
        &mut self,
        constraints: &Constraints,
        base: u64,
        region: &Region,
    ) -> Result<(), AllocError>
        ensures { OnOk result
            (self.new ≡ with_region self.old (live_region constraints.now (base, region.now))) }
    {
        self.word(base)?;
        self.fill(region.fill())?;
        self.bindings(constraints, region)
    }

    /// Writes a store: the base regions that hold something.
    pub(crate) fn store(
        &mut self,
        constraints: &Constraints,
        store: &Store,
    ) -> Result<(), AllocError>
        ensures { OnOk result
            (self.new ≡ with_list with_region self.old (live_regions constraints.now store.now)) }
    {
        let mut count: u64 = 0;
        for (base, region) in store.regions()? {
            self.region(constraints, base, region)?;
            count = one_more(count)?;
        }
        self.word(count)
    }

    fn standing(&mut self, standing: Standing) -> Result<(), AllocError>
        ensures { OnOk result (self.new ≡ with_standing self.old standing) }
    {
        match standing {
            Standing::Live => self.word(0),
            Standing::Freed => self.word(1),
            Standing::Ended => self.word(2),
        }
    }

    fn block(
        &mut self,
        constraints: &Constraints,
        base: u64,
        block: &Block,
    ) -> Result<(), AllocError>
        ensures { OnOk result
            (self.new ≡ with_block self.old (live_block constraints.now base block.now)) }
    {
        self.word(base)?;
        self.term(constraints, &block.extent)?;
        self.standing(block.standing)?;
        self.word(block.element.0)?;
        self.symbol(constraints, block.sym)?;
        self.word(block.made_by)
    }

    /// Writes the start blocks and heap blocks.
    pub(crate) fn blocks(
        &mut self,
        constraints: &Constraints,
        blocks: &PMap<Block>,
    ) -> Result<(), AllocError>
        ensures { OnOk result
            (self.new ≡ with_list with_block self.old (live_blocks constraints.now blocks.now)) }
    {
        let mut count: u64 = 0;
        for ((base, _), block) in blocks.iter()? {
            self.block(constraints, base, block)?;
            count = one_more(count)?;
        }
        self.word(count)
    }

    /// Writes the cells that were read from inputs.
    pub(crate) fn read(
        &mut self,
        constraints: &Constraints,
        read: &ReadCells,
    ) -> Result<(), AllocError>
        ensures { OnOk result
            (self.new ≡ with_list with_read self.old (live_reads constraints.now read.now)) }
    {
        let cells = read.in_order()?;
        self.read_cells(constraints, &cells)
    }

    fn read_cell(&mut self, constraints: &Constraints, cell: &ReadCell) -> Result<(), AllocError>
        ensures { OnOk result
            (self.new ≡ with_read self.old (live_read constraints.now cell.now)) }
    {
        self.symbol(constraints, cell.sym)?;
        self.word(cell.base)?;
        self.word(cell.offset)
    }

    fn read_cells(
        &mut self,
        constraints: &Constraints,
        cells: &[ReadCell],
    ) -> Result<(), AllocError>
        ensures { OnOk result
            (self.new ≡ with_list with_read self.old
            (map (live_read constraints.now) cells.now)) }
    {
        for cell in cells {
            self.read_cell(constraints, cell)?;
        }
        self.word(cells.len() as u64)
    }
}
