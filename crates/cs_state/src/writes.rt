//! Writes to a state. If a call runs out of memory, the state doesn't change.
ghost use Rattle.std.specs.Prelude.{◌≡◌, ◌≢◌, ◌⊎◌, ◌++◌, [], ◌∷◌, ℕ, List, take, slice_set, None, Some, if◌then◌else◌, IfOk, OnOk, OnErr, MatchOption};
ghost use Rattle.std.specs.Option.{option_or, option_to_list};
ghost use Rattle.std.specs.List.{Contains};
ghost use Rattle.std.specs.FinMap.{insert};
ghost use Rattle.cs_ranges.specs.RangeSet.{IsInhabited};
ghost use Rattle.cs_terms.specs.Term.{IsTerm};
ghost use Rattle.cs_constraints.specs.Constraints.{set_of, IsDeclared, HasValuesInside, Keeps, RulesOut};
ghost use Rattle.cs_store.specs.declared.value.Binding.TheVariants as found;
ghost use Rattle.cs_store.specs.declared.value.Fill.TheVariants as fill;
ghost use Rattle.cs_constraints.specs.Sets.{has_sym};
ghost use Rattle.cs_store.specs.Contents.{after_leaves};
ghost use Rattle.cs_store.specs.Held.{held};
ghost use Rattle.cs_state.specs.ReadCells.{read_at, last_read, has_leaf};
ghost use Rattle.cs_state.specs.MeaningOfWrites.{MeansPushed, MeansVisited, MeansTheSame};
ghost use Rattle.cs_state.specs.Writes.{with_temporaries, at_spot, with_visits, in_frame, with_answers, with_constraints};
ghost use Rattle.cs_state.specs.Writes.{with_blocks, with_memory, with_read, with_guesses, released, IsLeft};
ghost use Rattle.cs_state.specs.Writes.{with_counters, with_phase, with_result};

use crate::asked::Asked;
use crate::block::Block;
use crate::callers::SharedFrame;
use crate::frame::Frame;
use crate::state::{Counters, State};
use crate::temporary::Temporary;
use cs_cfg::Spot;
use cs_model::Standing;
use cs_ranges::RangeSet;
use cs_store::{Fill, Value};
use cs_terms::{Lin, Sym};
use std::alloc::{AllocError, Global};

impl State {
    /// Lists the bindings of large regions for keys. The state doesn't change.
    pub fn list_regions(&mut self) -> Result<(), AllocError>
        ensures { self.new ≡ self.old }
    {
        self.store.list_large()
    }

    /// Pushes a temporary, which gets the next number.
    pub fn push(&mut self, temporary: Temporary) -> Result<(), AllocError>
        ensures ok { OnOk result
            (self.new ≡ with_temporaries (self.old.frame.temporaries ++ temporary ∷ [])
            self.old) }
        ensures means { OnOk result (MeansPushed temporary self.old self.new) }
        ensures err { OnErr result (self.new ≡ self.old) }
    {
        self.frame.temporaries.push(temporary)?;
        Ok(())
    }

    /// Removes and returns the newest temporary, if there is one.
    pub fn pop(&mut self) -> Option<Temporary>
        ensures taken { self.old
            ≡ with_temporaries (self.new.frame.temporaries ++ option_to_list result) self.new }
        ensures none { result ≡ None → self.old.frame.temporaries ≡ [] }
    {
        self.frame.temporaries.pop()
    }

    /// Drops the temporaries with this number or a greater one.
    pub fn cut(&mut self, number: usize)
        ensures { self.new ≡ with_temporaries (take number self.old.frame.temporaries) self.old }
    {
        self.frame.temporaries.cut(number);
    }

    /// Makes the running frame continue at a spot.
    pub fn go_to(&mut self, spot: Spot)
        ensures { self.new ≡ at_spot spot self.old }
    {
        self.frame.spot = spot;
    }

    /// Sets the number of visits of a counted point of the running function.
    pub fn count_visit(
        &mut self,
        alloc: Global,
        counted_point: usize,
        count: u32,
    ) -> Result<(), AllocError>
        ensures ok { OnOk result
            (self.new ≡ with_visits (slice_set self.old.frame.visits counted_point count)
            self.old) }
        ensures means { OnOk result (MeansVisited counted_point count self.old self.new) }
        ensures err { OnErr result (self.new ≡ self.old) }
    {
        let visits = self.frame.visits.with(alloc, counted_point, count)?;
        self.frame.visits = visits;
        Ok(())
    }

    /// Adds the answer to one more event of the operation in progress.
    pub fn answer(&mut self, answer: Lin) -> Result<(), AllocError>
        ensures ok { OnOk result
            (self.new ≡ with_answers (self.old.answers ++ answer ∷ []) self.old) }
        ensures err { OnErr result (self.new ≡ self.old) }
    {
        self.answers.push(answer)?;
        Ok(())
    }

    /// Removes the answers of the operation in progress, which is done.
    pub fn finish_operation(&mut self)
        ensures { self.new ≡ with_answers [] self.old }
    {
        self.answers.clear();
    }

    /// Lets a symbol have the numbers of a set.
    pub fn declare(&mut self, sym: Sym, set: RangeSet) -> Result<(), AllocError>
        requires { IsInhabited set }
        ensures here { OnOk result (set_of self.new.constraints sym.0 ≡ Some set) }
        ensures elsewhere { OnOk result ((other : ℕ) → other ≢ sym.0
            → set_of self.new.constraints other ≡ set_of self.old.constraints other) }
        ensures rest { OnOk result (self.new ≡ with_constraints self.new.constraints self.old) }
        ensures err { OnErr result (self.new ≡ self.old) }
    {
        self.constraints.declare(sym, set)?;
        Ok(())
    }

    /// Lets each of the symbols have the numbers of a set.
    pub fn declare_all(&mut self, syms: &[Sym], set: &RangeSet) -> Result<(), AllocError>
        requires { IsInhabited set.now }
        ensures sets { OnOk result ((sym : ℕ) → set_of self.new.constraints sym
            ≡ (if has_sym syms.now sym then Some set.now else set_of self.old.constraints sym)) }
        ensures rest { OnOk result (self.new ≡ with_constraints self.new.constraints self.old) }
        ensures err { OnErr result (self.new ≡ self.old) }
    {
        self.constraints.declare_all(syms, set)?;
        Ok(())
    }

    /// Returns the same state for only the runs in which a term is in a set; none if there are no such runs.
    pub fn narrowed(&self, term: Lin, set: &RangeSet) -> Result<Option<State>, AllocError>
        requires term { IsTerm term }
        requires declared { IsDeclared self.now.constraints term.sym }
        requires values { HasValuesInside self.now.constraints term }
        ensures { IfOk result (λ answer.
            MatchOption answer (RulesOut self.now.constraints term set.now) (λ kept.
            Keeps self.now.constraints term set.now kept.constraints
            × (kept ≡ with_constraints kept.constraints self.now)
            × MeansTheSame self.now kept)) }
    {
        let Some(constraints) = self.constraints.assume(term, set)? else {
            return Ok(None);
        };
        let mut kept = self.copy()?;
        kept.constraints = constraints;
        Ok(Some(kept))
    }

    /// Binds a value at an offset of a base region.
    pub fn bind(&mut self, base: u64, offset: u64, value: Value) -> Result<(), AllocError>
        ensures here { OnOk result (held self.new.store base offset ≡ found.Direct value) }
        ensures elsewhere { OnOk result ((b o : ℕ) → (b ≢ base) ⊎ (o ≢ offset)
            → held self.new.store b o ≡ held self.old.store b o) }
        ensures written { OnOk result (read_at self.new.read base offset ≡ None) }
        ensures others { OnOk result ((b o : ℕ) → (b ≢ base) ⊎ (o ≢ offset)
            → read_at self.new.read b o ≡ read_at self.old.read b o) }
        ensures rest { OnOk result
            (self.new ≡ with_memory self.new.store self.new.read self.old) }
        ensures err { OnErr result (self.new ≡ self.old) }
    {
        let mut read = self.read.copy()?;
        read.forget(base, offset)?;
        self.store.bind(base, offset, value)?;
        self.read = read;
        Ok(())
    }

    /// Binds the leaves of a struct at offsets of a base region, one after another.
    pub fn bind_all(&mut self, base: u64, leaves: &[(u64, Value)]) -> Result<(), AllocError>
        ensures here { OnOk result ((o : ℕ) → held self.new.store base o
            ≡ after_leaves leaves.now o (held self.old.store base o)) }
        ensures elsewhere { OnOk result ((b o : ℕ) → b ≢ base
            → held self.new.store b o ≡ held self.old.store b o) }
        ensures written { OnOk result ((o : ℕ) → read_at self.new.read base o
            ≡ (if has_leaf leaves.now o then None else read_at self.old.read base o)) }
        ensures others { OnOk result ((b o : ℕ) → b ≢ base
            → read_at self.new.read b o ≡ read_at self.old.read b o) }
        ensures rest { OnOk result
            (self.new ≡ with_memory self.new.store self.new.read self.old) }
        ensures err { OnErr result (self.new ≡ self.old) }
    {
        let mut read = self.read.copy()?;
        read.forget_leaves(base, leaves)?;
        self.store.copy_leaves(leaves, base)?;
        self.read = read;
        Ok(())
    }

    /// Fills a base region, which drops all its bindings.
    pub fn fill(&mut self, base: u64, fill: Fill) -> Result<(), AllocError>
        ensures here { OnOk result ((o : ℕ) → held self.new.store base o ≡ found.Fill fill) }
        ensures elsewhere { OnOk result ((b o : ℕ) → b ≢ base
            → held self.new.store b o ≡ held self.old.store b o) }
        ensures written { OnOk result ((o : ℕ) → read_at self.new.read base o ≡ None) }
        ensures others { OnOk result ((b o : ℕ) → b ≢ base
            → read_at self.new.read b o ≡ read_at self.old.read b o) }
        ensures rest { OnOk result
            (self.new ≡ with_memory self.new.store self.new.read self.old) }
        ensures err { OnErr result (self.new ≡ self.old) }
    {
        let mut read = self.read.copy()?;
        read.forget_all(base)?;
        self.store.bind_default(base, fill)?;
        self.read = read;
        Ok(())
    }

    /// Drops all bindings of base regions, as of the locals of a frame that has ended, or of a local that is
    /// declared again.
    pub fn unbind(&mut self, bases: &[u64]) -> Result<(), AllocError>
        ensures dropped { OnOk result ((b o : ℕ) → Contains bases.now b
            → held self.new.store b o ≡ found.Fill fill.Unset) }
        ensures kept { OnOk result ((b o : ℕ) → (Contains bases.now b → ⊥)
            → held self.new.store b o ≡ held self.old.store b o) }
        ensures gone { OnOk result ((b o : ℕ) → Contains bases.now b
            → read_at self.new.read b o ≡ None) }
        ensures others { OnOk result ((b o : ℕ) → (Contains bases.now b → ⊥)
            → read_at self.new.read b o ≡ read_at self.old.read b o) }
        ensures rest { OnOk result
            (self.new ≡ with_memory self.new.store self.new.read self.old) }
        ensures err { OnErr result (self.new ≡ self.old) }
    {
        let mut read = self.read.copy()?;
        read.forget_regions(bases)?;
        self.store.drop_frame(bases)?;
        self.read = read;
        Ok(())
    }

    /// Records that a cell was read from its input, which has this symbol.
    pub fn read_cell(&mut self, base: u64, offset: u64, sym: Sym) -> Result<(), AllocError>
        ensures here { OnOk result (read_at self.new.read base offset ≡ Some sym) }
        ensures elsewhere { OnOk result ((b o : ℕ) → (b ≢ base) ⊎ (o ≢ offset)
            → read_at self.new.read b o ≡ read_at self.old.read b o) }
        ensures rest { OnOk result (self.new ≡ with_read self.new.read self.old) }
        ensures err { OnErr result (self.new ≡ self.old) }
    {
        self.read.add(base, offset, sym)?;
        Ok(())
    }

    /// Records that cells of a base region were read from their inputs, which have these symbols.
    pub fn read_cells(&mut self, base: u64, cells: &[(u64, Sym)]) -> Result<(), AllocError>
        ensures here { OnOk result ((o : ℕ) → read_at self.new.read base o
            ≡ option_or (last_read cells.now o) (read_at self.old.read base o)) }
        ensures elsewhere { OnOk result ((b o : ℕ) → b ≢ base
            → read_at self.new.read b o ≡ read_at self.old.read b o) }
        ensures rest { OnOk result (self.new ≡ with_read self.new.read self.old) }
        ensures err { OnErr result (self.new ≡ self.old) }
    {
        self.read.add_all(base, cells)?;
        Ok(())
    }

    /// Sets the block of a base region: a new one, or one with another standing.
    pub fn set_block(&mut self, base: u64, block: Block) -> Result<(), AllocError>
        ensures ok { OnOk result
            (self.new ≡ with_blocks (insert self.old.blocks (base, 0) block) self.old) }
        ensures err { OnErr result (self.new ≡ self.old) }
    {
        self.blocks.insert((base, 0), block)?;
        Ok(())
    }

    /// Adds a guess.
    pub fn guess(&mut self, asked: Asked) -> Result<(), AllocError>
        ensures ok { OnOk result
            (self.new ≡ with_guesses (insert self.old.asked (asked.event, 0) asked) self.old) }
        ensures err { OnErr result (self.new ≡ self.old) }
    {
        self.asked.insert((asked.event, 0), asked)?;
        Ok(())
    }

    /// Makes a frame the running one, and the one that ran its caller.
    pub fn enter(&mut self, alloc: Global, frame: Frame) -> Result<(), AllocError>
        ensures ok { OnOk result
            (self.new ≡ in_frame frame (self.old.frame ∷ self.old.callers) self.old) }
        ensures err { OnErr result (self.new ≡ self.old) }
    {
        let caller = SharedFrame::new(alloc, self.frame.clone()?)?;
        self.callers.push(caller)?;
        self.frame = frame;
        Ok(())
    }

    /// Ends the running frame, and continues its caller; returns false if the entry's frame is running.
    pub fn leave(&mut self) -> Result<bool, AllocError>
        ensures ok { IfOk result (λ left. IsLeft left self.old self.new) }
        ensures err { OnErr result (self.new ≡ self.old) }
    {
        if self.callers.depth() == 0 {
            return Ok(false);
        }
        let Some(nearest) = self.callers.nearest() else {
            return Err(AllocError);
        };
        let frame = nearest.clone()?;
        self.callers.drop_nearest();
        self.frame = frame;
        Ok(true)
    }

    /// Marks a block as freed, if the state has it.
    pub fn release(&mut self, base: u64) -> Result<(), AllocError>
        ensures ok { OnOk result
            (self.new ≡ with_blocks (released self.old.blocks base) self.old) }
        ensures err { OnErr result (self.new ≡ self.old) }
    {
        let Some(block) = self.blocks.get((base, 0)) else {
            return Ok(());
        };
        let freed = Block {
            standing: Standing::Freed,
            ..*block
        };
        self.set_block(base, freed)
    }

    /// Sets the counters of the run.
    pub fn set_counters(&mut self, counters: Counters)
        ensures { self.new ≡ with_counters counters self.old }
    {
        self.counters = counters;
    }

    /// Sets the phase of a watched protocol.
    pub fn set_phase(&mut self, phase: u32)
        ensures { self.new ≡ with_phase phase self.old }
    {
        self.phase = phase;
    }

    /// Sets the value that the entry has returned.
    pub fn set_result(&mut self, returned: Option<Value>)
        ensures { self.new ≡ with_result returned self.old }
    {
        self.result = returned;
    }
}
