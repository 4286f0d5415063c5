//! `Constraints`, in the sense of Clang's `ConstraintManager`: `assume` adds a condition to a path or finds
//! that the path is infeasible. Each condition bounds one symbol, so that the constraints are a set of
//! numbers for each symbol.
ghost use Rattle.std.specs.Prelude.{◌≡◌, ◌≢◌, ◌≤◌, ◌^◌, true, false, ◌&&◌, unsigned_abs, ℕ, ℤ, Some, None, IsTrue, IfOk, IfSome, OnOk, OnErr, MatchOption, option_map, List, if◌then◌else◌};
ghost use Rattle.std.specs.Option.{option_copied};
ghost use Rattle.std.specs.FinMap as map;
ghost use Rattle.cs_ranges.specs.declared.range_set.Interval.{Interval};
ghost use Rattle.cs_ranges.specs.RangeSet.{contains, IsEmpty, IsInhabited, IsLeastAbs};
ghost use Rattle.cs_terms.specs.Conditions.{CanAdd, CanScale};
ghost use Rattle.cs_terms.specs.Term.{Valuation, value_of, value_at, IsTerm};
ghost use Rattle.cs_constraints.specs.Constraints.{set_of, AreInhabited, Fits, IsDeclared, HasValuesInside, HasOneNumber, HasNoSet, IsSetOf, IsNarrowed, Keeps, RulesOut};
ghost use Rattle.cs_constraints.specs.Sets.{has_sym, keyed};
ghost use Rattle.cs_constraints.specs.SetWords.{set_words};
ghost use Rattle.cs_constraints.specs.Prepared.{HasIntegers, IsPrepared, IsSameFunction, IsSeenFromLeast};

use crate::numbers::Numbers;
use crate::prepared::prepared_over;
use cs_pmap::PMap;
use cs_ranges::{RangeSet, affine_preimage, affine_value};
use cs_terms::{Lin, Sym};
use cs_word_lists::Words;
use std::alloc::{AllocError, Global};
use std::marker::Model;

/// The symbols that are declared, each with a set of numbers that isn't empty. A contract sees them as a finite map.
///
/// A valuation fits if each declared symbol has a number of its set under it, so some valuation always fits.
#[derive(Drop)]
pub struct Constraints {
    alloc: Global,
    // Keyed by `(symbol, 0)`. States share the map, and a condition changes one entry of it.
    sets: PMap<Numbers>,
}

impl Model for Constraints {
    ghost use Rattle.std.specs.Prelude.{List};
    ghost use Rattle.std.specs.FinMap as map;
    ghost use Rattle.cs_pmap.specs.Keys.{key_cmp};
    ghost use Rattle.cs_ranges.specs.declared.range_set.Interval.{Interval};
    ghost use Rattle.cs_constraints.specs.Codes.{sets_code};

    ghost Value = { map.FinMap key_cmp (List Interval) };

    ghost coded = { sets_code };

    ghost use Rattle.cs_constraints.specs.Sets.{AreInhabited};

    ghost view = { λ c. c.sets };

    ghost invariant = { λ c. AreInhabited c.sets };
}

impl Constraints {
    /// Returns constraints without declared symbols.
    pub fn new(alloc: Global) -> Constraints
        ensures { (sym : ℕ) → set_of result sym ≡ None }
    {
        Constraints {
            alloc,
            sets: PMap::new(alloc),
        }
    }

    /// Sets the numbers of the symbol, in place of those that it had.
    pub fn declare(&mut self, sym: Sym, set: RangeSet) -> Result<(), AllocError>
        requires { IsInhabited set }
        ensures here { OnOk result (set_of self.new sym.0 ≡ Some set) }
        ensures elsewhere { OnOk result ((other : ℕ) → other ≢ sym.0
            → set_of self.new other ≡ set_of self.old other) }
        ensures err { OnErr result (self.new ≡ self.old) }
    {
        let numbers = Numbers::new(self.alloc, set)?;
        self.sets.insert((sym.0, 0), numbers)
    }

    /// Sets the numbers of each of the symbols, in place of those that it had.
    pub fn declare_all(&mut self, syms: &[Sym], set: &RangeSet) -> Result<(), AllocError>
        requires { IsInhabited set.now }
        ensures sets { OnOk result ((sym : ℕ) → set_of self.new sym
            ≡ (if has_sym syms.now sym then Some set.now else set_of self.old sym)) }
        ensures err { OnErr result (self.new ≡ self.old) }
    {
        let entries = keyed(self.alloc, syms, set)?;
        self.sets.insert_all(&entries)?;
        Ok(())
    }

    /// Returns the numbers that the symbol may have, if it is declared.
    pub fn range_of(&self, sym: Sym) -> Option<&RangeSet>
        ensures set { option_copied result ≡ set_of self.now sym.0 }
        ensures inhabited { IfSome result (λ set. IsInhabited set.now) }
    {
        Some(self.sets.get((sym.0, 0))?.set())
    }

    /// Returns the words of these numbers.
    pub fn words_of(&self, sym: Sym) -> Option<&Words>
        ensures { option_copied result ≡ option_map set_words (set_of self.now sym.0) }
    {
        Some(self.sets.get((sym.0, 0))?.words())
    }

    /// Returns the number of least absolute value that the symbol may have, the positive one of two.
    pub fn solution(&self, sym: Sym) -> Option<i128>
        ensures { MatchOption result (set_of self.now sym.0 ≡ None)
            (λ number. (set : List Interval) × (set_of self.now sym.0 ≡ Some set)
            × IsLeastAbs set number) }
    {
        self.range_of(sym)?.least_abs()
    }

    /// Returns a copy.
    pub fn copy(&self) -> Result<Constraints, AllocError>
        ensures same { IfOk result (λ copy. copy ≡ self.now) }
        ensures inhabited { AreInhabited self.now }
    {
        Ok(Constraints {
            alloc: self.alloc,
            sets: self.sets.copy()?,
        })
    }

    /// Returns the term, as a constant if its symbol can only have one number.
    pub fn collapse(&self, term: Lin) -> Lin
        requires term { IsTerm term }
        requires values { HasValuesInside self.now term }
        ensures value { (v : Valuation) → Fits v self.now
            → value_of v result ≡ value_of v term }
        ensures constant { (number : ℤ) → HasOneNumber self.now term.sym number
            → result.sym ≡ None }
        ensures kept { ¬ ((number : ℤ) × HasOneNumber self.now term.sym number)
            → result ≡ term }
        ensures term { IsTerm result }
    {
        match self.only_number(term.sym) {
            Some(number) => Lin {
                sym: None,
                slope: 0,
                at: number,
                value: affine_value(term.slope, term.at, term.value, number),
            },
            None => term,
        }
    }

    /// Returns the same function in the form that arithmetic on terms requires: a constant if the symbol can
    /// only have one number, else given by its value at the symbol's least number. Allocates no memory.
    pub fn prepared(&self, term: Lin) -> Lin
        requires term { IsTerm term }
        requires values { HasValuesInside self.now term }
        ensures value { (v : Valuation) → Fits v self.now
            → value_of v result ≡ value_of v term }
        ensures constant { (number : ℤ) → HasOneNumber self.now term.sym number
            → result.sym ≡ None }
        ensures function { ¬ ((number : ℤ) × HasOneNumber self.now term.sym number)
            → IsSameFunction result term }
        ensures place { IsSeenFromLeast self.now result }
        ensures term { IsTerm result }
        ensures prepared { HasIntegers self.now term → IsPrepared self.now result }

        // So prepared terms meet what `add`, `merged` and `scale` of cs_terms require.
        ensures adds { HasIntegers self.now term → (other : Lin)
            → IsPrepared self.now other → CanAdd result other }
        ensures scales { HasIntegers self.now term → (factor : ℤ)
            → unsigned_abs factor ≤ 2 ^ 61 → CanScale result factor }
    {
        match self.numbers_of(term.sym) {
            Some(range) => prepared_over(term, range),
            None => term,
        }
    }

    // Returns the numbers of a symbol, if there is one and it is declared.
    fn numbers_of(&self, sym: Option<Sym>) -> Option<&RangeSet>
        ensures { MatchOption result (HasNoSet self.now sym) (λ set.
            IsSetOf self.now sym set.now × IsInhabited set.now) }
    {
        self.range_of(sym?)
    }

    // Returns the number of a symbol that can only have one.
    fn only_number(&self, sym: Option<Sym>) -> Option<i128>
        ensures { MatchOption result (¬ ((number : ℤ) × HasOneNumber self.now sym number))
            (HasOneNumber self.now sym) }
    {
        self.range_of(sym?)?.is_single()
    }

    /// Returns the constraints with the condition that the term is in the set, or none if no valuation that
    /// fits satisfies it.
    pub fn assume(&self, term: Lin, set: &RangeSet) -> Result<Option<Constraints>, AllocError>
        requires term { IsTerm term }
        requires declared { IsDeclared self.now term.sym }
        requires values { HasValuesInside self.now term }
        ensures { IfOk result (λ answer.
            MatchOption answer (RulesOut self.now term set.now) (Keeps self.now term set.now)) }
    {
        let Some(sym) = term.sym else {
            return self.copy_if(set.contains(term.value));
        };
        let kept = self.numbers_with(sym, term, set)?;
        self.narrowed(sym, kept)
    }

    // Returns a copy if a condition without symbols holds, else none.
    fn copy_if(&self, holds: bool) -> Result<Option<Constraints>, AllocError>
        ensures { IfOk result (λ answer.
            MatchOption answer (holds ≡ false)
            (λ copy. (holds ≡ true) × (copy ≡ self.now) × AreInhabited copy)) }
    {
        if holds {
            Ok(Some(self.copy()?))
        } else {
            Ok(None)
        }
    }

    // Returns the numbers of the symbol at which the term is in the set.
    fn numbers_with(&self, sym: Sym, term: Lin, set: &RangeSet) -> Result<RangeSet, AllocError>
        requires symbol { term.sym ≡ Some sym }
        requires values { HasValuesInside self.now term }
        ensures { IfOk result (λ kept.
            (range : List Interval) → set_of self.now sym.0 ≡ Some range
            → (x : ℤ) → contains kept x
            ≡ (contains range x && contains set.now (value_at term x))) }
    {
        match self.range_of(sym) {
            Some(range) => affine_preimage(self.alloc, term.slope, term.at, term.value, set, range),
            None => RangeSet::of(self.alloc, 1, 0),
        }
    }

    // Returns the constraints with another set for one symbol, or none if this set is empty.
    fn narrowed(&self, sym: Sym, set: RangeSet) -> Result<Option<Constraints>, AllocError>
        ensures { IfOk result (λ answer.
            MatchOption answer (IsEmpty set) (λ after.
            IsNarrowed self.now sym.0 set after × AreInhabited after)) }
    {
        if set.is_empty() {
            return Ok(None);
        }
        let mut narrowed = self.copy()?;
        narrowed.declare(sym, set)?;
        Ok(Some(narrowed))
    }
}

// Returns the set for each symbol, as entries of the map.
fn keyed(
    alloc: Global,
    syms: &[Sym],
    set: &RangeSet,
) -> Result<Vec<((u64, u64), Numbers)>, AllocError>
    ensures { IfOk result (λ entries. entries.items ≡ keyed syms.now set.now) }
{
    let numbers = Numbers::new(alloc, set.copy()?)?;
    let mut entries = Vec::with_capacity(alloc, syms.len())?;
    for sym in syms {
        entries.push(((sym.0, 0), numbers.clone()?))?;
    }
    Ok(entries)
}
