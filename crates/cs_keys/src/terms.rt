//! Terms and values in words; each symbol is written with the numbers that it may have.
ghost use Rattle.std.specs.Prelude.{◌≡◌, map, OnOk, Some};
ghost use Rattle.cs_constraints.specs.Constraints.{set_of};
ghost use Rattle.cs_keys.specs.Live.{live_symbol, far_line, live_over, live_term, live_value};
ghost use Rattle.cs_word_lists.specs.Written.{with_list};
ghost use Rattle.cs_keys.specs.Words.{with_set, with_symbol, with_far_line, with_term, with_value};

use crate::word_list::Key;
use cs_constraints::Constraints;
use cs_store::{Value, origin};
use cs_terms::{Lin, Sym};
use std::alloc::AllocError;

impl Key {
    /// Writes the numbers of a symbol, or 0 if it isn't declared.
    pub(crate) fn numbers(&mut self, constraints: &Constraints, sym: Sym) -> Result<(), AllocError>
        ensures { OnOk result (self.new ≡ with_set self.old (set_of constraints.now sym.0)) }
    {
        match constraints.words_of(sym) {
            Some(words) => self.append(words),
            None => self.word(0),
        }
    }

    /// Writes the numbers of symbols in order, and the number of symbols.
    pub(crate) fn all_numbers(
        &mut self,
        constraints: &Constraints,
        symbols: &[Sym],
    ) -> Result<(), AllocError>
        ensures { OnOk result
            (self.new ≡ with_list with_set self.old
            (map (λ sym. set_of constraints.now sym.0) symbols.now)) }
    {
        for sym in symbols {
            self.numbers(constraints, *sym)?;
        }
        self.word(symbols.len() as u64)
    }

    /// Writes a symbol with its numbers.
    pub(crate) fn symbol(&mut self, constraints: &Constraints, sym: Sym) -> Result<(), AllocError>
        ensures { OnOk result
            (self.new ≡ with_symbol self.old (live_symbol constraints.now sym)) }
    {
        self.numbers(constraints, sym)?;
        self.word(sym.0)
    }

    // Writes a function of a symbol as its term has it.
    fn far(&mut self, constraints: &Constraints, sym: Sym, term: &Lin) -> Result<(), AllocError>
        ensures { OnOk result
            (self.new ≡ with_far_line self.old (far_line constraints.now sym term.now)) }
    {
        self.integer(term.slope)?;
        self.integer(term.at)?;
        self.integer(term.value)?;
        self.symbol(constraints, sym)
    }

    // Writes a function of a symbol, with its value at 0 if that can be computed in 128 bits.
    fn over(&mut self, constraints: &Constraints, sym: Sym, term: &Lin) -> Result<(), AllocError>
        ensures { OnOk result
            (self.new ≡ with_term self.old (live_over constraints.now (Some sym) term.now)) }
    {
        let Some(origin) = origin(term) else {
            self.far(constraints, sym, term)?;
            return self.word(2);
        };
        self.integer(term.slope)?;
        self.integer(origin)?;
        self.symbol(constraints, sym)?;
        self.word(1)
    }

    /// Writes a term.
    pub(crate) fn term(&mut self, constraints: &Constraints, term: &Lin) -> Result<(), AllocError>
        ensures { OnOk result
            (self.new ≡ with_term self.old (live_term constraints.now term.now)) }
    {
        if let Some(sym) = term.sym {
            return self.over(constraints, sym, term);
        }
        self.integer(term.value)?;
        self.word(0)
    }

    /// Writes terms in order.
    pub(crate) fn terms(
        &mut self,
        constraints: &Constraints,
        terms: &[Lin],
    ) -> Result<(), AllocError>
        ensures { OnOk result
            (self.new ≡ with_list with_term self.old
            (map (live_term constraints.now) terms.now)) }
    {
        for term in terms {
            self.term(constraints, term)?;
        }
        self.word(terms.len() as u64)
    }

    /// Writes a value.
    pub(crate) fn value(
        &mut self,
        constraints: &Constraints,
        value: &Value,
    ) -> Result<(), AllocError>
        ensures { OnOk result
            (self.new ≡ with_value self.old (live_value constraints.now value.now)) }
    {
        match value {
            Value::Number(term) => {
                self.term(constraints, term)?;
                self.word(0)
            }
            Value::Null => self.word(1),
            Value::At(base, offset) => {
                self.term(constraints, offset)?;
                self.word(*base)?;
                self.word(2)
            }
            Value::Start(base, offset) => {
                self.word(*offset)?;
                self.word(*base)?;
                self.word(3)
            }
            Value::Unset => self.word(4),
        }
    }

    /// Writes values in order.
    pub(crate) fn values(
        &mut self,
        constraints: &Constraints,
        values: &[Value],
    ) -> Result<(), AllocError>
        ensures { OnOk result
            (self.new ≡ with_list with_value self.old
            (map (live_value constraints.now) values.now)) }
    {
        for value in values {
            self.value(constraints, value)?;
        }
        self.word(values.len() as u64)
    }
}
