//! Listings: the words of the values that are bound in a region, and the symbols that they mention.
ghost use Rattle.std.specs.Prelude.{◌≡◌, ◌++◌, IfOk, OnOk};
ghost use Rattle.std.specs.Bool.{then_some};
ghost use Rattle.std.specs.Option.{option_to_list};
ghost use Rattle.cs_store.specs.Contents.{bindings_of};
ghost use Rattle.cs_store.specs.Listings.{origin_of, has_origin, list_far, list_term, list_value, symbol_in, listing_of};

use crate::region::Region;
use crate::value::Value;
use cs_terms::{Lin, Sym};
use cs_word_lists::{SharedWords, Words, one_more};
use std::alloc::{AllocError, Global};
use std::marker::Model;
use std::rc::RcSlice;

// Enough bytes for the words of most listings.
const BYTES: usize = 32;

/// The words of the values that are bound in a region, and the symbols that they mention. Copies share both.
#[derive(Drop)]
pub struct Listing {
    words: SharedWords,
    symbols: RcSlice<Sym>,
}

impl Model for Listing {
    ghost use Rattle.std.specs.Rc.{rc_slice_items};
    ghost use Rattle.cs_store.specs.Listings.{Listed};

    ghost Value = { Listed };

    ghost view = { λ l. record { words = l.words; symbols = rc_slice_items l.symbols } };
}

impl Listing {
    /// Returns the words of the values, each with its offset.
    pub fn words(&self) -> &SharedWords
        ensures { result.now ≡ self.now.words }
    {
        &self.words
    }

    /// Returns the symbols that the values mention, in order.
    pub fn symbols(&self) -> &[Sym]
        ensures { result.now ≡ self.now.symbols }
    {
        self.symbols.as_slice()
    }
}

impl Clone for Listing {
    ghost is_clone = { λ listing copy. copy ≡ listing };

    fn clone(&self) -> Result<Listing, AllocError> {
        Ok(Listing {
            words: self.words.clone()?,
            symbols: self.symbols.clone()?,
        })
    }
}

impl Region {
    /// Lists the direct bindings.
    pub fn list(&self, alloc: Global) -> Result<Listing, AllocError>
        ensures { IfOk result (λ listing. listing ≡ listing_of (bindings_of self.now)) }
    {
        let mut words = Words::with_capacity(alloc, BYTES)?;
        let mut symbols = Vec::new(alloc);
        let mut count: u64 = 0;
        for (offset, value) in self.bindings()? {
            put_value(&mut words, &value)?;
            words.word(offset)?;
            note(&mut symbols, &value)?;
            count = one_more(count)?;
        }
        words.word(count)?;
        Ok(Listing {
            words: SharedWords::new(alloc, words)?,
            symbols: RcSlice::from_vec(symbols)?,
        })
    }
}

// Adds the symbol that a value mentions, if there is one.
fn note(symbols: &mut Vec<Sym>, value: &Value) -> Result<(), AllocError>
    ensures { OnOk result (symbols.new.items
        ≡ symbols.old.items ++ option_to_list (symbol_in value.now)) }
{
    match symbol_in(value) {
        Some(sym) => {
            symbols.push(sym)?;
            Ok(())
        }
        None => Ok(()),
    }
}

fn symbol_in(value: &Value) -> Option<Sym>
    ensures { result ≡ symbol_in value.now }
{
    match value {
        Value::Number(term) => term.sym,
        Value::At(_, offset) => offset.sym,
        Value::Null | Value::Start(_, _) | Value::Unset => None,
    }
}

/// Returns the value of a term where its symbol is 0, if it can be computed in 128 bits.
pub fn origin(term: &Lin) -> Option<i128>
    ensures { result ≡ then_some (has_origin term.now) (origin_of term.now) }
{
    let product = term.slope.checked_mul(term.at)?;
    term.value.checked_sub(product)
}

fn put_term(words: &mut Words, term: &Lin) -> Result<(), AllocError>
    ensures { OnOk result (words.new ≡ list_term words.old term.now) }
{
    let Some(sym) = term.sym else {
        words.integer(term.value)?;
        return words.word(0);
    };
    let Some(origin) = origin(term) else {
        put_far(words, sym, term)?;
        return words.word(2);
    };
    words.integer(term.slope)?;
    words.integer(origin)?;
    words.word(sym.0)?;
    words.word(1)
}

// Appends a term over a symbol as it is.
fn put_far(words: &mut Words, sym: Sym, term: &Lin) -> Result<(), AllocError>
    ensures { OnOk result (words.new ≡ list_far sym words.old term.now) }
{
    words.integer(term.slope)?;
    words.integer(term.at)?;
    words.integer(term.value)?;
    words.word(sym.0)
}

fn put_value(words: &mut Words, value: &Value) -> Result<(), AllocError>
    ensures { OnOk result (words.new ≡ list_value words.old value.now) }
{
    match value {
        Value::Number(term) => {
            put_term(words, term)?;
            words.word(0)
        }
        Value::Null => words.word(1),
        Value::At(base, offset) => {
            put_term(words, offset)?;
            words.word(*base)?;
            words.word(2)
        }
        Value::Start(base, offset) => {
            words.word(*offset)?;
            words.word(*base)?;
            words.word(3)
        }
        Value::Unset => words.word(4),
    }
}
