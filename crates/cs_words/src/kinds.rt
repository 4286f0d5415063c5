//! Lists of kinds of faults.
ghost use Rattle.std.specs.Prelude.{◌≡◌, [], ◌==◌, is_some, IfOk, IsTrue};
ghost use Rattle.std.specs.List.{list_all, filter_map, slice_split};
ghost use Rattle.cs_results.specs.Selected as selected;
ghost use Rattle.cs_words.specs.Scan.{kind_of, are_kinds};

use cs_model::Kind;
use cs_results::every_kind;
use std::alloc::{AllocError, Global};
use std::marker::Model;

/// Kinds of faults, perhaps with duplicates. In contracts it is a list.
#[derive(Debug, Drop)]
pub struct Kinds {
    list: Vec<Kind>,
}

impl Model for Kinds {
    ghost use Rattle.std.specs.Prelude.{List};
    ghost use Rattle.cs_model.specs.declared.kind.Kind.{Kind};

    ghost Value = { List Kind };

    ghost view = { λ kinds. kinds.list.items };
}

impl Kinds {
    /// Returns every kind, by number.
    pub fn every(alloc: Global) -> Result<Kinds, AllocError>
        ensures { IfOk result (λ kinds. kinds ≡ selected.every_kind) }
    {
        Ok(Kinds {
            list: Vec::from_slice(alloc, every_kind().as_slice())?,
        })
    }

    /// Returns the kinds that a text names between its commas. It skips names that aren't kinds.
    pub fn named(alloc: Global, text: &[u8]) -> Result<Kinds, AllocError>
        ensures { IfOk result (λ kinds.
            kinds ≡ filter_map kind_of (slice_split (λ b. b == 44) text.now)) }
    {
        Ok(Kinds {
            list: kinds_named(alloc, text)?,
        })
    }

    /// Returns the kinds in order.
    pub fn as_slice(&self) -> &[Kind]
        ensures { result.now ≡ self.now }
    {
        self.list.as_slice()
    }
}

/// Whether a text consists of names of kinds with commas between them.
pub fn are_kinds(text: &[u8]) -> bool
    ensures { result ≡ are_kinds text.now }
{
    text.split(|byte| *byte == b',')
        .all(|name| kind_named(name).is_some())
}

// Returns the kinds that a text names between its commas.
fn kinds_named(alloc: Global, text: &[u8]) -> Result<Vec<Kind>, AllocError>
    ensures { IfOk result (λ list.
        list.items ≡ filter_map kind_of (slice_split (λ b. b == 44) text.now)) }
{
    text.split(|byte| *byte == b',')
        .filter_map(|name| kind_named(name))
        .collect(alloc)
}

// Returns the kind with this name, if there is one.
fn kind_named(name: &[u8]) -> Option<Kind>
    ensures { result ≡ kind_of name.now }
{
    every_kind()
        .iter()
        .copied()
        .find(|kind| kind.name().as_bytes() == name)
}
