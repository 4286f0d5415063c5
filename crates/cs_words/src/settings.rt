//! The values of the options that were found.
ghost use Rattle.std.specs.Prelude.{◌≡◌, true, false, MatchOption, IfOk, unwrap_or, option_map};
ghost use Rattle.cs_inputs.specs.PathText as spelling;
ghost use Rattle.cs_words.specs.Scan as scanned;
ghost use Rattle.cs_words.specs.Scan.{IsSetTo, IsSetBesides, HasValue, AreKindsOf, are_kinds};

use crate::kinds::{Kinds, are_kinds};
use crate::name::is_name;
use crate::option_name::OptionName;
use crate::value::{format_named, model_named, number_in};
use cs_events::RunBudgets;
use cs_names::Name;
use cs_results::Budgets;
use cs_types::DataModel;
use std::alloc::{AllocError, Global};

/// The values of the options that were found. For kinds and for an entry, it is the text.
#[derive(Clone, Copy, Debug)]
pub struct Settings<'a> {
    pub visits: Option<u32>,
    pub depth: Option<u32>,
    pub events: Option<u32>,
    pub nodes: Option<u32>,
    pub splits: Option<u32>,
    pub kinds: Option<&'a [u8]>,
    pub entry: Option<&'a [u8]>,
    pub json: Option<bool>,
    pub model: Option<DataModel>,
}

impl<'a> Settings<'a> {
    /// Returns settings without any option.
    pub fn none() -> Settings<'a>
        ensures { (setting : scanned.OptionName) → IsSetTo setting None result }
    {
        Settings {
            visits: None,
            depth: None,
            events: None,
            nodes: None,
            splits: None,
            kinds: None,
            entry: None,
            json: None,
            model: None,
        }
    }

    /// Whether an option was found.
    pub fn has(self, setting: OptionName) -> bool
        ensures { result ≡ scanned.is_set setting self.entry }
    {
        match setting {
            OptionName::Visits => self.visits.is_some(),
            OptionName::Depth => self.depth.is_some(),
            OptionName::Events => self.events.is_some(),
            OptionName::Nodes => self.nodes.is_some(),
            OptionName::Splits => self.splits.is_some(),
            OptionName::Kinds => self.kinds.is_some(),
            OptionName::Entry => self.entry.is_some(),
            OptionName::Format => self.json.is_some(),
            OptionName::Model => self.model.is_some(),
        }
    }

    /// Returns the settings with one more, if the text is that of a value of the option.
    pub fn with(self, setting: OptionName, text: &'a [u8]) -> Option<Settings<'a>>
        ensures { MatchOption result (HasValue setting text.now
            → ⊥) (λ after. IsSetBesides setting text.now self.entry after) }
    {
        match setting {
            OptionName::Visits => Some(Settings {
                visits: Some(number_in(text, 1, 1_000)?),
                ..self
            }),
            OptionName::Depth => Some(Settings {
                depth: Some(number_in(text, 1, 64)?),
                ..self
            }),
            OptionName::Events => Some(Settings {
                events: Some(number_in(text, 1, 1_000_000)?),
                ..self
            }),
            OptionName::Nodes => Some(Settings {
                nodes: Some(number_in(text, 1, 200_000)?),
                ..self
            }),
            OptionName::Splits => Some(Settings {
                splits: Some(number_in(text, 1, 4_096)?),
                ..self
            }),
            OptionName::Kinds => Some(Settings {
                kinds: Some(kinds_text(text)?),
                ..self
            }),
            OptionName::Entry => Some(Settings {
                entry: Some(name_text(text)?),
                ..self
            }),
            OptionName::Format => Some(Settings {
                json: Some(format_named(text)?),
                ..self
            }),
            OptionName::Model => Some(Settings {
                model: Some(model_named(text)?),
                ..self
            }),
        }
    }

    /// Returns the budgets of a run, with their defaults.
    pub fn run_budgets(&self) -> RunBudgets
        ensures visits { result.visits ≡ unwrap_or self.now.visits 4 }
        ensures depth { result.depth ≡ unwrap_or self.now.depth 5 }
        ensures events { result.events ≡ unwrap_or self.now.events 20000 }
    {
        RunBudgets {
            visits: self.visits.unwrap_or(4),
            depth: self.depth.unwrap_or(5),
            events: u64::from(self.events.unwrap_or(20_000)),
        }
    }

    /// Returns the budgets of an analysis, with their defaults.
    pub fn budgets(&self) -> Budgets
        ensures visits { result.visits ≡ unwrap_or self.now.visits 4 }
        ensures depth { result.depth ≡ unwrap_or self.now.depth 5 }
        ensures events { result.events ≡ unwrap_or self.now.events 20000 }
        ensures nodes { result.nodes ≡ unwrap_or self.now.nodes 150000 }
        ensures splits { result.splits ≡ unwrap_or self.now.splits 64 }
    {
        Budgets {
            visits: self.visits.unwrap_or(4),
            depth: self.depth.unwrap_or(5),
            events: u64::from(self.events.unwrap_or(20_000)),
            nodes: u64::from(self.nodes.unwrap_or(150_000)),
            splits: u64::from(self.splits.unwrap_or(64)),
        }
    }

    /// Returns the kinds whose reports are printed, by default all.
    pub fn kinds(&self, alloc: Global) -> Result<Kinds, AllocError>
        ensures { IfOk result (AreKindsOf self.now.kinds) }
    {
        match self.kinds {
            Some(text) => Kinds::named(alloc, text),
            None => Kinds::every(alloc),
        }
    }

    /// Returns the name of the function that is analyzed, if one is given.
    pub fn entry(&self, alloc: Global) -> Result<Option<Name>, AllocError>
        ensures { IfOk result (λ entry. entry ≡ option_map (λ text. text.now) self.now.entry) }
    {
        match self.entry {
            Some(text) => Ok(Some(Name::from_slice(alloc, text)?)),
            None => Ok(None),
        }
    }

    /// Returns the data model, by default LP64.
    pub fn data_model(&self) -> DataModel
        ensures { result ≡ unwrap_or self.now.model DataModel.Lp64 }
    {
        self.model.unwrap_or(DataModel::Lp64)
    }

    /// Whether the output is JSON; by default it isn't.
    pub fn json(&self) -> bool
        ensures { result ≡ unwrap_or self.now.json false }
    {
        self.json.unwrap_or(false)
    }
}

// Returns the text of a list of kinds, if it is one.
fn kinds_text(text: &[u8]) -> Option<&[u8]>
    ensures { MatchOption result (are_kinds text.now ≡ false) (λ found.
        (found.now ≡ text.now) × (are_kinds text.now ≡ true)) }
{
    if are_kinds(text) { Some(text) } else { None }
}

// Returns the text of a name, if it is one.
fn name_text(text: &[u8]) -> Option<&[u8]>
    ensures { MatchOption result (spelling.is_name text.now ≡ false) (λ found.
        (found.now ≡ text.now) × (spelling.is_name text.now ≡ true)) }
{
    if is_name(text) { Some(text) } else { None }
}
