//! The labels of a function (C11 6.8.1).
ghost use Rattle.std.specs.Prelude.{◌≡◌, ◌++◌, [], ◌∷◌, ℕ, List, Some, None, nat_eq, if◌then◌else◌, OnOk, OnErr, IfOk};
ghost use Rattle.std.specs.Option.{option_or};
ghost use Rattle.std.specs.Cmp.Lexicographic.{pointwise};
ghost use Rattle.indexmap.specs.IndexMap.{get};
ghost use Rattle.cs_statements.specs.Statements.{label_number, labels_of, labels_of_item, labels_of_items, labels_of_switch_item, labels_of_switch_list};

use cs_ast::raw::statement::{RawItem, RawStmt, RawStmtKind, RawSwitchItem};
use cs_names::Name;
use indexmap::IndexMap;
use std::alloc::{AllocError, Global};
use std::marker::Model;

/// The names of labels in their order. A contract sees them as a list.
#[derive(Drop)]
pub struct Labels {
    list: Vec<Name>,
    // The number of the first label of each name.
    numbers: IndexMap<Name, u32>,
}

impl Model for Labels {
    ghost use Rattle.std.specs.Prelude.{ℕ, List};
    ghost use Rattle.cs_statements.specs.LabelNumbers.{Numbered};

    ghost Value = { List (List ℕ) };

    ghost view = { λ all. all.list.items };

    ghost invariant = { λ all. Numbered all.numbers all.list.items };
}

impl Labels {
    /// An empty list.
    fn new(alloc: Global) -> Labels
        ensures { result ≡ [] }
    {
        Labels {
            list: Vec::new(alloc),
            numbers: IndexMap::new(alloc),
        }
    }

    // Appends a label.
    fn add(&mut self, name: &Name) -> Result<(), AllocError>
        ensures { OnOk result (self.new ≡ self.old ++ name.now ∷ []) }
    {
        let number = u32::try_from(self.list.len()).map_err(|_| AllocError)?;
        self.list.push(name.copy()?)?;
        if let Err(error) = enter(&mut self.numbers, name, number) {
            let _ = self.list.pop();
            return Err(error);
        }
        Ok(())
    }

    /// Returns the number of the first label with this name.
    pub fn number_of(&self, name: &Name) -> Option<u32>
        ensures { result ≡ label_number name.now self.now }
    {
        self.numbers.get(name).copied()
    }
}

// Enters the number of a name's first label; a name that has a number keeps it.
fn enter(numbers: &mut IndexMap<Name, u32>, name: &Name, number: u32) -> Result<(), AllocError>
    ensures entered { OnOk result ((other : List ℕ)
        → get (pointwise nat_eq) numbers.new other
        ≡ option_or (get (pointwise nat_eq) numbers.old other)
        (if pointwise nat_eq name.now other then Some number else None)) }
    ensures err { OnErr result ((other : List ℕ)
        → get (pointwise nat_eq) numbers.new other ≡ get (pointwise nat_eq) numbers.old other) }
{
    if numbers.contains_key(name) {
        return Ok(());
    }
    match numbers.insert(name.copy()?, number) {
        Ok(_) => Ok(()),
        Err(_) => Err(AllocError),
    }
}

/// Returns the labels in a function's body.
pub fn labels_of_body(alloc: Global, items: &[RawItem]) -> Result<Labels, AllocError>
    ensures { IfOk result (λ labels. labels ≡ labels_of_items items.now) }
{
    let mut labels = Labels::new(alloc);
    add_from_items(&mut labels, items)?;
    Ok(labels)
}

// Adds the labels of the items of a block.
#[cycle(labels)]
fn add_from_items(labels: &mut Labels, items: &[RawItem]) -> Result<(), AllocError>
    ensures { OnOk result (labels.new ≡ labels.old ++ labels_of_items items.now) }
{
    for item in items {
        add_from_item(labels, item)?;
    }
    Ok(())
}

// Adds the labels of one item.
#[cycle(labels)]
fn add_from_item(labels: &mut Labels, item: &RawItem) -> Result<(), AllocError>
    ensures { OnOk result (labels.new ≡ labels.old ++ labels_of_item item.now) }
{
    match item {
        RawItem::Run(statement) => add_from(labels, statement),
        RawItem::Declare(_, _) => Ok(()),
    }
}

// Adds the labels of the items of a `switch`.
#[cycle(labels)]
fn add_from_switch(labels: &mut Labels, items: &[RawSwitchItem]) -> Result<(), AllocError>
    ensures { OnOk result (labels.new ≡ labels.old ++ labels_of_switch_list items.now) }
{
    for item in items {
        add_from_switch_item(labels, item)?;
    }
    Ok(())
}

// Adds the labels of one item.
#[cycle(labels)]
fn add_from_switch_item(labels: &mut Labels, item: &RawSwitchItem) -> Result<(), AllocError>
    ensures { OnOk result (labels.new ≡ labels.old ++ labels_of_switch_item item.now) }
{
    match item {
        RawSwitchItem::Item(item) => add_from_item(labels, item),
        RawSwitchItem::Case(_, _) | RawSwitchItem::Default(_) => Ok(()),
    }
}

// Adds the labels of a statement.
#[cycle(labels)]
fn add_from(labels: &mut Labels, statement: &RawStmt) -> Result<(), AllocError>
    ensures { OnOk result (labels.new ≡ labels.old ++ labels_of statement.now.kind.value) }
{
    match &*statement.kind {
        RawStmtKind::Block(items) => add_from_items(labels, items),
        RawStmtKind::Switch(_, items) => add_from_switch(labels, items),
        RawStmtKind::If(_, body) => add_from(labels, body),
        RawStmtKind::While(_, body) => add_from(labels, body),
        RawStmtKind::Do(body, _) => add_from(labels, body),
        RawStmtKind::For(_, _, _, body) => add_from(labels, body),
        RawStmtKind::IfElse(_, body, other) => {
            add_from(labels, body)?;
            add_from(labels, other)
        }
        RawStmtKind::Label(name, body) => {
            labels.add(name)?;
            add_from(labels, body)
        }
        _ => Ok(()),
    }
}
