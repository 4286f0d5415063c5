//! What an exploration has found so far.
ghost use Rattle.std.specs.Prelude.{◌≡◌, ◌≤◌, ◌<◌, [], length, IfOk, OnOk};
ghost use Rattle.cs_graph.specs.Adding.{empty};
ghost use Rattle.cs_keys.specs.Live.{live_part};
ghost use Rattle.cs_keys.specs.Words.{words_of};
ghost use Rattle.cs_explored.specs.Placing.{child_row, first_row, IsPlain, KeepsEnds, AddsEnds, AddsCuts, PlacesChildren};
ghost use Rattle.cs_explored.specs.Found.{ComesFromBefore, IsSound, Grows, AreLinked, AreOfRows, IsPlaced};

use crate::child::Child;
use crate::explored::{End, Explored, Row};
use crate::visits::visits_of;
use cs_events::Outcome;
use cs_graph::{Graph, GraphRefusal};
use cs_keys::{Key, key};
use cs_results::Cut;
use cs_state::{State, Tables};
use std::alloc::{AllocError, Global};

/// The rows, ends and cuts found so far.
#[derive(Drop)]
pub struct Findings {
    pub graph: Graph<Key, Row>,
    pub ends: Vec<End>,
    pub cuts: Vec<Cut>,
    pub tables: Tables,
    /// The greatest number of rows.
    pub nodes: u64,
}

impl Findings {
    /// Returns findings without rows, ends or cuts, with a budget of `nodes` rows.
    pub fn new(alloc: Global, nodes: u64) -> Findings
        requires { nodes ≤ 200000 }
        ensures sound { IsSound result }
        ensures nodes { result.nodes ≡ nodes }
        ensures rows { length result.graph.rows ≡ 0 }
        ensures graph { result.graph ≡ empty nodes }
        ensures no_ends { result.ends.items ≡ [] }
        ensures no_cuts { result.cuts.items ≡ [] }
    {
        Findings {
            graph: Graph::new(alloc, nodes),
            ends: Vec::new(alloc),
            cuts: Vec::new(alloc),
            tables: Tables::new(alloc),
            nodes,
        }
    }

    /// Adds the row in which the entry begins; false if the graph is full.
    pub fn add_first(&mut self, alloc: Global, state: Box<State>) -> Result<bool, AllocError>
        requires none { length self.old.graph.rows ≡ 0 }
        ensures grows { OnOk result (Grows self.old self.new) }
        ensures placed { IfOk result (λ added.
            IsPlaced (words_of (live_part state.value)) (first_row state) added self.old self.new) }
        ensures rest { OnOk result (KeepsEnds self.old self.new) }
        ensures plain { OnOk result (IsPlain state.value) }
    {
        self.add(
            alloc,
            Row {
                parent: 0,
                event: None,
                guess: None,
                state,
            },
        )
    }

    /// Adds a row if no other has its key; false if the graph is full, which is listed as a cut.
    pub fn add(&mut self, alloc: Global, row: Row) -> Result<bool, AllocError>
        requires parent { ComesFromBefore (length self.old.graph.rows) row }
        ensures placed { IfOk result (λ added.
            IsPlaced (words_of (live_part row.state.value)) row added self.old self.new) }
        ensures grows { OnOk result (Grows self.old self.new) }
        ensures rest { OnOk result (KeepsEnds self.old self.new) }
        ensures plain { OnOk result (IsPlain row.state.value) }
    {
        is_plain(&row.state);
        let mut row = row;
        list(&mut row)?;
        let key = key(alloc, &*row.state)?;
        let visits = visits_of(&*row.state);
        match self.graph.add(key, visits, row) {
            Ok(_) => Ok(true),
            Err(GraphRefusal::Full) => {
                self.cuts.push(Cut::Nodes(self.nodes))?;
                Ok(false)
            }
            Err(GraphRefusal::Memory) => Err(AllocError),
        }
    }

    /// Adds the children of a row; false if the graph is full.
    pub fn add_all(&mut self, alloc: Global, row: u32, made: Vec<Child>) -> Result<bool, AllocError>
        requires { row < length self.old.graph.rows }
        ensures grows { OnOk result (Grows self.old self.new) }
        ensures all { IfOk result (λ added.
            PlacesChildren row made.items added self.old self.new) }
        ensures rest { OnOk result (KeepsEnds self.old self.new) }
    {
        for child in made {
            if !self.add(alloc, row_of(row, child))? {
                return Ok(false);
            }
        }
        Ok(true)
    }

    /// Adds ends of runs that pass a row.
    pub fn add_ends(&mut self, row: u32, ends: Vec<(Outcome, Box<State>)>) -> Result<(), AllocError>
        requires { row < length self.old.graph.rows }
        ensures grows { OnOk result (Grows self.old self.new) }
        ensures adds { OnOk result (AddsEnds row ends.items self.old self.new) }
    {
        for (outcome, state) in ends {
            is_plain(&state);
            self.ends.push(End {
                row,
                outcome,
                state,
            })?;
        }
        Ok(())
    }

    /// Adds cuts of the exploration.
    pub fn add_cuts(&mut self, cuts: &[Cut]) -> Result<(), AllocError>
        ensures grows { OnOk result (Grows self.old self.new) }
        ensures adds { OnOk result (AddsCuts cuts.now self.old self.new) }
    {
        for cut in cuts {
            self.cuts.push(*cut)?;
        }
        Ok(())
    }

    /// Returns all that was found.
    pub fn explored(self) -> Explored
        requires { IsSound self }
        ensures few { length result.rows.items ≤ self.nodes }
        ensures linked { AreLinked result.rows.items }
        ensures ends { AreOfRows result.rows.items result.ends.items }
        ensures rows { result.rows.items ≡ self.graph.rows }
        ensures all_ends { result.ends.items ≡ self.ends.items }
        ensures cuts { result.cuts.items ≡ self.cuts.items }
        ensures tables { result.tables ≡ self.tables }
    {
        let Findings {
            graph,
            ends,
            cuts,
            tables,
            nodes: _,
        } = self;
        Explored {
            rows: graph.into_rows(),
            ends,
            cuts,
            tables,
        }
    }
}

// Each value that a state holds or has read is kept under numbers beside zeros, so that a key has all of it.
fn is_plain(state: &Box<State>)
    ensures { IsPlain state.now.value }
{
    state.store.has_plain_keys();
    state.read.has_plain_cells();
}

// Lists the large tables of a row's state, so that the states after it share the listing.
fn list(row: &mut Row) -> Result<(), AllocError>
    ensures { OnOk result (row.new ≡ row.old) }
{
    row.state.list_regions()?;
    Ok(())
}

// The row of a child.
fn row_of(parent: u32, child: Child) -> Row
    ensures { result ≡ child_row parent child }
{
    let Child {
        event,
        guess,
        state,
    } = child;
    Row {
        parent,
        event: Some(event),
        guess,
        state,
    }
}
