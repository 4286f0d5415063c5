//! The rows of an exploration.
ghost use Rattle.std.specs.Prelude.{◌≡◌, ◌<◌, ◌≤◌, [], length, IfOk, OnOk, IfErr, IfSome, IfNone};
ghost use Rattle.cs_graph.specs.Waiting.{IsGiven};
ghost use Rattle.cs_graph.specs.Adding.{empty, with_work, IsUnseen, IsNew, IsAdded, IsRefused};

use crate::adding::{Added, GraphRefusal};
use crate::placing::{number_of, put, reserve};
use crate::worklist::Worklist;
use indexmap::IndexMap;
use std::alloc::{AllocError, Global};
use std::hash::Hash;
use std::marker::Model;

/// Rows in the order in which they were added, no two with equal keys. A contract sees the keys, the rows, the rows that wait and the
/// greatest number of rows.
///
/// Each row is taken from the worklist once, those with the fewest visits first.
#[derive(Drop)]
pub struct Graph<K: Eq + Hash, R> {
    /// The keys in the order of the rows, each with its row's number.
    pub keys: IndexMap<K, u32>,
    rows: Vec<R>,
    work: Worklist,
    nodes: u64,
}

impl<K: Eq + Hash, R> Model for Graph<K, R> {
    ghost use Rattle.cs_graph.specs.Contents.{Contents, contents};
    ghost use Rattle.cs_graph.specs.Sound.{IsSound};

    ghost Value = { Contents K R };

    ghost view = { λ g. contents g.keys.entries g.rows.items g.work g.nodes };

    ghost invariant = { λ g. IsSound g.keys.entries g.rows.items g.work g.nodes };
}

impl<K: Eq + Hash, R> Graph<K, R> {
    /// Returns a graph without rows, whose budget is `nodes` rows.
    pub fn new(alloc: Global, nodes: u64) -> Graph<K, R>
        requires { nodes ≤ 200000 }
        ensures { result ≡ empty nodes }
    {
        Graph {
            keys: IndexMap::new(alloc),
            rows: Vec::new(alloc),
            work: Worklist::new(alloc),
            nodes,
        }
    }

    /// Adds a row with its key and its number of visits, unless a row has an equal key.
    pub fn add(&mut self, key: K, visits: u64, row: R) -> Result<Added, GraphRefusal>
    where
        K: Drop,
        R: Drop,
        ensures added { IfOk result (λ added.
            IsAdded K.eq key visits row added self.old self.new) }
        ensures refused { IfErr result (λ refusal.
            IsRefused K.eq key refusal self.old self.new) }
    {
        match number_of(&self.keys, &key) {
            Some(number) => Ok(Added::Old(number)),
            None => Ok(Added::New(self.add_new(key, visits, row)?)),
        }
    }

    // Adds a row whose key is new, and returns its number.
    fn add_new(&mut self, key: K, visits: u64, row: R) -> Result<u32, GraphRefusal>
    where
        K: Drop,
        R: Drop,
        requires { IsUnseen K.eq key self.old.keys }
        ensures below_limit { OnOk result (length self.old.rows < self.old.nodes) }
        ensures new { IfOk result (λ number.
            IsNew key visits row number self.old self.new) }
        ensures refused { IfErr result (λ refusal.
            IsRefused K.eq key refusal self.old self.new) }
    {
        let number = self.rows.len() as u32;
        if number as u64 == self.nodes {
            return Err(GraphRefusal::Full);
        }
        reserve(&mut self.keys, &mut self.rows)?;
        self.work.add(visits, number)?;
        put(&mut self.keys, &mut self.rows, key, number, row);
        Ok(number)
    }

    /// Returns the next row of the worklist, with the fewest visits; none if no row waits.
    pub fn next(&mut self) -> Option<u32>
        ensures some { IfSome result (λ row. IsGiven row self.old.work self.new.work) }
        ensures none { IfNone result (self.old.work ≡ []) }
        ensures rest { self.new ≡ with_work self.new.work self.old }
    {
        self.work.take()
    }

    /// Returns the rows in order.
    pub fn rows(&self) -> &[R]
        ensures { result.now ≡ self.now.rows }
    {
        self.rows.as_slice()
    }

    /// Returns the rows in order, without the rest of the graph.
    pub fn into_rows(self) -> Vec<R>
    where
        K: Drop,
        ensures { result.items ≡ self.rows }
    {
        let Graph {
            keys: _,
            rows,
            work: _,
            nodes: _,
        } = self;
        rows
    }
}
