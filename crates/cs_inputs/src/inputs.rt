//! The inputs of a run.
ghost use Rattle.std.specs.Prelude.{◌≡◌, ◌≢◌, [], length, OnOk, OnErr};
ghost use Rattle.std.specs.BTreeMap.{insert_entry};
ghost use Rattle.std.specs.List.Sorted.{IsSearchInRange};
ghost use Rattle.cs_inputs.specs.PathOrder.{path_order};
ghost use Rattle.cs_inputs.specs.Inputs.{IsInOrder, IsPlaceOf, number_at};

use crate::path::Path;
use std::alloc::{AllocError, Global};
use std::marker::Model;

/// A map from paths to numbers, in which a path that isn't set has the number 0. A contract sees it as the list of the
/// set paths with their numbers, in path order.
#[derive(Debug, Drop)]
pub struct Inputs {
    // Sorted by path, since a run reads far more often than it sets.
    entries: Vec<(Path, i128)>,
}

impl Model for Inputs {
    ghost use Rattle.std.specs.Prelude.{List, ℤ};
    ghost use Rattle.cs_inputs.specs.declared.path.Path.{Path};
    ghost use Rattle.cs_inputs.specs.Inputs.{IsInOrder};

    ghost Value = { List (Path × ℤ) };

    ghost view = { λ i. i.entries.items };

    ghost invariant = { λ i. IsInOrder i.entries.items };
}

impl Inputs {
    /// Returns a map in which no path is set.
    pub fn new(alloc: Global) -> Inputs
        ensures { result ≡ [] }
    {
        Inputs {
            entries: Vec::new(alloc),
        }
    }

    /// Returns the path's number, 0 if it isn't set.
    pub fn get(&self, path: &Path) -> i128
        ensures { result ≡ number_at self.now path.now }
    {
        match place(self.entries.as_slice(), path) {
            Ok(at) => self.entries[at].1,
            Err(_) => 0,
        }
    }

    /// Sets the number of a path, replacing the previous one.
    pub fn set(&mut self, path: Path, number: i128) -> Result<(), AllocError>
        ensures ok { OnOk result (self.new ≡ insert_entry path_order self.old path number) }
        ensures here { OnOk result (number_at self.new path ≡ number) }
        ensures elsewhere { OnOk result ((q : Path) → q ≢ path
            → number_at self.new q ≡ number_at self.old q) }
        ensures err { OnErr result (self.new ≡ self.old) }
    {
        put(&mut self.entries, path, number)
    }

    /// Returns the set paths with their numbers, in path order.
    pub fn list(&self) -> &[(Path, i128)]
        ensures value { result.now ≡ self.now }
        ensures in_order { IsInOrder self.now }
    {
        self.entries.as_slice()
    }
}

// Sets the number of a path in entries in path order.
fn put(entries: &mut Vec<(Path, i128)>, path: Path, number: i128) -> Result<(), AllocError>
    requires { IsInOrder entries.old.items }
    ensures ok { OnOk result (entries.new.items
        ≡ insert_entry path_order entries.old.items path number) }
    ensures err { OnErr result (entries.new.items ≡ entries.old.items) }
{
    match place(entries.as_slice(), &path) {
        Ok(at) => entries[at].1 = number,
        Err(at) => entries.insert(at, (path, number))?,
    }
    Ok(())
}

// Returns the index of a path among entries in path order, or the index where it would be inserted.
fn place(entries: &[(Path, i128)], path: &Path) -> Result<usize, usize>
    requires { IsInOrder entries.now }
    ensures within { IsSearchInRange result (length entries.now) }
    ensures place { IsPlaceOf path.now entries.now result }
{
    entries.binary_search_by(|entry| entry.0.order(path))
}
