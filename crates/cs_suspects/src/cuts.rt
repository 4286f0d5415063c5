//! The list of an exploration's cuts.
ghost use Rattle.std.specs.Prelude.{◌≡◌, ◌≢◌, ◌++◌, [], map, All, Contains, IfOk, OnOk, MatchOption};
ghost use Rattle.std.specs.BTreeMap.{IsOrdered};
ghost use Rattle.cs_results.specs.declared.result.Cut.TheVariants.{Nodes};
ghost use Rattle.cs_findings.specs.GoodEntries.{AreCutsListed};
ghost use Rattle.cs_suspects.specs.Spots.{place_of, spot_order, cut_of_access, cut_of_nodes};
ghost use Rattle.cs_suspects.specs.Spots.{IsNodes, IsSplits, HasNodesOf};

use cs_ast::Place;
use cs_results::Cut;
use std::alloc::{AllocError, Global};
use std::collections::BTreeMap;

// The positions of the accesses that were cut, by file, line and column, each with the greatest number of offsets there.
type Splits = BTreeMap<(u32, (u32, u32)), u64>;

/// Returns the cuts in the order in which they are printed: first that of the nodes, then those of accesses by position, for each position
/// the one with the most offsets.
pub fn listed(alloc: Global, cuts: &[Cut]) -> Result<Vec<Cut>, AllocError>
    ensures sorted { IfOk result (λ listed. AreCutsListed listed.items) }
    ensures nodes { IfOk result (λ listed. HasNodesOf cuts.now listed.items) }
    ensures some { IfOk result (λ listed. listed.items ≡ [] → cuts.now ≡ []) }
    ensures alone { IfOk result (λ listed. All IsNodes cuts.now → All IsNodes listed.items) }
{
    let splits = splits_of(alloc, cuts)?;
    let mut listed = list_nodes(alloc, nodes_of(cuts))?;
    list_splits(&mut listed, &splits)?;
    Ok(listed)
}

// Lists the cut of the nodes, if there was one.
fn list_nodes(alloc: Global, nodes: Option<u64>) -> Result<Vec<Cut>, AllocError>
    ensures { IfOk result (λ listed. listed.items ≡ cut_of_nodes nodes) }
{
    let mut listed = Vec::new(alloc);
    match nodes {
        Some(nodes) => {
            listed.push(Cut::Nodes(nodes))?;
            Ok(listed)
        }
        None => Ok(listed),
    }
}

// Returns the number of nodes at which the graph was full, if it was cut.
fn nodes_of(cuts: &[Cut]) -> Option<u64>
    ensures { MatchOption result (All IsSplits cuts.now)
        (λ nodes. Contains cuts.now (Nodes nodes)) }
{
    for cut in cuts {
        if let Cut::Nodes(nodes) = *cut {
            return Some(nodes);
        }
    }
    None
}

// Returns the accesses that were cut.
fn splits_of(alloc: Global, cuts: &[Cut]) -> Result<Splits, AllocError>
    ensures ordered { IfOk result (λ splits. IsOrdered spot_order splits) }
    ensures some { IfOk result (λ splits. splits.entries ≡ [] → All IsNodes cuts.now) }
    ensures none { IfOk result (λ splits. All IsNodes cuts.now → splits.entries ≡ []) }
{
    let mut splits = BTreeMap::new(alloc);
    for cut in cuts {
        if let Cut::Splits(place, count) = *cut {
            raise(&mut splits, place, count)?;
        }
    }
    Ok(splits)
}

// Notes that the access at a position has this many offsets, unless more are noted.
fn raise(splits: &mut Splits, place: Place, count: u64) -> Result<(), AllocError>
    requires { IsOrdered spot_order splits.old }
    ensures ordered { IsOrdered spot_order splits.new }
    ensures some { OnOk result (splits.new.entries ≢ []) }
{
    let spot = spot_of(place);
    if let Some(most) = splits.get(&spot)
        && *most >= count
    {
        return Ok(());
    }
    splits.insert(spot, count)?;
    Ok(())
}

// Lists the accesses that were cut.
fn list_splits(listed: &mut Vec<Cut>, splits: &Splits) -> Result<(), AllocError>
    ensures { OnOk result (listed.new.items
        ≡ listed.old.items ++ map cut_of_access splits.now.entries) }
{
    for (spot, count) in splits {
        listed.push(Cut::Splits(place_of(*spot), *count))?;
    }
    Ok(())
}

fn spot_of(place: Place) -> (u32, (u32, u32)) {
    (place.file, (place.line, place.column))
}

fn place_of(spot: (u32, (u32, u32))) -> Place
    ensures { result ≡ place_of spot }
{
    Place {
        file: spot.0,
        line: spot.1.0,
        column: spot.1.1,
    }
}
