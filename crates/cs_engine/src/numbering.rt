//! What holds of all tables.
ghost use Rattle.cs_regions.specs.Numbering.{IsNumbered};
ghost use Rattle.cs_state.specs.Naming.{naming};
ghost use Rattle.cs_terms.specs.Table.{HasEachOnce};

use cs_state::Tables;

/// Proves that no region and no symbol has two numbers. The lengths are read for what their contracts state about the names.
pub fn have_each_once(tables: &Tables)
    ensures bases { IsNumbered (naming tables.now).bases }
    ensures syms { HasEachOnce (naming tables.now).syms }
{
    let _bases = tables.bases.names.len();
    let _syms = tables.syms.names.len();
}
