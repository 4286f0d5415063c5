//! Numbers of base regions of each kind, with enough memory.
use cs_inputs::{Cells, Path, Root};
use cs_names::Name;
use cs_regions::{Base, BaseTable};
use std::alloc::{AllocError, Global};
use std::process::Abort;
use std::test::Fail;

fn start_block(alloc: Global, parameter: &str) -> Result<Base, AllocError> {
    let root = Root::Param(Name::from_slice(alloc, parameter.as_bytes())?);
    let cells = Cells::new(alloc);
    Ok(Base::Entry(Path { root, cells }))
}

fn assert_number(
    rt: &impl Abort,
    table: &mut BaseTable,
    base: Base,
    number: u64,
) -> Result<(), AllocError> {
    let given = table.number_of(base)?;
    assert_eq!(rt; given, number);
    Ok(())
}

// Tests the numbers of the bases, in the order in which they are first used.
fn assert_numbers(rt: &impl Abort, alloc: Global, table: &mut BaseTable) -> Result<(), AllocError> {
    assert_number(rt, table, start_block(alloc, "p")?, 0)?;
    assert_number(rt, table, Base::Global(3), 1)?;
    assert_number(rt, table, Base::Local { frame: 1, decl: 3 }, 2)?;
    assert_number(rt, table, Base::Literal(3), 3)?;
    assert_number(rt, table, Base::Heap(3), 4)?;
    assert_number(rt, table, Base::Local { frame: 2, decl: 3 }, 5)?;
    assert_number(rt, table, start_block(alloc, "p")?, 0)?;
    assert_number(rt, table, start_block(alloc, "q")?, 6)?;
    assert_number(rt, table, Base::Heap(3), 4)
}

#[test]
fn a_base_keeps_the_number_of_its_first_sight(rt: HostRuntime) -> Result<(), Fail> {
    let mut table = BaseTable::new(rt.alloc());
    assert_numbers(&rt, rt.alloc(), &mut table)?;
    assert!(rt; table.base(4) == Some(&Base::Heap(3)));
    assert!(rt; table.base(7).is_none());
    Ok(())
}
