//! Numbers of symbols, base regions and types.
use cs_regions::Base;
use cs_state::Tables;
use cs_terms::SymName;
use cs_types::{CType, IntType};
use std::test::Fail;

#[test]
fn a_name_keeps_its_number(rt: HostRuntime) -> Result<(), Fail> {
    let mut tables = Tables::new(rt.alloc());
    let first = tables.sym(SymName::Guess(3))?;
    let second = tables.sym(SymName::Guess(4))?;
    assert!(rt; first != second);
    assert!(rt; tables.sym(SymName::Guess(3))? == first);
    let heap = tables.base(Base::Heap(1))?;
    assert!(rt; tables.base(Base::Global(1))? != heap);
    assert_eq!(rt; tables.base(Base::Heap(1))?, heap);
    Ok(())
}

#[test]
fn bytes_are_behind_a_pointer_to_void(rt: HostRuntime) -> Result<(), Fail> {
    let mut tables = Tables::new(rt.alloc());
    let int = tables.element(&CType::Int(IntType::Int))?;
    let byte = tables.element(&CType::Void)?;
    assert!(rt; int != byte);
    assert!(rt; tables.element(&CType::Int(IntType::UChar))? == byte);
    assert!(rt; matches!(tables.types.ty(byte), Some(CType::Int(IntType::UChar))));
    Ok(())
}
