//! Stores written and read, with enough memory.
use cs_store::{Binding, Fill, Store, Value, Write, replayed};
use cs_terms::Lin;
use std::alloc::{AllocError, Global};
use std::process::Abort;
use std::test::Fail;

fn number(value: i128) -> Value {
    Value::Number(Lin {
        sym: None,
        slope: 0,
        at: 0,
        value,
    })
}

// Returns a store with two inputs and a null in region 1, of which one input was overwritten, and two scalars in region 2.
fn written(alloc: Global) -> Result<Store, AllocError> {
    let mut store = Store::new(alloc);
    store.bind(1, 4, number(7))?;
    store.bind_default(1, Fill::Input)?;
    store.bind(1, 8, number(5))?;
    store.bind(1, 0, Value::Null)?;
    store.copy_leaves(
        &[(0, number(1)), (4, Value::Start(6, 16)), (0, number(3))],
        2,
    )?;
    Ok(store)
}

fn assert_held(rt: &impl Abort, store: &Store) {
    assert!(rt; store.load(1, 0) == Binding::Direct(Value::Null));
    assert!(rt; store.load(1, 4) == Binding::Fill(Fill::Input));
    assert!(rt; store.load(1, 8) == Binding::Direct(number(5)));
    assert!(rt; store.load(2, 0) == Binding::Direct(number(3)));
    assert!(rt; store.load(2, 4) == Binding::Direct(Value::Start(6, 16)));
    assert!(rt; store.load(2, 8) == Binding::Fill(Fill::Unset));
    assert!(rt; store.load(3, 0) == Binding::Fill(Fill::Unset));
}

#[test]
fn loads_the_last_binding_or_the_fill(rt: HostRuntime) -> Result<(), Fail> {
    let store = written(rt.alloc())?;
    assert_held(&rt, &store);
    Ok(())
}

// Returns the bindings of a region, each with its offset.
fn bindings_text(alloc: Global, store: &Store, base: u64) -> Result<String, AllocError> {
    let mut text = String::new(alloc);
    for (offset, value) in store.bindings(base)? {
        write!(text, "{offset} {value:?};")?;
    }
    Ok(text)
}

#[test]
fn lists_the_bindings_of_a_region(rt: HostRuntime) -> Result<(), Fail> {
    let store = written(rt.alloc())?;
    let listed = bindings_text(rt.alloc(), &store, 1)?;
    let five = "Number(Lin { sym: None, slope: 0, at: 0, value: 5 })";
    let wanted = format!(in rt.alloc(); "0 Null;8 {five};")?;
    assert_eq!(rt; listed, wanted);
    let listed = bindings_text(rt.alloc(), &store, 3)?;
    assert_eq!(rt; listed.as_str(), "");
    Ok(())
}

// Returns the regions, each with its fill and its contents at 0.
fn regions_text(alloc: Global, store: &Store) -> Result<String, AllocError> {
    let mut text = String::new(alloc);
    for (base, region) in store.regions()? {
        write!(text, "{base} {:?} {:?};", region.fill(), region.at(0))?;
    }
    Ok(text)
}

fn fill_more(store: &mut Store) -> Result<(), AllocError> {
    store.bind_default(7, Fill::Zero)?;
    store.bind_default(0, Fill::Wrote(3, 1))?;
    store.bind_default(5, Fill::Unset)?;
    store.drop_frame(&[7])
}

#[test]
fn lists_the_regions_that_hold_something(rt: HostRuntime) -> Result<(), Fail> {
    let mut store = written(rt.alloc())?;
    fill_more(&mut store)?;
    let listed = regions_text(rt.alloc(), &store)?;
    let three = "Number(Lin { sym: None, slope: 0, at: 0, value: 3 })";
    let first = "0 Wrote(3, 1) Fill(Wrote(3, 1));1 Input Direct(Null);";
    let wanted = format!(in rt.alloc(); "{first}2 Unset Direct({three});")?;
    assert_eq!(rt; listed, wanted);
    Ok(())
}

#[test]
fn a_dropped_frame_is_gone_from_one_copy_alone(rt: HostRuntime) -> Result<(), Fail> {
    let store = written(rt.alloc())?;
    let mut other = store.copy()?;
    other.drop_frame(&[5, 1])?;
    assert!(rt; other.load(1, 8) == Binding::Fill(Fill::Unset));
    assert!(rt; other.load(2, 0) == Binding::Direct(number(3)));
    assert!(rt; store.load(1, 8) == Binding::Direct(number(5)));
    Ok(())
}

#[test]
fn replays_writes_in_order(rt: HostRuntime) -> Result<(), Fail> {
    let bind = |base, offset, value| Write::Bind {
        base,
        offset,
        value,
    };
    let fill = Fill::Wrote(1, 0);
    let writes = [
        bind(0, 4, Value::Null),
        Write::Default { base: 0, fill },
        bind(0, 8, number(3)),
    ];
    let store = replayed(rt.alloc(), &writes)?;
    assert!(rt; store.load(0, 4) == Binding::Fill(fill));
    assert!(rt; store.load(0, 8) == Binding::Direct(number(3)));
    Ok(())
}
