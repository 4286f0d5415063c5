//! Frames, the cells that were read from inputs, and what their copies share.
use cs_cfg::Spot;
use cs_state::{Callers, Frame, ReadCells, SharedFrame, Temporaries, Temporary, Visits};
use cs_store::Value;
use cs_terms::Sym;
use std::alloc::{AllocError, Global};
use std::process::Abort;
use std::test::Fail;

// Returns a frame of a function with two counted points.
fn frame(alloc: Global, number: u64) -> Result<Frame, AllocError> {
    let mut temporaries = Temporaries::new(alloc);
    temporaries.push(Temporary::Scalar(Value::Null))?;
    temporaries.push(Temporary::Nothing)?;
    let visits = Visits::none(alloc, 2)?;
    Ok(Frame {
        number,
        spot: Spot {
            function: 0,
            block: 0,
            operation: 0,
        },
        temporaries,
        visits,
    })
}

fn shared(alloc: Global, number: u64) -> Result<SharedFrame, AllocError> {
    let frame = frame(alloc, number)?;
    SharedFrame::new(alloc, frame)
}

// Returns the callers 0, 1 and 2, of which 2 is the nearest.
fn three_callers(alloc: Global) -> Result<Callers, AllocError> {
    let mut callers = Callers::new(alloc);
    for number in 0..3 {
        callers.push(shared(alloc, number)?)?;
    }
    Ok(callers)
}

fn assert_nearest(rt: &impl Abort, callers: &Callers, number: u64) {
    match callers.nearest() {
        Some(nearest) => assert_eq!(rt; nearest.number, number),
        None => assert!(rt; false, "caller {number} is gone"),
    }
}

#[test]
fn the_nearest_caller_goes_on_first(rt: HostRuntime) -> Result<(), Fail> {
    let mut callers = three_callers(rt.alloc())?;
    let kept = callers.clone()?;
    for number in [2, 1, 0] {
        assert_nearest(&rt, &callers, number);
        callers.drop_nearest();
    }
    assert!(rt; callers.depth() == 0 && callers.nearest().is_none());
    assert_eq!(rt; kept.depth(), 3);
    Ok(())
}

#[test]
fn temporaries_are_cut_by_number(rt: HostRuntime) -> Result<(), Fail> {
    let mut frame = frame(rt.alloc(), 0)?;
    frame.temporaries.cut(1);
    assert_eq!(rt; frame.temporaries.as_slice().len(), 1);
    assert!(rt;
        matches!(
            frame.temporaries.pop(),
            Some(Temporary::Scalar(Value::Null))
        )
    );
    assert!(rt; frame.temporaries.pop().is_none());
    Ok(())
}

#[test]
fn a_visit_is_counted_in_one_copy(rt: HostRuntime) -> Result<(), Fail> {
    let visits = Visits::none(rt.alloc(), 2)?;
    let once = visits.with(rt.alloc(), 1, 1)?;
    assert_eq!(rt; visits.as_slice(), [0, 0].as_slice());
    assert_eq!(rt; once.as_slice(), [0, 1].as_slice());
    assert_eq!(rt; once.with(rt.alloc(), 2, 9)?.as_slice(), [0, 1].as_slice());
    Ok(())
}

#[test]
fn written_cells_are_read_no_more(rt: HostRuntime) -> Result<(), Fail> {
    let mut read = ReadCells::new(rt.alloc());
    read.add(1, 0, Sym(7))?;
    read.add(1, 4, Sym(8))?;
    read.add(2, 0, Sym(9))?;
    let kept = read.copy()?;
    read.forget(1, 0)?;
    assert!(rt; read.at(1, 0).is_none());
    assert!(rt; read.at(1, 4) == Some(Sym(8)));
    read.forget_regions([1, 3].as_slice())?;
    assert!(rt; read.at(1, 4).is_none());
    assert!(rt; read.at(2, 0) == Some(Sym(9)));
    assert!(rt; kept.at(1, 0) == Some(Sym(7)));
    Ok(())
}
