//! The output and status of csa if a read or a write fails.

use cs_app::{Status, csa};
use cs_checker::add;
use cs_checks::DivideChecker;
use cs_io::{MemSink, MemSource};
use std::test::Fail;

/// A division by a parameter.
const DIVISION: &str = "int f(int x){return 10/x;}";

#[test]
fn yields_which_stream_failed(rt: HostRuntime) -> Result<(), Fail> {
    let alloc = rt.alloc();
    // The numbers of the read and the write that fail, the capacity of the sink, the status, and what is written.
    for (read, write, space, status, written) in [
        (1, 0, 64, Status::ReadFault, ""),
        (2, 0, 64, Status::ReadFault, ""),
        (0, 1, 64, Status::WriteFault, ""),
        (0, 2, 64, Status::WriteFault, "entry f complete"),
        (0, 0, 20, Status::WriteFault, "entry f complete\nrep"),
    ] {
        let words = vec![in alloc; String::from_str(alloc, "analyze")?]?;
        let bytes = Vec::from_slice(alloc, DIVISION.as_bytes())?;
        let mut source = MemSource::new(bytes, 16, vec![in alloc; read]?);
        let mut sink = MemSink::new(alloc, space, 16, vec![in alloc; write]?)?;
        let mut checkers = Vec::new(alloc);
        add(&mut checkers, Box::new(alloc, DivideChecker::new())?)?;
        let ended = csa(
            alloc,
            words.as_slice(),
            &mut source,
            &mut sink,
            &mut checkers,
        );
        assert_eq!(rt; ended, status, "{read} {write} {space}");
        assert_eq!(rt;
            sink.written(),
            written.as_bytes(),
            "{read} {write} {space}"
        );
    }
    Ok(())
}
