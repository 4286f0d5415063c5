//! Tests of what no clause states: that calls succeed with enough memory, the counts of calls, and sources and sinks over std.
ghost use Rattle.std.specs.Prelude.{◌≡◌, ◌≢◌, [], IfOk};

use crate::{
    Failed, MemSink, MemSource, ReadRefusal, Sink, Source, StdSink, StdSource, SureSink,
    SureSource, WriteRefusal, read_all, write_all_of,
};
use cs_limits::MOST_BYTES;
use std::alloc::{AllocError, Global};
use std::io;
use std::io::{Cursor, ErrorKind, Read, Write};
use std::test::Fail;

/// A reader and writer that always fails.
#[derive(Drop)]
struct Broken;

impl Read for Broken {
    fn read(&mut self, _buf: &mut [u8]) -> io::Result<usize> {
        Err(io::Error::from(ErrorKind::Other))
    }
}

impl Write for Broken {
    fn write(&mut self, _buf: &[u8]) -> io::Result<usize> {
        Err(io::Error::from(ErrorKind::Other))
    }

    fn flush(&mut self) -> io::Result<()> {
        Ok(())
    }
}

/// What callers know of a source that never fails.
fn read_surely(alloc: Global, bytes: Vec<u8>) -> Result<Vec<u8>, ReadRefusal>
    ensures same { IfOk result (λ read. read.items ≡ bytes.items) }
    ensures no_fault { result ≢ Err ReadRefusal.ReadFault }
{
    read_all(alloc, &mut SureSource::new(bytes))
}

/// What callers know of a source over memory if none of its calls fails.
fn read_once(source: &mut MemSource, into: &mut [u8; 8]) -> usize
    requires { source.old.plan.fails ≡ [] }
{
    source.read(into).unwrap()
}

#[test]
fn reads_through_short_calls_up_to_a_fault(rt: HostRuntime) -> Result<(), Fail> {
    let alloc = rt.alloc();
    let text = b"hello".as_slice();
    // The most that a call returns, the number of the call that fails, and whether everything is read.
    for (most, fail, whole) in [
        (1, 0, true),
        (2, 1, false),
        (2, 4, false),
        (2, 5, true),
        (9, 3, true),
    ] {
        let fails = vec![in alloc; fail]?;
        let mut source = MemSource::new(text.to_vec(alloc)?, most, fails);
        match read_all(alloc, &mut source) {
            Ok(bytes) => assert!(rt; whole && bytes.as_slice() == text, "at {most} {fail}"),
            Err(refusal) => {
                assert_eq!(rt; refusal, ReadRefusal::ReadFault);
                assert!(rt; !whole, "at {most} {fail}");
            }
        }
    }
    Ok(())
}

#[test]
fn reads_no_more_than_the_limit(rt: HostRuntime) -> Result<(), Fail> {
    let alloc = rt.alloc();
    let cases = [
        (MOST_BYTES, Ok(4_194_304)),
        (MOST_BYTES + 1, Err(ReadRefusal::TooLong)),
    ];
    for (size, want) in cases {
        let bytes = vec![in alloc; b'a'; size]?;
        assert_eq!(rt;
            read_surely(alloc, bytes).map(|read| read.len()),
            want,
            "at {size}"
        );
    }
    Ok(())
}

#[test]
fn writes_through_short_calls_up_to_a_fault(rt: HostRuntime) -> Result<(), Fail> {
    let alloc = rt.alloc();
    let text = b"hello".as_slice();
    // The capacity, the most that a call takes, the number of the call that fails, and what is written.
    let cases = [
        (5, 1, 0, b"hello".as_slice()),
        (9, 9, 2, b"hello"),
        (5, 2, 1, b""),
        (5, 2, 2, b"he"),
        (3, 2, 0, b"hel"),
        (0, 2, 0, b""),
    ];
    for (room, most, fail, written) in cases {
        let mut sink = MemSink::new(alloc, room, most, vec![in alloc; fail]?)?;
        let whole = write_all_of(&mut sink, text).is_ok();
        assert_eq!(rt; whole, written.len() == 5, "at {room} {most} {fail}");
        assert_eq!(rt; sink.written(), written, "at {room} {most} {fail}");
    }
    Ok(())
}

#[test]
fn an_empty_text_needs_no_call(rt: HostRuntime) -> Result<(), Fail> {
    let alloc = rt.alloc();
    let mut sink = MemSink::new(alloc, 0, 1, vec![in alloc; 1]?)?;
    assert_eq!(rt; write_all_of(&mut sink, b""), Ok(()));
    assert_eq!(rt; sink.written().len(), 0);
    Ok(())
}

#[test]
fn a_full_sink_takes_nothing(rt: HostRuntime) -> Result<(), Fail> {
    let mut sink = SureSink::new(rt.alloc(), 3)?;
    for (piece, taken) in [(b"ab", 2), (b"cd", 1), (b"ef", 0)] {
        assert_eq!(rt; sink.write(piece), Ok(taken));
    }
    assert_eq!(rt; sink.written(), b"abc".as_slice());
    Ok(())
}

#[test]
fn a_source_with_no_listed_call_never_fails(rt: HostRuntime) -> Result<(), Fail> {
    let alloc = rt.alloc();
    let mut source = MemSource::new(b"abc".to_vec(alloc)?, 2, Vec::new(alloc));
    let mut into = [0; 8];
    assert_eq!(rt; read_once(&mut source, &mut into), 2);
    assert_eq!(rt; &into[..3], b"ab\0".as_slice());
    Ok(())
}

#[test]
fn reads_from_std(rt: HostRuntime) -> Result<(), Fail> {
    let alloc = rt.alloc();
    let mut source = StdSource::new(b"hello".as_slice());
    assert_eq!(rt;
        read_all(alloc, &mut source)?.as_slice(),
        b"hello".as_slice()
    );
    let mut broken = StdSource::new(Broken);
    assert_eq!(rt; broken.read(&mut [0; 4]), Err(Failed));
    Ok(())
}

#[test]
fn writes_to_std(rt: HostRuntime) -> Result<(), Fail> {
    let mut room = [0; 5];
    let mut sink = StdSink::new(Cursor::new(room.as_mut_slice()));
    assert_eq!(rt; write_all_of(&mut sink, b"hel"), Ok(()));
    assert_eq!(rt;
        write_all_of(&mut sink, b"lo!"),
        Err(WriteRefusal::WriteFault)
    );
    assert_eq!(rt; StdSink::new(Broken).write(b"a"), Err(Failed));
    Ok(())
}

#[test]
fn refusals_name_their_cause(rt: HostRuntime) -> Result<(), Fail> {
    let alloc = rt.alloc();
    let texts = [
        (ReadRefusal::from(Failed), "a read failed"),
        (ReadRefusal::TooLong, "the input is too long"),
        (ReadRefusal::from(AllocError), "out of memory"),
    ];
    for (refusal, text) in texts {
        assert_eq!(rt; refusal.to_string(alloc)?.as_str(), text);
    }
    let text = WriteRefusal::from(Failed).to_string(alloc)?;
    assert_eq!(rt; text.as_str(), "a write failed");
    Ok(())
}
