//! What sinks take: those in memory, what gathers before them, and the standard output.

use crate::told::sink_of;
use outside_io::{Failed, Gathering, MemorySink, Output, Sink, StdoutSink, SteadySink, put_all};
use std::alloc::Global;
use std::process::Abort;
use std::test::Fail;

// Three bytes at a time, the third put fails, and there is room for ten.
#[test]
fn a_sink_in_memory(rt: HostRuntime) -> Result<(), Fail> {
    let mut sink = sink_of(rt.alloc(), 10, 3, 3)?;
    let texts = [
        (b"abcdef".as_slice(), Ok(()), b"abcdef".as_slice()),
        (b"".as_slice(), Ok(()), b"abcdef".as_slice()),
        (b"gh".as_slice(), Err(Failed), b"abcdef".as_slice()),
        (b"gh".as_slice(), Ok(()), b"abcdefgh".as_slice()),
        (b"ijkl".as_slice(), Err(Failed), b"abcdefghij".as_slice()),
        (b"k".as_slice(), Err(Failed), b"abcdefghij".as_slice()),
    ];
    for (text, want, taken) in texts {
        assert!(rt; put_all(&mut sink, text) == want);
        assert!(rt; sink.bytes() == taken);
    }
    Ok(())
}

// There is room for six bytes; the second text exceeds it, and the third one would still fit.
#[test]
fn a_steady_sink(rt: HostRuntime) -> Result<(), Fail> {
    let mut sink = SteadySink::new(rt.alloc(), 6)?;
    for text in [b"abcd".as_slice(), b"efg", b"ef", b""] {
        assert!(rt; put_all(&mut sink, text).is_ok());
        assert!(rt; sink.bytes() == b"abcd".as_slice());
    }
    assert!(rt; sink.flush().is_ok());
    Ok(())
}

// Pieces of so many bytes, how many of them are taken, and how many bytes the sink has then.
const PIECES: [(usize, usize, usize); 6] = [
    (3000, 3000, 0),
    (5192, 5192, 0),
    (1, 1, 8192),
    (8191, 8191, 8192),
    (8193, 5000, 21384),
    (8192, 8192, 21384),
];

fn assert_gathered(
    rt: &impl Abort,
    alloc: Global,
    sink: &mut Gathering<MemorySink>,
) -> Result<(), Fail> {
    for (size, taken, put) in PIECES {
        let piece = vec![in alloc; b'a'; size]?;
        assert!(rt; !piece.is_empty());
        assert!(rt; sink.put(&piece) == Ok(taken), "{size} bytes");
        assert!(rt; sink.sink().bytes().len() == put, "after {size} bytes");
    }
    Ok(())
}

// The sink takes five thousand bytes at a time, and its seventh put fails. What it didn't take waits still.
#[test]
fn gathered_pieces(rt: HostRuntime) -> Result<(), Fail> {
    let mut sink = Gathering::of(sink_of(rt.alloc(), 40000, 5000, 7)?);
    assert_gathered(&rt, rt.alloc(), &mut sink)?;
    for (text, wanted, put) in [
        (b"".as_slice(), Err(Failed), 26384),
        (b"last", Ok(()), 29580),
    ] {
        assert!(rt; put_all(&mut sink, text).is_ok());
        assert!(rt; sink.flush() == wanted);
        assert!(rt; sink.sink().bytes().len() == put);
    }
    Ok(())
}

// Fails unless a sink takes a line and hands it on.
fn assert_takes(rt: &impl Abort, sink: &mut impl Sink) {
    assert!(rt; put_all(sink, b"a line\n").is_ok());
    assert!(rt; sink.flush().is_ok());
}

#[test]
fn writers(rt: HostRuntime) {
    assert_takes(&rt, &mut Gathering::of(Output::of(Vec::new(rt.alloc()))));
    assert_takes(&rt, &mut StdoutSink::new(&rt));
}
