//! The sources and the sinks of bytes: what each call moves, and where it fails.

ghost use Rattle.std.specs.Prelude.{◌≡◌, ◌<◌, ◌≤◌, length, Some, IfOk};
ghost use Rattle.edge_io.specs.SteadySink.{told};

use edge_io::memory_sink::ROOM;
use edge_io::{
    Failed, MemorySink, MemorySource, Sink, Source, StdSink, StdSource, SteadySink, SteadySource,
};
use std::alloc::{AllocError, Global};
use std::io;
use std::io::{ErrorKind, Read, Write};
use std::process::Abort;
use std::test::Fail;

/// What a reader or a writer answers in turn: a count, or an error of this kind. A count of 0 answers a flush.
#[derive(Drop)]
struct Answers<'a> {
    answers: &'a [Result<usize, ErrorKind>],
}

impl Answers<'_> {
    fn next(&mut self, most: usize) -> io::Result<usize>
        ensures { IfOk result (λ n. n ≤ most) }
    {
        match self.answers {
            [Ok(count), rest @ ..] => {
                self.answers = rest;
                Ok((*count).min(most))
            }
            [Err(kind), rest @ ..] => {
                self.answers = rest;
                Err(io::Error::from(*kind))
            }
            [] => Ok(0),
        }
    }
}

impl Read for Answers<'_> {
    fn read(&mut self, buf: &mut [u8]) -> io::Result<usize> {
        self.next(buf.len())
    }
}

impl Write for Answers<'_> {
    fn write(&mut self, buf: &[u8]) -> io::Result<usize> {
        self.next(buf.len())
    }

    fn flush(&mut self) -> io::Result<()> {
        self.next(0)?;
        Ok(())
    }
}

/// A writer that takes all that it is given. It counts its flushes, and one of them fails.
#[derive(Drop)]
struct Flushed {
    flushes: u32,
    failing: u32,
}

impl Write for Flushed {
    fn write(&mut self, buf: &[u8]) -> io::Result<usize> {
        Ok(buf.len())
    }

    fn flush(&mut self) -> io::Result<()> {
        self.flushes = self.flushes.saturating_add(1);
        if self.flushes == self.failing {
            return Err(io::Error::from(ErrorKind::BrokenPipe));
        }
        Ok(())
    }
}

/// One read, and how many bytes it gave.
fn expect_count<S: Source>(
    rt: &impl Abort,
    source: &mut S,
    into: &mut [u8],
    want: Result<usize, Failed>,
)
    requires { 0 < length into.old }
{
    assert_eq!(rt; source.read(into), want);
}

/// One read, how many bytes it gave, and what stands there after it.
fn expect_read<S: Source>(
    rt: &impl Abort,
    source: &mut S,
    into: &mut [u8],
    want: Result<usize, Failed>,
    text: &[u8],
)
    requires { 0 < length into.old }
{
    expect_count(rt, source, into, want);
    assert_eq!(rt; &*into, text);
}

/// One write of a piece that is not empty, and how many bytes it took.
fn expect_write<K: Sink>(rt: &impl Abort, sink: &mut K, piece: &[u8], want: Result<usize, Failed>) {
    assert!(rt; !piece.is_empty());
    assert_eq!(rt; sink.write(piece), want);
}

fn expect_taken(rt: &impl Abort, sink: &SteadySink, taken: &[u8], is_whole: bool) {
    assert_eq!(rt; sink.taken(), taken);
    assert!(rt; sink.is_whole() == is_whole);
}

fn memory_source(
    alloc: Global,
    bytes: &[u8],
    most: usize,
    failing: &[u32],
) -> Result<MemorySource, AllocError>
    requires { 0 < most }
{
    let bytes = bytes.to_vec(alloc)?;
    Ok(MemorySource::new(bytes, most, failing.to_vec(alloc)?))
}

#[test]
fn a_memory_source_gives_small_parts_and_fails_where_it_is_told(
    rt: HostRuntime,
) -> Result<(), Fail> {
    let mut source = memory_source(rt.alloc(), b"abcdefg", 3, &[1, 4])?;
    let mut into = [0u8; 4];
    for (want, text) in [
        (Ok(3), b"abc\0"),
        (Err(Failed), b"abc\0"),
        (Ok(3), b"def\0"),
        (Ok(1), b"gef\0"),
        (Err(Failed), b"gef\0"),
        (Ok(0), b"gef\0"),
    ] {
        expect_read(&rt, &mut source, &mut into, want, text.as_slice());
    }
    Ok(())
}

#[test]
fn a_steady_source_gives_all_that_there_is_room_for(rt: HostRuntime) -> Result<(), Fail> {
    let mut source = SteadySource::new(b"abcde".to_vec(rt.alloc())?);
    let mut into = [0u8; 3];
    for (want, text) in [(3, b"abc"), (2, b"dec"), (0, b"dec")] {
        expect_read(&rt, &mut source, &mut into, Ok(want), text.as_slice());
    }
    Ok(())
}

#[test]
fn a_memory_sink_takes_small_parts_and_fails_where_it_is_told(rt: HostRuntime) -> Result<(), Fail> {
    let mut sink = MemorySink::new(rt.alloc(), 3, [1].to_vec(rt.alloc())?)?;
    for (piece, want) in [
        (b"abcd".as_slice(), Ok(3)),
        (b"d".as_slice(), Err(Failed)),
        (b"d".as_slice(), Ok(1)),
        (b"efg".as_slice(), Ok(3)),
    ] {
        expect_write(&rt, &mut sink, piece, want);
    }
    assert!(rt; sink.taken() == b"abcdefg".as_slice());
    Ok(())
}

#[test]
fn a_memory_sink_fails_where_its_room_is_full(rt: HostRuntime) -> Result<(), Fail> {
    let piece = vec![in rt.alloc(); 7u8; ROOM - 1]?;
    let mut sink = MemorySink::new(rt.alloc(), ROOM, Vec::new(rt.alloc()))?;
    expect_full(&rt, &mut sink, piece.as_slice());
    Ok(())
}

// The piece leaves room for one byte.
fn expect_full(rt: &impl Abort, sink: &mut MemorySink, piece: &[u8]) {
    for (piece, want) in [
        (piece, Ok(ROOM - 1)),
        (b"ab".as_slice(), Ok(1)),
        (b"b".as_slice(), Err(Failed)),
    ] {
        expect_write(rt, sink, piece, want);
    }
    assert!(rt; sink.taken().len() == ROOM);
    assert!(rt; sink.taken().last() == Some(&b'a'));
}

/// A sink with just the room for this text, after the text was written.
fn written(alloc: Global, text: &[u8]) -> Result<SteadySink, AllocError>
    requires { 0 < length text.now }
    ensures { IfOk result (λ sink. told sink ≡ Some text.now) }
{
    let mut sink = SteadySink::new(alloc, text.len())?;
    let Ok(_count) = sink.write(text) else {
        unreachable!()
    };
    Ok(sink)
}

#[test]
fn a_steady_sink_tells_a_text_that_fits(rt: HostRuntime) -> Result<(), Fail> {
    assert!(rt; written(rt.alloc(), b"abcd")?.taken() == b"abcd".as_slice());
    Ok(())
}

#[test]
fn a_steady_sink_drops_what_does_not_fit(rt: HostRuntime) -> Result<(), Fail> {
    let mut sink = SteadySink::new(rt.alloc(), 4)?;
    for (piece, taken, is_whole) in [
        (b"abc".as_slice(), b"abc".as_slice(), true),
        (b"d".as_slice(), b"abcd".as_slice(), true),
        (b"e".as_slice(), b"abcd".as_slice(), false),
    ] {
        expect_write(&rt, &mut sink, piece, Ok(piece.len()));
        expect_taken(&rt, &sink, taken, is_whole);
    }
    Ok(())
}

#[test]
fn a_steady_sink_keeps_a_piece_that_fits_after_one_that_did_not(
    rt: HostRuntime,
) -> Result<(), Fail> {
    let mut sink = SteadySink::new(rt.alloc(), 4)?;
    expect_write(&rt, &mut sink, b"abcde", Ok(5));
    expect_write(&rt, &mut sink, b"fghi", Ok(4));
    expect_taken(&rt, &sink, b"fghi", false);
    Ok(())
}

#[test]
fn an_adapter_moves_the_bytes_of_its_reader(rt: HostRuntime) {
    let mut source = StdSource::new(b"abcde".as_slice());
    let mut into = [0u8; 3];
    expect_read(&rt, &mut source, &mut into, Ok(3), b"abc");
    assert!(rt; source.into_inner() == b"de".as_slice());
}

#[test]
fn an_adapter_moves_the_bytes_to_its_writer(rt: HostRuntime) {
    let mut sink = StdSink::new(Vec::new(rt.alloc()));
    expect_write(&rt, &mut sink, b"abc", Ok(3));
    expect_write(&rt, &mut sink, b"d", Ok(1));
    assert!(rt; sink.into_inner().as_slice() == b"abcd".as_slice());
}

#[test]
fn an_adapter_tries_again_where_it_was_interrupted(rt: HostRuntime) {
    let answers = [
        Err(ErrorKind::Interrupted),
        Ok(2),
        Err(ErrorKind::BrokenPipe),
        Ok(1),
    ];
    let mut source = StdSource::new(Answers { answers: &answers });
    let mut into = [0u8; 3];
    for want in [Ok(2), Err(Failed), Ok(1), Ok(0)] {
        expect_count(&rt, &mut source, &mut into, want);
    }
}

#[test]
fn a_write_that_takes_nothing_and_a_flush_that_fails_are_faults(rt: HostRuntime) {
    let answers = [
        Err(ErrorKind::Interrupted),
        Ok(2),
        Ok(0),
        Ok(0),
        Err(ErrorKind::BrokenPipe),
        Ok(1),
        Err(ErrorKind::BrokenPipe),
    ];
    let mut sink = StdSink::new(Answers { answers: &answers });
    for want in [Ok(2), Err(Failed), Err(Failed), Err(Failed)] {
        expect_write(&rt, &mut sink, b"abc", want);
    }
}

#[test]
fn each_write_is_flushed_and_fails_where_its_flush_fails(rt: HostRuntime) {
    let mut sink = StdSink::new(Flushed {
        flushes: 0,
        failing: 2,
    });
    for want in [Ok(3), Err(Failed), Ok(3)] {
        expect_write(&rt, &mut sink, b"abc", want);
    }
    assert!(rt; sink.into_inner().flushes == 3);
}
