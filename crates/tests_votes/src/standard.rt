//! The streams over std's readers and writers.

use crate::streams::{next_piece, read, write, write_text};
use px_base::{FailingCalls, StdSink, StdSource};
use std::alloc::{AllocError, Global};
use std::io;
use std::io::{ErrorKind, Read, Write};
use std::test::Fail;
use tests_tables::play;

// Calls of these numbers.
fn calls(alloc: Global, numbers: &[u64]) -> Result<FailingCalls, AllocError> {
    Ok(FailingCalls::new(Vec::from_slice(alloc, numbers)?))
}

// A reader that gives a byte at a time, and fails at the listed calls.
#[derive(Drop)]
struct SlowReader<'a> {
    bytes: &'a [u8],
    failing: FailingCalls,
    kind: ErrorKind,
}

impl<'a> Read for SlowReader<'a> {
    fn read(&mut self, buf: &mut [u8]) -> io::Result<usize> {
        if self.failing.next_fails() {
            return Err(io::Error::from(self.kind));
        }
        match self.bytes {
            [first, rest @ ..] if !buf.is_empty() => {
                buf[0] = *first;
                self.bytes = rest;
                Ok(1)
            }
            _ => Ok(0),
        }
    }
}

fn answer_of_source<R: Read + Drop>(
    alloc: Global,
    source: &mut StdSource<R>,
    name: &str,
    _: &str,
) -> Result<String, Fail> {
    match name {
        "piece" => next_piece(alloc, source),
        _ => read(alloc, source),
    }
}

fn play_source<R: Read + Drop>(
    alloc: Global,
    source: &mut StdSource<R>,
    table: &str,
) -> Result<(), Fail> {
    play(alloc, source, answer_of_source::<R>, table)
}

const READS: &str = "\
    read -> Took(2) 0 [ab]
    read -> Took(1) 0 [c]
    read -> End 0 []
    read -> End 0 []";

#[test]
fn a_reader_is_a_source(rt: HostRuntime) -> Result<(), Fail> {
    let mut source = StdSource::new(rt.alloc(), b"abc".as_slice())?;
    play_source(rt.alloc(), &mut source, READS)
}

// The second, the third and the fifth call of the reader fail, and no other one does.
const SLOW_READS: &str = "\
    read -> Took(1) 0 [a]
    read -> Failed 1 []
    read -> Failed 2 []
    read -> Took(1) 2 [b]
    read -> Failed 3 []
    read -> End 3 []";

#[test]
fn each_error_of_a_reader_is_a_fault_and_counted(rt: HostRuntime) -> Result<(), Fail> {
    let alloc = rt.alloc();
    for kind in [
        ErrorKind::Interrupted,
        ErrorKind::UnexpectedEof,
        ErrorKind::Other,
    ] {
        let reader = SlowReader {
            bytes: b"ab",
            failing: calls(alloc, &[2, 3, 5])?,
            kind,
        };
        play_source(alloc, &mut StdSource::new(alloc, reader)?, SLOW_READS)?;
    }
    Ok(())
}

// What stands in the buffer, what comes behind it, and a third byte that is one too many: it is spent.
const PIECES: &str = "\
    piece -> line [ab]
    piece -> line []
    piece -> another
    piece -> line []
    read -> Took(2) 0 [de]
    piece -> line [f]
    piece -> last [g]
    piece -> another";

#[test]
fn a_line_is_read_out_of_the_buffer(rt: HostRuntime) -> Result<(), Fail> {
    let alloc = rt.alloc();
    let mut whole = StdSource::new(alloc, b"ab\n\nabc\ndef\ng".as_slice())?;
    play_source(alloc, &mut whole, PIECES)?;
    // The buffer is filled anew within each line.
    let parts = b"a".chain(b"b\n\nab".chain(b"c\nde".chain(b"f\ng".as_slice())));
    play_source(alloc, &mut StdSource::new(alloc, parts)?, PIECES)
}

// The second call of the reader fails, when a byte of the line was read.
const FAULTY_PIECES: &str = "\
    piece -> another
    piece -> line [b]
    piece -> last [c]";

#[test]
fn a_fault_within_a_line_spends_its_part(rt: HostRuntime) -> Result<(), Fail> {
    let alloc = rt.alloc();
    let reader = SlowReader {
        bytes: b"ab\nc",
        failing: calls(alloc, &[2])?,
        kind: ErrorKind::Other,
    };
    play_source(alloc, &mut StdSource::new(alloc, reader)?, FAULTY_PIECES)
}

// A writer that takes a byte at a time. It fails at the listed calls, and takes nothing at others.
#[derive(Drop)]
struct SlowWriter {
    bytes: Vec<u8>,
    failing: FailingCalls,
    idle: FailingCalls,
    kind: ErrorKind,
}

impl Write for SlowWriter {
    fn write(&mut self, buf: &[u8]) -> io::Result<usize> {
        let is_idle = self.idle.next_fails();
        if self.failing.next_fails() {
            return Err(io::Error::from(self.kind));
        }
        match buf.first() {
            Some(byte) if !is_idle => {
                self.bytes.push(*byte)?;
                Ok(1)
            }
            _ => Ok(0),
        }
    }

    fn flush(&mut self) -> io::Result<()> {
        Ok(())
    }
}

fn answer_of_sink<W: Write + Drop>(
    alloc: Global,
    sink: &mut StdSink<W>,
    name: &str,
    rest: &str,
) -> Result<String, Fail> {
    match name {
        "all" => write_text(alloc, sink, rest.as_bytes()),
        _ => write(alloc, sink, rest.as_bytes()),
    }
}

// The second call of the writer fails, and the third and the sixth take nothing.
const SLOW_WRITES: &str = "\
    write abc -> Took(1) 0
    write bc -> Failed 1
    write bc -> Failed 2
    write bc -> Took(1) 2
    all cde -> Failed 3
    all fg -> All 3
    write hi -> Took(1) 3";

#[test]
fn a_write_is_told_as_it_was_taken(rt: HostRuntime) -> Result<(), Fail> {
    let alloc = rt.alloc();
    for kind in [
        ErrorKind::Interrupted,
        ErrorKind::WriteZero,
        ErrorKind::Other,
    ] {
        let mut writer = SlowWriter {
            bytes: Vec::new(alloc),
            failing: calls(alloc, &[2])?,
            idle: calls(alloc, &[3, 6])?,
            kind,
        };
        play(
            alloc,
            &mut StdSink::new(&mut writer),
            answer_of_sink::<&mut SlowWriter>,
            SLOW_WRITES,
        )?;
        assert!(rt; writer.bytes.as_slice() == b"abcfgh".as_slice());
    }
    Ok(())
}

#[test]
fn a_writer_is_a_sink(rt: HostRuntime) -> Result<(), Fail> {
    let alloc = rt.alloc();
    let mut bytes = Vec::new(alloc);
    play(
        alloc,
        &mut StdSink::new(&mut bytes),
        answer_of_sink::<&mut Vec<u8>>,
        "write abc -> Took(3) 0\nall de -> All 0",
    )?;
    assert!(rt; bytes.as_slice() == b"abcde".as_slice());
    Ok(())
}
