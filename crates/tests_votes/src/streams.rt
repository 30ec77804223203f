//! Lines, and the streams that they come from and go to.

use px_base::{
    Bytes, FailingCalls, LineEnd, MemSink, MemSource, Piece, ReadEnd, Sink, Source, line,
    read_piece, write_all,
};
use std::alloc::Global;
use std::test::Fail;
use tests_tables::play;

// What came, and the bytes of it in brackets.
fn shown(alloc: Global, word: &str, bytes: &[u8]) -> Result<String, Fail> {
    let text = str::from_utf8(bytes).unwrap_or("?");
    Ok(format!(in alloc; "{word} [{text}]")?)
}

fn next_line(alloc: Global, source: &mut MemSource) -> Result<String, Fail> {
    let word = match line(alloc, source, 2) {
        LineEnd::Line(bytes) => return shown(alloc, "line", bytes.as_slice()),
        LineEnd::End => "end",
        LineEnd::TooLong => "too long",
        _ => "fault",
    };
    Ok(String::from_str(alloc, word)?)
}

/// A line of at most two bytes, and whether its line feed came.
pub fn next_piece<S: Source>(alloc: Global, source: &mut S) -> Result<String, Fail> {
    // What stood in the buffer before is not of the line.
    let mut bytes = Bytes::from_slice(alloc, b"stale")?;
    match read_piece(source, 2, &mut bytes) {
        Piece::Line => shown(alloc, "line", bytes.as_slice()),
        Piece::Last => shown(alloc, "last", bytes.as_slice()),
        _ => Ok(String::from_str(alloc, "another")?),
    }
}

/// A read of two bytes: what it came to, the faults so far, and the bytes in brackets.
pub fn read<S: Source>(alloc: Global, source: &mut S) -> Result<String, Fail> {
    let mut room = [0; 2];
    let end = source.read(&mut room);
    let bytes: &[u8] = match end {
        ReadEnd::Took(count) => room.get(..count).unwrap_or(b""),
        _ => b"",
    };
    let text = str::from_utf8(bytes).unwrap_or("?");
    Ok(format!(in alloc; "{end:?} {} [{text}]", source.read_faults())?)
}

fn answer_of_source(
    alloc: Global,
    source: &mut MemSource,
    name: &str,
    _: &str,
) -> Result<String, Fail> {
    match name {
        "line" => next_line(alloc, source),
        "piece" => next_piece(alloc, source),
        _ => read(alloc, source),
    }
}

// Makes the calls of a table to a source of these bytes, of which this call fails.
fn play_in(alloc: Global, bytes: &[u8], failing: u64, table: &str) -> Result<(), Fail> {
    let bytes = Vec::from_slice(alloc, bytes)?;
    let failing = Vec::from_slice(alloc, &[failing])?;
    play(
        alloc,
        &mut MemSource::new(bytes, failing),
        answer_of_source,
        table,
    )
}

// Three bytes are one too many, and are spent.
const LINES: &str = "\
    line -> line [ab]
    line -> line []
    line -> too long
    piece -> line []
    piece -> last [d]
    line -> end";

#[test]
fn lines_end_with_a_line_feed_or_with_the_input(rt: HostRuntime) -> Result<(), Fail> {
    play_in(rt.alloc(), b"ab\n\nabc\nd", 0, LINES)
}

const READS: &str = "\
    read -> Took(2) 0 [ab]
    read -> Failed 1 []
    read -> Took(1) 1 [c]
    read -> End 1 []";

#[test]
fn the_listed_read_fails(rt: HostRuntime) -> Result<(), Fail> {
    play_in(rt.alloc(), b"abc", 2, READS)
}

/// What a write of some bytes came to, and the faults so far.
pub fn write<K: Sink>(alloc: Global, sink: &mut K, bytes: &[u8]) -> Result<String, Fail> {
    if bytes.is_empty() {
        return Err(Fail::new("nothing to write"));
    }
    let end = sink.write(bytes);
    Ok(format!(in alloc; "{end:?} {}", sink.write_faults())?)
}

/// What writing a whole text came to, and the faults so far.
pub fn write_text<K: Sink>(alloc: Global, sink: &mut K, text: &[u8]) -> Result<String, Fail> {
    let end = write_all(sink, text);
    Ok(format!(in alloc; "{end:?} {}", sink.write_faults())?)
}

fn answer_of_sink(
    alloc: Global,
    sink: &mut MemSink,
    name: &str,
    rest: &str,
) -> Result<String, Fail> {
    match name {
        "all" => write_text(alloc, sink, rest.as_bytes()),
        "write" => write(alloc, sink, rest.as_bytes()),
        _ => shown(alloc, "has", sink.bytes()),
    }
}

const WRITES: &str = "\
    all ab -> All 0
    all cd -> Failed 1
    write ef -> Took(2) 1
    bytes -> has [abef]";

#[test]
fn the_listed_write_fails(rt: HostRuntime) -> Result<(), Fail> {
    let failing = Vec::from_slice(rt.alloc(), &[2])?;
    play(
        rt.alloc(),
        &mut MemSink::new(rt.alloc(), failing),
        answer_of_sink,
        WRITES,
    )
}

fn answer(alloc: Global, calls: &mut FailingCalls, _: &str, _: &str) -> Result<String, Fail> {
    let fails = calls.next_fails();
    Ok(format!(in alloc; "{} fails={fails}", calls.calls())?)
}

const CALLS: &str = "\
    call -> 1 fails=false
    call -> 2 fails=true
    call -> 3 fails=false";

#[test]
fn calls_are_counted_and_the_listed_one_fails(rt: HostRuntime) -> Result<(), Fail> {
    let mut calls = FailingCalls::new(Vec::from_slice(rt.alloc(), &[2])?);
    play(rt.alloc(), &mut calls, answer, CALLS)
}
