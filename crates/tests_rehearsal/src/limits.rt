//! Bad lines, and the limits of a line and of the whole input.

use crate::runs::rehearsed;
use px_base::{MemSink, MemSource};
use px_world::rehearse_within;
use script_run::MAX_LINE_BYTES;
use std::alloc::{AllocError, Global};
use std::test::Fail;
use tests_tables::play;

// A line each, behind what is bad about it.
const BAD: &str = "\
    two spaces: open  1 1 a:1
    a space at the end: open 1 1 a:1\x20
    a carriage return: open 1 1 a:1\r
    a sign: open +1 1 a:1
    a leading zero: open 01 1 a:1
    a number above its range: open 18446744073709551616 1 a:1
    a weight above its range: open 1 1 a:4294967296
    a name of 65 bytes: \
        open 1 1 nnnnnnnnnnnnnnnnnnnnnnnnnnnnnnnnnnnnnnnnnnnnnnnnnnnnnnnnnnnnnnnnn:1
    upper-case digits: cast 1 a prepared AAAAAAAAAAAAAAAAAAAAAAAAAAAAAAAAAAAAAAAA
    39 digits: cast 1 a prepared 111111111111111111111111111111111111111
    an empty name: open 1 1 :1
    rounds above their range: open 1 4294967296 a:1
    another state of the hook: cast 1 a aborted 1111111111111111111111111111111111111111
    a word too many: stop 1 1
    another word: renew 1
    a blank: \x20
    bytes above ASCII: open 1 1 \u{e9}:1";

// Whether a line is bad as the third one, of which no line feed comes.
fn is_bad(alloc: Global, line: &str) -> Result<bool, Fail> {
    let script = format!(in alloc; "open 1 1 a:1\n# comments and empty lines count\n{line}")?;
    let ran = rehearsed(alloc, script.as_bytes(), &[], &[])?;
    Ok(ran.is(6, b"tx 1\n", b"praefect: line 3: bad line\n"))
}

#[test]
fn a_bad_line_ends_the_run_at_its_number(rt: HostRuntime) -> Result<(), Fail> {
    for row in BAD.split("\n") {
        let (_, line) = row.split_once(": ").unwrap_or((row, ""));
        assert!(rt; is_bad(rt.alloc(), line)?, "{row}");
    }
    Ok(())
}

// A text with a line feed for each `|`.
fn script(alloc: Global, text: &str) -> Result<Vec<u8>, AllocError> {
    let mut script = Vec::new(alloc);
    for byte in text.as_bytes() {
        script.push(if *byte == b'|' { b'\n' } else { *byte })?;
    }
    Ok(script)
}

// A comment of the greatest length of a line, and a script behind it.
fn comment(alloc: Global, then: &str) -> Result<Vec<u8>, AllocError> {
    let mut bytes = vec![in alloc; b'#'; MAX_LINE_BYTES]?;
    let then = script(alloc, then)?;
    bytes.extend_from_slice(&then)?;
    Ok(bytes)
}

// What a script of so many bytes at most comes to.
fn ended(alloc: Global, limit: u64, script: Vec<u8>) -> Result<String, Fail> {
    let mut input = MemSource::new(script, Vec::new(alloc));
    let mut out = MemSink::new(alloc, Vec::new(alloc));
    let end = rehearse_within(alloc, limit, &mut input, &mut out);
    Ok(format!(in alloc; "{end:?}")?)
}

// What a run within a limit comes to. Each call has the limit and a script.
fn answer(alloc: Global, _: &mut (), name: &str, rest: &str) -> Result<String, Fail> {
    let (limit, text) = rest.split_once(" ").unwrap_or((rest, ""));
    let limit = limit.parse::<u64>()?;
    match name {
        "script" => ended(alloc, limit, script(alloc, text)?),
        _ => ended(alloc, limit, comment(alloc, text)?),
    }
}

// A line that is bad and passes the limit is not read whole; one before it is.
const INPUTS: &str = "\
    script 4 #a|| -> Done
    script 3 #a|| -> TooLong
    script 2 #a| -> TooLong
    script 2 #a -> Done
    script 1 #a -> TooLong
    script 0 -> Done
    script 2 xyz| -> TooLong
    script 4 x|yz -> BadLine(1)";

#[test]
fn the_input_ends_exactly_at_its_limit(rt: HostRuntime) -> Result<(), Fail> {
    play(rt.alloc(), &mut (), answer, INPUTS)
}

// The greatest length of a line is 1048576 bytes. From the third line on one byte passes both limits:
// a line feed ends a line that is not too long.
const LONG_LINES: &str = "\
    comment 2097152 | -> Done
    comment 2097152 # -> BadLine(1)
    comment 1048576 | -> TooLong
    comment 1048576 # -> BadLine(1)
    comment 1048575 # -> TooLong";

#[test]
fn a_line_has_a_greatest_length(rt: HostRuntime) -> Result<(), Fail> {
    play(rt.alloc(), &mut (), answer, LONG_LINES)
}
