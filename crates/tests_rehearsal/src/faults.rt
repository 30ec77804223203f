//! Faults of the streams, and words that are no command.

use crate::runs::{Ran, rehearsed, run_of, sink, source};
use px_base::Words;
use px_run::{Status, start, start_without_memory};
use std::alloc::{AllocError, Global};
use std::process::ExitCode;
use std::test::Fail;
use tests_tables::play;

const SCRIPT: &[u8] = b"open 2 1 a:1 b:1 c:1\n\
    cast 1 a prepared 1111111111111111111111111111111111111111\n\
    cast 1 b prepared 1111111111111111111111111111111111111111\n\
    collect 1 a 1\n\
    cast 1 c prepared 2222222222222222222222222222222222222222\n";

const OUTPUT: &[u8] = b"tx 1\n\
    open\n\
    committed 1111111111111111111111111111111111111111 2/2\n\
    committed 1111111111111111111111111111111111111111 2/2\n\
    failed\n";

/// How many lines end within so many of the bytes.
fn lines_in(bytes: &[u8], count: usize) -> usize {
    bytes
        .iter()
        .take(count)
        .filter(|byte| **byte == b'\n')
        .count()
}

// Whether a run told a fault and answered its status, and had printed so many whole lines of the
// output.
fn is_cut(ran: &Ran, code: u8, message: &[u8], lines: usize) -> bool {
    let printed = ran.out.bytes();
    ran.is(code, printed, message)
        && OUTPUT.starts_with(printed)
        && lines_in(printed, printed.len()) == lines
        && (printed.is_empty() || printed.ends_with(b"\n"))
}

#[test]
fn each_read_fails_in_turn(rt: HostRuntime) -> Result<(), Fail> {
    // A byte a read, and one read more that meets the end. One line is printed for each that was read
    // whole.
    for call in 1..=SCRIPT.len() + 1 {
        let ran = rehearsed(rt.alloc(), SCRIPT, &[call as u64], &[])?;
        let lines = lines_in(SCRIPT, call - 1);
        assert!(rt; is_cut(&ran, 3, b"praefect: read fault\n", lines), "{call}");
    }
    let ran = rehearsed(rt.alloc(), SCRIPT, &[SCRIPT.len() as u64 + 2], &[])?;
    assert!(rt; ran.is(0, OUTPUT, b""));
    Ok(())
}

#[test]
fn each_write_fails_in_turn(rt: HostRuntime) -> Result<(), Fail> {
    for call in 1..=5u64 {
        let ran = rehearsed(rt.alloc(), SCRIPT, &[], &[call])?;
        let lines = call as usize - 1;
        assert!(rt;
            is_cut(&ran, 4, b"praefect: write fault\n", lines),
            "{call}"
        );
    }
    let ran = rehearsed(rt.alloc(), SCRIPT, &[], &[6])?;
    assert!(rt; ran.is(0, OUTPUT, b""));
    Ok(())
}

// Whether these words are no command, where the message of that fails.
fn is_usage(alloc: Global, words: &Words) -> Result<bool, AllocError> {
    let ran = run_of(alloc, words, source(alloc, SCRIPT, &[])?, &[], &[1])?;
    Ok(ran.status == Status::Usage && ran.is(2, b"", b""))
}

#[test]
fn other_words_are_usage_and_a_failing_message_changes_nothing(
    rt: HostRuntime,
) -> Result<(), Fail> {
    let mut words = Words::new(rt.alloc());
    assert!(rt; is_usage(rt.alloc(), &words)?);
    words.push(rt.alloc(), "rehearsal")?;
    assert!(rt; is_usage(rt.alloc(), &words)?);
    Ok(())
}

#[test]
fn want_of_memory_is_told(rt: HostRuntime) -> Result<(), Fail> {
    let mut err = sink(rt.alloc(), &[])?;
    assert!(rt; start_without_memory(&mut err) == ExitCode::from(7));
    assert!(rt; err.bytes() == b"praefect: out of memory\n".as_slice());
    Ok(())
}

// The exit status, where it is one of those that are wanted.
fn code(status: ExitCode) -> &'static str {
    for (known, code) in [(0, "0"), (2, "2"), (6, "6")] {
        if status == ExitCode::from(known) {
            return code;
        }
    }
    "another"
}

// What a process over a script of one line comes to. Each call has the arguments, with a space between
// them.
fn answer(alloc: Global, _: &mut (), _: &str, rest: &str) -> Result<String, Fail> {
    let mut args = Vec::new(alloc);
    for arg in rest.split(" ") {
        args.push(String::from_str(alloc, arg)?)?;
    }
    let mut input = source(alloc, b"open 1 1 a:1\n", &[])?;
    let (mut out, mut err) = (sink(alloc, &[])?, sink(alloc, &[])?);
    let status = start(alloc, Ok(args.into_iter()), &mut input, &mut out, &mut err);
    let told = str::from_utf8(out.bytes()).unwrap_or("?");
    let said = str::from_utf8(err.bytes()).unwrap_or("?");
    Ok(format!(in alloc; "{} {told:?} {said:?}", code(status))?)
}

// The first argument is the program's name.
const PROCESSES: &str = "\
    run praefect rehearse -> 0 \"tx 1\\n\" \"\"
    run rehearse rehearse -> 0 \"tx 1\\n\" \"\"
    run rehearse -> 2 \"\" \"praefect: usage\\n\"
    run praefect rehearsal -> 2 \"\" \"praefect: usage\\n\"
    run praefect rehearse rehearse -> 2 \"\" \"praefect: usage\\n\"";

#[test]
fn the_words_behind_the_name_are_the_command(rt: HostRuntime) -> Result<(), Fail> {
    play(rt.alloc(), &mut (), answer, PROCESSES)
}
