//! The reader of a line.

ghost use Rattle.std.specs.Prelude.{◌≡◌, ◌↔◌, IfOk, IsTrue, OnErr};
ghost use Rattle.px_script.specs.LineReading.{FirstTakesMemory, event_behind, event_of};
ghost use Rattle.px_script.specs.Spelling.{TakesMemory, IsSilent, Reads};
ghost use Rattle.px_script.specs.Words.{line_words};

use crate::clusters::read_cluster;
use crate::jobs::read_job;
use crate::line_words::LineWords;
use crate::pushes::read_push;
use crate::repairs::read_repair;
use crate::votes::read_vote;
use crate::{Event, ScriptLine};
use std::alloc::{AllocError, Global};

// An empty line, or a comment.
fn is_silent(line: &[u8]) -> bool
    ensures { IsTrue result ↔ IsSilent line.now }
{
    match line {
        [] => true,
        [first, ..] => *first == b'#',
    }
}

// The event that begins with a word and goes on with those behind it. Each family of lines has a
// reader, and at most one of them takes the word.
fn read_behind(
    alloc: Global,
    first: &[u8],
    words: &mut LineWords<'_>,
) -> Result<Option<Event>, AllocError>
    ensures event { IfOk result (λ event. event ≡ event_behind first.now words.old) }
    ensures memory { OnErr result (TakesMemory first.now) }
{
    if let Some(op) = read_vote(alloc, first, &mut words.copy())? {
        return Ok(Some(Event::Operation(op)));
    }
    if let Some(event) = read_cluster(alloc, first, &mut words.copy())? {
        return Ok(Some(event));
    }
    if let Some(event) = read_push(alloc, first, &mut words.copy())? {
        return Ok(Some(event));
    }
    if let Some(event) = read_job(first, &mut words.copy()) {
        return Ok(Some(event));
    }
    Ok(read_repair(first, words))
}

// The event of a line that is not silent.
fn read_event(alloc: Global, line: &[u8]) -> Result<Option<Event>, AllocError>
    ensures event { IfOk result (λ event. event ≡ event_of (line_words line.now)) }
    ensures memory { OnErr result (FirstTakesMemory (line_words line.now)) }
{
    let mut words = LineWords::new(line);
    match words.next() {
        Some(first) => read_behind(alloc, first, &mut words),
        None => Ok(None),
    }
}

/// Reads one line, without its line feed. A carriage return is a byte of the line's last word. Takes
/// memory for the voters of `open`, the path of `create` and what `prepare` pushes, and time that grows
/// with the length of the line.
pub fn read_line(alloc: Global, line: &[u8]) -> ScriptLine
    ensures { Reads line.now result }
{
    if is_silent(line) {
        return ScriptLine::Nothing;
    }
    match read_event(alloc, line) {
        Ok(Some(event)) => ScriptLine::Asks(event),
        Ok(None) => ScriptLine::Bad,
        Err(_) => ScriptLine::Memory,
    }
}
