//! Work for the checks and the benches of the repository. The first word names it:
//!
//! - `objects` reads objects, and prints the name and the links of each;
//! - `hook` and `vote` read a push, and print the text that Git's hook is given of it, or the vote;
//! - `hash N` names an object of 8,000,000 bytes N times;
//! - `chain N TURNS` and `wide N TURNS` put a chain of N commits, or a tree of N files, into a store,
//!   and say TURNS times whether all that is reachable from the last one is there;
//! - `create N TURNS` and `change N TURNS` prepare N creations on no references, or one update
//!   on N references, TURNS times;
//! - `push N TURNS` makes N repositories at a node in memory, and TURNS pushes into them;
//! - `grow N TURNS` makes a repository with N references at a node in memory, and TURNS pushes of one
//!   more into it;
//! - `open N TURNS` opens a node over what a node with N repositories and ten pushes each has kept,
//!   TURNS times;
//! - `rows` reads maps of rows, opens a node over each, and says what that comes to.
//!
//! A word calls the crates, and has no rules of its own.
#![tactic(auto)]

mod closure;
mod end;
mod hash;
mod objects;
mod pushes;
mod references;
mod rows;

use crate::end::End;
use px_base::{Sink, Source, StdSink, StdSource, write_all};
use std::alloc::Global;
use std::env;
use std::io::ErrorKind;
use std::process::ExitCode;
use std::rt::Env;

/// The words of the command line, without the program's name; an error is want of memory or a word
/// that is no text.
fn words_of<R: Env + AllocGlobal>(rt: &R) -> Result<Vec<String>, End> {
    let mut words = Vec::new(rt.alloc());
    let args = match env::args(rt) {
        Ok(args) => args,
        Err(error) if error.kind() == ErrorKind::OutOfMemory => return Err(End::Memory),
        Err(_) => return Err(End::Usage),
    };
    for word in args.skip(1) {
        words.push(word).map_err(|_| End::Memory)?;
    }
    Ok(words)
}

/// Does the work that the first word names.
fn work<S: Source, O: Sink>(
    alloc: Global,
    words: &[String],
    input: &mut S,
    out: &mut O,
) -> Result<(), End> {
    match words {
        [word] => read(alloc, word.as_str(), input, out),
        [word, count] if word.as_str() == "hash" => hash::hash(alloc, count.as_str(), out),
        [word, count, turns] => {
            measure(alloc, word.as_str(), count.as_str(), turns.as_str(), out)
        }
        _ => Err(End::Usage),
    }
}

// Work on the input.
fn read<S: Source, O: Sink>(
    alloc: Global,
    word: &str,
    input: &mut S,
    out: &mut O,
) -> Result<(), End> {
    match word {
        "objects" => objects::objects(alloc, input, out),
        "hook" => references::hook(alloc, input, out),
        "vote" => references::vote(alloc, input, out),
        "rows" => rows::rows(alloc, input, out),
        _ => Err(End::Usage),
    }
}

// Work of a size, in turns.
fn measure<O: Sink>(
    alloc: Global,
    word: &str,
    count: &str,
    turns: &str,
    out: &mut O,
) -> Result<(), End> {
    match word {
        "chain" => closure::chain(alloc, count, turns, out),
        "wide" => closure::wide(alloc, count, turns, out),
        "create" => references::create(alloc, count, turns, out),
        "change" => references::change(alloc, count, turns, out),
        "push" => pushes::push(alloc, count, turns, out),
        "grow" => pushes::grow(alloc, count, turns, out),
        "open" => pushes::open(alloc, count, turns, out),
        _ => Err(End::Usage),
    }
}

fn main(rt: HostRuntime) -> ExitCode {
    let mut out = StdSink::new(rt.stdout());
    let mut err = StdSink::new(rt.stderr());
    let end = match (words_of(&rt), StdSource::new(rt.alloc(), rt.stdin())) {
        (Ok(words), Ok(mut input)) => work(rt.alloc(), &words, &mut input, &mut out),
        (Err(end), _) => Err(end),
        _ => Err(End::Memory),
    };
    match end {
        Ok(()) => ExitCode::SUCCESS,
        Err(end) => {
            let _ = write_all(&mut err, end.message());
            ExitCode::from(end.code())
        }
    }
}
