//! Runs of the program in memory.

use px_base::{MemSink, MemSource, Words};
use px_run::{Status, run};
use std::alloc::{AllocError, Global};

/// A run: what it came to, and what it wrote.
#[derive(Drop)]
pub struct Ran {
    pub status: Status,
    pub out: MemSink,
    pub err: MemSink,
}

impl Ran {
    /// Whether a run answered this as the process does, and wrote this.
    pub fn is(&self, code: u8, out: &[u8], err: &[u8]) -> bool {
        self.status.code() == code && self.out.bytes() == out && self.err.bytes() == err
    }
}

/// A source of these bytes, of which these calls fail.
pub fn source(alloc: Global, bytes: &[u8], failing: &[u64]) -> Result<MemSource, AllocError> {
    let bytes = Vec::from_slice(alloc, bytes)?;
    Ok(MemSource::new(bytes, Vec::from_slice(alloc, failing)?))
}

/// A sink of which these calls fail.
pub fn sink(alloc: Global, failing: &[u64]) -> Result<MemSink, AllocError> {
    Ok(MemSink::new(alloc, Vec::from_slice(alloc, failing)?))
}

/// The program with these words over a source, with these calls of its output and of its messages
/// failing.
pub fn run_of(
    alloc: Global,
    words: &Words,
    mut input: MemSource,
    writes: &[u64],
    messages: &[u64],
) -> Result<Ran, AllocError> {
    let mut out = sink(alloc, writes)?;
    let mut err = sink(alloc, messages)?;
    let status = run(alloc, words, &mut input, &mut out, &mut err);
    Ok(Ran { status, out, err })
}

/// `praefect rehearse` over a script, with these calls of its input and its output failing.
pub fn rehearsed(
    alloc: Global,
    script: &[u8],
    reads: &[u64],
    writes: &[u64],
) -> Result<Ran, AllocError> {
    let mut words = Words::new(alloc);
    words.push(alloc, "rehearse")?;
    run_of(alloc, &words, source(alloc, script, reads)?, writes, &[])
}
