//! Streams in memory, which tell their bytes, and fail at chosen calls.

ghost use Rattle.std.specs.Prelude.{◌-◌, ◌+◌, [], ◌≡◌, ◌≤◌, ◌<◌, ◌↔◌, ◌⊎◌, length, drop, Some, vec_len, vec_capacity};
ghost use Rattle.px_base.specs.Memory.{CountsNext, NextFails, TakesAll, uncalled};
ghost use Rattle.px_base.specs.Sink.{WriteTakes, WriteHasCause};
ghost use Rattle.px_base.specs.Source.{ReadGives, ReadHasCause};

use crate::{FailingCalls, ReadEnd, Sink, Source, WriteEnd};
use std::alloc::Global;

/// A source over bytes in memory. The calls whose numbers are listed fail; the first call has the number 1.
#[derive(Drop)]
pub struct MemSource {
    bytes: Vec<u8>,
    at: usize,
    calls: FailingCalls,
    faults: u64,
    ghost in_range: { at ≤ vec_len bytes },
}

impl MemSource {
    /// The source of these bytes. With an empty list it never fails.
    pub fn new(bytes: Vec<u8>, failing: Vec<u64>) -> Self
        ensures left { ⟦<MemSource as Source>⟧.left result ≡ Some bytes.items }
        ensures faults { ⟦<MemSource as Source>⟧.read_faults result ≡ 0 }
        ensures calls { result.calls ≡ uncalled failing.items }
    {
        MemSource {
            bytes,
            at: 0,
            calls: FailingCalls::new(failing),
            faults: 0,
        }
    }
}

impl Source for MemSource {
    ghost left = { λ s. Some (drop s.at s.bytes.items) };

    ghost read_faults = { λ s. s.faults };

    fn read(&mut self, buf: &mut [u8]) -> ReadEnd
        requires { 0 < length buf.old }
        ensures bytes { ReadGives (Some (drop self.old.at self.old.bytes.items))
            (Some (drop self.new.at self.new.bytes.items)) buf.new result }
        ensures cause { ReadHasCause self.old.faults self.new.faults result }
        ensures fails { (result ≡ ReadEnd.Failed) ↔ NextFails self.old.calls }
        ensures calls { CountsNext self.old.calls self.new.calls }
    {
        if self.calls.next_fails() {
            self.faults = self.faults.saturating_add(1);
            return ReadEnd::Failed;
        }
        let count = buf.len().min(self.bytes.len() - self.at);
        if count == 0 {
            return ReadEnd::End;
        }
        buf[..count].copy_from_slice(&self.bytes[self.at..self.at + count]);
        self.at += count;
        ReadEnd::Took(count)
    }

    fn read_faults(&self) -> u64 {
        self.faults
    }
}

/// A sink that keeps its bytes in memory. The calls whose numbers are listed fail, and so does one for which memory
/// wants; the first call has the number 1. A call that does not fail takes all that it is offered.
#[derive(Drop)]
pub struct MemSink {
    bytes: Vec<u8>,
    calls: FailingCalls,
    faults: u64,
}

impl MemSink {
    /// A sink that has taken nothing.
    pub fn new(alloc: Global, failing: Vec<u64>) -> Self
        ensures taken { ⟦<MemSink as Sink>⟧.taken result ≡ Some [] }
        ensures faults { ⟦<MemSink as Sink>⟧.write_faults result ≡ 0 }
        ensures calls { result.calls ≡ uncalled failing.items }
    {
        MemSink {
            bytes: Vec::new(alloc),
            calls: FailingCalls::new(failing),
            faults: 0,
        }
    }

    /// The bytes taken so far.
    pub fn bytes(&self) -> &[u8]
        ensures { ⟦<MemSink as Sink>⟧.taken self.now ≡ Some result.now }
    {
        &self.bytes
    }
}

impl Sink for MemSink {
    ghost taken = { λ s. Some s.bytes.items };

    ghost write_faults = { λ s. s.faults };

    fn write(&mut self, bytes: &[u8]) -> WriteEnd
        requires { 0 < length bytes.now }
        ensures bytes { WriteTakes (Some self.old.bytes.items)
            (Some self.new.bytes.items) bytes.now result }
        ensures cause { WriteHasCause self.old.faults self.new.faults result }
        ensures all { TakesAll bytes.now result }
        ensures fails { NextFails self.old.calls → result ≡ WriteEnd.Failed }
        // A call that is not listed fails only where the bytes found no room.
        ensures full { result ≡ WriteEnd.Failed → NextFails self.old.calls
            ⊎ (vec_capacity self.old.bytes < vec_len self.old.bytes + length bytes.now) }
        ensures calls { CountsNext self.old.calls self.new.calls }
    {
        if self.calls.next_fails() || self.bytes.extend_from_slice(bytes).is_err() {
            self.faults = self.faults.saturating_add(1);
            return WriteEnd::Failed;
        }
        WriteEnd::Took(bytes.len())
    }

    fn write_faults(&self) -> u64 {
        self.faults
    }
}
