//! Sources and sinks over std's readers and writers, as the streams of a process. They tell of the bytes what the
//! reader or writer tells: one in memory tells all, and those of a process nothing.

ghost use Rattle.std.specs.Prelude.{◌≡◌, ◌==◌, IfOk};
ghost use Rattle.std.specs.Io.Buffered.{reader_remaining};
ghost use Rattle.std.specs.List.{position_or_len};

use crate::lines::LF;
use crate::{Bytes, HeldEnd, ReadEnd, Sink, Source, WriteEnd};
use std::alloc::Global;
use std::io::{BufRead, BufReader, Read, Result, Write};

// How many bytes stand before the first line feed, or all.
fn len_before_feed(bytes: &[u8]) -> usize
    ensures { result ≡ position_or_len (λ b. b == 10) bytes.now }
{
    for (place, byte) in bytes.iter().enumerate() {
        if *byte == LF {
            return place;
        }
    }
    bytes.len()
}

/// A source over a reader, through a buffer. Each error of the reader is a fault, an interrupted read too.
#[derive(Drop)]
pub struct StdSource<R: Read + Drop> {
    inner: BufReader<R>,
    faults: u64,
}

impl<R: Read + Drop> StdSource<R> {
    /// Takes the room of the buffer; an error is want of memory.
    pub fn new(alloc: Global, reader: R) -> Result<Self>
        ensures faults { IfOk result (λ source. source.faults ≡ 0) }
        ensures left { IfOk result (λ source.
            reader_remaining R.remaining source.inner ≡ R.remaining reader) }
    {
        let inner = BufReader::new(alloc, reader)?;
        Ok(StdSource { inner, faults: 0 })
    }
}

impl<R: Read + Drop> Source for StdSource<R> {
    ghost left = { λ s. reader_remaining R.remaining s.inner };

    ghost read_faults = { λ s. s.faults };

    fn read(&mut self, buf: &mut [u8]) -> ReadEnd {
        match self.inner.read(buf) {
            Ok(0) => ReadEnd::End,
            Ok(count) => ReadEnd::Took(count),
            Err(_) => {
                self.faults = self.faults.saturating_add(1);
                ReadEnd::Failed
            }
        }
    }

    fn take_held(&mut self, room: usize, line: &mut Bytes) -> HeldEnd {
        let held = self.inner.buffer();
        if held.is_empty() {
            return HeldEnd::Nothing;
        }
        let count = len_before_feed(held);
        if count > room {
            self.inner.consume(room + 1);
            return HeldEnd::TooLong;
        }
        if line.extend_from_slice(&held[..count]).is_err() {
            return HeldEnd::Memory;
        }
        if count == held.len() {
            self.inner.consume(count);
            return HeldEnd::Part;
        }
        self.inner.consume(count + 1);
        HeldEnd::Line
    }

    fn read_faults(&self) -> u64 {
        self.faults
    }
}

/// A sink over a writer, with no buffer: each write goes out at once. An error, and a write that takes nothing, is a
/// fault.
#[derive(Drop)]
pub struct StdSink<W: Write + Drop> {
    inner: W,
    faults: u64,
}

impl<W: Write + Drop> StdSink<W> {
    /// The sink over this writer, with no fault so far.
    pub fn new(inner: W) -> Self
        ensures faults { result.faults ≡ 0 }
        ensures taken { W.contents result.inner ≡ W.contents inner }
    {
        StdSink { inner, faults: 0 }
    }
}

impl<W: Write + Drop> Sink for StdSink<W> {
    ghost taken = { λ s. W.contents s.inner };

    ghost write_faults = { λ s. s.faults };

    fn write(&mut self, bytes: &[u8]) -> WriteEnd {
        match self.inner.write(bytes) {
            Ok(0) | Err(_) => {
                self.faults = self.faults.saturating_add(1);
                WriteEnd::Failed
            }
            Ok(count) => WriteEnd::Took(count),
        }
    }

    fn write_faults(&self) -> u64 {
        self.faults
    }
}
