//! A stream of bytes that come in, with a count of its faults.

ghost use Rattle.std.specs.Prelude.{◌≡◌, ◌<◌, List, ℕ, length, Option};
ghost use Rattle.px_base.specs.Held.{HeldGives};
ghost use Rattle.px_base.specs.Source.{ReadGives, ReadHasCause};

use crate::Bytes;

/// What a read came to.
#[derive(Clone, Copy, Debug, PartialEq, Eq)]
pub enum ReadEnd {
    /// So many bytes came, from one to the length of the buffer.
    Took(usize),
    /// Nothing is left.
    End,
    /// The source failed, and nothing was taken from it.
    Failed,
}

/// What came of a line out of what a source holds in a buffer.
#[derive(Clone, Copy, Debug, PartialEq, Eq)]
pub enum HeldEnd {
    /// The source holds nothing.
    Nothing,
    /// A part of the line, which has a byte and no line feed: all that the source held.
    Part,
    /// The rest of the line, and its line feed, which is not in it.
    Line,
    /// One byte more than there is room for, with no line feed among them.
    TooLong,
    /// Memory wanted.
    Memory,
}

/// A stream of bytes that come in. A source may tell what it has left, as one in memory does; the real ones tell
/// nothing, and what is said of their bytes is then said of what they gave.
pub trait Source {
    /// The bytes that reads will give from here on, where the source tells.
    ghost left: { Self → Option (List ℕ) };

    /// How often the source has failed, up to the last value of a `u64`, where the count stays.
    ghost read_faults: { Self → ℕ };

    /// Moves bytes from the front of what is left into the front of `buf`.
    fn read(&mut self, buf: &mut [u8]) -> ReadEnd
        requires { 0 < length buf.old }
        ensures bytes { ReadGives (left self.old) (left self.new) buf.new result }
        ensures cause { ReadHasCause (read_faults self.old) (read_faults self.new) result };

    /// Moves what the source holds in a buffer of a line to the end of it, and none of the bytes behind its line feed. At
    /// most `room` bytes more may come into the line. It saves the reads of single bytes; a source without a buffer
    /// holds nothing.
    fn take_held(&mut self, room: usize, line: &mut Bytes) -> HeldEnd
        ensures bytes { HeldGives room (left self.old) (left self.new) line.old line.new result }
        ensures faults { read_faults self.new ≡ read_faults self.old }
    {
        HeldEnd::Nothing
    }

    /// How often the source has failed.
    fn read_faults(&self) -> u64
        ensures { result ≡ read_faults self.now };
}
