//! The next line of a script, under the limit of a line and that of the whole input.

ghost use Rattle.script_run.specs.Next.{NextGives, NextHasCause};
ghost use Rattle.script_run.specs.Stream.{stream};

use crate::MAX_LINE_BYTES;
use px_base::{Bytes, Piece, Source, read_piece};

/// What came of a script.
#[derive(Clone, Copy)]
pub(crate) enum Next {
    /// A line, which stands in the buffer without its line feed.
    Line {
        /// Whether it is the last one, which has a byte and lacks its line feed.
        last: bool,
    },
    /// Nothing was left.
    End,
    /// A line above the greatest length.
    Overlong,
    /// The byte behind the limit of the input.
    TooLong,
    /// The source failed.
    ReadFault,
    /// Memory wanted.
    Memory,
}

/// Reads a line of a script of which `room` bytes more may come into a buffer, in place of what was there. Where one byte
/// passes both limits, the line is overlong.
pub(crate) fn next_line<S: Source>(input: &mut S, room: u64, line: &mut Bytes) -> Next
    ensures bytes { NextGives room (stream (S.left input.old) (S.read_faults input.old))
        (stream (S.left input.new) (S.read_faults input.new)) line.new result }
    ensures cause { NextHasCause (stream (S.left input.old) (S.read_faults input.old))
        (stream (S.left input.new) (S.read_faults input.new)) result }
{
    let max = (MAX_LINE_BYTES as u64).min(room) as usize;
    match read_piece(input, max, line) {
        Piece::Line => {
            if line.len() as u64 >= room {
                return Next::TooLong;
            }
            Next::Line { last: false }
        }
        Piece::Last => Next::Line { last: true },
        Piece::End => Next::End,
        Piece::TooLong => {
            if room >= MAX_LINE_BYTES as u64 {
                return Next::Overlong;
            }
            Next::TooLong
        }
        Piece::ReadFault => Next::ReadFault,
        Piece::Memory => Next::Memory,
    }
}
