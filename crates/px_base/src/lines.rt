//! Lines of a source, one at a time.

ghost use Rattle.std.specs.Prelude.{◌≡◌, ◌≤◌, ℕ};
ghost use Rattle.px_base.specs.Line.{PieceGives, PieceHasCause, LineGives, LineHasCause};

use crate::{Bytes, HeldEnd, ReadEnd, Source};
use std::alloc::Global;

pub(crate) const LF: u8 = b'\n';

/// What reading a line into a buffer came to, where the caller has to know whether its line feed came.
#[derive(Clone, Copy, Debug, PartialEq, Eq)]
pub enum Piece {
    /// A line, whose line feed came and is not in it.
    Line,
    /// The last line, which has a byte and no line feed.
    Last,
    /// Nothing was left.
    End,
    /// One byte more than may stand in a line came, with no line feed among them.
    TooLong,
    /// The source failed, and its count rose.
    ReadFault,
    /// Memory wanted.
    Memory,
}

/// What reading a line came to.
#[derive(Drop)]
pub enum LineEnd {
    /// A line without its line feed. A last line that lacks it is a line.
    Line(Bytes),
    /// Nothing was left.
    End,
    /// One byte more than may stand in a line came, with no line feed among them.
    TooLong,
    /// The source failed, and its count rose.
    ReadFault,
    /// Memory wanted.
    Memory,
}

/// Reads a line of at most `max` bytes beside its line feed into a buffer, in place of what was there: out of what the source
/// holds, and else a byte at a time, so that no byte behind the line is taken. The bytes that were read are spent,
/// whatever comes.
pub fn read_piece<S: Source>(source: &mut S, max: usize, bytes: &mut Bytes) -> Piece
    ensures bytes { PieceGives max (S.left source.old) (S.left source.new) bytes.new result }
    ensures cause { PieceHasCause (S.read_faults source.old) (S.read_faults source.new) result }
{
    bytes.clear();
    loop {
        match source.take_held(max - bytes.len(), bytes) {
            HeldEnd::Nothing => {}
            HeldEnd::Part => continue,
            HeldEnd::Line => return Piece::Line,
            HeldEnd::TooLong => return Piece::TooLong,
            HeldEnd::Memory => return Piece::Memory,
        }
        let mut byte = [0u8; 1];
        match source.read(&mut byte) {
            ReadEnd::Took(_) => {}
            ReadEnd::End => {
                if bytes.is_empty() {
                    return Piece::End;
                }
                return Piece::Last;
            }
            ReadEnd::Failed => return Piece::ReadFault,
        }
        let [next] = byte;
        if next == LF {
            return Piece::Line;
        }
        if bytes.len() >= max {
            return Piece::TooLong;
        }
        if bytes.push(next).is_err() {
            return Piece::Memory;
        }
    }
}

/// Reads a line of at most `max` bytes beside its line feed. The bytes that were read are spent, whatever comes.
pub fn line<S: Source>(alloc: Global, source: &mut S, max: usize) -> LineEnd
    ensures bytes { LineGives max (S.left source.old) (S.left source.new) result }
    ensures cause { LineHasCause (S.read_faults source.old) (S.read_faults source.new) result }
{
    let mut bytes = Bytes::new(alloc);
    match read_piece(source, max, &mut bytes) {
        Piece::Line | Piece::Last => LineEnd::Line(bytes),
        Piece::End => LineEnd::End,
        Piece::TooLong => LineEnd::TooLong,
        Piece::ReadFault => LineEnd::ReadFault,
        Piece::Memory => LineEnd::Memory,
    }
}
