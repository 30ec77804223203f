//! Why a run did not end well, the numbers among its words, and what it prints.

use px_base::{Sink, WrittenEnd, write_all};
use std::alloc::AllocError;

/// Why a run did not end well.
#[derive(Clone, Copy)]
pub enum End {
    /// The words name no work.
    Usage,
    /// The input failed.
    ReadFault,
    /// The output failed.
    WriteFault,
    /// The input is not what the work reads.
    BadInput,
    /// Memory wanted.
    Memory,
}

impl End {
    /// The exit status of the process.
    pub fn code(self) -> u8 {
        match self {
            End::Usage => 2,
            End::ReadFault => 3,
            End::WriteFault => 4,
            End::BadInput => 6,
            End::Memory => 7,
        }
    }

    /// What is said of it, in one line.
    pub fn message(self) -> &'static [u8] {
        match self {
            End::Usage =>
                b"plumbing: usage: plumbing objects | hook | vote | rows | hash N | WORD N TURNS, WORD being chain, wide, create, change, push, grow or open\n",
            End::ReadFault => b"plumbing: read fault\n",
            End::WriteFault => b"plumbing: write fault\n",
            End::BadInput => b"plumbing: bad input\n",
            End::Memory => b"plumbing: out of memory\n",
        }
    }
}

impl From<AllocError> for End {
    fn from(_: AllocError) -> End {
        End::Memory
    }
}

/// The number that a word is.
pub fn number(word: &str) -> Result<u32, End> {
    word.parse::<u32>().map_err(|_| End::Usage)
}

/// Writes all of the text.
pub fn print<O: Sink>(out: &mut O, text: &[u8]) -> Result<(), End> {
    match write_all(out, text) {
        WrittenEnd::All => Ok(()),
        WrittenEnd::Failed => Err(End::WriteFault),
    }
}
