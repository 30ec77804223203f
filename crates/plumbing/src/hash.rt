//! `hash N`: names an object of 8,000,000 bytes N times, and prints the last name. Each time its
//! first byte is another, so that no two are one object.

use crate::end::{End, number, print};
use object_format::name_of;
use px_base::{Bytes, Hash, Kind, Sink};
use std::alloc::Global;

const CONTENT_BYTES: usize = 8_000_000;

// Writes the number of the turn into the first byte.
fn mark(content: &mut [u8], turn: u32) {
    if let Some(first) = content.first_mut() {
        *first = turn.to_le_bytes()[0];
    }
}

/// Names blobs of 8,000,000 bytes, as many as the word says.
pub fn hash<O: Sink>(alloc: Global, count: &str, out: &mut O) -> Result<(), End> {
    let count = number(count)?;
    let mut content = vec![in alloc; 0u8; CONTENT_BYTES]?;
    let mut name = Hash([0; 20]);
    for turn in 0..count {
        mark(&mut content, turn);
        name = name_of(Kind::Blob, &content);
    }
    let mut line = Bytes::from_slice(alloc, &name.text())?;
    line.push(b'\n')?;
    print(out, line.as_slice())
}
