//! `objects`: reads objects, each as `KIND SP LENGTH LF`, so many bytes, and a line feed, and prints
//! a line for each: its name, and then ` bad AT` where its form is broken, or else its links, with a
//! space before each.

use crate::end::{End, print};
use object_format::{LinkFault, links, name_of};
use px_base::{Bytes, Ids, Kind, LineEnd, ReadEnd, Sink, Source, line};
use std::alloc::Global;

/// More than the longest first line of an object takes.
const HEADER_BYTES: usize = 64;

fn kind_of(word: &[u8]) -> Option<Kind> {
    match word {
        b"commit" => Some(Kind::Commit),
        b"tree" => Some(Kind::Tree),
        b"blob" => Some(Kind::Blob),
        b"tag" => Some(Kind::Tag),
        _ => None,
    }
}

fn length_of(word: &[u8]) -> Option<usize> {
    str::from_utf8(word).ok()?.parse::<usize>().ok()
}

// A kind, a space and a length.
fn header_of(text: &[u8]) -> Option<(Kind, usize)> {
    let space = text.iter().position(|byte| *byte == b' ')?;
    let kind = kind_of(&text[..space])?;
    let length = length_of(&text[space + 1..])?;
    Some((kind, length))
}

// Fills the buffer from the input.
fn fill<S: Source>(input: &mut S, buffer: &mut [u8]) -> Result<(), End> {
    let mut filled = 0;
    while filled < buffer.len() {
        match input.read(&mut buffer[filled..]) {
            ReadEnd::Took(count) => filled += count,
            ReadEnd::End => return Err(End::BadInput),
            ReadEnd::Failed => return Err(End::ReadFault),
        }
    }
    Ok(())
}

// The content of an object, and the line feed behind it.
fn content<S: Source>(alloc: Global, input: &mut S, length: usize) -> Result<Vec<u8>, End> {
    let mut content = vec![in alloc; 0u8; length]?;
    fill(input, &mut content)?;
    let mut feed = [0; 1];
    fill(input, &mut feed)?;
    if feed == [b'\n'] {
        Ok(content)
    } else {
        Err(End::BadInput)
    }
}

// The next object, where the input has not ended.
fn next<S: Source>(alloc: Global, input: &mut S) -> Result<Option<(Kind, Vec<u8>)>, End> {
    match line(alloc, input, HEADER_BYTES) {
        LineEnd::Line(text) => {
            let (kind, length) = header_of(text.as_slice()).ok_or(End::BadInput)?;
            Ok(Some((kind, content(alloc, input, length)?)))
        }
        LineEnd::End => Ok(None),
        LineEnd::TooLong => Err(End::BadInput),
        LineEnd::ReadFault => Err(End::ReadFault),
        LineEnd::Memory => Err(End::Memory),
    }
}

// The line of an object.
fn line_of(alloc: Global, kind: Kind, content: &[u8]) -> Result<Bytes, End> {
    let mut text = Bytes::from_slice(alloc, &name_of(kind, content).text())?;
    match links(alloc, kind, content) {
        Ok(ids) => push_links(&mut text, &ids)?,
        Err(LinkFault::BadObject { at }) => push_place(alloc, &mut text, at)?,
        Err(LinkFault::Memory) => return Err(End::Memory),
    }
    text.push(b'\n')?;
    Ok(text)
}

fn push_links(text: &mut Bytes, ids: &Ids) -> Result<(), End> {
    for id in ids.as_slice() {
        text.push(b' ')?;
        text.extend_from_slice(&id.text())?;
    }
    Ok(())
}

fn push_place(alloc: Global, text: &mut Bytes, at: usize) -> Result<(), End> {
    let place = format!(in alloc; " bad {at}")?;
    text.extend_from_slice(place.as_bytes())?;
    Ok(())
}

/// Reads objects to the end of the input, and prints the line of each.
pub fn objects<S: Source, O: Sink>(alloc: Global, input: &mut S, out: &mut O) -> Result<(), End> {
    for _ in 0..u64::MAX {
        let Some((kind, content)) = next(alloc, input)? else {
            return Ok(());
        };
        let text = line_of(alloc, kind, &content)?;
        print(out, text.as_slice())?;
    }
    Ok(())
}
