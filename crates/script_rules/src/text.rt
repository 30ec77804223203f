//! The line that is printed of an answer.

ghost use Rattle.std.specs.Prelude.{◌≡◌, ◌++◌, ◌∷◌, OnOk};
ghost use Rattle.px_ops.specs.BookingTexts.{each_after_space};
ghost use Rattle.script_rules.specs.Texts.{last_text, ref_text, snapshot_text, text_of};

use crate::Answer;
use itoa::Buffer;
use px_base::{Bytes, Hash, Lease, RefName};
use px_ops::add_reply;
use std::alloc::AllocError;

// Adds references, each after a space.
fn add_each_ref(text: &mut Bytes, refs: &[(RefName, Hash)]) -> Result<(), AllocError>
    ensures { OnOk result (text.new ≡ text.old ++ each_after_space ref_text refs.now) }
{
    for reference in refs {
        add_ref(text, &reference.0, &reference.1)?;
    }
    Ok(())
}

// Adds a reference and the object that it names, after a space.
fn add_ref(text: &mut Bytes, name: &RefName, id: &Hash) -> Result<(), AllocError>
    ensures { OnOk result (text.new ≡ text.old ++ 32 ∷ ref_text (name.now, id.now)) }
{
    text.push(b' ')?;
    text.extend_from_slice(name.as_bytes())?;
    text.push(b'=')?;
    text.extend_from_slice(&id.text())
}

// Adds how many references and objects a snapshot has.
fn add_snapshot(text: &mut Bytes, refs: u64, objects: u64) -> Result<(), AllocError>
    ensures { OnOk result (text.new ≡ text.old ++ snapshot_text refs objects) }
{
    let mut digits = Buffer::new();
    text.extend_from_slice(b"snapshot ")?;
    text.extend_from_slice(digits.format(refs).as_bytes())?;
    text.push(b' ')?;
    text.extend_from_slice(digits.format(objects).as_bytes())
}

// Adds the last lease that a node committed, or '-' for none.
fn add_last(text: &mut Bytes, last: Option<Lease>) -> Result<(), AllocError>
    ensures { OnOk result (text.new ≡ text.old ++ last_text last) }
{
    match last {
        Some(lease) => {
            let mut digits = Buffer::new();
            text.extend_from_slice(b"last ")?;
            text.extend_from_slice(digits.format(lease.number()).as_bytes())
        }
        None => text.extend_from_slice(b"last -"),
    }
}

/// Adds the line that is printed of an answer, with its line feed. Where memory wants, a part of it may
/// stand there.
pub fn add_line(text: &mut Bytes, answer: &Answer) -> Result<(), AllocError>
    ensures { OnOk result (text.new ≡ text.old ++ text_of answer.now) }
{
    match answer {
        Answer::Replied(reply) => add_reply(text, reply)?,
        Answer::Done => text.extend_from_slice(b"done")?,
        Answer::Voted(hash) => {
            text.extend_from_slice(b"vote ")?;
            text.extend_from_slice(&hash.text())?;
        }
        Answer::Refs(refs) => {
            text.extend_from_slice(b"refs")?;
            add_each_ref(text, refs.as_slice())?;
        }
        Answer::Snapshot { refs, objects } => add_snapshot(text, *refs, *objects)?,
        Answer::Last(last) => add_last(text, *last)?,
    }
    text.push(b'\n')
}
