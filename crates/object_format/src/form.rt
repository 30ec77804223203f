//! The parts of commits and tags. Each reader gives what stands behind its part, or how many bytes
//! are left from the first bad one on.

ghost use Rattle.std.specs.Prelude.{◌≡◌, ℕ, List, Result};
ghost use Rattle.object_format.specs.Reading.{Gives, any_word_at, digits_at, line_at, name_at, or_else, tag_at, text_at};

use px_base::{Hash, ObjectId, is_hex_digit};

// These bytes.
fn text<'a>(text: &[u8], bytes: &'a [u8]) -> Result<&'a [u8], usize>
    ensures { Gives (λ rest. (tt, rest.now)) result (text_at text.now bytes.now) }
{
    for (place, wanted) in text.iter().enumerate() {
        match bytes.get(place) {
            Some(byte) if byte == wanted => {}
            _ => return Err(bytes.len() - place),
        }
    }
    Ok(&bytes[text.len()..])
}

// The digits of a name, in lower case.
fn digits(bytes: &[u8]) -> Result<(&[u8], &[u8]), usize>
    ensures { Gives (λ parts. (parts.0.now, parts.1.now)) result (digits_at 40 bytes.now) }
{
    for place in 0..40 {
        match bytes.get(place) {
            Some(byte) if is_hex_digit(*byte) => {}
            _ => return Err(bytes.len() - place),
        }
    }
    Ok(bytes.split_at(40))
}

// The name of an object.
#[tactic(auto, unfolding(crate::specs::Reading::name_at))]
fn name(bytes: &[u8]) -> Result<(ObjectId, &[u8]), usize>
    ensures { Gives (λ read. (read.0, read.1.now)) result (name_at bytes.now) }
{
    let (digits, rest) = digits(bytes)?;
    match Hash::read(digits) {
        Some(id) => Ok((id, rest)),
        None => Err(rest.len()),
    }
}

/// A word with its space, the name of an object, and a line feed.
#[tactic(auto, unfolding(crate::specs::Reading::line_at))]
pub fn line<'a>(word: &[u8], bytes: &'a [u8]) -> Result<(ObjectId, &'a [u8]), usize>
    ensures { Gives (λ read. (read.0, read.1.now)) result (line_at word.now bytes.now) }
{
    let rest = text(word, bytes)?;
    let (id, rest) = name(rest)?;
    let rest = text(b"\n", rest)?;
    Ok((id, rest))
}

// The first of two readings that gives something, or the fault of the one that went further.
fn first_of<'a>(
    one: Result<&'a [u8], usize>,
    other: Result<&'a [u8], usize>,
) -> Result<&'a [u8], usize>
    ensures { (a b : Result (Unit {0} × List ℕ) ℕ) → Gives (λ rest. (tt, rest.now)) one.entry a
        → Gives (λ rest. (tt, rest.now)) other.entry b
        → Gives (λ rest. (tt, rest.now)) result (or_else a b) }
{
    match (one, other) {
        (Ok(rest), _) | (_, Ok(rest)) => Ok(rest),
        (Err(left), Err(also)) => Err(left.min(also)),
    }
}

// The word of some kind, and a line feed.
#[tactic(auto, unfolding(crate::specs::Reading::any_word_at))]
fn any_word(bytes: &[u8]) -> Result<&[u8], usize>
    ensures { Gives (λ rest. (tt, rest.now)) result (any_word_at bytes.now) }
{
    let commit_or_tree = first_of(text(b"commit\n", bytes), text(b"tree\n", bytes));
    let blob_or_tag = first_of(text(b"blob\n", bytes), text(b"tag\n", bytes));
    first_of(commit_or_tree, blob_or_tag)
}

/// The object of a tag, behind which stands a line of its kind.
#[tactic(auto, unfolding(crate::specs::Reading::tag_at))]
pub fn tag(bytes: &[u8]) -> Result<(ObjectId, &[u8]), usize>
    ensures { Gives (λ read. (read.0, read.1.now)) result (tag_at bytes.now) }
{
    let (id, rest) = line(b"object ", bytes)?;
    let rest = text(b"type ", rest)?;
    let rest = any_word(rest)?;
    Ok((id, rest))
}
