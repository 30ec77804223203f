//! The updates and the objects of a push, at the end of a line.

ghost use Rattle.std.specs.Prelude.{◌≡◌, IfOk, IfSome};
ghost use Rattle.std.specs.List.{after_first, before_first, list_all};
ghost use Rattle.px_base.specs.Hash.{is_hex_digit};
ghost use Rattle.px_script.specs.PushWords.{content_of, is_with, kind_of, object_of};
ghost use Rattle.px_script.specs.PushWords.{pushed_of, small_object, update_of};
ghost use Rattle.px_script.specs.Words.{each_of};

use crate::cut::cut_at;
use crate::line_words::{LineWords, is_text, read_ref};
use px_base::{Bytes, Hash, Items, Kind, Object, Objects, Push, Update, Updates, is_hex_digit};
use std::alloc::{AllocError, Global};

// `OLD:NEW:REF`: two object names, and that of a reference.
fn read_update(alloc: Global, word: &[u8]) -> Result<Option<Update>, AllocError>
    ensures { IfOk result (λ update. update ≡ update_of word.now) }
{
    let Some((old, rest)) = cut_at(word, b':') else {
        return Ok(None);
    };
    let Some((new, name)) = cut_at(rest, b':') else {
        return Ok(None);
    };
    let Some(old) = Hash::read(old) else {
        return Ok(None);
    };
    let Some(new) = Hash::read(new) else {
        return Ok(None);
    };
    let Some(name) = read_ref(alloc, name)? else {
        return Ok(None);
    };
    Ok(Some(Update { old, new, name }))
}

// One of the four kinds, by its word.
fn read_kind(word: &[u8]) -> Option<Kind>
    ensures { result ≡ kind_of word.now }
{
    if is_text(word, b"blob") {
        Some(Kind::Blob)
    } else if is_text(word, b"tree") {
        Some(Kind::Tree)
    } else if is_text(word, b"commit") {
        Some(Kind::Commit)
    } else if is_text(word, b"tag") {
        Some(Kind::Tag)
    } else {
        None
    }
}

// Whether each byte is a hexadecimal digit in lower case.
fn are_digits(text: &[u8]) -> bool
    ensures { result ≡ list_all is_hex_digit text.now }
{
    text.iter().all(|byte| is_hex_digit(*byte))
}

// Bytes, by two hexadecimal digits in lower case for each.
fn read_content(alloc: Global, digits: &[u8]) -> Result<Option<Bytes>, AllocError>
    ensures { IfOk result (λ content. content ≡ content_of digits.now) }
{
    if !are_digits(digits) {
        return Ok(None);
    }
    match hex::decode(alloc, digits) {
        Ok(content) => Ok(Some(Bytes::from_slice(alloc, &content)?)),
        Err(hex::FromHexError::OutOfMemory) => Err(AllocError),
        Err(_) => Ok(None),
    }
}

// `KIND:HEX`: the kind of an object, and its content.
fn read_object(alloc: Global, word: &[u8]) -> Result<Option<Object>, AllocError>
    ensures { IfOk result (λ object. object ≡ object_of word.now) }
{
    let Some((kind, digits)) = cut_at(word, b':') else {
        return Ok(None);
    };
    let Some(kind) = read_kind(kind) else {
        return Ok(None);
    };
    let Some(content) = read_content(alloc, digits)? else {
        return Ok(None);
    };
    Ok(Object::new(kind, content))
}

// The words up to `with`, or to the end, as updates. The words behind it are left.
fn read_updates(alloc: Global, words: &mut LineWords<'_>) -> Result<Option<Updates>, AllocError>
    ensures updates { IfOk result
        (λ updates. updates ≡ each_of update_of (before_first is_with words.old)) }
    ensures rest { IfOk result (λ updates. IfSome updates
        (λ list. words.new ≡ after_first is_with words.old)) }
{
    let mut updates = Items::new(alloc);
    while let Some(word) = words.next() {
        if is_text(word, b"with") {
            return Ok(Some(updates));
        }
        match read_update(alloc, word)? {
            Some(update) => updates.push(update)?,
            None => return Ok(None),
        }
    }
    Ok(Some(updates))
}

// The words that are left, as objects.
fn read_objects(alloc: Global, words: &mut LineWords<'_>) -> Result<Option<Objects>, AllocError>
    ensures { IfOk result (λ objects. objects ≡ each_of object_of words.old) }
{
    let mut objects = Items::new(alloc);
    while let Some(word) = words.next() {
        match read_object(alloc, word)? {
            Some(object) => objects.push(object)?,
            None => return Ok(None),
        }
    }
    Ok(Some(objects))
}

/// The words that are left, as what is pushed. An error is want of memory.
pub fn read_pushed(alloc: Global, words: &mut LineWords<'_>) -> Result<Option<Push>, AllocError>
    ensures { IfOk result (λ push. push ≡ pushed_of words.old) }
{
    let Some(updates) = read_updates(alloc, words)? else {
        return Ok(None);
    };
    let Some(objects) = read_objects(alloc, words)? else {
        return Ok(None);
    };
    Ok(Some(Push { updates, objects }))
}
