//! Words for objects, and for updates of references.

use px_base::{Hash, Kind, RefName, Update, Updates};
use std::alloc::{AllocError, Global};
use std::test::Fail;

/// The empty blob, the empty tree, or the zero name.
pub fn object(word: &str) -> Result<Hash, Fail> {
    let text = match word {
        "B" => "e69de29bb2d1d6434b8b29ae775ad8c2e48c5391",
        "T" => "4b825dc642cb6eb9a060e54bf8d69288fbee4904",
        "0" => return Ok(Hash::zero()),
        _ => "",
    };
    match Hash::read(text.as_bytes()) {
        Some(id) => Ok(id),
        None => Err(Fail::new("no object")),
    }
}

/// The word of one of the three.
pub fn letter(id: &Hash) -> &'static str {
    let text = id.text();
    match str::from_utf8(&text).unwrap_or("") {
        "e69de29bb2d1d6434b8b29ae775ad8c2e48c5391" => "B",
        "4b825dc642cb6eb9a060e54bf8d69288fbee4904" => "T",
        "0000000000000000000000000000000000000000" => "0",
        _ => "?",
    }
}

/// A kind by its name.
pub fn kind(word: &str) -> Kind {
    match word {
        "blob" => Kind::Blob,
        "tree" => Kind::Tree,
        "commit" => Kind::Commit,
        _ => Kind::Tag,
    }
}

// The entries link, hello, module, run and zero of all modes.
const TREE: &[u8] = b"100644 hello\0\xce\x016%\x03\x0b\xa8\xdb\xa9\x06\xf7V\x96\x7f\x9e\x9c\xa3\
    \x94FJ120000 link\0\xce\x016%\x03\x0b\xa8\xdb\xa9\x06\xf7V\x96\x7f\x9e\x9c\xa3\x94FJ160000 \
    module\0\x11\x11\x11\x11\x11\x11\x11\x11\x11\x11\x11\x11\x11\x11\x11\x11\x11\x11\x11\x11100755 \
    run\0\xe6\x9d\xe2\x9b\xb2\xd1\xd6CK\x8b)\xaewZ\xd8\xc2\xe4\x8cS\x9140000 zero\0K\x82]\xc6B\xcbn\
    \xb9\xa0`\xe5K\xf8\xd6\x92\x88\xfb\xeeI\x04";

// A tag of a blob, and bytes that are no text.
const BYTES: &[u8] = b"object 2222222222222222222222222222222222222222\ntype blob\n\xff\0";

/// A content: TREE, BYTES, or the text itself, with a line feed for each `|`.
pub fn content(alloc: Global, text: &str) -> Result<Vec<u8>, AllocError> {
    let bytes: &[u8] = match text {
        "TREE" => TREE,
        "BYTES" => BYTES,
        _ => text.as_bytes(),
    };
    let mut content = Vec::new(alloc);
    for byte in bytes {
        content.push(if *byte == b'|' { b'\n' } else { *byte })?;
    }
    Ok(content)
}

/// An update by its old object, its new one and its name.
pub fn update(alloc: Global, text: &str) -> Result<Update, Fail> {
    let mut words = text.split_whitespace();
    let old = object(words.next().unwrap_or(""))?;
    let new = object(words.next().unwrap_or(""))?;
    let name = RefName::read(alloc, words.next().unwrap_or("").as_bytes())?;
    Ok(Update { old, new, name })
}

/// The updates of a text, with `;` between them.
pub fn updates(alloc: Global, text: &str) -> Result<Updates, Fail> {
    let mut updates = Updates::new(alloc);
    for text in text.split_terminator(";") {
        updates.push(update(alloc, text)?)?;
    }
    Ok(updates)
}
