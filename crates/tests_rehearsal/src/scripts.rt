//! Scripts as tables: lines, and what is printed of each.

use crate::runs::rehearsed;
use std::alloc::{AllocError, Global};
use std::test::Fail;
use tests_tables::{compare, parts};

// What a table has braces for: the names of objects and the votes, each with its 40 digits. Git names
// the objects, as in `printf 'one\n' | git hash-object --stdin`: `empty` is the blob without content,
// and `tree` the tree without entries. The commit has the line `tree TREE` alone, and its name by
// `git hash-object -t commit --literally`; `content` is that line, as xxd prints it. A vote is what
// sha1sum makes of the lines that Git hands to its hook, by `printf '%s %s %s\n' OLD NEW REF | sha1sum`:
// `vote` of the creation of refs/tags/empty as `empty`, `other` of that of refs/tags/one as `one`,
// `two` of that of refs/tags/two as `empty`, `moved` of the change of refs/tags/empty from `empty` to
// `one`, and `second` of its deletion and then the creation of refs/heads/main as `commit`.
const WORDS: &str = "\
    zero 0000000000000000000000000000000000000000
    ones 1111111111111111111111111111111111111111
    empty e69de29bb2d1d6434b8b29ae775ad8c2e48c5391
    one 5626abf0f72e58d7a153368ba57db4c673c0e171
    tree 4b825dc642cb6eb9a060e54bf8d69288fbee4904
    commit e43fc45fe9861f11199bfc430939749be99df922
    content 7472656520346238323564633634326362366562396130363065353462663864363932383866626565343930340a
    vote 486a01e01b4248b74452b5a140fb221f9033e770
    other df3b997e03dbdf83384cd4eba5d59b36ad0f68d8
    two 49255c48ade77b97fa22e0ff1d7ae2ccb4d63266
    moved 0a0d245e21025840c9f732bf95e6f9091cefe305
    second 00fab499e2208e290d1d371ef757119b9ef82f3d";

// What a word in braces stands for.
fn meaning(word: &str) -> Result<&'static str, Fail> {
    for line in WORDS.lines() {
        let (known, digits) = line.trim_start().split_once(" ").unwrap_or((line, ""));
        if known == word {
            return Ok(digits);
        }
    }
    Err(Fail::new(format_args!("nothing is named {word}")))
}

// A text with what its words in braces stand for.
fn spelled(alloc: Global, text: &str) -> Result<String, Fail> {
    let mut spelled = String::new(alloc);
    for piece in text.split("{") {
        match piece.split_once("}") {
            Some((word, rest)) => {
                spelled.push_str(meaning(word)?)?;
                spelled.push_str(rest)?;
            }
            None => spelled.push_str(piece)?,
        }
    }
    Ok(spelled)
}

/// A table with the lines of another one behind each of its own.
pub fn with_each(alloc: Global, table: &str, behind: &str) -> Result<String, AllocError> {
    let mut lines = String::new(alloc);
    for line in table.lines() {
        lines.push_str(format!(in alloc; "{line}\n{behind}\n")?.as_str())?;
    }
    Ok(lines)
}

// The script of tables.
fn script(alloc: Global, tables: &[&str]) -> Result<String, Fail> {
    let mut script = String::new(alloc);
    for table in tables {
        for line in table.lines() {
            let (asked, _) = parts(line)?;
            script.push_str(spelled(alloc, asked)?.as_str())?;
            script.push_str("\n")?;
        }
    }
    Ok(script)
}

/// Plays tables one behind the other, as one script from the empty world. It fails at the first line of
/// which another line is printed than stands behind its `->`, and where the run is not done then.
pub fn play(alloc: Global, tables: &[&str]) -> Result<(), Fail> {
    let script = script(alloc, tables)?;
    let ran = rehearsed(alloc, script.as_bytes(), &[], &[])?;
    let out = str::from_utf8(ran.out.bytes()).unwrap_or("?");
    let mut told = out.lines();
    for table in tables {
        for line in table.lines() {
            let (asked, want) = parts(line)?;
            let want = spelled(alloc, want)?;
            compare(asked, told.next().unwrap_or("nothing"), want.as_str())?;
        }
    }
    match told.next() {
        None if ran.is(0, out.as_bytes(), b"") => Ok(()),
        _ => Err(Fail::new(format_args!("status {} after {out}", ran.status.code()))),
    }
}
