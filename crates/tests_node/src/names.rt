//! The words that calls and answers have for the names of objects, and for votes.

use px_base::Hash;
use std::test::Fail;

// Each word with the name of 40 digits that it stands for: objects by git hash-object, git mktree, git
// commit-tree and git mktag (objects.rt has their contents), and votes by sha1sum of what Git hands to
// its reference-transaction hook, which go by their first digits, but for that of the first push.
const NAMES: &str = "\
    none 0000000000000000000000000000000000000000
    blob e69de29bb2d1d6434b8b29ae775ad8c2e48c5391
    tree 4b825dc642cb6eb9a060e54bf8d69288fbee4904
    blob1 5626abf0f72e58d7a153368ba57db4c673c0e171
    blob2 1179824569dcb14413904cb2b5cb036a9551024d
    tree1 32b97a7332f485ca3b3fd33067b39c1ccd422ae2
    tree2 40aab47f979fff1cada7c262942d19fd5df11942
    commit1 d3a25a5d0c3b31674e28e8f723dade282c1031cf
    commit2 ebea70134a8601beae6d046839db543b9dc6c107
    commit3 bebb63225b9ee78f3ece804f6a1588c0fce5418d
    tag1 37e70077d670e3007e93845e3dbb682830243438
    vote 486a01e01b4248b74452b5a140fb221f9033e770
    818c 818c02ab7f981a46980c835a06b95bcfc34cdc3c
    32ac 32ac3d79786574ba4884a5e481722a2c04419b8c
    9062 906285863665dfcf67ec7159fa7b89dc8cdc0b3b
    45ba 45ba8f83323285a91e0551a706a95d79432287b2
    25d2 25d22f95da84d1928364afb53e3bcbb296bdab2e";

/// The name that a word stands for.
pub fn hash(word: &str) -> Result<Hash, Fail> {
    for line in NAMES.lines() {
        let (known, text) = line.trim_start().split_once(" ").unwrap_or((line, ""));
        if known == word {
            return read(text);
        }
    }
    Err(Fail::new("no hash"))
}

/// A name of 40 digits.
pub fn read(text: &str) -> Result<Hash, Fail> {
    match Hash::read(text.as_bytes()) {
        Some(hash) => Ok(hash),
        None => Err(Fail::new("no hash")),
    }
}

/// The word for a name, or `?` where it has none.
pub fn word(hash: &Hash) -> &'static str {
    let told = hash.text();
    let told = str::from_utf8(&told).unwrap_or("");
    for line in NAMES.lines() {
        let (known, text) = line.trim_start().split_once(" ").unwrap_or((line, ""));
        if text == told {
            return known;
        }
    }
    "?"
}
