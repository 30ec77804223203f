//! The list of voters at the end of a line.

ghost use Rattle.std.specs.Prelude.{◌≡◌, IfOk};
ghost use Rattle.px_script.specs.Words.{each_of, voter_of};

use crate::cut::cut_at;
use crate::line_words::{LineWords, read_name};
use crate::number::read_small;
use px_base::{Items, Voter};
use std::alloc::{AllocError, Global};

// A name, a colon and a weight.
fn read_voter(word: &[u8]) -> Option<Voter>
    ensures { result ≡ voter_of word.now }
{
    let (name, weight) = cut_at(word, b':')?;
    let name = read_name(name)?;
    let weight = read_small(weight)?;
    Some(Voter { name, weight })
}

/// The words that are left, as voters. An error is want of memory.
pub fn read_voters(
    alloc: Global,
    words: &mut LineWords<'_>,
) -> Result<Option<Items<Voter>>, AllocError>
    ensures { IfOk result (λ voters. voters ≡ each_of voter_of words.old) }
{
    let mut voters = Items::new(alloc);
    while let Some(word) = words.next() {
        match read_voter(word) {
            Some(voter) => voters.push(voter)?,
            None => return Ok(None),
        }
    }
    Ok(Some(voters))
}
