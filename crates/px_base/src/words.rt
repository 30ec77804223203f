//! The words of a command line.

ghost use Rattle.std.specs.Prelude.{◌≡◌, ◌↔◌, [], ◌∷◌, ◌++◌, List, ℕ, length, map, slice_get, string_bytes, IsTrue, OnOk, OnErr};
ghost use Rattle.std.specs.Option.{option_copied};

use std::alloc::{AllocError, Global};
use std::marker::Model;

/// A list of texts, as those of a command line.
#[derive(Drop)]
pub struct Words {
    items: Vec<String>,
}

impl Model for Words {
    ghost Value = { List (List ℕ) };

    ghost view = { λ w. map string_bytes w.items.items };
}

impl Words {
    /// The empty list. It takes no memory yet.
    pub fn new(alloc: Global) -> Self
        ensures { result ≡ [] }
    {
        Words {
            items: Vec::new(alloc),
        }
    }

    /// Adds a copy of a text at the end. Where memory wants, the list stays.
    pub fn push(&mut self, alloc: Global, word: &str) -> Result<(), AllocError>
        ensures ok { OnOk result (self.new ≡ self.old ++ word.now ∷ []) }
        ensures err { OnErr result (self.new ≡ self.old) }
    {
        let copy = String::from_str(alloc, word)?;
        self.items.push(copy)?;
        Ok(())
    }

    /// How many texts there are.
    pub fn len(&self) -> usize
        ensures { result ≡ length self.now }
    {
        self.items.len()
    }

    /// Whether there is none.
    pub fn is_empty(&self) -> bool
        ensures { IsTrue result ↔ (self.now ≡ []) }
    {
        self.items.is_empty()
    }

    /// The bytes of the text at a place, from 0, or `None` past the end.
    pub fn get(&self, at: usize) -> Option<&[u8]>
        ensures { option_copied result ≡ slice_get self.now at }
    {
        match self.items.get(at) {
            Some(word) => Some(word.as_bytes()),
            None => None,
        }
    }

    /// Whether this text is the only one.
    pub fn is_only(&self, word: &str) -> bool
        ensures { IsTrue result ↔ (self.now ≡ word.now ∷ []) }
    {
        match self.items.as_slice() {
            [one] => one.as_str() == word,
            _ => false,
        }
    }
}
