//! Lists of paths of repositories.

ghost use Rattle.std.specs.Prelude.{◌≡◌, ◌↔◌, [], ◌∷◌, ◌++◌, length, slice_get, IsTrue, OnOk, OnErr};
ghost use Rattle.std.specs.Option.{option_copied};
ghost use Rattle.px_base.specs.PathList.{IsPathList};

use crate::{Items, RepoPath};
use std::alloc::{AllocError, Global};
use std::marker::Model;

/// Paths of repositories, which ascend in the order of their bytes.
#[derive(Drop)]
pub struct PathList {
    paths: Items<RepoPath>,
}

impl Model for PathList {
    ghost use Rattle.std.specs.Prelude.{ℕ, List};
    ghost use Rattle.px_base.specs.PathList.{IsPathList};

    ghost Value = { List (List ℕ) };

    ghost view = { λ l. l.paths };

    ghost invariant = { λ l. IsPathList l.paths };
}

impl PathList {
    /// The empty list. It takes no memory yet.
    pub fn new(alloc: Global) -> PathList
        ensures { result ≡ [] }
    {
        PathList {
            paths: Items::new(alloc),
        }
    }

    /// Adds a path at the end, where it has to fit. Where memory wants, the list stays.
    pub fn push(&mut self, path: RepoPath) -> Result<(), AllocError>
        requires { IsPathList (self.old ++ path ∷ []) }
        ensures ok { OnOk result (self.new ≡ self.old ++ path ∷ []) }
        ensures err { OnErr result (self.new ≡ self.old) }
    {
        self.paths.push(path)?;
        Ok(())
    }

    /// How many paths there are.
    pub fn len(&self) -> usize
        ensures { result ≡ length self.now }
    {
        self.paths.len()
    }

    /// Whether there is none.
    pub fn is_empty(&self) -> bool
        ensures { IsTrue result ↔ (self.now ≡ []) }
    {
        self.paths.is_empty()
    }

    /// The path at a place, from 0, or `None` past the end.
    pub fn get(&self, at: usize) -> Option<&RepoPath>
        ensures { option_copied result ≡ slice_get self.now at }
    {
        self.paths.get(at)
    }

    /// The paths as a slice.
    pub fn as_slice(&self) -> &[RepoPath]
        ensures value { result.now ≡ self.now }
        ensures list { IsPathList self.now }
    {
        self.paths.as_slice()
    }
}
