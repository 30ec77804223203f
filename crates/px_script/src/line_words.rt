//! The words that are left of a line.

ghost use Rattle.std.specs.Prelude.{◌≡◌, ◌∷◌, [], IfNone, IfOk, IfSome, bytes_eq, drop};
ghost use Rattle.px_base.specs.Hash.{hash_of};
ghost use Rattle.px_script.specs.Names.{path_of, ref_of};
ghost use Rattle.px_script.specs.Reading.{job_lease_of, repo_name_lease_of, repo_name_of, repo_of};
ghost use Rattle.px_script.specs.Reading.{tx_name_of, tx_of};
ghost use Rattle.px_script.specs.Words.{end_of, first_of, health_of, lease_of, line_words, name_of};
ghost use Rattle.px_script.specs.Words.{number_of, phase_of, small_of};

use crate::cut::cut_at;
use crate::number::{read_number, read_small};
use px_base::{Hash, JobId, Lease, NameFault, Phase, RefName, RepoId, RepoPath, StorageName, TxId};
use std::alloc::{AllocError, Global};
use std::marker::Model;

/// A place in a line, with a word after it or none. There is one word more than there are spaces.
#[derive(Drop)]
pub struct LineWords<'a> {
    bytes: &'a [u8],
    is_over: bool,
}

impl<'a> Model for LineWords<'a> {
    ghost use Rattle.std.specs.Prelude.{List, ℕ};
    ghost use Rattle.px_script.specs.Words.{words_left};

    ghost Value = { List (List ℕ) };

    ghost view = { λ w. words_left w.is_over w.bytes.now };
}

impl<'a> LineWords<'a> {
    /// The words of a line. An empty line has one, which is empty.
    pub fn new(line: &'a [u8]) -> LineWords<'a>
        ensures { result ≡ line_words line.now }
    {
        LineWords {
            bytes: line,
            is_over: false,
        }
    }

    /// The same words once more.
    pub fn copy(&self) -> LineWords<'a>
        ensures { result ≡ self.now }
    {
        LineWords {
            bytes: self.bytes,
            is_over: self.is_over,
        }
    }

    /// The next word, where there is one.
    pub fn next(&mut self) -> Option<&'a [u8]>
        ensures some { IfSome result (λ word. self.old ≡ word.now ∷ self.new) }
        ensures none { IfNone result ((self.old ≡ []) × (self.new ≡ [])) }
    {
        if self.is_over {
            return None;
        }
        match cut_at(self.bytes, b' ') {
            Some((word, rest)) => {
                self.bytes = rest;
                Some(word)
            }
            None => {
                self.is_over = true;
                Some(self.bytes)
            }
        }
    }

    /// The next word as a number below 2^64.
    pub fn number(&mut self) -> Option<u64>
        ensures value { result ≡ first_of number_of self.old }
        ensures rest { self.new ≡ drop 1 self.old }
    {
        read_number(self.next()?)
    }

    /// The next word as a number below 2^32.
    pub fn small(&mut self) -> Option<u32>
        ensures value { result ≡ first_of small_of self.old }
        ensures rest { self.new ≡ drop 1 self.old }
    {
        read_small(self.next()?)
    }

    /// The next word as the name of a storage.
    pub fn name(&mut self) -> Option<StorageName>
        ensures value { result ≡ first_of name_of self.old }
        ensures rest { self.new ≡ drop 1 self.old }
    {
        read_name(self.next()?)
    }

    /// The next word as a hash.
    pub fn hash(&mut self) -> Option<Hash>
        ensures value { result ≡ first_of hash_of self.old }
        ensures rest { self.new ≡ drop 1 self.old }
    {
        Hash::read(self.next()?)
    }

    /// The next word as a phase.
    pub fn phase(&mut self) -> Option<Phase>
        ensures value { result ≡ first_of phase_of self.old }
        ensures rest { self.new ≡ drop 1 self.old }
    {
        read_phase(self.next()?)
    }

    /// The next word as a lease.
    pub fn lease(&mut self) -> Option<Lease>
        ensures value { result ≡ first_of lease_of self.old }
        ensures rest { self.new ≡ drop 1 self.old }
    {
        Lease::new(read_number(self.next()?)?)
    }

    /// The next word as whether a storage can be reached.
    pub fn health(&mut self) -> Option<bool>
        ensures value { result ≡ first_of health_of self.old }
        ensures rest { self.new ≡ drop 1 self.old }
    {
        read_health(self.next()?)
    }

    /// The next word as the path of a repository. An error is want of memory.
    pub fn path(&mut self, alloc: Global) -> Result<Option<RepoPath>, AllocError>
        ensures value { IfOk result (λ path. path ≡ first_of path_of self.old) }
        ensures rest { self.new ≡ drop 1 self.old }
    {
        match self.next() {
            Some(word) => read_path(alloc, word),
            None => Ok(None),
        }
    }

    /// All that is left, as a transaction.
    pub fn only_tx(&mut self) -> Option<TxId>
        ensures { result ≡ tx_of self.old }
    {
        let tx = TxId(self.number()?);
        self.end()?;
        Some(tx)
    }

    /// All that is left, as a transaction and the name of a storage.
    pub fn only_tx_and_name(&mut self) -> Option<(TxId, StorageName)>
        ensures { result ≡ tx_name_of self.old }
    {
        let tx = TxId(self.number()?);
        let name = self.name()?;
        self.end()?;
        Some((tx, name))
    }

    /// All that is left, as a job and a lease.
    pub fn only_job_and_lease(&mut self) -> Option<(JobId, Lease)>
        ensures value { result ≡ job_lease_of self.old }
        ensures rest { IfSome result (λ work. self.new ≡ []) }
    {
        let job = JobId(self.number()?);
        let lease = self.lease()?;
        self.end()?;
        Some((job, lease))
    }

    /// All that is left, as a repository.
    pub fn only_repo(&mut self) -> Option<RepoId>
        ensures { result ≡ repo_of self.old }
    {
        let repo = RepoId(self.small()?);
        self.end()?;
        Some(repo)
    }

    /// All that is left, as a repository and the name of a storage.
    pub fn only_repo_and_name(&mut self) -> Option<(RepoId, StorageName)>
        ensures { result ≡ repo_name_of self.old }
    {
        let repo = RepoId(self.small()?);
        let name = self.name()?;
        self.end()?;
        Some((repo, name))
    }

    /// All that is left, as a repository, the name of a storage and a lease.
    pub fn only_repo_name_and_lease(&mut self) -> Option<(RepoId, StorageName, Lease)>
        ensures { result ≡ repo_name_lease_of self.old }
    {
        let repo = RepoId(self.small()?);
        let name = self.name()?;
        let lease = self.lease()?;
        self.end()?;
        Some((repo, name, lease))
    }

    /// Whether no word is left.
    pub fn end(&self) -> Option<()>
        ensures { result ≡ end_of self.now }
    {
        if self.is_over { Some(()) } else { None }
    }
}

/// The name of a storage.
pub fn read_name(word: &[u8]) -> Option<StorageName>
    ensures { result ≡ name_of word.now }
{
    StorageName::read(word).ok()
}

// One of the two phases, by its word.
fn read_phase(word: &[u8]) -> Option<Phase>
    ensures { result ≡ phase_of word.now }
{
    if is_text(word, b"prepared") {
        Some(Phase::Prepared)
    } else if is_text(word, b"committed") {
        Some(Phase::Committed)
    } else {
        None
    }
}

// Whether a storage can be reached, by the word for it.
fn read_health(word: &[u8]) -> Option<bool>
    ensures { result ≡ health_of word.now }
{
    if is_text(word, b"up") {
        Some(true)
    } else if is_text(word, b"down") {
        Some(false)
    } else {
        None
    }
}

// The path of a repository. An error is want of memory.
fn read_path(alloc: Global, word: &[u8]) -> Result<Option<RepoPath>, AllocError>
    ensures { IfOk result (λ path. path ≡ path_of word.now) }
{
    match RepoPath::read(alloc, word) {
        Ok(path) => Ok(Some(path)),
        Err(NameFault::BadName { .. }) => Ok(None),
        Err(NameFault::Memory) => Err(AllocError),
    }
}

/// The name of a reference. An error is want of memory.
pub fn read_ref(alloc: Global, word: &[u8]) -> Result<Option<RefName>, AllocError>
    ensures { IfOk result (λ name. name ≡ ref_of word.now) }
{
    match RefName::read(alloc, word) {
        Ok(name) => Ok(Some(name)),
        Err(NameFault::BadName { .. }) => Ok(None),
        Err(NameFault::Memory) => Err(AllocError),
    }
}

/// Whether the word is this text.
pub fn is_text(word: &[u8], text: &[u8]) -> bool
    ensures { result ≡ bytes_eq word.now text.now }
{
    word == text
}
