//! Who votes, with which weight, and how much is needed.

ghost use Rattle.std.specs.Prelude.{◌≡◌, ◌≢◌, ◌≤◌, IfSome, IfNone, MatchResult, sum_by, length};
ghost use Rattle.std.specs.List.{AllPairs, list_any};
ghost use Rattle.voters.specs.Marks.{voter_weight};
ghost use Rattle.voters.specs.Panel.{first_repeated, same_name, panel_refusal, IsPanel};

use px_base::{StorageName, Voter};
use std::alloc::Global;
use std::marker::Model;

/// How many voters a panel may have.
const MAX_VOTERS: usize = 64;

/// Why there is no such panel, in the order in which the causes are tested.
#[derive(Clone, Copy, Debug, PartialEq, Eq)]
pub enum PanelRefusal {
    /// The list of voters is empty.
    NoVoters,
    /// There are more than 64 voters.
    TooManyVoters {
        /// How many there are.
        n: usize,
    },
    /// A name stands twice.
    DuplicateVoter {
        /// The first name that an earlier voter has already.
        name: StorageName,
    },
    /// The threshold is above the total weight, or twice the threshold is not above it.
    BadThreshold {
        /// The weight of all voters.
        total: u64,
        /// The threshold that was asked for.
        threshold: u64,
    },
    /// Memory wants.
    Memory,
}

/// One to 64 voters with distinct names, and a threshold within their total weight and above half
/// of it. A voter is known by its number, its place in the list from 0.
#[derive(Drop)]
pub struct Panel {
    voters: Vec<Voter>,
    threshold: u64,
    total: u64,
}

impl Model for Panel {
    ghost use Rattle.voters.specs.Panel.{Roster};

    ghost Value = { Roster };

    ghost use Rattle.voters.specs.Panel.Inside.{IsPanelKept};

    ghost view = { λ p. record { voters = p.voters.items; threshold = p.threshold } };

    ghost invariant = { IsPanelKept };
}

impl Panel {
    /// The panel of these voters, which it copies.
    pub fn new(alloc: Global, voters: &[Voter], threshold: u64) -> Result<Panel, PanelRefusal>
        ensures refused { IfSome (panel_refusal voters.now threshold) (λ e. result ≡ Err e) }
        ensures made { IfNone (panel_refusal voters.now threshold) (MatchResult result
            (λ panel. panel ≡ record { voters = voters.now; threshold = threshold })
            (λ e. e ≡ PanelRefusal.Memory)) }
    {
        if voters.is_empty() {
            return Err(PanelRefusal::NoVoters);
        }
        if voters.len() > MAX_VOTERS {
            return Err(PanelRefusal::TooManyVoters { n: voters.len() });
        }
        if let Some(name) = repeated(voters) {
            return Err(PanelRefusal::DuplicateVoter { name });
        }
        let total = total_of(voters);
        // Twice the threshold may pass 64 bits. The rest of the total cannot.
        if threshold > total || total - threshold >= threshold {
            return Err(PanelRefusal::BadThreshold { total, threshold });
        }
        match Vec::from_slice(alloc, voters) {
            Ok(voters) => Ok(Panel {
                voters,
                threshold,
                total,
            }),
            Err(_) => Err(PanelRefusal::Memory),
        }
    }

    /// The voters, in the order in which they were given.
    pub fn voters(&self) -> &[Voter]
        ensures value { result.now ≡ self.now.voters }
        ensures panel { IsPanel self.now.voters self.now.threshold }
        ensures distinct { AllPairs (λ a b. a.name ≢ b.name) self.now.voters }
    {
        &self.voters
    }

    /// The weight that a hash needs.
    pub fn threshold(&self) -> u64
        ensures { result ≡ self.now.threshold }
    {
        self.threshold
    }

    /// The weight of all voters.
    pub fn total(&self) -> u64
        ensures { result ≡ sum_by voter_weight self.now.voters }
    {
        self.total
    }
}

// The first name that an earlier voter has already.
fn repeated(voters: &[Voter]) -> Option<StorageName>
    ensures { result ≡ first_repeated voters.now }
{
    for (i, voter) in voters.iter().enumerate() {
        if is_among(&voters[..i], voter.name) {
            return Some(voter.name);
        }
    }
    None
}

fn is_among(voters: &[Voter], name: StorageName) -> bool
    ensures { result ≡ list_any (same_name name) voters.now }
{
    voters
        .iter()
        .any(|voter| voter.name.as_bytes() == name.as_bytes())
}

fn total_of(voters: &[Voter]) -> u64
    requires { length voters.now ≤ 64 }
    ensures { result ≡ sum_by voter_weight voters.now }
{
    voters.iter().map(|voter| u64::from(voter.weight)).sum()
}
