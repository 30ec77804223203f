//! The proof, carried to a node, that a quorum voted for one hash.

ghost use Rattle.std.specs.Prelude.{◌≡◌, ◌↔◌, IsSome, IfSome};
ghost use Rattle.voters.specs.Verdict.{IsQuorum, standing_with};

use px_base::Hash;
use std::marker::Model;

/// A hash and the weight that stands for it in a panel. The threshold is above half of the total
/// weight, so standing votes never reach it for two hashes at once.
#[derive(Clone, Copy, Debug, PartialEq, Eq)]
pub struct Verdict {
    hash: Hash,
    reached: u64,
    threshold: u64,
    total: u64,
}

impl Model for Verdict {
    ghost use Rattle.voters.specs.Verdict.{IsQuorum, Standing, standing_with};

    ghost Value = { Standing };

    ghost view = { λ v. standing_with v.hash v.reached v.threshold v.total };

    ghost invariant = { λ v. IsQuorum v.reached v.threshold v.total };

    ghost inverse = { λ s. record {
      hash = s.hash;
      reached = s.reached;
      threshold = s.threshold;
      total = s.total;
    } };
}

impl Verdict {
    pub(crate) fn new(hash: Hash, reached: u64, threshold: u64, total: u64) -> Verdict
        requires { IsQuorum reached threshold total }
        ensures { result ≡ standing_with hash reached threshold total }
    {
        Verdict {
            hash,
            reached,
            threshold,
            total,
        }
    }

    /// The verdict with these weights, or `None` where they are no quorum.
    pub fn of(hash: Hash, reached: u64, threshold: u64, total: u64) -> Option<Verdict>
        ensures valid { IsSome result ↔ IsQuorum reached threshold total }
        ensures value { IfSome result
            (λ verdict. verdict ≡ standing_with hash reached threshold total) }
    {
        // Twice the threshold may pass 64 bits. The rest of the total cannot.
        if threshold > reached || reached > total || total - threshold >= threshold {
            return None;
        }
        Some(Verdict {
            hash,
            reached,
            threshold,
            total,
        })
    }

    /// The hash that the quorum voted for.
    pub fn hash(&self) -> Hash
        ensures { result ≡ self.now.hash }
    {
        self.hash
    }

    /// The weight that stands for the hash.
    pub fn reached(&self) -> u64
        ensures value { result ≡ self.now.reached }
        ensures quorum { IsQuorum self.now.reached self.now.threshold self.now.total }
    {
        self.reached
    }

    /// The weight that a hash needs.
    pub fn threshold(&self) -> u64
        ensures { result ≡ self.now.threshold }
    {
        self.threshold
    }

    /// The weight of the whole panel.
    pub fn total(&self) -> u64
        ensures { result ≡ self.now.total }
    {
        self.total
    }
}
