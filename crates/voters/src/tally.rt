//! Running sums of the weight that stands for each hash.

ghost use Rattle.std.specs.Prelude.{◌≡◌, ◌+◌, ◌<◌, ◌≤◌, ◌^◌, true, nat_lt, map, IfSome, vec_len, vec_capacity};
ghost use Rattle.std.specs.List.{list_all, list_any};
ghost use Rattle.voters.specs.Tallies.{raised, lowered, is_for, tally_of, FitsRaised, CanBeLowered, with_vote, without_vote};

use px_base::Hash;

/// The weight that stands for a hash.
#[derive(Clone, Copy, Debug, PartialEq, Eq)]
pub struct Tally {
    hash: Hash,
    weight: u64,
}

/// Adds a vote, which takes no memory where there is room.
pub fn add_vote(tallies: &mut Vec<Tally>, hash: &Hash, by: u64)
    requires fits { FitsRaised by tallies.old.items }
    requires room { vec_len tallies.old < vec_capacity tallies.old }
    ensures items { tallies.new.items ≡ with_vote hash.now by tallies.old.items }
    ensures capacity { vec_capacity tallies.old ≤ vec_capacity tallies.new }
{
    if has_tally(tallies, hash) {
        raise(tallies, hash, by);
    } else {
        let _ = tallies.push(Tally {
            hash: *hash,
            weight: by,
        });
    }
}

/// Takes a vote away, where there is one.
pub fn take_vote(tallies: &mut Vec<Tally>, vote: Option<Hash>, by: u64)
    requires { IfSome vote (λ hash. CanBeLowered hash by tallies.old.items) }
    ensures items { tallies.new.items ≡ without_vote vote by tallies.old.items }
    ensures capacity { vec_capacity tallies.new ≡ vec_capacity tallies.old }
{
    if let Some(hash) = vote {
        lower(tallies, &hash, by);
    }
}

/// The weight of a hash, or 0 where it has no tally.
pub fn weight_for(tallies: &[Tally], hash: &Hash) -> u64
    ensures { result ≡ tally_of hash.now tallies.now }
{
    for tally in tallies {
        if tally.hash == *hash {
            return tally.weight;
        }
    }
    0
}

/// Whether each tally stays below the threshold even with all that is pending.
pub fn all_fall_short(tallies: &[Tally], pending: u64, threshold: u64) -> bool
    requires { FitsRaised pending tallies.now }
    ensures { result ≡ list_all (λ t. nat_lt (t.weight + pending) threshold) tallies.now }
{
    tallies
        .iter()
        .all(|tally| tally.weight + pending < threshold)
}

fn has_tally(tallies: &[Tally], hash: &Hash) -> bool
    ensures { result ≡ list_any (is_for hash.now) tallies.now }
{
    tallies.iter().any(|tally| tally.hash == *hash)
}

// Adds to the weight of a hash.
fn raise(tallies: &mut [Tally], hash: &Hash, by: u64)
    requires { FitsRaised by tallies.old }
    ensures { tallies.new ≡ map (raised hash.now by) tallies.old }
{
    for tally in tallies.iter_mut() {
        *tally = raise_one(*tally, hash, by);
    }
}

// Takes from the weight of a hash.
fn lower(tallies: &mut [Tally], hash: &Hash, by: u64)
    requires { CanBeLowered hash.now by tallies.old }
    ensures { tallies.new ≡ map (lowered hash.now by) tallies.old }
{
    for tally in tallies.iter_mut() {
        *tally = lower_one(*tally, hash, by);
    }
}

fn raise_one(tally: Tally, hash: &Hash, by: u64) -> Tally
    requires { tally.weight + by < 2 ^ 64 }
    ensures { result ≡ raised hash.now by tally }
{
    if tally.hash == *hash {
        Tally {
            hash: tally.hash,
            weight: tally.weight + by,
        }
    } else {
        tally
    }
}

fn lower_one(tally: Tally, hash: &Hash, by: u64) -> Tally
    requires { is_for hash.now tally ≡ true → by ≤ tally.weight }
    ensures { result ≡ lowered hash.now by tally }
{
    if tally.hash == *hash {
        Tally {
            hash: tally.hash,
            weight: tally.weight - by,
        }
    } else {
        tally
    }
}
