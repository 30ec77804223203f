//! The marks of a panel, with running sums of what stands for each hash and of what is open.

ghost use Rattle.std.specs.Prelude.{◌≡◌, ◌<◌, ◌^◌, true, false, Some, map, sum_by, length, IfOk, slice_get, slice_set};
ghost use Rattle.voters.specs.Marks.{fresh, voting, canceling, standing_weight, open_share, is_lost, is_open, voter_weight};

use crate::mark::Mark;
use crate::tally::{Tally, add_vote, all_fall_short, take_vote, weight_for};
use px_base::{Hash, Voter};
use std::alloc::{AllocError, Global};
use std::marker::Model;

/// The marks of a panel, with running sums of what stands for each hash and of what is open.
#[derive(Drop)]
pub struct Count {
    marks: Vec<Mark>,
    tallies: Vec<Tally>,
    pending: u64,
}

impl Model for Count {
    ghost use Rattle.std.specs.Prelude.{List};
    ghost use Rattle.voters.specs.declared.mark.Mark.{Mark};

    ghost Value = { List Mark };

    ghost use Rattle.voters.specs.Count.{IsCounted};

    ghost view = { λ c. c.marks.items };

    ghost invariant = { IsCounted };
}

impl Count {
    /// Each voter with no act. Takes the room of all votes.
    pub fn new(alloc: Global, voters: &[Voter]) -> Result<Count, AllocError>
        requires { sum_by voter_weight voters.now < 2 ^ 64 }
        ensures { IfOk result (λ count. count ≡ map fresh voters.now) }
    {
        let pending = weight_of(voters);
        let marks = fresh_marks(alloc, voters)?;
        let tallies = Vec::with_capacity(alloc, voters.len())?;
        Ok(Count {
            marks,
            tallies,
            pending,
        })
    }

    /// A copy, with as much room for votes.
    pub fn copy(&self, alloc: Global) -> Result<Count, AllocError>
        ensures { IfOk result (λ count. count ≡ self.now) }
    {
        let marks = Vec::from_slice(alloc, &self.marks)?;
        let mut tallies = Vec::with_capacity(alloc, self.tallies.capacity())?;
        tallies.extend_from_slice(&self.tallies)?;
        Ok(Count {
            marks,
            tallies,
            pending: self.pending,
        })
    }

    /// How many voters there are.
    pub fn len(&self) -> usize
        ensures { result ≡ length self.now }
    {
        self.marks.len()
    }

    /// The mark of a voter, where there is such a voter.
    pub fn mark(&self, voter: usize) -> Option<Mark>
        ensures { result ≡ slice_get self.now voter }
    {
        self.marks.get(voter).copied()
    }

    /// The mark of a voter of the panel.
    pub fn mark_at(&self, voter: usize) -> Mark
        requires { voter < length self.now }
        ensures { slice_get self.now voter ≡ Some result }
    {
        self.marks[voter]
    }

    /// The weight that stands for a hash.
    pub fn standing(&self, hash: &Hash) -> u64
        ensures { result ≡ standing_weight hash.now self.now }
    {
        weight_for(&self.tallies, hash)
    }

    /// Whether no hash can reach the threshold even with all that is open.
    pub fn is_lost(&self, threshold: u64) -> bool
        ensures { result ≡ is_lost threshold self.now }
    {
        self.pending < threshold && all_fall_short(&self.tallies, self.pending, threshold)
    }

    /// A vote of an open voter, whose mark is given. Takes no memory.
    pub fn vote(&mut self, voter: usize, mark: Mark, hash: &Hash)
        requires there { slice_get self.old voter ≡ Some mark }
        requires is_open { is_open mark ≡ true }
        ensures { self.new ≡ slice_set self.old voter (voting mark hash.now) }
    {
        let weight = u64::from(mark.weight);
        add_vote(&mut self.tallies, hash, weight);
        self.pending -= weight;
        self.marks[voter] = Mark {
            weight: mark.weight,
            vote: Some(*hash),
            canceled: mark.canceled,
        };
    }

    /// A cancel of a voter that is not canceled, whose mark is given. Takes no memory.
    pub fn cancel(&mut self, voter: usize, mark: Mark)
        requires there { slice_get self.old voter ≡ Some mark }
        requires not_canceled { mark.canceled ≡ false }
        ensures { self.new ≡ slice_set self.old voter (canceling mark) }
    {
        take_vote(&mut self.tallies, mark.vote, u64::from(mark.weight));
        self.pending -= open_part(mark);
        self.marks[voter] = Mark {
            weight: mark.weight,
            vote: mark.vote,
            canceled: true,
        };
    }
}

// What all votes weigh.
fn weight_of(voters: &[Voter]) -> u64
    requires { sum_by voter_weight voters.now < 2 ^ 64 }
    ensures { result ≡ sum_by voter_weight voters.now }
{
    let mut weight = 0;
    for voter in voters {
        weight += u64::from(voter.weight);
    }
    weight
}

// A mark with no act for each voter.
fn fresh_marks(alloc: Global, voters: &[Voter]) -> Result<Vec<Mark>, AllocError>
    ensures { IfOk result (λ marks. marks.items ≡ map fresh voters.now) }
{
    let mut marks = Vec::with_capacity(alloc, voters.len())?;
    for voter in voters {
        marks.push_reserved(Mark {
            weight: voter.weight,
            vote: None,
            canceled: false,
        });
    }
    Ok(marks)
}

fn open_part(mark: Mark) -> u64
    ensures { result ≡ open_share mark }
{
    if !mark.canceled && mark.vote.is_none() {
        u64::from(mark.weight)
    } else {
        0
    }
}
