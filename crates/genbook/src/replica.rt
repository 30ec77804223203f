//! What the book has of a repository on one storage.

ghost use Rattle.std.specs.Prelude.{◌≡◌};
ghost use Rattle.px_cluster.specs.Book.{booked, drawn_for, generation, in_doubt};
ghost use Rattle.px_cluster.specs.Casts.{confirmed_as};
ghost use Rattle.px_cluster.specs.Creating.{enrolled, unrecorded};
ghost use Rattle.px_cluster.specs.Repairs.{is_lease, settled_as};
ghost use Rattle.genbook.specs.Changes.{changed_by, with_assigned};

use crate::Change;
use px_base::{Gen, Lease, StorageId};
use px_ops::Booking;
use std::marker::Model;

/// What the book has of the replica of a repository on one storage.
#[derive(Clone, Copy, Debug, PartialEq, Eq)]
pub struct Replica {
    /// The storage.
    pub storage: StorageId,
    /// Whether the repository is to have a replica there.
    pub assigned: bool,
    /// The last lease that was drawn for it, 0 at first.
    pub kept: Lease,
    /// What is booked of it.
    pub booking: Booking,
}

impl Model for Replica {
    ghost use Rattle.px_cluster.specs.Book.{Replica as Recorded};
    ghost use Rattle.px_cluster.specs.Ids.{storage_id};

    ghost Value = { Recorded };

    ghost view = { λ r. record {
      storage = r.storage.0;
      assigned = r.assigned;
      kept = r.kept;
      booking = r.booking;
    } };

    ghost inverse = { λ r. record {
      storage = storage_id r.storage;
      assigned = r.assigned;
      kept = r.kept;
      booking = r.booking;
    } };
}

impl Replica {
    /// The replica on a new storage, of which nothing is recorded.
    pub fn unrecorded(storage: StorageId, no_lease: Lease) -> Replica
        requires { no_lease ≡ 0 }
        ensures { result ≡ unrecorded storage.0 }
    {
        Replica {
            storage,
            assigned: false,
            kept: no_lease,
            booking: Booking::Absent,
        }
    }

    /// The replica after a change.
    pub fn changed(self, change: &Change) -> Replica
        ensures { result ≡ changed_by change.now self }
    {
        match *change {
            Change::Draw(lease) => self.with_lease(lease),
            Change::Tell { lease, due } => self.told(lease, due),
            Change::Confirm(lease) => self.with_booking(confirmed(self.booking, lease)),
            Change::Enrol => self.enrolled(),
            Change::Book(booking) => self.with_booking(booking),
            Change::Settle(last) => self.with_booking(settled(self.booking, last)),
        }
    }

    /// The same, assigned or not.
    pub fn with_assigned(self, assigned: bool) -> Replica
        ensures { result ≡ with_assigned assigned self }
    {
        Replica {
            storage: self.storage,
            assigned,
            kept: self.kept,
            booking: self.booking,
        }
    }

    fn with_lease(self, lease: Lease) -> Replica
        ensures { result ≡ drawn_for lease self }
    {
        Replica {
            storage: self.storage,
            assigned: self.assigned,
            kept: lease,
            booking: self.booking,
        }
    }

    fn with_booking(self, booking: Booking) -> Replica
        ensures { result ≡ booked booking self }
    {
        Replica {
            storage: self.storage,
            assigned: self.assigned,
            kept: self.kept,
            booking,
        }
    }

    fn told(self, lease: Lease, due: Gen) -> Replica
        ensures { result ≡ in_doubt lease due.0 self }
    {
        let was = held(self.booking);
        self.with_booking(Booking::Doubt { lease, was, due })
    }

    fn enrolled(self) -> Replica
        ensures { result ≡ enrolled self }
    {
        match self.booking {
            Booking::Absent => self.with_booking(Booking::At(Gen(0))),
            Booking::At(_) | Booking::Doubt { .. } => self,
        }
    }
}

// The generation that the replica holds at least.
fn held(booking: Booking) -> Gen
    ensures { result.0 ≡ generation booking }
{
    match booking {
        Booking::Absent => Gen(0),
        Booking::At(held) => held,
        Booking::Doubt { was, .. } => was,
    }
}

fn confirmed(booking: Booking, lease: Lease) -> Booking
    ensures { result ≡ confirmed_as lease booking }
{
    match booking {
        Booking::Doubt {
            lease: under,
            due,
            ..
        } => {
            if under == lease {
                Booking::At(due)
            } else {
                booking
            }
        }
        other => other,
    }
}

fn settled(booking: Booking, last: Option<Lease>) -> Booking
    ensures { result ≡ settled_as last booking }
{
    match booking {
        Booking::Doubt { lease, was, due } => Booking::At(if is_lease(lease, last) {
            due
        } else {
            was
        }),
        other => other,
    }
}

fn is_lease(lease: Lease, last: Option<Lease>) -> bool
    ensures { result ≡ is_lease lease last }
{
    match last {
        Some(last) => last == lease,
        None => false,
    }
}
