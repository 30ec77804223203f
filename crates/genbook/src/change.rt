//! What becomes of a replica on the book.

use px_base::{Gen, Lease};
use px_ops::Booking;

/// What becomes of one replica on the book.
#[derive(Clone, Copy, Debug, PartialEq, Eq)]
pub enum Change {
    /// The lease was drawn for it.
    Draw(Lease),
    /// It is told to commit a push, so that it is in doubt from now on.
    Tell {
        /// The lease of the push.
        lease: Lease,
        /// The generation that the push makes.
        due: Gen,
    },
    /// It committed what it was told to commit under the lease, where it was.
    Confirm(Lease),
    /// It was made, and holds generation 0 where nothing was known of it.
    Enrol,
    /// It is booked so.
    Book(Booking),
    /// A doubt ends by the last lease that its node committed under, if there is one.
    Settle(Option<Lease>),
}
