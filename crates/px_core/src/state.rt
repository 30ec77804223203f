//! The core.

ghost use Rattle.std.specs.Prelude.{◌≡◌};
ghost use Rattle.px_cluster.specs.Core.{empty};

use genbook::{Book, Health};
use replqueue::Queue;
use std::alloc::Global;
use std::marker::Model;
use turns::Turns;
use txmanager::Manager;

/// The core of the router: storages and repositories with what is booked, which storages are up,
/// the transactions, the pushes that have a turn, how many reads were routed, and the queue of
/// replication jobs.
#[derive(Drop)]
pub struct Core {
    pub(crate) book: Book,
    pub(crate) health: Health,
    pub(crate) votes: Manager,
    pub(crate) last: u64,
    pub(crate) turns: Turns,
    // Of each repository, how many reads of it were routed.
    pub(crate) reads: Vec<u64>,
    pub(crate) queue: Queue,
}

impl Model for Core {
    ghost use Rattle.px_cluster.specs.Core.{Core as Known};
    ghost use Rattle.px_core.specs.Parts.{core_with};
    ghost use Rattle.px_core.specs.Sound.{IsSound};

    ghost Value = { Known };

    ghost view = { λ c. core_with c.book c.health.up c.votes c.last c.turns c.reads.items
        c.queue };

    ghost invariant = { λ c. IsSound (core_with c.book c.health.up c.votes c.last c.turns
        c.reads.items c.queue) };
}

impl Core {
    /// The core without storages.
    pub fn new(alloc: Global) -> Core
        ensures { result ≡ empty }
    {
        Core {
            book: Book::new(alloc),
            health: Health::new(alloc),
            votes: Manager::new(alloc),
            last: 0,
            turns: Turns::new(alloc),
            reads: Vec::new(alloc),
            queue: Queue::new(alloc),
        }
    }
}
