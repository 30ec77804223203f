//! The way of a read: the storage that answers it.

ghost use Rattle.std.specs.Prelude.{◌≡◌, length};
ghost use Rattle.px_cluster.specs.Core.{is_current};
ghost use Rattle.px_cluster.specs.Ids.{storage_number};
ghost use Rattle.px_cluster.specs.Reads.{current};
ghost use Rattle.genbook.specs.Health.{core_with_health};
ghost use Rattle.router.specs.Factors.{nth_where};
ghost use Rattle.router.specs.Reads.{no_route, read_route};
ghost use Rattle.router.specs.Routes.{AreFew};

use crate::hosts::{count_newest, is_current};
use genbook::{Health, Repository};
use px_base::{Gen, StorageId, TxId};

/// The open push of a repository, as far as a read asks for it.
#[derive(Clone, Copy, Debug, PartialEq, Eq)]
pub struct PushUnderway {
    /// Its transaction.
    pub tx: TxId,
    /// Whether the votes on what is prepared commit.
    pub decided: bool,
}

/// Where a read of a repository goes, or why it goes nowhere.
#[derive(Clone, Copy, Debug, PartialEq, Eq)]
pub enum ReadRoute {
    /// It goes to a storage: one that is up and at the newest generation.
    Route {
        /// The storage.
        storage: StorageId,
        /// The newest generation.
        generation: Gen,
    },
    /// There is no such storage. The open push has this transaction and is decided, and no storage
    /// at all, up or not, is at the newest generation, which is that of the push.
    InFlight(TxId),
    /// There is no such storage, and no open push explains it so.
    NoCurrentReplica {
        /// The newest generation.
        newest: Gen,
        /// How many storages are at it, up or not.
        current: u32,
    },
}

/// The way of the next read of a repository, by what the book has of it, which storages are up, how
/// many reads of it were routed, and its open push, if there is one. Current are the storages that
/// are up and at the newest generation, assigned or not. Reads go to them in turn, by number. Takes
/// no memory.
pub fn route_read(
    repository: &Repository,
    health: &Health,
    reads: u64,
    push: Option<PushUnderway>,
) -> ReadRoute
    requires { AreFew repository.now }
    ensures { result ≡ read_route (core_with_health health.now) repository.now reads push }
{
    let current = count_current(repository, health) as u64;
    if current == 0 {
        return no_route(repository, push);
    }
    let Some(storage) = nth_current(repository, health, (reads % current) as usize) else {
        unreachable!();
    };
    ReadRoute::Route {
        storage,
        generation: repository.newest(),
    }
}

// Why a read goes nowhere, where no storage is current.
fn no_route(repository: &Repository, push: Option<PushUnderway>) -> ReadRoute
    requires { AreFew repository.now }
    ensures { result ≡ no_route repository.now push }
{
    let newest = repository.newest();
    let current = count_newest(repository);
    match push {
        Some(push) if push.decided && current == 0 => ReadRoute::InFlight(push.tx),
        _ => ReadRoute::NoCurrentReplica { newest, current },
    }
}

fn count_current(repository: &Repository, health: &Health) -> usize
    ensures { result ≡ length (current (core_with_health health.now) repository.now) }
{
    repository
        .replicas()
        .iter()
        .filter(|replica| is_current(repository, health, replica))
        .count()
}

fn nth_current(repository: &Repository, health: &Health, place: usize) -> Option<StorageId>
    ensures { storage_number result
        ≡ nth_where (is_current (core_with_health health.now) repository.now) repository.now
        place }
{
    repository
        .replicas()
        .iter()
        .filter(|replica| is_current(repository, health, replica))
        .nth(place)
        .map(|replica| replica.storage)
}
