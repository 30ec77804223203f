//! The operation that routes a read, and how many reads of each repository were routed.

ghost use Rattle.std.specs.Prelude.{◌≡◌, ◌<◌, length, vec_capacity, None, Some, IfErr, IfOk, OnOk};
ghost use Rattle.px_ops.specs.declared.op.Op.TheVariants as op;
ghost use Rattle.px_cluster.specs.Core.{turn_of};
ghost use Rattle.px_cluster.specs.Ops.{answer_of, next_core, refusal_of, reply_of};
ghost use Rattle.px_cluster.specs.Reads.{reads_of};
ghost use Rattle.px_core.specs.Routing.{underway_in, with_count, with_one_more};

use crate::Core;
use crate::bookings::prepared_outcome;
use crate::names::name_of;
use px_base::RepoId;
use px_ops::{Refusal, Reply};
use router::{PushUnderway, ReadRoute, route_read};
use voters::Outcome;

impl Core {
    /// Routes a read of a repository: those storages get the reads in turn that are up and at the
    /// newest generation. Refused are, in this order, `UnknownRepo`, and `InFlight` or
    /// `NoCurrentReplica`.
    pub(crate) fn route_read(&mut self, repo: RepoId) -> Reply
        ensures reply { result ≡ reply_of self.old (op.RouteRead repo) }
        ensures state { self.new ≡ next_core self.old (op.RouteRead repo) }
    {
        match self.routed(repo) {
            Ok(reply) => {
                count_read(&mut self.reads, repo);
                reply
            }
            Err(refusal) => Reply::Refused(refusal),
        }
    }

    // Where the next read of a repository goes.
    fn routed(&self, repo: RepoId) -> Result<Reply, Refusal>
        ensures accepted { OnOk result (refusal_of self.now (op.RouteRead repo) ≡ None) }
        ensures value { IfOk result (λ reply. reply ≡ answer_of self.now (op.RouteRead repo)) }
        ensures refused { IfErr result (λ why.
            refusal_of self.now (op.RouteRead repo) ≡ Some why) }
    {
        let Some(repository) = self.book.repository(repo) else {
            return Err(Refusal::UnknownRepo);
        };
        let reads = self.reads_of(repo);
        let push = self.underway(repo);
        match route_read(repository, &self.health, reads, push) {
            ReadRoute::Route {
                storage,
                generation,
            } => Ok(Reply::Route {
                storage: name_of(&self.book, storage),
                generation,
            }),
            ReadRoute::InFlight(tx) => Err(Refusal::InFlight(tx)),
            ReadRoute::NoCurrentReplica { newest, current } => {
                Err(Refusal::NoCurrentReplica { newest, current })
            }
        }
    }

    // How many reads of a repository were routed.
    fn reads_of(&self, repo: RepoId) -> u64
        ensures { result ≡ reads_of self.now repo.0 }
    {
        match self.reads.get(repo.0 as usize) {
            Some(count) => *count,
            None => 0,
        }
    }

    // The open push of a repository, as a read asks for it.
    fn underway(&self, repo: RepoId) -> Option<PushUnderway>
        ensures { result ≡ underway_in self.now (turn_of self.now repo.0) }
    {
        let push = self.turns.turn(repo)?;
        let tx = push.tx();
        let decided = match self.votes.get(tx) {
            Some(votes) => matches!(prepared_outcome(votes), Outcome::Commit(_)),
            None => false,
        };
        Some(PushUnderway { tx, decided })
    }
}

/// A new repository has a count from now on, for which there is room. One that has a count keeps
/// it. Takes no memory.
pub(crate) fn add_count(reads: &mut Vec<u64>, repo: RepoId)
    requires { length reads.old.items < vec_capacity reads.old }
    ensures { reads.new.items ≡ with_count repo.0 reads.old.items }
{
    if repo.0 as usize >= reads.len() {
        reads.push_reserved(0);
    }
}

// One more read of a repository was routed.
fn count_read(reads: &mut Vec<u64>, repo: RepoId)
    ensures { reads.new.items ≡ with_one_more repo.0 reads.old.items }
{
    let place = repo.0 as usize;
    if place < reads.len() {
        reads[place] = reads[place].wrapping_add(1);
    }
}
