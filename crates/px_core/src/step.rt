//! The step of the core.

ghost use Rattle.std.specs.Prelude.{◌≡◌, IfOk, IsOk, OnErr, OnOk};
ghost use Rattle.px_cluster.specs.Core.{Core as Known};
ghost use Rattle.px_cluster.specs.Ops.{next_core, reply_of};
ghost use Rattle.px_ops.specs.declared.op.Op.{Op};
ghost use Rattle.px_core.specs.Served.{IsOnBook, TakesNone};
ghost use Rattle.px_core.specs.Steps.{Steps};

use crate::Core;
use crate::fault::Fault;
use px_ops::{Op, Reply};
use std::alloc::{AllocError, Global};

impl Core {
    /// Does one operation: it is refused, and nothing changes, or it is done as a whole. Where
    /// memory wants, nothing changes either; all memory that an operation takes is taken before it
    /// changes anything.
    pub fn step(&mut self, alloc: Global, op: &Op) -> Result<Reply, AllocError>
        ensures reply { IfOk result (λ reply. reply ≡ reply_of self.old op.now) }
        ensures state { OnOk result (self.new ≡ next_core self.old op.now) }
        ensures err { OnErr result (self.new ≡ self.old) }
        ensures sure { TakesNone op.now → IsOk result }
    {
        match op {
            Op::Open {
                threshold,
                rounds,
                voters,
            } => self.open(alloc, *threshold, *rounds, voters.as_slice()),
            Op::Cast {
                tx,
                voter,
                phase,
                hash,
            } => told(self.cast(alloc, *tx, voter, *phase, hash)),
            Op::Withdraw { tx, voter } => Ok(self.withdraw(*tx, voter)),
            Op::Cancel { tx } => Ok(self.cancel(*tx)),
            Op::Stop { tx } => Ok(self.stop(*tx)),
            Op::Collect { tx, voter, sub } => Ok(self.collect(*tx, voter, *sub)),
            Op::Outcome { tx, sub } => Ok(self.outcome(*tx, *sub)),
            Op::Close { tx } => Ok(self.close(*tx)),
            Op::Begin { repo } => told(self.begin(alloc, *repo)),
            Op::Finish { tx } => Ok(self.finish(*tx)),
            Op::Holder { repo } => Ok(self.holder(*repo)),
            Op::RouteRead { repo } => Ok(self.route_read(*repo)),
            _ => self.step_on_book(alloc, op),
        }
    }

    // Does one operation on the book or on jobs.
    fn step_on_book(&mut self, alloc: Global, op: &Op) -> Result<Reply, AllocError>
        requires { IsOnBook op.now }
        ensures reply { IfOk result (λ reply. reply ≡ reply_of self.old op.now) }
        ensures state { OnOk result (self.new ≡ next_core self.old op.now) }
        ensures err { OnErr result (self.new ≡ self.old) }
        ensures sure { TakesNone op.now → IsOk result }
    {
        match op {
            Op::Admit { virt, name } => told(self.admit(alloc, virt, name)),
            Op::Health { storage, up } => Ok(self.set_health(*storage, *up)),
            Op::Create { virt, path, factor } => told(self.create(alloc, virt, path, *factor)),
            Op::Enrol {
                repo,
                storage,
                lease,
            } => Ok(self.enrol(*repo, *storage, *lease)),
            Op::Dequeue { target, now } => told(self.dequeue(*target, *now)),
            Op::Beat { job, lease, now } => Ok(self.beat(*job, *lease, *now)),
            Op::Ack { job, lease, good } => Ok(self.ack(*job, *lease, *good)),
            Op::Stale { now, after } => self.stale(alloc, *now, *after),
            Op::Reconcile { only } => self.reconcile(alloc, *only),
            Op::SetFactor { repo, factor } => told(self.set_factor(alloc, *repo, *factor)),
            Op::AcceptBegin { repo, storage } => Ok(self.draw_to_accept(*repo, *storage)),
            Op::Accept {
                repo,
                storage,
                lease,
            } => Ok(self.accept(*repo, *storage, *lease)),
            Op::SettleBegin { repo, storage } => Ok(self.draw_to_settle(*repo, *storage)),
            Op::Settle {
                repo,
                storage,
                lease,
                last,
            } => Ok(self.settle(*repo, *storage, *lease, *last)),
            Op::Booked { repo } => self.booked(alloc, *repo),
            Op::Find { virt, path } => Ok(self.find(virt, path)),
            _ => unreachable!(),
        }
    }
}

// A refusal is a reply.
fn told(done: Result<Reply, Fault>) -> Result<Reply, AllocError>
    ensures reply { (old new : Known) (asked : Op) → Steps old asked done new
        → IfOk result (λ reply. reply ≡ reply_of old asked) }
    ensures state { (old new : Known) (asked : Op) → Steps old asked done new
        → OnOk result (new ≡ next_core old asked) }
    ensures err { (old new : Known) (asked : Op) → Steps old asked done new
        → OnErr result (new ≡ old) }
{
    match done {
        Ok(reply) => Ok(reply),
        Err(Fault::Refused(refusal)) => Ok(Reply::Refused(refusal)),
        Err(Fault::Memory) => Err(AllocError),
    }
}
