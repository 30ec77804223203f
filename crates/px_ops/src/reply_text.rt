//! The texts of replies.

ghost use Rattle.std.specs.Prelude.{◌≡◌, ◌++◌, OnOk};
ghost use Rattle.px_ops.specs.Texts.{holder_text, reply_text};

use crate::booking_text::{add_begun, add_booking, add_books, add_created, add_names};
use crate::fields::{Added, add, add_name, add_number};
use crate::job_text::{add_planned_jobs, add_stale, add_taken, state_word};
use crate::vote_text::{add_end, add_outcome, add_result};
use crate::{Booking, Refusal, Reply, add_refusal};
use px_base::{Bytes, Gen, StorageName, TxId};
use std::alloc::AllocError;

fn add_refused(text: &mut Bytes, refusal: &Refusal) -> Added
    ensures { OnOk result (text.new ≡ text.old ++ reply_text (Reply.Refused refusal.now)) }
{
    add(text, b"refused ")?;
    add_refusal(text, refusal)
}

fn add_route(text: &mut Bytes, storage: &StorageName, generation: Gen) -> Added
    ensures { OnOk result (text.new ≡ text.old ++ reply_text (Reply.Route storage.now generation)) }
{
    add_name(text, b"route ", storage.as_bytes())?;
    add_number(text, b" gen ", generation.0)
}

fn add_assigned(text: &mut Bytes, names: &[StorageName]) -> Added
    ensures { OnOk result (text.new ≡ text.old ++ reply_text (Reply.Assigned names.now)) }
{
    add(text, b"assigned ")?;
    add_names(text, names)
}

fn add_booked(text: &mut Bytes, booking: &Booking) -> Added
    ensures { OnOk result (text.new ≡ text.old ++ reply_text (Reply.BookedIs booking.now)) }
{
    add(text, b"booked ")?;
    add_booking(text, booking)
}

fn add_holder(text: &mut Bytes, holder: Option<TxId>) -> Added
    ensures { OnOk result (text.new ≡ text.old ++ holder_text holder) }
{
    match holder {
        Some(tx) => add_number(text, b"holder ", tx.0),
        None => add(text, b"holder -"),
    }
}

/// Adds the text of a reply: one line, without a line feed.
pub fn add_reply(text: &mut Bytes, reply: &Reply) -> Result<(), AllocError>
    ensures { OnOk result (text.new ≡ text.old ++ reply_text reply.now) }
{
    match reply {
        Reply::Refused(refusal) => add_refused(text, refusal),
        Reply::Done => add(text, b"ok"),
        Reply::Storage(storage) => add_number(text, b"storage ", u64::from(storage.0)),
        Reply::Opened(tx) => add_number(text, b"tx ", tx.0),
        Reply::Counted { result, .. } => add_result(text, result),
        Reply::OutcomeIs(outcome) => add_outcome(text, outcome),
        Reply::Created {
            repo,
            lease,
            assigned,
        } => add_created(text, *repo, *lease, assigned.as_slice()),
        Reply::Begun(begun) => add_begun(text, begun),
        Reply::Finished(end) => add_end(text, end),
        Reply::Taken(job) => add_taken(text, job),
        Reply::Dropped(job) => add_number(text, b"dropped ", job.0),
        Reply::NoJob => add(text, b"nojob"),
        Reply::JobIs(state) => add(text, state_word(*state)),
        Reply::StaleIs(jobs) => add_stale(text, jobs.as_slice()),
        Reply::JobsAre(jobs) => add_planned_jobs(text, jobs.as_slice()),
        Reply::Route {
            storage,
            generation,
        } => add_route(text, storage, *generation),
        Reply::Assigned(names) => add_assigned(text, names.as_slice()),
        Reply::Leased(lease) => add_number(text, b"lease ", lease.number()),
        Reply::Accepted(generation) => add_number(text, b"gen ", generation.0),
        Reply::BookedIs(booking) => add_booked(text, booking),
        Reply::Books { newest, rows } => add_books(text, *newest, rows.as_slice()),
        Reply::Repo(repo) => add_number(text, b"repo ", u64::from(repo.0)),
        Reply::HolderIs(holder) => add_holder(text, *holder),
    }
}
