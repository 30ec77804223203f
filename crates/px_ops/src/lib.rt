//! What is asked of the cluster and what it answers, as plain values, and the texts of the answers.
#![tactic(auto)]

mod booking;
mod booking_text;
mod fields;
mod job;
mod job_text;
mod node_refusal;
mod op;
mod push;
mod refusal;
mod refusal_text;
mod reply;
mod reply_text;
mod vote_text;

pub use booking::{BookRow, BookRows, Booking, Names};
pub use job::{Job, JobIds, JobKind, JobState, PlannedJob, PlannedJobs, TakenJob};
pub use node_refusal::NodeRefusal;
pub use op::Op;
pub use push::{Begun, PushEnd};
pub use refusal::Refusal;
pub use refusal_text::{add_node_refusal, add_refusal};
pub use reply::Reply;
pub use reply_text::add_reply;
