//! The queue of replication jobs: which storages wait for what, who is at work, and what is left.
#![tactic(auto)]

mod changes;
mod edits;
mod facts;
mod lines;
mod mark;
mod marks;
mod of_pair;
mod queue;
mod rows;
mod search;
mod stale;

pub use facts::{Facts, Next, Taking};
pub use queue::Queue;
