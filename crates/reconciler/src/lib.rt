//! The reconciler: which replication jobs are to be made, and what becomes of one that is taken.
#![tactic(auto)]

mod bookings;
mod known;
mod listed;
mod planning;
mod site;
mod sources;
mod taking;

pub use known::Known;
pub use planning::plan;
pub use sources::{are_assigned_newest, first_source, has_source, source_for};
