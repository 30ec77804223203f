//! Storage nodes: what holds replicas of repositories, and changes them under leases and fences.
#![tactic(auto)]

mod opening;
mod replicas;
mod row_keys;
mod shelf;

pub use node_calls::{
    FaultyNode, Node, NodeError, NodeRefusal, PlannedFault, Snapshot, When, fences_never_fall,
    what_is_below_the_fence_changes_nothing, what_is_held_is_closed,
};
pub use px_keeper::OpenFault;
pub use shelf::Shelf;
