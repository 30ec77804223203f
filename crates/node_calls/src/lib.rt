//! The calls of a storage node: what each of them does and refuses, what stays true of a node over
//! every list of them, and a node that faults at chosen ones.
#![tactic(auto)]

mod faulty;
mod laws;
mod node;
mod snapshot;

pub use faulty::{FaultyNode, PlannedFault, When};
pub use laws::{
    fences_never_fall, what_is_below_the_fence_changes_nothing, what_is_held_is_closed,
};
pub use node::{Node, NodeError};
pub use px_ops::NodeRefusal;
pub use snapshot::Snapshot;
