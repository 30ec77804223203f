//! The nodes of a rehearsal, in memory: one for each storage, by its number.
#![tactic(auto)]

mod fault;
mod nodes;

pub use fault::NodeFault;
pub use nodes::Nodes;
